//! Laws of satisfaction, each the contract of a function that does nothing.

ghost use Rattle.std.specs.Prelude.{◌↔◌, ℤ};
ghost use Rattle.step_meaning.specs.Step.{Configuration};
ghost use Rattle.step_meaning.specs.Run.{EndsWithinBound};
ghost use Rattle.ctl_formula.specs.Formulas.{Ctl, af_exit, normal};
ghost use Rattle.ctl_formula.specs.Satisfaction.{Sat, SatWithin};

/// A law: each configuration satisfies a formula's normal form exactly where it satisfies the formula.
pub fn normal_forms_mean_the_same()
    ensures { (f : Ctl) (c : Configuration) → Sat (normal f) c ↔ Sat f c }
{}

/// A law: a configuration satisfies `AF exit` within so many steps exactly where every run from it ends within so many.
pub fn af_exit_is_that_runs_end()
    ensures { (n : ℤ) (c : Configuration) → SatWithin n af_exit c ↔ EndsWithinBound n c }
{}
