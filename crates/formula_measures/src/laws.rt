//! A law of the measures, the contract of a function that does nothing.

ghost use Rattle.std.specs.Prelude.{◌↔◌, ◌≤◌, ℕ};
ghost use Rattle.step_meaning.specs.Syntax.{Statements};
ghost use Rattle.ctl_formula.specs.Formulas.{Ctl};
ghost use Rattle.formula_measures.specs.Measures.{AreSizesWithin, greatest_part};

/// No size of a part is above a number exactly where the greatest isn't.
pub fn sizes_are_within_the_greatest()
    ensures { (most : ℕ) (body : Statements) (f : Ctl) → (greatest_part body f ≤ most) ↔ AreSizesWithin most body f }
{}
