//! Laws of the definitions, each the contract of a function that does nothing.
ghost use Rattle.std.specs.Prelude.{◌↔◌, ◌≤◌, ℕ, ℤ, Bool};
ghost use Rattle.step_meaning.specs.Outcome.{Store};
ghost use Rattle.step_meaning.specs.Run.{Reaches, start};
ghost use Rattle.step_meaning.specs.Step.{Configuration, Step};
ghost use Rattle.step_meaning.specs.Syntax.{Expression, Statements};
ghost use Rattle.int_fit.specs.Fitting.{Fits};
ghost use Rattle.int_fit.specs.Guarding.{guarded};
ghost use Rattle.int_fit.specs.Narrowing.{narrowed_number, narrowed_test};
ghost use Rattle.int_fit.specs.Wrapping.{MayInt, MayTestInt, StepInt, ReachesInt};

/// A law: where the runs from a configuration fit, each configuration on them has the same successors in whole numbers and in numbers of 32
/// bits, and the runs in 32 bits are these runs.
pub fn fitting_runs_are_the_same()
    ensures steps { (c d : Configuration) → Fits c → Reaches c d → (e : Configuration) → Step d e ↔ StepInt d e }
    ensures runs { (c d : Configuration) → Fits c → Reaches c d ↔ ReachesInt c d }
{}

/// A law: a `?` that is a number gives in 32 bits just what the range of 32 bits gives.
pub fn narrowing_keeps_what_wraps()
    ensures numbers { (e : Expression) (s : Store) (v : ℤ) → MayInt e s v ↔ MayInt (narrowed_number e) s v }
    ensures tests { (c : Expression) (s : Store) (t : Bool) → MayTestInt c s t ↔ MayTestInt (narrowed_test c) s t }
{}

/// A law: where the runs of a guarded program from an input fit, those of the program do. It has at most 16 variables, each of them a number of 32
/// bits then, so that the guard is passed.
pub fn what_fits_behind_the_guard_fits()
    ensures { (vars : ℕ) (body : Statements) (input : Store) → vars ≤ 16 → Fits (start (guarded vars body) input) → Fits (start body input) }
{}
