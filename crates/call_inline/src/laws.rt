//! Laws of inlining, each the contract of a function that does nothing.

ghost use Rattle.std.specs.Prelude.{◌↔◌, ℕ};
ghost use Rattle.linear_cons.specs.Functions.{IsOver};
ghost use Rattle.step_meaning.specs.Outcome.{Store};
ghost use Rattle.step_meaning.specs.Run.{EndsWithin, Longest, start};
ghost use Rattle.step_meaning.specs.Systems as systems;
ghost use Rattle.ctl_formula.specs.Formulas.{Ctl};
ghost use Rattle.ctl_formula.specs.Rows.{EachRow};
ghost use Rattle.ctl_formula.specs.Satisfaction.{Sat, Within};
ghost use Rattle.ctl_formula.specs.Systems as formulas;
ghost use Rattle.call_meaning.specs.Units.{Table};
ghost use Rattle.call_inline.specs.Inlined.{inlined_body};
ghost use Rattle.call_meaning.specs.Frames as frames;
ghost use Rattle.call_meaning.specs.Reads.{IsTidy};
ghost use Rattle.call_meaning.specs.Runs.{framed};
ghost use Rattle.call_inline.specs.Starts.{AreStores};
ghost use Rattle.call_meaning.specs.Validity.{AreRoutines};

/// A law: the runs of a program with frames for its calls and those of the program that has the bodies in place of the calls are in step, from each input of
/// `main`'s variables, whatever else the stores hold. They end within the same numbers of steps, the longest have the same lengths, and formulas over
/// `main`'s variables hold alike, within the same numbers of steps.
pub fn framed_runs_are_runs_of_the_inlined_program()
    ensures ends { (table : Table) (main : ℕ) (mine input fresh : Store) → AreRoutines table main → IsTidy table main → AreStores (table main).vars mine input fresh
        → (n : ℕ) → systems.EndsWithin (framed table fresh) n (frames.start table main mine) ↔ EndsWithin n (start (inlined_body table main) input) }
    ensures longest { (table : Table) (main : ℕ) (mine input fresh : Store) → AreRoutines table main → IsTidy table main → AreStores (table main).vars mine input fresh
        → (n : ℕ) → systems.Longest (framed table fresh) n (frames.start table main mine) ↔ Longest n (start (inlined_body table main) input) }
    ensures satisfied { (table : Table) (main : ℕ) (mine input fresh : Store) → AreRoutines table main → IsTidy table main → AreStores (table main).vars mine input fresh
        → (f : Ctl) → EachRow (λ a. IsOver (table main).vars a) f
        → formulas.Sat (framed table fresh) f (frames.start table main mine) ↔ Sat f (start (inlined_body table main) input) }
    ensures within { (table : Table) (main : ℕ) (mine input fresh : Store) → AreRoutines table main → IsTidy table main → AreStores (table main).vars mine input fresh
        → (n : ℕ) (f : Ctl) → EachRow (λ a. IsOver (table main).vars a) f
        → formulas.Within (framed table fresh) n f (frames.start table main mine) ↔ Within n f (start (inlined_body table main) input) }
{}
