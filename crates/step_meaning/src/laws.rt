//! Laws of the definitions, each the contract of a function that does nothing.

ghost use Rattle.std.specs.Prelude.{◌≡◌, ◌⊎◌, ◌↔◌, ℕ, length};
ghost use Rattle.step_meaning.specs.Syntax.{statements};
ghost use Rattle.step_meaning.specs.Outcome.{Store};
ghost use Rattle.step_meaning.specs.Step.{Configuration, Step, IsFinal, front};
ghost use Rattle.step_meaning.specs.Run.{EndsWithin, IsInput, start};
ghost use Rattle.step_meaning.specs.Valid.{AreStatements};
ghost use Rattle.step_meaning.specs.Inside.{AreInside};

use crate::program::Program;

/// A law: no configuration of valid statements is stuck. It is final or has a successor.
pub fn no_configuration_is_stuck()
    ensures { (vars : ℕ) (c : Configuration) → AreStatements vars c.todo → IsFinal c ⊎ ((d : Configuration) × Step c d) }
{}

/// A law: each step keeps the statements valid, and the store with sixteen places and zeros past the variables.
pub fn steps_keep_configurations_valid()
    ensures statements { (vars : ℕ) (c d : Configuration) → AreStatements vars c.todo → Step c d → AreStatements vars d.todo }
    ensures stores { (vars : ℕ) (c d : Configuration) → AreStatements vars c.todo → IsInput vars c.store → Step c d → IsInput vars d.store }
{}

/// A law: the front of what is left to do and the store decide. Configurations that agree in both have the same successors, are final
/// alike, and end within the same numbers of steps.
pub fn front_and_store_decide()
    ensures steps { (c d : Configuration) → front c.todo ≡ front d.todo → c.store ≡ d.store → (e : Configuration) → Step c e ↔ Step d e }
    ensures ends { (c d : Configuration) → front c.todo ≡ front d.todo → c.store ≡ d.store → IsFinal c ↔ IsFinal d }
    ensures within { (c d : Configuration) → front c.todo ≡ front d.todo → c.store ≡ d.store → (n : ℕ) → EndsWithin n c → EndsWithin n d }
{}

/// A law: the runs of a program begin at valid statements. So no run of a program is stuck.
pub fn runs_begin_at_valid_statements(program: &Program)
    ensures { (input : Store) → AreStatements (length program.now.names) (start (statements program.now.body) input).todo }
{
    let _ = &program.body;
}

/// A law: on the way of a program's runs the mark of its loop stands behind each `break` and `continue` that is still to do.
pub fn jumps_have_their_marks(program: &Program)
    ensures begin { (input : Store) → AreInside (start (statements program.now.body) input).todo }
    ensures stay { (c d : Configuration) → AreInside c.todo → Step c d → AreInside d.todo }
{
    let _ = &program.body;
}
