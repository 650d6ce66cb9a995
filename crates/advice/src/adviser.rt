//! The trait of advisers.

use crate::fact::{Hint, LoopFact};

/// Who is shown facts in turns, and may answer a hint in each. Nothing is assumed of a hint.
pub trait Adviser: Drop {
    ghost use Rattle.std.specs.Prelude.{◌≡◌, ℕ, ◌+◌, ◌-◌, ◌<◌, ◌^◌};

    /// How often it was asked.
    ghost asked_of: { Self → ℕ };

    /// Takes notice of a fact of the turn.
    fn observe(&mut self, turn: u32, fact: &LoopFact)
        ensures asked { asked_of self.new ≡ asked_of self.old };

    /// A hint for the turn, if it has one. Each call counts.
    fn hint(&mut self, turn: u32) -> Option<Hint>
        requires { asked_of self.old < 2 ^ 64 - 1 }
        ensures asked { asked_of self.new ≡ asked_of self.old + 1 };

    /// How often `hint` was called.
    fn asked(&self) -> u64
        ensures asked { result ≡ asked_of self.now };
}
