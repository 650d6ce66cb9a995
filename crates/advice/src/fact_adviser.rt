//! The adviser on facts of one kind.

use crate::adviser::Adviser;
use crate::fact::{FactKind, Hint, LoopFact};
use crate::memory::{Noted, hint, note};

/// Hints that the last fact of its kind that it observed in the turn bounds its loop: where the measure is at least 0 and the rows of the fact
/// are met, by one turn more than the measure's value. It hints nothing where there is no such fact, or where that number has a number outside
/// 128 bits.
#[derive(Drop, Debug)]
pub struct FactAdviser {
    /// The kind of the facts that it keeps.
    pub kind: FactKind,
    /// How often it was asked.
    pub asked: u64,
    /// The last fact of its kind.
    pub last: Option<Noted>,
}

impl FactAdviser {
    ghost use Rattle.std.specs.Prelude.{◌≡◌, None};

    /// An adviser on facts of the kind that was shown and asked nothing.
    pub fn on(kind: FactKind) -> FactAdviser
        ensures kind { result.kind ≡ kind }
        ensures asked { result.asked ≡ 0 }
        ensures last { result.last ≡ None }
    {
        FactAdviser {
            kind,
            asked: 0,
            last: None,
        }
    }
}

impl Adviser for FactAdviser {
    ghost use Rattle.std.specs.Prelude.{◌≡◌, ◌+◌, ◌-◌, ◌<◌, ◌^◌};
    ghost use Rattle.advice.specs.Hints.{IsHintOf, noted, of_turn};

    ghost asked_of = { λ it. it.asked };

    fn observe(&mut self, turn: u32, fact: &LoopFact)
        ensures kind { self.new.kind ≡ self.old.kind }
        ensures asked { self.new.asked ≡ self.old.asked }
        ensures last { self.new.last ≡ noted self.old.kind turn fact.now self.old.last }
    {
        note(&mut self.last, self.kind, turn, fact);
    }

    fn hint(&mut self, turn: u32) -> Option<Hint>
        requires { self.old.asked < 2 ^ 64 - 1 }
        ensures kind { self.new.kind ≡ self.old.kind }
        ensures asked { self.new.asked ≡ self.old.asked + 1 }
        ensures last { self.new.last ≡ self.old.last }
        ensures answer { IsHintOf (of_turn turn self.old.last) result }
    {
        self.asked += 1;
        hint(&self.last, turn)
    }

    fn asked(&self) -> u64
        ensures asked { result ≡ self.now.asked }
    {
        self.asked
    }
}
