//! A turn of advice.
ghost use Rattle.std.specs.Prelude.{◌≡◌, ◌+◌, ◌-◌, ◌<◌, ◌≤◌, ◌^◌, All, IfOk, OnOk, OnErr, length};
ghost use Rattle.advice.specs.Asking.{AreAskedOnce};

use crate::adviser::Adviser;
use crate::fact::{Hint, LoopFact};
use std::alloc::{AllocError, Global};

/// Shows each adviser the facts of the turn in order and asks it once; the hints are in the order of the advisers. The only error is want
/// of memory, and then no adviser was shown or asked anything.
pub fn consult(
    alloc: Global,
    advisers: &mut Vec<Box<dyn Adviser>>,
    turn: u32,
    facts: &[LoopFact],
) -> Result<Vec<Hint>, AllocError>
    requires { All (λ adviser. asked_of adviser < 2 ^ 64 - 1) advisers.old.items }
    ensures asked { OnOk result (AreAskedOnce (λ adviser. asked_of adviser) advisers.old.items advisers.new.items) }
    ensures few { IfOk result (λ hints. length hints.items ≤ length advisers.old.items) }
    ensures unasked { OnErr result (advisers.new ≡ advisers.old) }
{
    let mut hints = Vec::with_capacity(alloc, advisers.len())?;
    for number in 0..advisers.len() {
        if let Some(hint) = consult_one(advisers[number].as_mut(), turn, facts) {
            hints.push_reserved(hint);
        }
    }
    Ok(hints)
}

/// Shows an adviser the facts, and asks it.
fn consult_one(adviser: &mut dyn Adviser, turn: u32, facts: &[LoopFact]) -> Option<Hint>
    requires { asked_of adviser.old < 2 ^ 64 - 1 }
    ensures { asked_of adviser.new ≡ asked_of adviser.old + 1 }
{
    for fact in facts {
        adviser.observe(turn, fact);
    }
    adviser.hint(turn)
}
