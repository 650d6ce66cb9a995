//! Calls on decision trees, in boxes and in arenas, and their ranks, as lines say them.
//!
//! It is for programs that are told in lines what to do, and promises nothing but that each call returns. The front door: `answers`.
#![tactic(auto)]

mod arenas;
mod in_arenas;
mod joins;
mod moves;
mod ranks;
mod trees;

use case_text::{Answer, Words};
use std::alloc::{AllocError, Global};

/// Makes the call of that name and writes its answer; false where none has the name.
pub fn answers(
    alloc: Global,
    name: &str,
    words: &mut Words<'_>,
    answer: &mut Answer,
) -> Result<bool, AllocError> {
    if trees::answers(alloc, name, words, answer)? {
        return Ok(true);
    }
    if ranks::answers(name, words, answer) {
        return Ok(true);
    }
    if arenas::answers(alloc, name, words, answer)? {
        return Ok(true);
    }
    if in_arenas::answers(alloc, name, words, answer)? {
        return Ok(true);
    }
    if joins::answers(alloc, name, words, answer)? {
        return Ok(true);
    }
    moves::answers(alloc, name, words, answer)
}
