//! Calls on numbers, on systems of rows, on linear programs and on the numerical domains, as lines say them.
//!
//! It is for programs that are told in lines what to do, and promises nothing but that each call returns. The front door: `answers`.
#![tactic(auto)]

mod domains;
mod minima;
mod numbers;
mod systems;

use case_text::{Answer, Words};
use std::alloc::{AllocError, Global};

/// Makes the call of that name and writes its answer; false where none has the name.
pub fn answers(
    alloc: Global,
    name: &str,
    words: &mut Words<'_>,
    answer: &mut Answer,
) -> Result<bool, AllocError> {
    if numbers::answers(alloc, name, words, answer)? {
        return Ok(true);
    }
    if systems::answers(alloc, name, words, answer)? {
        return Ok(true);
    }
    if minima::answers(alloc, name, words, answer)? {
        return Ok(true);
    }
    domains::answers(alloc, name, words, answer)
}
