//! Calls on linear forms and on the rows of tests, as lines say them. E is a number expression of x, y and z and C a test of them, written as in a program,
//! and ENDS are the ends of the variables, as `x from -7 to 7, y from 0`, or `anywhere` where none is known.
//! - `function E` is the affine function that E is.
//! - `form E over ENDS` is its linear form.
//! - `spread C over ENDS` says which rows hold where C holds and where it fails.
//! - `values E over ENDS` says which rows hold where z is a value of E.
//! - `conjunctions C` says how many conjunctions of rows these are, counted before any is left out.
//!
//! It is for programs that are told in lines what to do, and promises nothing but that each call returns. The front door: `answers`.
#![tactic(auto)]

mod expressions;
mod forms;
mod spreads;

use case_text::{Answer, Words};
use std::alloc::{AllocError, Global};

/// Makes the call of that name and writes its answer; false where none has the name.
pub fn answers(
    alloc: Global,
    name: &str,
    words: &mut Words<'_>,
    answer: &mut Answer,
) -> Result<bool, AllocError> {
    match name {
        "function" => forms::push_function(alloc, words, answer)?,
        "form" => forms::push_form(alloc, words, answer)?,
        "spread" => spreads::push_spread(alloc, words, answer)?,
        "values" => spreads::push_values(alloc, words, answer)?,
        "conjunctions" => spreads::push_counts(alloc, words, answer)?,
        _ => return Ok(false),
    }
    Ok(true)
}
