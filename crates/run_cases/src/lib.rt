//! Runs of the command, as lines say them. Behind each call stand the words of the command line, without the command's own name, and the text that is read;
//! a word between two `'` may have blanks.
//! - `run WORDS "TEXT"` has the number of the exit status and below it what was written.
//! - `unadvised WORDS "TEXT"` is the same without advisers.
//! - `under CONDITION WORDS "TEXT"` has what the lines behind `proved:` say under the condition.
//!
//! It is for programs that are told in lines what to do, and promises nothing but that each call returns. The front door: `answer`.
#![tactic(auto)]

mod runs;
mod words;

use crate::runs::{push_claims, push_outcome};
use crate::words::read_words;
use case_text::read_text;
use memory_runs::{outcome_of, unadvised};
use std::alloc::{AllocError, Global};

/// The answer of the call of a line; `None` where the line says no run. `AllocError` where memory runs out.
pub fn answer(alloc: Global, line: &str) -> Result<Option<Vec<u8>>, AllocError> {
    let Some((front, _)) = line.split_once("\"") else {
        return Ok(None);
    };
    let Some(text) = read_text(alloc, line.strip_prefix(front).unwrap_or(""))? else {
        return Ok(None);
    };
    let Some((call, words)) = front.split_once(" ") else {
        return Ok(None);
    };
    let Some(mut words) = read_words(alloc, words)? else {
        return Ok(None);
    };
    let mut answer = Vec::new(alloc);
    match call {
        "run" => push_outcome(alloc, &mut answer, &outcome_of(alloc, &words, &text)?)?,
        "unadvised" => push_outcome(alloc, &mut answer, &unadvised(alloc, &words, &text)?)?,
        "under" if words.len() > 1 => {
            let condition = words.remove(1);
            push_claims(&mut answer, condition, &outcome_of(alloc, &words, &text)?)?;
        }
        _ => return Ok(None),
    }
    Ok(Some(answer))
}
