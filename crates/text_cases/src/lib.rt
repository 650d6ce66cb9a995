//! Calls on texts, and on what is written of functions and claims, as lines say them. Behind most calls stands a text.
//! - `tokens` has its tokens, each with its offset and the offset behind it, or its fault, and `pieces` has their bytes, with `|` behind each, and `count` how many there are.
//! - `syntax` says whether it has a tree or which fault is its first, as the number of the fault and its offset.
//! - `tree` has its concrete tree, with the number of a token before what begins with it, and braces around each part of a statement.
//! - `functions` and `function_tree` say the same where functions are allowed beside `main`; the number of the token behind a function stands behind it.
//! - `beginnings` has what `syntax` says of the texts that begin it and are shorter, without the offsets and each once.
//! - `fault` says whether it is a program or which fault is its first.
//! - `program` has the program whose `main` has these items: operators have parentheses, the parts of a statement braces, and a missing end of a range is `*`.
//!   Below it stand the offsets of the statements from behind the `{` of `main`, an outer one before those in it.
//! - `expression number N L` and `expression test N L` have the expression that stands at the token of the number N, in the place of a number or of a test, where L
//!   levels are open and `x` and `y` may be used, but not the variable `z`; or its first fault; and the number of the token behind it, and the levels in it.
//! - `written F` is how the function is printed over the names `x`, `y` and `always`, which it reads as `x`, `y` and `z`.
//! - `line R and R claims unknown` is the line of a claim under a condition; other claims are `holds`, `exactly N` and `within F`.
//!
//! It is for programs that are told in lines what to do, and promises nothing but that each call returns. The front door: `answers` for the calls on texts,
//! and `written` for the others.
#![tactic(auto)]

mod expressions;
mod faults;
mod lines;
mod programs;
mod shown;
mod tokens;
mod trees;

use case_text::{Answer, Words};
pub use lines::answers as written;
use std::alloc::{AllocError, Global};

/// The longest text.
const LONGEST: usize = 65_536;

/// Makes the call of that name on the text and writes its answer; false where none has the name.
pub fn answers(
    alloc: Global,
    name: &str,
    words: &mut Words<'_>,
    text: &[u8],
    answer: &mut Answer,
) -> Result<bool, AllocError> {
    if text.len() > LONGEST {
        words.fail("a text that is too long");
        return Ok(true);
    }
    match name {
        "tokens" => tokens::push_tokens(alloc, text, answer)?,
        "pieces" => tokens::push_pieces(alloc, text, answer)?,
        "count" => tokens::push_count(alloc, text, answer)?,
        "syntax" => faults::push_syntax(alloc, text, false, answer)?,
        "tree" => faults::push_read(alloc, text, false, answer)?,
        "functions" => faults::push_syntax(alloc, text, true, answer)?,
        "function_tree" => faults::push_read(alloc, text, true, answer)?,
        "beginnings" => faults::push_beginnings(alloc, text, answer)?,
        "fault" => faults::push_fault(alloc, text, answer)?,
        "expression" => expressions::push_expression_of(alloc, text, words, answer)?,
        "program" => programs::push_program(alloc, text, words, answer)?,
        _ => return Ok(false),
    }
    Ok(true)
}
