//! Calls on number expressions.
use crate::expressions::{assigned, read_program};
use case_text::{Answer, Words, read_ends};
use linear_forms::{affine_of, linearise};
use std::alloc::{AllocError, Global};
use step_meaning::is_affine;

/// What stands before a number expression in the text of a program, and behind it.
const ASSIGNMENT: (&str, &str) = ("x =", ";");

/// Reads a number expression, and adds the affine function that it is.
pub fn push_function(
    alloc: Global,
    words: &mut Words<'_>,
    answer: &mut Answer,
) -> Result<(), AllocError> {
    let program = read_program(alloc, ASSIGNMENT, words)?;
    match program.as_ref().and_then(assigned) {
        Some(value) if is_affine(value) => match affine_of(value) {
            Ok(function) => answer.push_function(&function),
            Err(wide) => answer.push_wide(&wide),
        },
        Some(_) => answer.push("not affine"),
        None => words.fail("no number expression"),
    }
    Ok(())
}

/// Reads a number expression and ends, and adds its linear form.
pub fn push_form(
    alloc: Global,
    words: &mut Words<'_>,
    answer: &mut Answer,
) -> Result<(), AllocError> {
    let program = read_program(alloc, ASSIGNMENT, words)?;
    words.expect("over");
    let bounds = read_ends(words);
    match program.as_ref().and_then(assigned) {
        Some(value) => answer.push_linear(&linearise(value, &bounds)),
        None => words.fail("no number expression"),
    }
    Ok(())
}
