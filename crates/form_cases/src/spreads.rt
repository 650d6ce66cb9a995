//! Calls on the rows of tests and of values.
use crate::expressions::{asked, assigned, read_program};
use case_text::{Answer, Words, read_ends};
use linear_cons::Rows;
use linear_forms::{conjunctions, spread};
use quotient_cases::value_rows;
use std::alloc::{AllocError, Global};

/// What stands before a test in the text of a program, and behind it.
const CHOICE: (&str, &str) = ("if (", ") ;");

/// What stands before a number expression in the text of a program, and behind it.
const ASSIGNMENT: (&str, &str) = ("x =", ";");

/// The place of `z`.
const VALUE_PLACE: u8 = 2;

/// Reads a number expression and ends, and adds the rows that its value comes down to where that is `z`.
pub fn push_values(
    alloc: Global,
    words: &mut Words<'_>,
    answer: &mut Answer,
) -> Result<(), AllocError> {
    let program = read_program(alloc, ASSIGNMENT, words)?;
    words.expect("over");
    let bounds = read_ends(words);
    match program.as_ref().and_then(assigned) {
        Some(value) => {
            let rows = value_rows(alloc, value, &bounds, VALUE_PLACE)?;
            push_conjunctions(rows.as_slice(), answer);
        }
        None => words.fail("no number expression"),
    }
    Ok(())
}

/// Reads a test and ends, and adds the rows of both outcomes.
pub fn push_spread(
    alloc: Global,
    words: &mut Words<'_>,
    answer: &mut Answer,
) -> Result<(), AllocError> {
    let program = read_program(alloc, CHOICE, words)?;
    words.expect("over");
    let bounds = read_ends(words);
    match program.as_ref().and_then(asked) {
        Some(test) => {
            answer.push("holds: ");
            push_conjunctions(spread(alloc, test, true, &bounds)?.as_slice(), answer);
            answer.push("\nfails: ");
            push_conjunctions(spread(alloc, test, false, &bounds)?.as_slice(), answer);
        }
        None => words.fail("no test"),
    }
    Ok(())
}

/// Adds the conjunctions, or `never` where there is none.
fn push_conjunctions(list: &[Rows], answer: &mut Answer) {
    if list.is_empty() {
        answer.push("never");
    }
    for (number, rows) in list.iter().enumerate() {
        answer.push(if number == 0 { "" } else { " or " });
        answer.push_rows(rows.items());
    }
}

/// Reads a test, and adds how many conjunctions it and its failure have.
pub fn push_counts(
    alloc: Global,
    words: &mut Words<'_>,
    answer: &mut Answer,
) -> Result<(), AllocError> {
    let program = read_program(alloc, CHOICE, words)?;
    match program.as_ref().and_then(asked) {
        Some(test) => {
            answer.push_number(i128::from(conjunctions(test, true)));
            answer.push(" and ");
            answer.push_number(i128::from(conjunctions(test, false)));
        }
        None => words.fail("no test"),
    }
    Ok(())
}
