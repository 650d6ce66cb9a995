//! Formulas of CTL, as lines say them.
use crate::functions::read_constraint;
use crate::words::Words;
use ctl_formula::Formula;
use std::alloc::{AllocError, Global};

/// How deep a formula may stand in a line.
const LEVELS: u32 = 16;

/// Reads a formula. It is one of
/// - `true`, `false`, `exit`, `running`, which is that it hasn't come to the exit, and a constraint `x - 1 >= 0`;
/// - `not F`, `both F and F`, `either F or F`;
/// - `all next F`, `all F until F`, `all F weak F`, and the same with `some`;
/// - a formula in brackets.
pub fn read_formula(alloc: Global, words: &mut Words<'_>) -> Result<Formula, AllocError> {
    read_part(alloc, words, LEVELS)
}

/// Reads a formula that goes at most so deep.
#[cycle(reading)]
fn read_part(alloc: Global, words: &mut Words<'_>, levels: u32) -> Result<Formula, AllocError> {
    let Some(below) = levels.checked_sub(1) else {
        words.fail("a formula that goes too deep");
        return Ok(Formula::False);
    };
    if words.takes("(") {
        let formula = read_part(alloc, words, below)?;
        words.expect(")");
        return Ok(formula);
    }
    if words.takes("not") {
        let part = read_operand(alloc, words, below)?;
        return Ok(Formula::Not(part));
    }
    if words.takes("both") {
        let left = read_operand(alloc, words, below)?;
        words.expect("and");
        let right = read_operand(alloc, words, below)?;
        return Ok(Formula::And(left, right));
    }
    if words.takes("either") {
        let left = read_operand(alloc, words, below)?;
        words.expect("or");
        let right = read_operand(alloc, words, below)?;
        return Ok(Formula::Or(left, right));
    }
    if words.takes("all") {
        return read_path(alloc, true, words, below);
    }
    if words.takes("some") {
        return read_path(alloc, false, words, below);
    }
    Ok(read_atom(words))
}

#[cycle(reading)]
fn read_operand(
    alloc: Global,
    words: &mut Words<'_>,
    levels: u32,
) -> Result<Box<Formula>, AllocError> {
    let operand = read_part(alloc, words, levels)?;
    Ok(Box::new(alloc, operand)?)
}

/// Reads what is said of all successors, or of some.
#[cycle(reading)]
fn read_path(
    alloc: Global,
    all: bool,
    words: &mut Words<'_>,
    levels: u32,
) -> Result<Formula, AllocError> {
    if words.takes("next") {
        let part = read_operand(alloc, words, levels)?;
        return Ok(Formula::Next { all, part });
    }
    let keep = read_operand(alloc, words, levels)?;
    if words.takes("weak") {
        let goal = read_operand(alloc, words, levels)?;
        return Ok(Formula::Weak { all, keep, goal });
    }
    words.expect("until");
    let goal = read_operand(alloc, words, levels)?;
    Ok(Formula::Until { all, keep, goal })
}

fn read_atom(words: &mut Words<'_>) -> Formula {
    if words.takes("true") {
        return Formula::True;
    }
    if words.takes("false") {
        return Formula::False;
    }
    if words.takes("exit") {
        return Formula::Exit;
    }
    if words.takes("running") {
        return Formula::NotExit;
    }
    Formula::Holds(read_constraint(words))
}
