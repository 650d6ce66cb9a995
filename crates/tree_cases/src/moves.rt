//! Calls that move trees backward over the actions of a program: `skip T`, `assign x = L before T`, and `test C against C before T else T`, with the tree behind
//! a test that holds first. An outcome C of a test is conjunctions of rows that are parted by `or`, or `never`. For some run: `pick T else T` over a free test,
//! and `some x = [N, N] before T` over the assignment of a number of a range, whose ends may be `-inf` and `inf`. Behind `is` may stand a tree, as for joins.
use crate::joins::{Made, push_made};
use backward_transfer::{back_assign, back_pick, back_range, back_skip, back_some, back_test};
use case_text::{Answer, Words, read_linear, read_rows, read_tree};
use linear_cons::{Linear, Rows};
use std::alloc::{AllocError, Global};

/// Makes the call of that name and writes its answer; false where none has the name.
pub fn answers(
    alloc: Global,
    name: &str,
    words: &mut Words<'_>,
    answer: &mut Answer,
) -> Result<bool, AllocError> {
    let made = match name {
        "skip" => skipped(alloc, words),
        "assign" => assigned(alloc, words),
        "test" => tested(alloc, words),
        "pick" => picked(alloc, words),
        "some" => chosen(alloc, words),
        _ => return Ok(false),
    };
    push_made(alloc, made?, words, answer)?;
    Ok(true)
}

/// Reads the tree behind what changes nothing.
fn skipped(alloc: Global, words: &mut Words<'_>) -> Result<Made, AllocError> {
    let tree = read_tree(alloc, words)?;
    Ok(back_skip(alloc, &tree))
}

/// Reads an assignment and the tree behind it. An exact value is assigned, another one is chosen from its range.
fn assigned(alloc: Global, words: &mut Words<'_>) -> Result<Made, AllocError> {
    let place = words.place();
    words.expect("=");
    let value = read_linear(words);
    words.expect("before");
    let tree = read_tree(alloc, words)?;
    if value == Linear::exactly(value.affine) {
        return Ok(back_assign(alloc, &tree, place, &value.affine));
    }
    Ok(back_range(alloc, &tree, place, &value))
}

/// Reads the outcomes of a test, and the trees behind its success and its failure.
fn tested(alloc: Global, words: &mut Words<'_>) -> Result<Made, AllocError> {
    let holds = read_outcome(alloc, words)?;
    words.expect("against");
    let fails = read_outcome(alloc, words)?;
    words.expect("before");
    let yes = read_tree(alloc, words)?;
    words.expect("else");
    let no = read_tree(alloc, words)?;
    Ok(back_test(alloc, &yes, &no, &holds, &fails))
}

/// Reads the trees behind the two outcomes of a free test.
fn picked(alloc: Global, words: &mut Words<'_>) -> Result<Made, AllocError> {
    let yes = read_tree(alloc, words)?;
    words.expect("else");
    let no = read_tree(alloc, words)?;
    Ok(back_pick(alloc, &yes, &no))
}

/// Reads a range of which one number is assigned, and the tree behind that.
fn chosen(alloc: Global, words: &mut Words<'_>) -> Result<Made, AllocError> {
    let place = words.place();
    words.expect("=");
    words.expect("[");
    let lo = read_end(words, "-inf");
    words.expect(",");
    let hi = read_end(words, "inf");
    words.expect("]");
    words.expect("before");
    let tree = read_tree(alloc, words)?;
    Ok(back_some(alloc, &tree, place, lo, hi))
}

/// Reads an end of a range, or the word for none.
fn read_end(words: &mut Words<'_>, none: &str) -> Option<i64> {
    let end = i64::try_from(words.number_or(none)?);
    if end.is_err() {
        words.fail("no number of 64 bits");
    }
    end.ok()
}

/// Reads conjunctions that are parted by `or`; `never` has none.
pub fn read_outcome(alloc: Global, words: &mut Words<'_>) -> Result<Vec<Rows>, AllocError> {
    let mut conjunctions = Vec::new(alloc);
    if words.takes("never") {
        return Ok(conjunctions);
    }
    for _ in 0..words.len() {
        add_conjunction(alloc, &mut conjunctions, words)?;
        if !words.takes("or") {
            return Ok(conjunctions);
        }
    }
    Ok(conjunctions)
}

fn add_conjunction(
    alloc: Global,
    conjunctions: &mut Vec<Rows>,
    words: &mut Words<'_>,
) -> Result<(), AllocError> {
    let rows = read_rows(alloc, words)?;
    conjunctions.push(Rows::of(rows))?;
    Ok(())
}
