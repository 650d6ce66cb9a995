//! Functions, linear expressions, ends and rows, as lines say them.
use crate::many::add_many;
use crate::words::{Words, number_of, place_of};
use linear_cons::{Affine, Bounds, Linear, PLACES, Row, RowKind};
use std::alloc::{AllocError, Global};

/// Reads a function: terms `2*x`, `x`, `-x` or `7`, parted by `+` and `-`. A range behind a `+` is left.
pub fn read_function(words: &mut Words<'_>) -> Affine {
    let mut sum = Affine::constant(0);
    let mut is_taken_away = false;
    for _ in 0..words.len() {
        let term = words.take();
        match summed(&sum, term, is_taken_away) {
            Some(more) => sum = more,
            None => words.fail("no function"),
        }
        match (words.peek(), words.second()) {
            (_, Some("[")) => return sum,
            (Some("+"), _) => is_taken_away = false,
            (Some("-"), _) => is_taken_away = true,
            _ => return sum,
        }
        words.take();
    }
    words.fail("a function is missing");
    sum
}

/// The sum with the term, where it is one and all numbers have room.
fn summed(sum: &Affine, term: &str, is_taken_away: bool) -> Option<Affine> {
    let (number, name) = parted(term)?;
    let number = if is_taken_away {
        number.checked_neg()?
    } else {
        number
    };
    let mut more = *sum;
    match name {
        Some(name) => {
            let place = place_of(name)?;
            more.coef[place as usize] = more.coef[place as usize].checked_add(number)?;
        }
        None => more.constant = more.constant.checked_add(number)?,
    }
    Some(more)
}

/// The number of the term and the name that it stands before, if it stands before one.
fn parted(term: &str) -> Option<(i128, Option<&str>)> {
    if let Some((number, name)) = term.split_once("*") {
        return Some((number_of(number)?, Some(name)));
    }
    if let Some(number) = number_of(term) {
        return Some((number, None));
    }
    match term.strip_prefix("-") {
        Some(name) => Some((-1, Some(name))),
        None => Some((1, Some(term))),
    }
}

/// Reads a linear expression: a function, and `+ [1, inf]` behind it where it is no exact one.
pub fn read_linear(words: &mut Words<'_>) -> Linear {
    let affine = read_function(words);
    if !words.takes("+") {
        return Linear::exactly(affine);
    }
    words.expect("[");
    let lo = words.number_or("-inf");
    words.expect(",");
    let hi = words.number_or("inf");
    words.expect("]");
    Linear { affine, lo, hi }
}

/// Reads the ends of variables: `x from -7 to 7, y from 0`, or `anywhere` where none is known.
pub fn read_ends(words: &mut Words<'_>) -> Bounds {
    let mut ends = [(None, None); PLACES];
    if words.takes("anywhere") {
        return Bounds { ends };
    }
    for _ in 0..words.len() {
        let place = words.place();
        let low = read_end("from", words);
        let high = read_end("to", words);
        ends[place as usize] = (low, high);
        if !words.takes(",") {
            break;
        }
    }
    Bounds { ends }
}

/// Reads the end that stands behind the word, if the word is there.
fn read_end(word: &str, words: &mut Words<'_>) -> Option<i128> {
    if words.takes(word) {
        return Some(words.number());
    }
    None
}

/// Reads a constraint: a function, and `>= 0` behind it.
pub fn read_constraint(words: &mut Words<'_>) -> RowKind {
    let function = read_function(words);
    words.expect(">=");
    words.expect("0");
    Row::of(function)
}

/// Reads a constraint that has a row, which it gives where it is one.
pub fn read_row(words: &mut Words<'_>) -> Option<Row> {
    match read_constraint(words) {
        RowKind::Row(row) => Some(row),
        RowKind::Always | RowKind::Never => {
            words.fail("a constraint that is no row");
            None
        }
    }
}

/// Reads rows that are parted by `and`. `always` has none, and `many NAME COUNT` has many.
pub fn read_rows(alloc: Global, words: &mut Words<'_>) -> Result<Vec<Row>, AllocError> {
    let mut rows = Vec::new(alloc);
    for _ in 0..words.len() {
        if words.takes("many") {
            add_many(&mut rows, words)?;
        } else if !words.takes("always") {
            add_row(&mut rows, words)?;
        }
        if !words.takes("and") {
            return Ok(rows);
        }
    }
    words.fail("rows are missing");
    Ok(rows)
}

fn add_row(rows: &mut Vec<Row>, words: &mut Words<'_>) -> Result<(), AllocError> {
    if let Some(row) = read_row(words) {
        rows.push(row)?;
    }
    Ok(())
}
