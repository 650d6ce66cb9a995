//! Calls of the solver. `decide R and R ..` says what it finds of rows, `project x from R and R ..` which rows are left without a variable, `decide without x
//! from ..` what it finds of those, `tightest R and R ..` which are the tightest, and `whole R and R ..` whether splits find a store, with its x, y and z.
use case_text::{Answer, Words, read_rows};
use integer_point::{MOST_TO_SPLIT, Whole, decide_whole};
use linear_cons::{MOST_ROWS, PLACES, Row};
use linear_solve::{Answer as Solved, Projected, decide, project, tightest};
use std::alloc::{AllocError, Global};

/// Makes the call of that name and writes its answer; false where none has the name.
pub fn answers(
    alloc: Global,
    name: &str,
    words: &mut Words<'_>,
    answer: &mut Answer,
) -> Result<bool, AllocError> {
    match name {
        "decide" => {
            let rows = rows_left(alloc, words)?;
            answer.push(decided(alloc, &rows)?);
        }
        "whole" => {
            let rows = rows_left(alloc, words)?;
            push_whole(alloc, &rows, answer)?;
        }
        "project" => answer.push_rows(projected(alloc, words)?.as_slice()),
        "tightest" => answer.push_rows(tightest(read_rows(alloc, words)?).as_slice()),
        _ => return Ok(false),
    }
    Ok(true)
}

/// Reads rows, or `without` and a variable before rows, which stand for those that are left without it.
fn rows_left(alloc: Global, words: &mut Words<'_>) -> Result<Vec<Row>, AllocError> {
    if words.takes("without") {
        return projected(alloc, words);
    }
    read_rows(alloc, words)
}

/// Reads a variable, `from` and rows, and gives those that are left without it.
fn projected(alloc: Global, words: &mut Words<'_>) -> Result<Vec<Row>, AllocError> {
    let place = words.place();
    words.expect("from");
    let rows = read_rows(alloc, words)?;
    match project(alloc, &rows, place)? {
        Projected::Rows(left) => return Ok(left),
        Projected::Wide(_) => words.fail("a projection with a number that is too wide"),
        Projected::TooMany { .. } => words.fail("a projection with too many rows"),
    }
    Ok(rows)
}

/// What is found of the rows. A point counts once it is seen to meet them.
fn decided(alloc: Global, rows: &[Row]) -> Result<&'static str, AllocError> {
    if rows.len() > MOST_ROWS {
        return Ok("more rows than can be decided");
    }
    Ok(match &decide(alloc, rows)? {
        Solved::Empty => "empty",
        Solved::Point { num, den } if !meets(rows, num, *den) => "a point that doesn't meet them",
        Solved::Point { num: _, den: 1 } => "whole point",
        Solved::Point { .. } => "fraction",
        Solved::Wide(_) => "wide",
        Solved::Rows { .. } => "too many rows",
    })
}

/// Writes what splits at fractions find of the rows. A store counts once it is seen to meet them.
fn push_whole(alloc: Global, rows: &[Row], answer: &mut Answer) -> Result<(), AllocError> {
    if rows.len() > MOST_TO_SPLIT {
        answer.push("more rows than can be split");
        return Ok(());
    }
    match &decide_whole(alloc, rows)? {
        Whole::Empty => answer.push("empty"),
        Whole::Store(store) if !meets(rows, store, 1) => {
            answer.push("a store that doesn't meet them");
        }
        Whole::Store(store) => {
            for (name, place) in [("x = ", 0), (", y = ", 1), (", z = ", 2)] {
                answer.push(name);
                answer.push_number(store[place]);
            }
        }
        Whole::Deep { .. } => answer.push("deep"),
        Whole::Wide(_) => answer.push("wide"),
        Whole::Rows { .. } => answer.push("too many rows"),
    }
    Ok(())
}

/// True only where `num / den` is a point that meets every row.
fn meets(rows: &[Row], num: &[i128; PLACES], den: i128) -> bool {
    for row in rows {
        match value_at(row, num, den) {
            Some(value) if value >= 0 => {}
            _ => return false,
        }
    }
    den > 0
}

/// The row's function at `num / den`, times `den`, where that has room.
fn value_at(row: &Row, num: &[i128; PLACES], den: i128) -> Option<i128> {
    let mut scaled = row.affine;
    scaled.constant = row.affine.constant.checked_mul(den)?;
    scaled.value(num).ok()
}
