//! Lists of so many rows that no line says each of them.
use crate::words::Words;
use linear_cons::{Affine, PLACES, Row, RowKind};
use std::alloc::AllocError;

/// Adds the rows that a name and a number stand for:
/// - `slopes N`: `x + k*y >= 0` for each k from 0 to N - 1;
/// - `fan N`: `k*x + y >= 0` and `-k*x + y >= 0` for each k from 1 to N;
/// - `slabs N`: for each of the first N odd numbers k from 101 on the rows of `2*x + k*y = 1`, and so for y and z and for z and x.
pub fn add_many(rows: &mut Vec<Row>, words: &mut Words<'_>) -> Result<(), AllocError> {
    let name = words.take();
    let count = words.count();
    match name {
        "slopes" => add_slopes(rows, count),
        "fan" => add_fan(rows, count),
        "slabs" => add_slabs(rows, count),
        _ => Ok(words.fail("no such list of rows")),
    }
}

fn add_slopes(rows: &mut Vec<Row>, count: u32) -> Result<(), AllocError> {
    for step in 0..count {
        add(rows, [1, i128::from(step), 0], 0)?;
    }
    Ok(())
}

fn add_fan(rows: &mut Vec<Row>, count: u32) -> Result<(), AllocError> {
    for step in 0..count {
        let slope = 1 + i128::from(step);
        add(rows, [slope, 1, 0], 0)?;
        add(rows, [-slope, 1, 0], 0)?;
    }
    Ok(())
}

fn add_slabs(rows: &mut Vec<Row>, count: u32) -> Result<(), AllocError> {
    for place in 0..3 {
        for step in 0..count {
            let number = 101 + 2 * i128::from(step);
            let mut upper = [0; 3];
            upper[place] = 2;
            upper[(place + 1) % 3] = number;
            let mut lower = [0; 3];
            lower[place] = -2;
            lower[(place + 1) % 3] = -number;
            add(rows, upper, -1)?;
            add(rows, lower, 1)?;
        }
    }
    Ok(())
}

/// Adds the row of the constraint that the function of the first three variables is at least 0, where it has one.
fn add(rows: &mut Vec<Row>, first: [i128; 3], constant: i128) -> Result<(), AllocError> {
    let mut coef = [0; PLACES];
    coef[0] = first[0];
    coef[1] = first[1];
    coef[2] = first[2];
    match Row::of(Affine { coef, constant }) {
        RowKind::Row(row) => rows.push(row)?,
        RowKind::Always | RowKind::Never => {}
    }
    Ok(())
}
