//! Moves from the head of a loop, and rows as they are of the store before.
use crate::stop::Stop;
use linear_cons::{Affine, Row, RowKind, Wide};
use std::alloc::{AllocError, Global};

/// Where a path ends.
#[derive(Clone, Copy, PartialEq, Eq, Debug)]
pub enum Target {
    /// At the head of a loop.
    Head(u32),
    /// Where the goal holds, or for a weak until at the end of the program.
    Goal,
    /// Where neither the goal nor what is to be kept holds.
    Fault,
}

/// What a path from the head of a loop does: where it is taken, and what it makes of the store. At places past the variables stand the numbers
/// that are chosen on the way.
#[derive(Drop)]
pub struct Move {
    pub to: Target,
    /// What the stores meet from which it is taken.
    pub rows: Vec<Row>,
    /// For each variable its value behind the path.
    pub after: Vec<Affine>,
    /// How many steps it takes.
    pub steps: u32,
    /// How many of them choose among numbers without a bound.
    pub jumps: u32,
}

/// The values of the variables where nothing was done: at each place its variable. The only error is want of memory.
pub fn unchanged(alloc: Global, variables: u32) -> Result<Vec<Affine>, AllocError> {
    let mut values = Vec::with_capacity(alloc, variables as usize)?;
    for place in 0..variables.min(16) {
        values.push(Affine::var(place as u8))?;
    }
    Ok(values)
}

/// What the function of the store behind is of the store before, where the values of the variables behind are those. `Wide` where a number of it lies outside
/// `i128`.
pub fn through(function: &Affine, after: &[Affine]) -> Result<Affine, Wide> {
    let mut sum = *function;
    for number in sum.coef.iter_mut().take(after.len()) {
        *number = 0;
    }
    for (number, value) in function.coef.iter().zip(after) {
        if *number != 0 {
            sum = sum.mixed(1, value, *number)?;
        }
    }
    Ok(sum)
}

/// Adds the constraint that the function is at least 0; false where that is met nowhere.
pub(crate) fn add(rows: &mut Vec<Row>, function: &Affine) -> Result<bool, Stop> {
    match Row::of(*function) {
        RowKind::Always => Ok(true),
        RowKind::Never => Ok(false),
        RowKind::Row(row) => {
            rows.push(row)?;
            Ok(true)
        }
    }
}

/// Adds the rows of the store behind as they are of the store before; false where one is met nowhere. Given up where a number lies outside `i128`.
pub fn add_through(rows: &mut Vec<Row>, more: &[Row], after: &[Affine]) -> Result<bool, Stop> {
    for row in more {
        if !add(rows, &through(&row.affine, after)?)? {
            return Ok(false);
        }
    }
    Ok(true)
}
