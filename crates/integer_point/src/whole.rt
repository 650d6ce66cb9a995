//! Whether rows have a store.
ghost use Rattle.std.specs.Prelude.{◌≤◌, IfOk, length};
ghost use Rattle.integer_point.specs.Wholes.{IsWholeAnswer};

use crate::split::{Found, search};
use linear_cons::{Row, Rows, Wide};
use std::alloc::{AllocError, Global};

/// The most splits that are made one under another.
const MOST_SPLITS: u32 = 10;

/// The most rows that are split.
pub const MOST_TO_SPLIT: usize = 4_086;

/// What is known of the stores of a system of rows.
#[derive(Drop)]
pub enum Whole {
    /// No store meets all rows.
    Empty,
    /// The store meets every row.
    Store([i128; 16]),
    /// These ten splits were made one under another, and a point still meets the rows with them.
    Deep { path: Rows },
    /// Of the rows with at most ten splits a number on the way lies outside `i128`: the exact result of these operands.
    Wide(Wide),
    /// Of the rows with at most ten splits an elimination comes to this many tightest rows, more than 4,096.
    Rows { count: u32 },
}

/// Looks for a store that meets all rows.
///
/// A point that `decide` finds is rounded down at each place. Where that store isn't seen to meet the rows, the least place at which the point has a
/// fraction is split: its number is at most the whole one below it, or at least the next. The first side is looked at first, and the second only where
/// no store is on the first. The only error is want of memory.
pub fn decide_whole(alloc: Global, rows: &[Row]) -> Result<Whole, AllocError>
    requires { length rows.now ≤ 4086 }
    ensures { IfOk result (IsWholeAnswer rows.now) }
{
    let mut split = rows.to_vec(alloc)?;
    match search(alloc, &mut split, MOST_SPLITS)? {
        Found::Empty => Ok(Whole::Empty),
        Found::Store(store) => Ok(Whole::Store(store)),
        Found::Deep => {
            let path = split.split_off(rows.len())?;
            Ok(Whole::Deep {
                path: Rows::of(path),
            })
        }
        Found::Wide(wide) => Ok(Whole::Wide(wide)),
        Found::Rows { count } => Ok(Whole::Rows { count }),
    }
}
