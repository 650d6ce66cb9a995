//! Whether rows have no store at all.
ghost use Rattle.std.specs.Prelude.{◌≤◌, IfOk, MatchBool, length};
ghost use Rattle.linear_cons.specs.Tightest.{AreDistinct};
ghost use Rattle.linear_solve.specs.Answers.{HasNoStore};
ghost use Rattle.integer_point.specs.Hard.{MayHaveStore};

use crate::whole::{MOST_TO_SPLIT, Whole, decide_whole};
use linear_cons::{MOST_ROWS, Row};
use linear_solve::{Answer, decide_tightest};
use std::alloc::{AllocError, Global};

/// True only where no store meets all rows, no two of which have the same coefficients; false only where one does, or where neither the solver nor splits
/// at fractions tell. The only error is want of memory.
pub fn has_no_store(alloc: Global, rows: &[Row]) -> Result<bool, AllocError>
    requires { AreDistinct rows.now }
    ensures { IfOk result (λ empty. MatchBool empty (HasNoStore rows.now) (MayHaveStore rows.now)) }
{
    if rows.len() > MOST_ROWS {
        return Ok(false);
    }
    match decide_tightest(alloc, rows)? {
        Answer::Empty => Ok(true),
        Answer::Point { num: _, den: 1 } => Ok(false),
        Answer::Point { .. } if rows.len() > MOST_TO_SPLIT => Ok(false),
        Answer::Point { .. } => {
            let empty = is_split_to_nothing(alloc, rows)?;
            Ok(empty)
        }
        Answer::Wide(_) => Ok(false),
        Answer::Rows { count: _ } => Ok(false),
    }
}

/// The same by splits at fractions alone.
fn is_split_to_nothing(alloc: Global, rows: &[Row]) -> Result<bool, AllocError>
    requires { length rows.now ≤ 4086 }
    ensures { IfOk result (λ empty. MatchBool empty (HasNoStore rows.now) (MayHaveStore rows.now)) }
{
    match decide_whole(alloc, rows)? {
        Whole::Empty => Ok(true),
        Whole::Store(_) => Ok(false),
        Whole::Deep { path: _ } => Ok(false),
        Whole::Wide(_) => Ok(false),
        Whole::Rows { count: _ } => Ok(false),
    }
}
