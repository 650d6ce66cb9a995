//! Checks of what the pivoting says: multipliers under which rows add up to what nothing meets, and
//! points that meet every row. Whatever chose them, nothing else of it is believed.
ghost use Rattle.std.specs.Prelude.{◌<ℤ◌, pos, IsTrue, IfOk};
ghost use Rattle.linear_cons.specs.Functions.{IsConstant};
ghost use Rattle.linear_solve.specs.Answers.{IsPointOf};
ghost use Rattle.linear_solve.specs.Elimination.{IsNothing};

use crate::point::Point;
use linear_cons::{Affine, PLACES, Row, Wide};

/// A row of a list by its index, and how often it counts.
#[derive(Clone, Copy, PartialEq, Eq, Debug)]
pub(crate) struct Multiple {
    pub(crate) row: usize,
    pub(crate) by: i128,
}

/// True only where the multiples are of rows of the list, none is below 0, and they add up to a
/// negative constant without a variable, so that no point meets the rows.
pub(crate) fn adds_up(rows: &[Row], multiples: &[Multiple]) -> Result<bool, Wide>
    ensures { IfOk result (λ told. IsTrue told → IsNothing rows.now) }
{
    let mut sum = Affine::constant(0);
    for multiple in multiples {
        if multiple.by < 0 {
            return Ok(false);
        }
        match rows.get(multiple.row) {
            Some(row) => sum = sum.add(&row.affine.scale(multiple.by)?)?,
            None => return Ok(false),
        }
    }
    Ok(is_negative_constant(&sum))
}

/// True only where the function is a constant below 0.
fn is_negative_constant(a: &Affine) -> bool
    ensures { IsTrue result → IsConstant a.now × (a.now.constant <ℤ pos 0) }
{
    for place in 0..PLACES {
        if a.coef[place] != 0 {
            return false;
        }
    }
    a.constant < 0
}

/// True only where the point has a positive denominator and meets every row.
pub(crate) fn meets_all(rows: &[Row], point: &Point) -> Result<bool, Wide>
    ensures { IfOk result (λ told. IsTrue told → IsPointOf rows.now point.now.num point.now.den) }
{
    if point.den <= 0 {
        return Ok(false);
    }
    for row in rows {
        if point.form(&row.affine)? < 0 {
            return Ok(false);
        }
    }
    Ok(true)
}
