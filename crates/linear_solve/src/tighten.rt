//! Of rows with one linear part, the tightest.
ghost use Rattle.std.specs.Prelude.{◌≡◌, ◌≤◌, ◌↔◌, IfOk, IsTrue, length, map};
ghost use Rattle.std.specs.List.Sorted.{IsStrictlySortedBy};
ghost use Rattle.linear_cons.specs.declared.row.Row.{Row};
ghost use Rattle.linear_solve.specs.Elimination.{StandFor};
ghost use Rattle.linear_cons.specs.Tightest.{AreTightest, IsSamePart};
ghost use Rattle.linear_solve.specs.Tightest.{by_part, by_part_and_constant};

use linear_cons::{PLACES, Row};
use std::alloc::{AllocError, Global};
use std::cmp::Ordering;

/// Of the rows with the same coefficients the one with the least constant, which implies the others.
/// They come in the order of their coefficients. It takes no memory, and n * log n comparisons.
pub fn tightest(mut rows: Vec<Row>) -> Vec<Row>
    ensures tightest { AreTightest (map (λ (row : Row). row.affine) rows.items) result.items }
    ensures in_order { IsStrictlySortedBy by_part result.items }
    ensures short { length result.items ≤ length rows.items }
{
    rows.sort_unstable_by(|row, other| order(row, other));
    rows.dedup_by(
        |row, kept|
            ensures tells { IsTrue result ↔ IsSamePart row.old.affine kept.old.affine }
            ensures leaves { row.new ≡ row.old }
            ensures leaves_kept { kept.new ≡ kept.old }
        { has_part(row, kept) },
    );
    rows
}

/// The tightest of the slice's rows, which stand for them all.
pub(crate) fn tightest_of(alloc: Global, rows: &[Row]) -> Result<Vec<Row>, AllocError>
    ensures stands { IfOk result (λ kept. StandFor rows.now kept.items) }
    ensures tightest { IfOk result (λ kept. AreTightest (map (λ (row : Row). row.affine) rows.now) kept.items) }
{
    let copied = rows.to_vec(alloc)?;
    Ok(tightest(copied))
}

/// By the coefficients, the one at place 0 first, and then by the constant.
fn order(row: &Row, other: &Row) -> Ordering
    ensures { result ≡ by_part_and_constant row.now other.now }
{
    for place in 0..PLACES {
        match row.affine.coef[place].cmp(&other.affine.coef[place]) {
            Ordering::Equal => {}
            apart => return apart,
        }
    }
    row.affine.constant.cmp(&other.affine.constant)
}

/// True exactly where the rows have the same coefficients.
fn has_part(row: &Row, other: &Row) -> bool
    ensures { IsTrue result ↔ IsSamePart row.now.affine other.now.affine }
{
    for place in 0..PLACES {
        if row.affine.coef[place] != other.affine.coef[place] {
            return false;
        }
    }
    true
}
