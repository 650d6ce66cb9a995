//! Rows that settle, by their linear parts alone, whether another holds.
ghost use Rattle.std.specs.Prelude.{◌≡◌};
ghost use Rattle.linear_cons.specs.Functions.{complement_of};
ghost use Rattle.linear_cons.specs.Settling.{functions_of_rows, settled, settles};

use crate::row::Row;

/// Whether the rows settle one more: it holds where one of them has its coefficients and a constant not
/// greater, and fails where one of them is opposed to it. Rows that do both are met nowhere; of these the
/// row is said to hold.
pub fn settles(rows: &[Row], row: &Row) -> Option<bool>
    ensures { result ≡ settles rows.now row.now }
{
    if tell(rows, row) {
        Some(true)
    } else if oppose(rows, row) {
        Some(false)
    } else {
        None
    }
}

/// True exactly where one of the rows tells the row.
fn tell(rows: &[Row], row: &Row) -> bool
    ensures { result ≡ settled (functions_of_rows rows.now) row.now.affine }
{
    for given in rows {
        if given.tells(row) {
            return true;
        }
    }
    false
}

/// True exactly where one of the rows is opposed to the row, and so tells its complement.
fn oppose(rows: &[Row], row: &Row) -> bool
    ensures { result ≡ settled (functions_of_rows rows.now) (complement_of row.now.affine) }
{
    for given in rows {
        if given.refutes(row) {
            return true;
        }
    }
    false
}
