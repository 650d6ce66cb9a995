//! The search for two opposed rows.
ghost use Rattle.std.specs.Prelude.{◌↔◌, IsTrue};
ghost use Rattle.linear_solve.specs.Systems.{HasOpposed, IsOpposedToOne};

use linear_cons::{PLACES, Row};
use std::cmp::Ordering;

/// True exactly where two rows of the list are opposed. Of two such rows one has a constant below 0.
pub(crate) fn has_opposed(rows: &[Row]) -> bool
    ensures { IsTrue result ↔ HasOpposed rows.now }
{
    for row in rows {
        if row.affine.constant < 0 && opposes_one(row, rows) {
            return true;
        }
    }
    false
}

/// True exactly where the row and one of the list are opposed.
pub fn opposes_one(row: &Row, rows: &[Row]) -> bool
    ensures { IsTrue result ↔ IsOpposedToOne row.now rows.now }
{
    for other in rows {
        if row.opposed(other) {
            return true;
        }
    }
    false
}

/// True only where two rows of the list are opposed, and wherever two are if the rows come in the order
/// of their coefficients: the negatives of these come in the reverse order, so one walk from both ends
/// meets each two rows with opposite coefficients.
pub(crate) fn meets_opposed(rows: &[Row]) -> bool
    ensures { IsTrue result → HasOpposed rows.now }
{
    let mut first = 0;
    let mut end = rows.len();
    while first < end {
        let row = &rows[first];
        let other = &rows[end - 1];
        match against(row, other) {
            Ordering::Less => first += 1,
            Ordering::Greater => end -= 1,
            Ordering::Equal => {
                if row.opposed(other) {
                    return true;
                }
                first += 1;
            }
        }
    }
    false
}

/// The order of the one's coefficients and the negatives of the other's.
fn against(row: &Row, other: &Row) -> Ordering {
    for place in 0..PLACES {
        let negative = match other.affine.coef[place].checked_neg() {
            Some(negative) => negative,
            None => return Ordering::Less,
        };
        match row.affine.coef[place].cmp(&negative) {
            Ordering::Equal => {}
            apart => return apart,
        }
    }
    Ordering::Equal
}
