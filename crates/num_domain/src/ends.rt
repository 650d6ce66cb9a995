//! What ends at the places say of rows.
ghost use Rattle.std.specs.Prelude.{ℤ, List, IsTrue};
ghost use Rattle.linear_cons.specs.Bounds.{LiesIn};
ghost use Rattle.linear_cons.specs.Rows.{Meets};

use linear_cons::{Bounds, Linear, Row};

/// True only where each store between the ends meets the row: where the least value of its function over
/// them is known and not negative.
pub fn ends_imply(bounds: &Bounds, row: &Row) -> bool
    ensures { IsTrue result → (store : List ℤ) → LiesIn bounds.now store → Meets store row.now }
{
    match Linear::exactly(row.affine).least(bounds) {
        Some(least) => 0 <= least,
        None => false,
    }
}
