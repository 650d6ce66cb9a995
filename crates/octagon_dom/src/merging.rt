//! Two matrices of the same size, cell by cell.
ghost use Rattle.std.specs.Prelude.{◌≡◌, length};
ghost use Rattle.num_domain.specs.Ends.{some_end};
ghost use Rattle.octagon_dom.specs.Cells.{AreCellsOf, joined, stable_end, widened};

use crate::cells::CELLS;
use num_domain::Bound;

/// The own end where the newer one doesn't pass it, and else none.
fn stable(own: Bound<i128>, newer: Bound<i128>) -> Bound<i128>
    ensures { some_end result ≡ stable_end (some_end own) (some_end newer) }
{
    match (own, newer) {
        (Bound::At(end), Bound::At(also)) => { if end < also { Bound::Without } else { own } }
        _ => Bound::Without,
    }
}

/// Makes each cell the greater of the two.
pub(crate) fn join(cells: &mut [Bound<i128>], other: &[Bound<i128>])
    requires own { length cells.old ≡ 1024 }
    requires others { length other.now ≡ 1024 }
    ensures { AreCellsOf (joined cells.old other.now) cells.new }
{
    for k in 0..CELLS {
        cells[k] = cells[k].greater(other[k]);
    }
}

/// Drops each cell that the newer one passes.
pub(crate) fn widen(cells: &mut [Bound<i128>], newer: &[Bound<i128>])
    requires own { length cells.old ≡ 1024 }
    requires newer { length newer.now ≡ 1024 }
    ensures { AreCellsOf (widened cells.old newer.now) cells.new }
{
    for k in 0..CELLS {
        cells[k] = stable(cells[k], newer[k]);
    }
}
