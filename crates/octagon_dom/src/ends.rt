//! The ends at each place.
ghost use Rattle.std.specs.Prelude.{◌≡◌, ◌<◌, length};
ghost use Rattle.num_domain.specs.Ends.{some_end};
ghost use Rattle.octagon_dom.specs.Octagons.{bounds_of_cells, ends_at, lower_half, upper_half};

use crate::cells::at;
use linear_cons::{Bounds, PLACES, floor_quotient};
use num_domain::Bound;

/// Half of an upper end on twice a number.
fn upper_half(end: Bound<i128>) -> Option<i128>
    ensures { result ≡ upper_half (some_end end) }
{
    match end {
        Bound::At(twice) => Some(floor_quotient(twice, 2)),
        Bound::Without => None,
    }
}

/// Half of an upper end on twice the negative of a number.
fn lower_half(end: Bound<i128>) -> Option<i128>
    ensures { result ≡ lower_half (some_end end) }
{
    match end {
        Bound::At(twice) => Some(-floor_quotient(twice, 2)),
        Bound::Without => None,
    }
}

/// The ends at a place.
fn ends_at(cells: &[Bound<i128>], place: usize) -> (Option<i128>, Option<i128>)
    requires long { length cells.now ≡ 1024 }
    requires inside { place < 16 }
    ensures { result ≡ ends_at cells.now place }
{
    let (up, down) = (2 * place, 2 * place + 1);
    (
        lower_half(at(cells, down, up)),
        upper_half(at(cells, up, down)),
    )
}

/// The ends at each place.
pub(crate) fn bounds_of(cells: &[Bound<i128>]) -> Bounds
    requires { length cells.now ≡ 1024 }
    ensures { result ≡ bounds_of_cells cells.now }
{
    let mut ends = [(None, None); PLACES];
    for place in 0..PLACES {
        ends[place] = ends_at(cells, place);
    }
    Bounds { ends }
}
