//! What an assignment does to the cells: the bounds of one place move.
ghost use Rattle.std.specs.Prelude.{◌≡◌, ◌<◌, ◌↔◌, IsTrue, length};
ghost use Rattle.num_domain.specs.Ends.{some_end};
ghost use Rattle.octagon_dom.specs.Cells.{AreCellsOf, IsExchanged, bound, exchanged, flipped, rise, shifted};
ghost use Rattle.octagon_dom.specs.Closure.{CanMove, IsClosed};

use crate::cells::{CELLS, SIGNED, are_moderate, both, is_moderate, is_negative, sum, turned};
use num_domain::Bound;

/// How far a signed place rises where the number at the place rises by at most `up` and falls by at
/// most `down`.
fn rise(place: usize, up: Bound<i128>, down: Bound<i128>, i: usize) -> Bound<i128>
    requires { place < 16 }
    ensures { some_end result ≡ rise place (some_end up) (some_end down) i }
{
    if i == 2 * place {
        up
    } else if i == 2 * place + 1 {
        down
    } else {
        Bound::At(0)
    }
}

/// True exactly where the ends don't exclude each other and they and all bounds are moderate.
fn can_move(cells: &[Bound<i128>], up: Bound<i128>, down: Bound<i128>) -> bool
    requires { length cells.now ≡ 1024 }
    ensures { IsTrue result ↔ CanMove cells.now (some_end up) (some_end down) }
{
    if is_negative(up, down) {
        return false;
    }
    let ends = both(is_moderate(up), is_moderate(down));
    both(ends, are_moderate(cells))
}

/// Moves each bound as far as its signed places move apart. With two missing ends the number at the
/// place is forgotten. True only where closed bounds stay closed.
pub(crate) fn shift(
    cells: &mut [Bound<i128>],
    place: usize,
    up: Bound<i128>,
    down: Bound<i128>,
) -> bool
    requires long { length cells.old ≡ 1024 }
    requires inside { place < 16 }
    ensures moved { AreCellsOf (shifted cells.old place (some_end up) (some_end down)) cells.new }
    ensures whole { IsTrue result → IsClosed (bound cells.old) → IsClosed (bound cells.new) }
    ensures moderate { CanMove cells.old (some_end up) (some_end down) → IsTrue result }
{
    let whole = can_move(cells, up, down);
    shift_each(cells, place, up, down);
    whole
}

/// Moves each bound as far as its signed places move apart.
fn shift_each(cells: &mut [Bound<i128>], place: usize, up: Bound<i128>, down: Bound<i128>)
    requires long { length cells.old ≡ 1024 }
    requires inside { place < 16 }
    ensures { AreCellsOf (shifted cells.old place (some_end up) (some_end down)) cells.new }
{
    for k in 0..CELLS {
        let risen = sum(rise(place, up, down, k / SIGNED), cells[k]);
        cells[k] = sum(risen, rise(place, up, down, turned(k % SIGNED)));
    }
}

/// The signed place with those of `place` exchanged.
fn exchanged(place: usize, i: usize) -> usize
    requires { i < 32 }
    ensures { result ≡ exchanged place i }
{
    if i / 2 == place { turned(i) } else { i }
}

/// Exchanges a cell with the one that it goes to, if it comes first.
fn exchange(cells: &mut [Bound<i128>], place: usize, k: usize)
    requires long { length cells.old ≡ 1024 }
    requires inside { k < 1024 }
    ensures { IsExchanged place k cells.old cells.new }
{
    let other = SIGNED * exchanged(place, k / SIGNED) + exchanged(place, k % SIGNED);
    if k < other {
        let first = cells[k];
        cells[k] = cells[other];
        cells[other] = first;
    }
}

/// Exchanges the two signed places of the place: its number becomes the negative.
pub(crate) fn flip(cells: &mut [Bound<i128>], place: usize)
    requires long { length cells.old ≡ 1024 }
    requires inside { place < 16 }
    ensures { AreCellsOf (flipped cells.old place) cells.new }
{
    for k in 0..CELLS {
        exchange(cells, place, k);
    }
}
