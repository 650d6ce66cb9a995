//! New bounds on cells, which are closed again.
ghost use Rattle.std.specs.Prelude.{◌≡◌, ◌<◌, ◌≤◌, ◌^◌, ℕ, ℤ, IsTrue, List, length, unsigned_abs};
ghost use Rattle.num_domain.specs.Ends.{some_end};
ghost use Rattle.linear_cons.specs.Bounds.{LiesIn};
ghost use Rattle.linear_cons.specs.Rows.{Meets};
ghost use Rattle.octagon_dom.specs.Cells.{IsBelow, bound};
ghost use Rattle.octagon_dom.specs.Closure.{ArePassed, AreSized, ClosesRow, EntersClosed, IsClosed, IsClosedOrVoid, IsSizedEnd, KeepsClosed};
ghost use Rattle.octagon_dom.specs.Stated.{AreEntered, HoldsIn, IsBetweenTwo, IsHalfSized};
ghost use Rattle.octagon_dom.specs.Terms.{IsOctagonal};

use crate::cells::{SIGNED, both, shorten, turned};
use crate::ends::bounds_of;
use crate::stated::{Stated, implied, stated_by};
use linear_cons::{Bounds, PLACES, Row};
use num_domain::Bound;

/// Makes each bound the smaller of itself and its way over the other ones: on bounds that are not yet
/// closed, as after a widening. True only where no sum left 128 bits.
pub(crate) fn close(cells: &mut [Bound<i128>]) -> bool
    requires { length cells.old ≡ 1024 }
    ensures long { length cells.new ≡ 1024 }
    ensures keeps { (store : List ℤ) → IsBelow cells.old store → IsBelow cells.new store }
    ensures inside { (store : List ℤ) → IsBelow cells.new store → IsBelow cells.old store }
    ensures stays { IsClosed (bound cells.old) → (i j : ℕ) → i < 32 → j < 32 → bound cells.new i j ≡ bound cells.old i j }
    ensures passes { ArePassed cells.old 32 cells.new }
    ensures whole { IsTrue result → IsClosedOrVoid cells.new }
{
    let mut whole = true;
    for k in 0..SIGNED {
        let fits = shorten(cells, k, k, Bound::At(0));
        whole = both(whole, fits);
    }
    whole
}

/// Adds the bound and its twin, and closes closed cells again. True only where no sum left 128 bits.
pub(crate) fn state(cells: &mut [Bound<i128>], stated: Stated) -> bool
    requires long { length cells.old ≡ 1024 }
    requires between { IsBetweenTwo stated }
    ensures long { length cells.new ≡ 1024 }
    ensures keeps { (store : List ℤ) → IsBelow cells.old store → HoldsIn stated store → IsBelow cells.new store }
    ensures inside { (store : List ℤ) → IsBelow cells.new store → IsBelow cells.old store }
    ensures met { (store : List ℤ) → IsBelow cells.new store → HoldsIn stated store }
    ensures entered { AreEntered cells.old stated cells.new }
    ensures closes { EntersClosed cells.old stated cells.new }
    ensures whole { IsTrue result → KeepsClosed cells.old cells.new }
    ensures sized { AreSized (2 ^ 123) cells.old → IsSizedEnd (2 ^ 123) (some_end stated.step) → IsTrue result }
{
    let own = shorten(cells, stated.high, stated.low, stated.step);
    let twin = shorten(cells, turned(stated.low), turned(stated.high), stated.step);
    both(own, twin)
}

/// Adds the bound that a row asks for at a place, where the other places are in the bounds. True only
/// where no sum left 128 bits.
fn refine_at(cells: &mut [Bound<i128>], row: &Row, bounds: &Bounds, place: usize) -> bool
    requires long { length cells.old ≡ 1024 }
    requires inside { place < 16 }
    ensures long { length cells.new ≡ 1024 }
    ensures keeps { (store : List ℤ) → IsBelow cells.old store → LiesIn bounds.now store → Meets store row.now → IsBelow cells.new store }
    ensures inside { (store : List ℤ) → IsBelow cells.new store → IsBelow cells.old store }
    ensures whole { IsTrue result → KeepsClosed cells.old cells.new }
{
    match implied(row, bounds, place) {
        Some(stated) => state(cells, stated),
        None => true,
    }
}

/// Adds at each place the bound that a row asks for where its other terms have their greatest value.
/// True only where no sum left 128 bits.
fn refine(cells: &mut [Bound<i128>], row: &Row) -> bool
    requires { length cells.old ≡ 1024 }
    ensures long { length cells.new ≡ 1024 }
    ensures keeps { (store : List ℤ) → IsBelow cells.old store → Meets store row.now → IsBelow cells.new store }
    ensures inside { (store : List ℤ) → IsBelow cells.new store → IsBelow cells.old store }
    ensures whole { IsTrue result → KeepsClosed cells.old cells.new }
{
    let before = bounds_of(cells);
    let mut whole = true;
    for place in 0..PLACES {
        let fits = refine_at(cells, row, &before, place);
        whole = both(whole, fits);
    }
    whole
}

/// Adds the bound that the row states, or those that it asks for where its other terms have their
/// greatest value. True only where no sum left 128 bits.
pub(crate) fn meet(cells: &mut [Bound<i128>], row: &Row) -> bool
    requires { length cells.old ≡ 1024 }
    ensures long { length cells.new ≡ 1024 }
    ensures keeps { (store : List ℤ) → IsBelow cells.old store → Meets store row.now → IsBelow cells.new store }
    ensures inside { (store : List ℤ) → IsBelow cells.new store → IsBelow cells.old store }
    ensures met { IsOctagonal row.now.affine → IsHalfSized row.now.affine.constant → (store : List ℤ) → IsBelow cells.new store
        → Meets store row.now }
    ensures closes { IsOctagonal row.now.affine → ClosesRow row.now cells.old cells.new }
    ensures whole { IsTrue result → KeepsClosed cells.old cells.new }
    ensures sized { IsOctagonal row.now.affine → AreSized (2 ^ 123) cells.old → unsigned_abs row.now.affine.constant ≤ 2 ^ 122 → IsTrue result }
{
    match stated_by(row) {
        Some(stated) => state(cells, stated),
        None => refine(cells, row),
    }
}
