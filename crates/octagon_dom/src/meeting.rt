//! Several rows at once, and rows that the bounds imply.
ghost use Rattle.std.specs.Prelude.{◌≡◌, ◌<◌, ℤ, ◌-ℤ◌, List, All, IsTrue, IfSome, length};
ghost use Rattle.linear_cons.specs.Bounds.{IsUpTo};
ghost use Rattle.linear_cons.specs.Rows.{Meets};
ghost use Rattle.num_domain.specs.Ends.{some_end};
ghost use Rattle.octagon_dom.specs.Cells.{IsBelow, IsWithin, signed};
ghost use Rattle.octagon_dom.specs.Closure.{KeepsClosed};
ghost use Rattle.octagon_dom.specs.Stated.{AreMet, HoldsIn, IsBetweenTwo, MeetsStated};

use crate::cells::{SIGNED, at, both, is_moderate, is_negative, is_void, least, sum, turned};
use crate::closing::{close, meet};
use crate::ends::bounds_of;
use crate::stated::{Stated, stated_by};
use linear_cons::Row;
use num_domain::{Bound, ends_imply};

/// From so many rows on it is cheaper to enter all bounds and close once than to close after each.
const MANY: usize = 12;

/// Adds what each row states or asks for, as one after the other does. Bounds that exclude each other are left as they were entered.
/// True only where no sum left 128 bits.
pub(crate) fn meet_all(cells: &mut [Bound<i128>], rows: &[Row]) -> bool
    requires { length cells.old ≡ 1024 }
    ensures met { AreMet rows.now cells.old cells.new }
    ensures stated { All (λ row. MeetsStated row cells.new) rows.now }
    ensures whole { IsTrue result → KeepsClosed cells.old cells.new }
{
    if rows.len() < MANY {
        return meet_each(cells, rows);
    }
    enter_all(cells, rows);
    if is_void(cells) {
        return true;
    }
    let closed = close(cells);
    let whole = meet_each(cells, rows);
    both(closed, whole)
}

/// True only where each store below the cells meets the row: by one cell where the row states a bound, and else by the ends.
pub(crate) fn imply(cells: &[Bound<i128>], row: &Row) -> bool
    requires { length cells.now ≡ 1024 }
    ensures { IsTrue result → (store : List ℤ) → IsBelow cells.now store → Meets store row.now }
{
    match stated_by(row) {
        Some(stated) => is_within(at(cells, stated.high, stated.low), stated.step),
        None => ends_imply(&bounds_of(cells), row),
    }
}

/// Whether the cells and the bound that the row states contradict each other, with the twin of that bound:
/// of closed cells exactly whether they would be void after meeting the row. `None` where the row states
/// no bound, or where a sum may leave 128 bits.
pub(crate) fn exclude(cells: &[Bound<i128>], row: &Row) -> Option<bool>
    requires { length cells.now ≡ 1024 }
    ensures { IfSome result (λ out. IsTrue out → (store : List ℤ) → IsBelow cells.now store → Meets store row.now → ⊥) }
{
    let stated = stated_by(row)?;
    let up = at(cells, turned(stated.high), stated.high);
    let down = at(cells, stated.low, turned(stated.low));
    if !(is_moderate(stated.step) && is_moderate(up) && is_moderate(down)) {
        return None;
    }
    Some(oppose(cells, stated))
}

/// True only where no store below the cells keeps to the bound.
fn oppose(cells: &[Bound<i128>], stated: Stated) -> bool
    requires long { length cells.now ≡ 1024 }
    requires between { IsBetweenTwo stated }
    ensures { IsTrue result → (store : List ℤ) → IsBelow cells.now store → HoldsIn stated store → ⊥ }
{
    let (high, low, step) = (stated.high, stated.low, stated.step);
    let (from, to) = (turned(high), turned(low));
    if is_negative(step, at(cells, low, high)) {
        return true;
    }
    // The opposite of the twin has a way over the bound itself.
    let way = sum(sum(at(cells, from, high), step), at(cells, low, to));
    is_negative(step, least(at(cells, from, to), way))
}

/// True exactly where the end is there and isn't above the other one.
fn is_within(end: Bound<i128>, most: Bound<i128>) -> bool
    ensures { IsTrue result → IsWithin (some_end end) (some_end most) }
{
    match (end, most) {
        (Bound::At(end), Bound::At(most)) => end <= most,
        _ => false,
    }
}

/// Adds what each row states or asks for, one after the other. True only where no sum left 128 bits.
fn meet_each(cells: &mut [Bound<i128>], rows: &[Row]) -> bool
    requires { length cells.old ≡ 1024 }
    ensures met { AreMet rows.now cells.old cells.new }
    ensures stated { All (λ row. MeetsStated row cells.new) rows.now }
    ensures whole { IsTrue result → KeepsClosed cells.old cells.new }
{
    let mut whole = true;
    for row in rows {
        let fits = meet_unimplied(cells, row);
        whole = both(whole, fits);
    }
    whole
}

/// Adds what the row states or asks for, unless the cells imply it. True only where no sum left 128 bits.
fn meet_unimplied(cells: &mut [Bound<i128>], row: &Row) -> bool
    requires { length cells.old ≡ 1024 }
    ensures long { length cells.new ≡ 1024 }
    ensures keeps { (store : List ℤ) → IsBelow cells.old store → Meets store row.now → IsBelow cells.new store }
    ensures inside { (store : List ℤ) → IsBelow cells.new store → IsBelow cells.old store }
    ensures stated { MeetsStated row.now cells.new }
    ensures whole { IsTrue result → KeepsClosed cells.old cells.new }
{
    if imply(cells, row) {
        return true;
    }
    meet(cells, row)
}

/// Lowers the cells of the bounds that the rows state to them. They aren't closed then.
fn enter_all(cells: &mut [Bound<i128>], rows: &[Row])
    requires { length cells.old ≡ 1024 }
    ensures { AreMet rows.now cells.old cells.new }
{
    for row in rows {
        enter(cells, row);
    }
}

/// Lowers the cell of the bound that the row states, and that of its twin.
fn enter(cells: &mut [Bound<i128>], row: &Row)
    requires { length cells.old ≡ 1024 }
    ensures long { length cells.new ≡ 1024 }
    ensures keeps { (store : List ℤ) → IsBelow cells.old store → Meets store row.now → IsBelow cells.new store }
    ensures inside { (store : List ℤ) → IsBelow cells.new store → IsBelow cells.old store }
{
    if let Some(stated) = stated_by(row) {
        lower(cells, stated.high, stated.low, stated.step);
        lower(cells, turned(stated.low), turned(stated.high), stated.step);
    }
}

/// Lowers the cell of the bound on `i` less `j` to a new one.
fn lower(cells: &mut [Bound<i128>], i: usize, j: usize, step: Bound<i128>)
    requires long { length cells.old ≡ 1024 }
    requires row { i < 32 }
    requires column { j < 32 }
    ensures long { length cells.new ≡ 1024 }
    ensures keeps { (store : List ℤ) → IsBelow cells.old store → IsUpTo (some_end step) (signed store i -ℤ signed store j) → IsBelow cells.new store }
    ensures inside { (store : List ℤ) → IsBelow cells.new store → IsBelow cells.old store }
{
    let k = SIGNED * i + j;
    cells[k] = least(cells[k], step);
}
