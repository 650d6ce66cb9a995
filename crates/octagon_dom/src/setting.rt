//! What an assignment does to the cells.
ghost use Rattle.std.specs.Prelude.{◌≡◌, ◌≢◌, ◌<◌, ℤ, neg_ℤ, ◌+ℤ◌, ◌-ℤ◌, ◌/◌, IsTrue, List, length, slice_set};
ghost use Rattle.linear_cons.specs.Bounds.{Covers, IsUpTo};
ghost use Rattle.linear_cons.specs.Numbers.{number_at};
ghost use Rattle.num_domain.specs.Ends.{some_end};
ghost use Rattle.linear_cons.specs.Functions.{IsConstant};
ghost use Rattle.octagon_dom.specs.Assignments.{ComesFromAssigned, FitsEnds, HasModerateBounds, IsSimpleBeside, IsStepOf};
ghost use Rattle.octagon_dom.specs.Assignments.{SetsValue, above_terms, below_terms};
ghost use Rattle.octagon_dom.specs.Cells.{IsBelow, bound, negative_end, signed, sum_end};
ghost use Rattle.octagon_dom.specs.Closure.{IsClosed, IsClosedOrVoid};
ghost use Rattle.octagon_dom.specs.Terms.{IsOneTerm};

use crate::cells::{both, sum};
use crate::closing::state;
use crate::ends::bounds_of;
use crate::moving::{flip, shift};
use crate::stated::Stated;
use crate::terms::{Terms, terms_of};
use linear_cons::Linear;
use num_domain::Bound;

/// The negative of an end: missing where the end is, or where its negative doesn't fit.
fn negative(end: Bound<i128>) -> Bound<i128>
    ensures { some_end result ≡ negative_end (some_end end) }
{
    match end {
        Bound::At(number) => Bound::of(number.checked_neg()),
        Bound::Without => Bound::Without,
    }
}

/// Forgets the number at the place, and then bounds it from another signed place: it is at most `up`
/// above that, and at most `down` below. True only where closed bounds are closed again.
fn set_beside(
    cells: &mut [Bound<i128>],
    place: usize,
    term: usize,
    up: Bound<i128>,
    down: Bound<i128>,
) -> bool
    requires long { length cells.old ≡ 1024 }
    requires inside { place < 16 }
    requires low { term < 32 }
    requires apart { term / 2 ≢ place }
    ensures long { length cells.new ≡ 1024 }
    ensures keeps { (store : List ℤ) (z : ℤ) → length store ≡ 16 → IsBelow cells.old store → IsUpTo (some_end up) (z -ℤ signed store term)
        → IsUpTo (some_end down) (signed store term -ℤ z) → IsBelow cells.new (slice_set store place z) }
    ensures upper { (store : List ℤ) → IsBelow cells.new store → IsUpTo (some_end up) (number_at store place -ℤ signed store term) }
    ensures lower { (store : List ℤ) → IsBelow cells.new store → IsUpTo (some_end down) (signed store term -ℤ number_at store place) }
    ensures whole { IsTrue result → IsClosed (bound cells.old) → IsClosedOrVoid cells.new }
{
    let own = 2 * place;
    let moved = shift(cells, place, Bound::Without, Bound::Without);
    let upper = state(
        cells,
        Stated {
            high: own,
            low: term,
            step: up,
        },
    );
    let lower = state(
        cells,
        Stated {
            high: term,
            low: own,
            step: down,
        },
    );
    both(moved, both(upper, lower))
}

/// Forgets the number at the place, and then puts it between two ends: at most `up`, and its negative
/// at most `down`. True only where closed bounds are closed again.
fn set_between(cells: &mut [Bound<i128>], place: usize, up: Bound<i128>, down: Bound<i128>) -> bool
    requires long { length cells.old ≡ 1024 }
    requires inside { place < 16 }
    ensures long { length cells.new ≡ 1024 }
    ensures keeps { (store : List ℤ) (z : ℤ) → length store ≡ 16 → IsBelow cells.old store → IsUpTo (some_end up) z
        → IsUpTo (some_end down) (neg_ℤ z) → IsBelow cells.new (slice_set store place z) }
    ensures upper { (store : List ℤ) → IsBelow cells.new store → IsUpTo (sum_end (some_end up) (some_end up))
        (number_at store place +ℤ number_at store place) }
    ensures lower { (store : List ℤ) → IsBelow cells.new store → IsUpTo (sum_end (some_end down) (some_end down))
        (neg_ℤ (number_at store place) +ℤ neg_ℤ (number_at store place)) }
    ensures whole { IsTrue result → IsClosed (bound cells.old) → IsClosedOrVoid cells.new }
{
    let (own, other) = (2 * place, 2 * place + 1);
    let moved = shift(cells, place, Bound::Without, Bound::Without);
    let upper = state(
        cells,
        Stated {
            high: own,
            low: other,
            step: sum(up, up),
        },
    );
    let lower = state(
        cells,
        Stated {
            high: other,
            low: own,
            step: sum(down, down),
        },
    );
    both(moved, both(upper, lower))
}

/// Puts the number at the place between the least and the greatest value of the expression.
/// True only where closed bounds are closed again.
fn set_within(cells: &mut [Bound<i128>], place: usize, value: &Linear) -> bool
    requires long { length cells.old ≡ 1024 }
    requires inside { place < 16 }
    ensures long { length cells.new ≡ 1024 }
    ensures keeps { (store : List ℤ) (z : ℤ) → length store ≡ 16 → IsBelow cells.old store → Covers value.now store z
        → IsBelow cells.new (slice_set store place z) }
    ensures whole { IsTrue result → IsClosed (bound cells.old) → IsClosedOrVoid cells.new }
{
    let bounds = bounds_of(cells);
    let most = Bound::of(value.greatest(&bounds));
    let least = negative(Bound::of(value.least(&bounds)));
    set_between(cells, place, most, least)
}

/// Replaces the number at the place by those of an expression that is one signed place and a constant.
/// True only where closed bounds are closed again.
fn set_term(cells: &mut [Bound<i128>], place: usize, term: usize, value: &Linear) -> bool
    requires long { length cells.old ≡ 1024 }
    requires inside { place < 16 }
    requires one { IsOneTerm 16 value.now.affine term }
    ensures long { length cells.new ≡ 1024 }
    ensures keeps { (store : List ℤ) (z : ℤ) → length store ≡ 16 → IsBelow cells.old store → Covers value.now store z
        → IsBelow cells.new (slice_set store place z) }
    ensures sets { term / 2 ≢ place → FitsEnds value.now → SetsValue value.now place (IsBelow cells.new) }
    ensures moves { term / 2 ≡ place → HasModerateBounds cells.old → IsStepOf place value.now
        → ComesFromAssigned place value.now (IsBelow cells.old) (IsBelow cells.new) }
    ensures whole { IsTrue result → IsClosed (bound cells.old) → IsClosedOrVoid cells.new }
    ensures moderate { term / 2 ≡ place → HasModerateBounds cells.old → IsStepOf place value.now → IsTrue result }
{
    let up = above(value);
    let down = below(value);
    if term / 2 != place {
        set_beside(cells, place, term, up, down)
    } else if term == 2 * place {
        shift(cells, place, up, down)
    } else {
        flip(cells, place);
        shift(cells, place, up, down)
    }
}

/// Replaces the number at the place by those of an expression without variables.
/// True only where closed bounds are closed again.
fn set_range(cells: &mut [Bound<i128>], place: usize, value: &Linear) -> bool
    requires long { length cells.old ≡ 1024 }
    requires inside { place < 16 }
    requires none { IsConstant value.now.affine }
    ensures long { length cells.new ≡ 1024 }
    ensures keeps { (store : List ℤ) (z : ℤ) → length store ≡ 16 → IsBelow cells.old store → Covers value.now store z
        → IsBelow cells.new (slice_set store place z) }
    ensures sets { FitsEnds value.now → SetsValue value.now place (IsBelow cells.new) }
    ensures whole { IsTrue result → IsClosed (bound cells.old) → IsClosedOrVoid cells.new }
{
    set_between(cells, place, above(value), below(value))
}

/// How far the values of an expression are above those of its terms, at most.
fn above(value: &Linear) -> Bound<i128>
    ensures { some_end result ≡ above_terms value.now }
{
    sum(Bound::At(value.affine.constant), Bound::of(value.hi))
}

/// How far the values of an expression are below those of its terms, at most.
fn below(value: &Linear) -> Bound<i128>
    ensures { some_end result ≡ below_terms value.now }
{
    negative(sum(Bound::At(value.affine.constant), Bound::of(value.lo)))
}

/// Replaces the number at the place by those of the expression at the old store. True only where closed
/// bounds are closed again.
pub(crate) fn set(cells: &mut [Bound<i128>], place: usize, value: &Linear) -> bool
    requires long { length cells.old ≡ 1024 }
    requires inside { place < 16 }
    ensures long { length cells.new ≡ 1024 }
    ensures keeps { (store : List ℤ) (z : ℤ) → length store ≡ 16 → IsBelow cells.old store → Covers value.now store z
        → IsBelow cells.new (slice_set store place z) }
    ensures sets { IsSimpleBeside place value.now → SetsValue value.now place (IsBelow cells.new) }
    ensures moves { HasModerateBounds cells.old → IsStepOf place value.now
        → ComesFromAssigned place value.now (IsBelow cells.old) (IsBelow cells.new) }
    ensures whole { IsTrue result → IsClosed (bound cells.old) → IsClosedOrVoid cells.new }
    ensures moderate { HasModerateBounds cells.old → IsStepOf place value.now → IsTrue result }
{
    match terms_of(&value.affine) {
        Terms::Nothing => set_range(cells, place, value),
        Terms::One(term) => set_term(cells, place, term, value),
        Terms::Two(_, _) | Terms::Other => set_within(cells, place, value),
    }
}
