//! The matrix of bounds on differences of signed places, in one flat list of cells.
ghost use Rattle.std.specs.Prelude.{◌≡◌, ◌≢◌, ◌↔◌, ℕ, ◌+◌, ◌*◌, ◌/◌, ◌<◌, IsTrue, true, false, length};
ghost use Rattle.num_domain.specs.Ends.{some_end};
ghost use Rattle.octagon_dom.specs.Assignments.{HasModerateBounds};
ghost use Rattle.octagon_dom.specs.Closure.{IsModerateAt, IsModerateEnd, SumsFit};
ghost use Rattle.octagon_dom.specs.Cells.{AreCellsOf, bound, cell, is_negative, is_void, least_end, sum_end, tightened, turned};

use num_domain::Bound;

/// Two signed places for each of the sixteen places: its number, and the negative of that.
pub(crate) const SIGNED: usize = 32;

/// One bound for each pair of signed places.
pub(crate) const CELLS: usize = 1024;

/// The greatest size of a number of which three sum to one that fits.
const MODERATE: u128 = 1 << 125;

/// The other signed place of the same place.
pub(crate) fn turned(i: usize) -> usize
    requires { i < 32 }
    ensures { result ≡ turned i }
{
    if i % 2 == 0 { i + 1 } else { i - 1 }
}

/// The bound on the signed place `i` less the signed place `j`.
pub(crate) fn at(cells: &[Bound<i128>], i: usize, j: usize) -> Bound<i128>
    requires long { length cells.now ≡ 1024 }
    requires row { i < 32 }
    requires column { j < 32 }
    ensures { some_end result ≡ bound cells.now i j }
{
    if i == j {
        Bound::At(0)
    } else {
        cells[SIGNED * i + j]
    }
}

/// The sum of two ends: missing where one of them is, or where the sum doesn't fit.
pub(crate) fn sum(left: Bound<i128>, right: Bound<i128>) -> Bound<i128>
    ensures { some_end result ≡ sum_end (some_end left) (some_end right) }
{
    left.plus(&right)
}

/// The smaller of two upper ends: a missing one is greater than every number.
pub(crate) fn least(left: Bound<i128>, right: Bound<i128>) -> Bound<i128>
    ensures { some_end result ≡ least_end (some_end left) (some_end right) }
{
    match (left, right) {
        (Bound::At(own), Bound::At(other)) => Bound::At(own.min(other)),
        (Bound::Without, _) => right,
        (Bound::At(_), Bound::Without) => left,
    }
}

/// True exactly where the two ends sum below 0.
pub(crate) fn is_negative(left: Bound<i128>, right: Bound<i128>) -> bool
    ensures { result ≡ is_negative (some_end left) (some_end right) }
{
    match (left, right) {
        (Bound::At(left), Bound::At(right)) => left <= !right,
        _ => false,
    }
}

/// True exactly where both are.
pub(crate) fn both(one: bool, other: bool) -> bool
    ensures all { IsTrue one → IsTrue other → IsTrue result }
    ensures one { IsTrue result → IsTrue one }
    ensures other { IsTrue result → IsTrue other }
{
    one && other
}

/// True exactly where the end is missing or its number is at most 2^125 in size.
pub(crate) fn is_moderate(end: Bound<i128>) -> bool
    ensures only { IsTrue result → IsModerateEnd (some_end end) }
    ensures each { IsModerateEnd (some_end end) → IsTrue result }
{
    match end {
        Bound::At(number) => number.unsigned_abs() <= MODERATE,
        Bound::Without => true,
    }
}

/// True exactly where each bound from and to the signed place is moderate.
fn is_moderate_at(cells: &[Bound<i128>], i: usize) -> bool
    requires long { length cells.now ≡ 1024 }
    requires inside { i < 32 }
    ensures { IsTrue result ↔ IsModerateAt (bound cells.now) i }
{
    for a in 0..SIGNED {
        let from = is_moderate(at(cells, a, i));
        let to = is_moderate(at(cells, i, a));
        if !both(from, to) {
            return false;
        }
    }
    true
}

/// True exactly where each bound is moderate.
pub(crate) fn are_moderate(cells: &[Bound<i128>]) -> bool
    requires { length cells.now ≡ 1024 }
    ensures { IsTrue result ↔ HasModerateBounds cells.now }
{
    for i in 0..SIGNED {
        if !is_moderate_at(cells, i) {
            return false;
        }
    }
    true
}

/// The bounds of each signed place less `i`, and a step after that.
fn column(cells: &[Bound<i128>], i: usize, step: Bound<i128>) -> [Bound<i128>; 32]
    requires long { length cells.now ≡ 1024 }
    requires inside { i < 32 }
    ensures long { length result ≡ 32 }
    ensures each { (a : ℕ) → a < 32 → cell result a ≡ sum_end (bound cells.now a i) (some_end step) }
{
    let mut ways = [Bound::Without; SIGNED];
    for a in 0..SIGNED {
        ways[a] = sum(at(cells, a, i), step);
    }
    ways
}

/// The bounds of `j` less each signed place.
fn line(cells: &[Bound<i128>], j: usize) -> [Bound<i128>; 32]
    requires long { length cells.now ≡ 1024 }
    requires inside { j < 32 }
    ensures long { length result ≡ 32 }
    ensures each { (b : ℕ) → b < 32 → cell result b ≡ bound cells.now j b }
{
    let mut ways = [Bound::Without; SIGNED];
    for b in 0..SIGNED {
        ways[b] = at(cells, j, b);
    }
    ways
}

/// Makes each bound on `a` the smaller of itself and a way from there, on by a bound of `out`.
fn shorten_line(cells: &mut [Bound<i128>], a: usize, way: Bound<i128>, out: &[Bound<i128>; 32])
    requires long { length cells.old ≡ 1024 }
    requires inside { a < 32 }
    ensures long { length cells.new ≡ 1024 }
    ensures line { (b : ℕ) → b < 32 → cell cells.new (32 * a + b) ≡ least_end (cell cells.old (32 * a + b)) (sum_end (some_end way) (cell out.now b)) }
    ensures others { (k : ℕ) → k / 32 ≢ a → cell cells.new k ≡ cell cells.old k }
{
    for b in 0..SIGNED {
        let k = SIGNED * a + b;
        cells[k] = least(cells[k], sum(way, out[b]));
    }
}

/// Makes each cell the smaller of itself and the way over a new bound on `i` less `j`. The bounds on a
/// signed place from which none leads to `i` stay, so that the cost goes by the places in use.
fn tighten(cells: &mut [Bound<i128>], i: usize, j: usize, step: Bound<i128>)
    requires long { length cells.old ≡ 1024 }
    requires row { i < 32 }
    requires column { j < 32 }
    ensures { AreCellsOf (tightened cells.old i j (some_end step)) cells.new }
{
    let into = column(cells, i, step);
    let out = line(cells, j);
    for a in 0..SIGNED {
        if let Bound::At(_) = into[a] {
            shorten_line(cells, a, into[a], &out);
        }
    }
}

/// Does so, and is true only where no sum leaves 128 bits.
pub(crate) fn shorten(cells: &mut [Bound<i128>], i: usize, j: usize, step: Bound<i128>) -> bool
    requires long { length cells.old ≡ 1024 }
    requires row { i < 32 }
    requires column { j < 32 }
    ensures cells { AreCellsOf (tightened cells.old i j (some_end step)) cells.new }
    ensures whole { IsTrue result → SumsFit (bound cells.old) i j (some_end step) }
    ensures moderate { IsModerateEnd (some_end step) → IsModerateAt (bound cells.old) i → IsModerateAt (bound cells.old) j → IsTrue result }
{
    let here = is_moderate_at(cells, i);
    let there = is_moderate_at(cells, j);
    let moderate = is_moderate(step);
    tighten(cells, i, j, step);
    both(moderate, both(here, there))
}

/// True exactly where the bound on `i` less an earlier signed place contradicts its opposite, which isn't
/// looked at where the bound is missing.
fn contradicts(cells: &[Bound<i128>], i: usize, j: usize) -> bool
    requires long { length cells.now ≡ 1024 }
    requires inside { i < 32 }
    requires earlier { j < i }
    ensures { result ≡ is_negative (bound cells.now i j) (bound cells.now j i) }
{
    let own = cells[SIGNED * i + j];
    match own {
        Bound::At(_) => is_negative(own, cells[SIGNED * j + i]),
        Bound::Without => false,
    }
}

/// True exactly where the bound on `i` less some earlier signed place contradicts its opposite.
fn is_void_at(cells: &[Bound<i128>], i: usize) -> bool
    requires long { length cells.now ≡ 1024 }
    requires inside { i < 32 }
    ensures some { IsTrue result → (j : ℕ) × (j < i) × (is_negative (bound cells.now i j) (bound cells.now j i) ≡ true) }
    ensures none { result ≡ false → (j : ℕ) → j < i → is_negative (bound cells.now i j) (bound cells.now j i) ≡ false }
{
    for j in 0..i {
        if contradicts(cells, i, j) {
            return true;
        }
    }
    false
}

/// True exactly where some cell contradicts its opposite. Of each two the later one is asked.
pub(crate) fn is_void(cells: &[Bound<i128>]) -> bool
    requires { length cells.now ≡ 1024 }
    ensures { result ≡ is_void cells.now }
{
    for i in 0..SIGNED {
        if is_void_at(cells, i) {
            return true;
        }
    }
    false
}
