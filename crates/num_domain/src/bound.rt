//! Ends of ranges that may be missing.
ghost use Rattle.std.specs.Prelude.{◌≡◌, ◌↔◌, ℤ, ◌+ℤ◌, ◌*ℤ◌, ◌≤ℤ◌, Some};
ghost use Rattle.std.specs.Int.{int_max, int_min};
ghost use Rattle.linear_cons.specs.Bounds.{IsFrom, IsUpTo};
ghost use Rattle.num_domain.specs.Ends.{IsExactEnd, end_of, both_ends, some_end};

use num_traits::{CheckedAdd, CheckedMul};

/// One end of a range of whole numbers, which may be missing. An end that leaves the type `T` is
/// missing: the range is then wider, never narrower.
#[derive(Clone, Copy, PartialEq, Eq, Debug)]
pub enum Bound<T> {
    Without,
    At(T),
}

impl<T: Copy> Bound<T> {
    /// The end at the number, where there is one.
    pub fn of(end: Option<T>) -> Bound<T>
        ensures { some_end result ≡ end }
    {
        match end {
            None => Bound::Without,
            Some(number) => Bound::At(number),
        }
    }

    /// The number at the end.
    pub fn end(self) -> Option<T>
        ensures { result ≡ some_end self }
    {
        match self {
            Bound::Without => None,
            Bound::At(number) => Some(number),
        }
    }
}

impl<T: CheckedAdd> Bound<T> {
    /// The sum of two ends: missing where one of them is, or where the sum leaves the type.
    pub fn plus(&self, other: &Bound<T>) -> Bound<T>
        ensures { IsExactEnd T.value T.fits (both_ends ◌+ℤ◌ (end_of T.value self.now) (end_of T.value other.now)) result }
    {
        match (self, other) {
            (Bound::At(left), Bound::At(right)) => match left.checked_add(right) {
                Some(sum) => Bound::At(sum),
                None => Bound::Without,
            },
            _ => Bound::Without,
        }
    }
}

impl<T: CheckedMul> Bound<T> {
    /// The end times a number: missing where the end is, or where the product leaves the type.
    pub fn times(&self, factor: &T) -> Bound<T>
        ensures { IsExactEnd T.value T.fits (both_ends ◌*ℤ◌ (end_of T.value self.now) (Some (T.value factor.now))) result }
    {
        match self {
            Bound::At(end) => match end.checked_mul(factor) {
                Some(product) => Bound::At(product),
                None => Bound::Without,
            },
            Bound::Without => Bound::Without,
        }
    }
}

impl Bound<i128> {
    /// The lower of two lower ends: missing where one of them is.
    pub fn lesser(self, other: Bound<i128>) -> Bound<i128>
        ensures { some_end result ≡ both_ends int_min (some_end self) (some_end other) }
    {
        match (self, other) {
            (Bound::At(own), Bound::At(other)) => Bound::At(own.min(other)),
            _ => Bound::Without,
        }
    }

    /// The higher of two upper ends: missing where one of them is.
    pub fn greater(self, other: Bound<i128>) -> Bound<i128>
        ensures { some_end result ≡ both_ends int_max (some_end self) (some_end other) }
    {
        match (self, other) {
            (Bound::At(own), Bound::At(other)) => Bound::At(own.max(other)),
            _ => Bound::Without,
        }
    }

    /// The lower end that asks for `least` too.
    pub fn raised(self, least: i128) -> Bound<i128>
        ensures { (z : ℤ) → IsFrom (some_end result) z ↔ (IsFrom (some_end self) z × (least ≤ℤ z)) }
    {
        match self {
            Bound::At(lower) if least <= lower => Bound::At(lower),
            _ => Bound::At(least),
        }
    }

    /// The upper end that asks for `greatest` too.
    pub fn lowered(self, greatest: i128) -> Bound<i128>
        ensures { (z : ℤ) → IsUpTo (some_end result) z ↔ (IsUpTo (some_end self) z × (z ≤ℤ greatest)) }
    {
        match self {
            Bound::At(upper) if upper <= greatest => Bound::At(upper),
            _ => Bound::At(greatest),
        }
    }
}
