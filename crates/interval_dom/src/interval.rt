//! Intervals of whole numbers, with either end or without.
ghost use Rattle.std.specs.Prelude.{◌≡◌, ◌≢◌, pos};
ghost use Rattle.interval_dom.specs.Intervals.{IsHull, IsRefined, IsWidened, is_void};

use linear_cons::floor_quotient;
use num_domain::Bound;

/// The whole numbers from `lower` to `upper`, both included, as far as there are such ends.
#[derive(Clone, Copy, PartialEq, Eq, Debug)]
pub(crate) struct Interval {
    pub(crate) lower: Bound<i128>,
    pub(crate) upper: Bound<i128>,
}

impl Interval {
    /// True exactly where the ends leave no number.
    pub(crate) fn is_void(&self) -> bool
        ensures { result ≡ is_void self.now }
    {
        match (self.lower, self.upper) {
            (Bound::At(lower), Bound::At(upper)) => upper < lower,
            _ => false,
        }
    }

    /// The least interval round two.
    pub(crate) fn hull(&self, other: &Interval) -> Interval
        ensures { IsHull self.now other.now result }
    {
        Interval {
            lower: self.lower.lesser(other.lower),
            upper: self.upper.greater(other.upper),
        }
    }

    /// The interval without each end that the newer one passes.
    pub(crate) fn widened(&self, newer: &Interval) -> Interval
        ensures { IsWidened self.now newer.now result }
    {
        Interval {
            lower: match (self.lower, newer.lower) {
                (Bound::At(own), Bound::At(also)) if own <= also => Bound::At(own),
                _ => Bound::Without,
            },
            upper: match (self.upper, newer.upper) {
                (Bound::At(own), Bound::At(also)) if also <= own => Bound::At(own),
                _ => Bound::Without,
            },
        }
    }

    /// The part where `factor * z + rest` is at least 0, if the end that this gives fits.
    pub(crate) fn refined(&self, factor: i128, rest: i128) -> Interval
        requires { factor ≢ pos 0 }
        ensures { IsRefined self.now factor rest result }
    {
        let quotient = floor_quotient(rest, factor.unsigned_abs());
        if factor < 0 {
            return Interval {
                lower: self.lower,
                upper: self.upper.lowered(quotient),
            };
        }
        match quotient.checked_neg() {
            Some(least) => Interval {
                lower: self.lower.raised(least),
                upper: self.upper,
            },
            None => *self,
        }
    }
}
