//! Ends of values over bounds.
ghost use Rattle.std.specs.Prelude.{◌≡◌, ◌+ℤ◌, ◌-ℤ◌, ◌*ℤ◌};
ghost use Rattle.linear_cons.specs.Ends.{ends_from, exact_end, scaled_end, term_end};

use crate::affine::{Affine, PLACES};
use crate::bounds::{Bounds, Linear};

/// The end that the exact sum is.
#[tactic(auto, using(crate::proofs::KnownEnds::end_is))]
fn sum(a: i128, b: i128) -> Option<i128>
    ensures { result ≡ exact_end (a +ℤ b) }
{
    a.checked_add(b)
}

/// The end that the exact difference is.
#[tactic(auto, using(crate::proofs::KnownEnds::end_is))]
fn difference(a: i128, b: i128) -> Option<i128>
    ensures { result ≡ exact_end (a -ℤ b) }
{
    a.checked_sub(b)
}

/// The end that the exact product is.
#[tactic(auto, using(crate::proofs::KnownEnds::end_is))]
fn multiple(a: i128, b: i128) -> Option<i128>
    ensures { result ≡ exact_end (a *ℤ b) }
{
    a.checked_mul(b)
}

/// The sum of two ends, where both are known and their sum fits 128 bits.
pub fn end_sum(a: Option<i128>, b: Option<i128>) -> Option<i128>
    ensures { result ≡ ends_from (λ s t. s +ℤ t) a b }
{
    match (a, b) {
        (Some(a), Some(b)) => sum(a, b),
        _ => None,
    }
}

/// The difference of two ends, where both are known and it fits 128 bits.
pub fn end_difference(a: Option<i128>, b: Option<i128>) -> Option<i128>
    ensures { result ≡ ends_from (λ s t. s -ℤ t) a b }
{
    match (a, b) {
        (Some(a), Some(b)) => difference(a, b),
        _ => None,
    }
}

/// The end of a number times the factor, where `own` is its end of the same side and `other` that of the other side.
pub fn end_multiple(factor: i128, own: Option<i128>, other: Option<i128>) -> Option<i128>
    ensures { result ≡ scaled_end factor own other }
{
    let end = if factor < 0 { other } else { own };
    match end {
        Some(end) => multiple(end, factor),
        None => None,
    }
}

/// The end of a term, whose place has the ends `own` and `other`.
fn end_of_term(coefficient: i128, own: Option<i128>, other: Option<i128>) -> Option<i128>
    ensures { result ≡ term_end coefficient own other }
{
    if coefficient == 0 {
        Some(0)
    } else {
        end_multiple(coefficient, own, other)
    }
}

impl Linear {
    ghost use Rattle.linear_cons.specs.Ends.{exactly, greatest_value, least_value};

    /// Exactly the function.
    pub fn exactly(affine: Affine) -> Linear
        ensures { result ≡ exactly affine }
    {
        Linear {
            affine,
            lo: Some(0),
            hi: Some(0),
        }
    }

    /// The least value over the bounds, where it and each number on the way to it fits 128 bits.
    pub fn least(&self, bounds: &Bounds) -> Option<i128>
        ensures { result ≡ least_value self.now bounds.now }
    {
        let mut end = Some(0);
        for place in 0..PLACES {
            let (lower, upper) = bounds.ends[place];
            end = end_sum(end, end_of_term(self.affine.coef[place], lower, upper));
        }
        end_sum(end_sum(end, Some(self.affine.constant)), self.lo)
    }

    /// The greatest value over the bounds, where it and each number on the way to it fits 128 bits.
    pub fn greatest(&self, bounds: &Bounds) -> Option<i128>
        ensures { result ≡ greatest_value self.now bounds.now }
    {
        let mut end = Some(0);
        for place in 0..PLACES {
            let (lower, upper) = bounds.ends[place];
            end = end_sum(end, end_of_term(self.affine.coef[place], upper, lower));
        }
        end_sum(end_sum(end, Some(self.affine.constant)), self.hi)
    }
}
