//! Functions that a value is at least, or at most; `None` where there is none, or a number of it doesn't fit 128 bits.
ghost use Rattle.std.specs.Prelude.{◌≡◌, ◌*ℤ◌, OkIff};
ghost use Rattle.linear_cons.specs.Ends.{exact_end};
ghost use Rattle.linear_cons.specs.Functions.{NumbersFit};
ghost use Rattle.linear_cons.specs.declared.affine.Affine.{Affine as AffineFunction};
ghost use Rattle.linear_forms.specs.Spreading as spreading;
ghost use Rattle.quotient_cases.specs.CaseEnds as ends;

use linear_cons::{Affine, Wide};

/// The function that was made, where its numbers fit 128 bits.
fn fitting(function: Result<Affine, Wide>) -> Option<Affine>
    ensures { (a : AffineFunction) → OkIff function (NumbersFit a) a → result ≡ spreading.fitting a }
{
    match function {
        Ok(affine) => Some(affine),
        Err(_) => None,
    }
}

/// The function times the factor.
pub(crate) fn scaled(factor: i128, end: Option<Affine>) -> Option<Affine>
    ensures { result ≡ ends.scaled factor end }
{
    match end {
        Some(function) => fitting(function.scale(factor)),
        None => None,
    }
}

/// The sum of both functions.
pub(crate) fn added(first: Option<Affine>, second: Option<Affine>) -> Option<Affine>
    ensures { result ≡ ends.added first second }
{
    match (first, second) {
        (Some(first), Some(second)) => fitting(first.add(&second)),
        _ => None,
    }
}

/// The first function less the second.
pub(crate) fn lessened(first: Option<Affine>, second: Option<Affine>) -> Option<Affine>
    ensures { result ≡ ends.lessened first second }
{
    match (first, second) {
        (Some(first), Some(second)) => fitting(first.sub(&second)),
        _ => None,
    }
}

/// The function plus the number, where that is known.
pub(crate) fn raised(number: Option<i128>, end: Option<Affine>) -> Option<Affine>
    ensures { result ≡ ends.raised number end }
{
    match (number, end) {
        (Some(number), Some(function)) => fitting(function.plus(number)),
        _ => None,
    }
}

/// The product, where it fits 128 bits.
#[tactic(auto, using(linear_cons::proofs::KnownEnds::end_is))]
pub(crate) fn product(number: i128, other: i128) -> Option<i128>
    ensures { result ≡ exact_end (number *ℤ other) }
{
    number.checked_mul(other)
}
