//! Products of numbers between two ends.

ghost use Rattle.std.specs.Prelude.{◌≡◌, ℤ, ◌*ℤ◌};
ghost use Rattle.std.specs.Int.{int_min, int_max};
ghost use Rattle.linear_cons.specs.Ends.{exact_end};
ghost use Rattle.linear_forms.specs.Linearising.{corners, least_of, greatest_of, square};
ghost use Rattle.linear_forms.specs.Sides.{Reaches};

use crate::linear::between;
use linear_cons::Linear;

/// A whole number, of which it is known only on which side of the 128 bits it is where it doesn't fit them.
#[derive(Clone, Copy)]
pub enum Reach {
    Below,
    At(i128),
    Above,
}

// The product, exact where it fits 128 bits.
fn exact_product(a: i128, b: i128) -> Reach
    ensures { Reaches result (a *ℤ b) }
{
    match a.checked_mul(b) {
        Some(product) => Reach::At(product),
        None if (a < 0) == (b < 0) => Reach::Above,
        None => Reach::Below,
    }
}

// The lesser of two numbers.
fn lesser(p: Reach, q: Reach) -> Reach
    ensures { (y z : ℤ) → Reaches p y → Reaches q z → Reaches result (int_min y z) }
{
    match (p, q) {
        (Reach::At(x), Reach::At(y)) => Reach::At(x.min(y)),
        (Reach::Below, _) | (_, Reach::Below) => Reach::Below,
        (Reach::Above, other) | (other, Reach::Above) => other,
    }
}

// The greater of two numbers.
fn greater(p: Reach, q: Reach) -> Reach
    ensures { (y z : ℤ) → Reaches p y → Reaches q z → Reaches result (int_max y z) }
{
    match (p, q) {
        (Reach::At(x), Reach::At(y)) => Reach::At(x.max(y)),
        (Reach::Above, _) | (_, Reach::Above) => Reach::Above,
        (Reach::Below, other) | (other, Reach::Below) => other,
    }
}

// The end that a number is.
fn known(reach: Reach) -> Option<i128>
    ensures { (z : ℤ) → Reaches reach z → result ≡ exact_end z }
{
    match reach {
        Reach::At(number) => Some(number),
        Reach::Below | Reach::Above => None,
    }
}

// The least product of a number from `a` to `b` and one from `c` to `d`.
fn least_corner(a: i128, b: i128, c: i128, d: i128) -> Option<i128>
    ensures { result ≡ exact_end (least_of (a *ℤ c) (a *ℤ d) (b *ℤ c) (b *ℤ d)) }
{
    known(lesser(
        lesser(exact_product(a, c), exact_product(a, d)),
        lesser(exact_product(b, c), exact_product(b, d)),
    ))
}

// The greatest product of a number from `a` to `b` and one from `c` to `d`.
fn greatest_corner(a: i128, b: i128, c: i128, d: i128) -> Option<i128>
    ensures { result ≡ exact_end (greatest_of (a *ℤ c) (a *ℤ d) (b *ℤ c) (b *ℤ d)) }
{
    known(greater(
        greater(exact_product(a, c), exact_product(a, d)),
        greater(exact_product(b, c), exact_product(b, d)),
    ))
}

/// The product of a number from `a` to `b` and one from `c` to `d`, where all four ends are known.
pub(crate) fn between_corners(
    a: Option<i128>,
    b: Option<i128>,
    c: Option<i128>,
    d: Option<i128>,
) -> Linear
    ensures { result ≡ corners a b c d }
{
    match (a, b, c, d) {
        (Some(a), Some(b), Some(c), Some(d)) => {
            between(least_corner(a, b, c, d), greatest_corner(a, b, c, d))
        }
        _ => between(None, None),
    }
}

// The greater square of two numbers.
fn greater_square(a: i128, b: i128) -> Option<i128>
    ensures { result ≡ exact_end (int_max (a *ℤ a) (b *ℤ b)) }
{
    known(greater(exact_product(a, a), exact_product(b, b)))
}

/// The square of a number from `a` to `b`: at least 0, and at most the greater square of the ends where both are known.
pub(crate) fn square_between(a: Option<i128>, b: Option<i128>) -> Linear
    ensures { result ≡ square a b }
{
    match (a, b) {
        (Some(a), Some(b)) => between(Some(0), greater_square(a, b)),
        _ => between(Some(0), None),
    }
}
