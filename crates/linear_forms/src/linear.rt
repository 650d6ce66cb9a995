//! Linear forms of number expressions.

ghost use Rattle.std.specs.Prelude.{◌≡◌, OkIff, IfErr, ◌&&◌, int_div};
ghost use Rattle.std.specs.Int.{IsNonZero, w128};
ghost use Rattle.linear_cons.specs.Ends.{exact_end};
ghost use Rattle.step_meaning.specs.Syntax.{expression};
ghost use Rattle.step_meaning.specs.Naming.{NamesBelow};
ghost use Rattle.step_meaning.specs.AffineExpressions.{IsAffine, ExpressionFits};
ghost use Rattle.linear_cons.specs.declared.affine.Affine.{Affine as AffineFunction};
ghost use Rattle.linear_cons.specs.Exact.{IsOutside};
ghost use Rattle.linear_cons.specs.Functions.{NumbersFit};
ghost use Rattle.linear_forms.specs.Linearising as forms;
ghost use Rattle.step_meaning.specs.Countdown.{form_of};

use crate::product::{between_corners, square_between};
use linear_cons::{Affine, Bounds, Linear, Wide, end_difference, end_multiple, end_sum};
use step_meaning::{Expr, Op2};

/// The exact function of an affine number expression whose names are below 16. `Wide` comes exactly where one of the calls on the
/// functions of its operands answers it, operands first and left first: the sum, the difference, the multiple by the factor without
/// names, or by -1 for a negation.
pub fn affine_of(expr: &Expr) -> Result<Affine, Wide>
    requires affine { IsAffine (expression expr.now) }
    requires names { NamesBelow 16 (expression expr.now) }
    ensures exact { OkIff result (ExpressionFits (expression expr.now)) (form_of (expression expr.now)) }
    ensures wide { IfErr result IsOutside }
{
    match expr {
        Expr::Number(number) => Ok(Affine::constant(*number as i128)),
        Expr::Name(place) => Ok(Affine::var(*place)),
        Expr::Neg(operand) => affine_of(operand)?.scale(-1),
        Expr::Pair { op, left, right } => {
            let left = affine_of(left)?;
            let right = affine_of(right)?;
            match op {
                Op2::Add => left.add(&right),
                Op2::Sub => left.sub(&right),
                Op2::Mul if is_constant(&left) => right.scale(left.constant),
                Op2::Mul => left.scale(right.constant),
                _ => unreachable!(),
            }
        }
        _ => unreachable!(),
    }
}

/// The linear form of a number expression over bounds, each name below 16: for each store in the bounds, each number that the
/// expression may have there is the function's value plus a number between the two ends. It is exact, both ends 0, for an affine
/// expression whose numbers fit, and its function mentions only places that the expression names.
///
/// Sums, differences, negations and products with a number are those of the forms. The product of two equal exact forms is at least 0
/// and at most the greater square of the ends over the bounds; any other lies between the least and the greatest product of the ends
/// of its factors over the bounds, where all four are known. Where a number of the function doesn't fit 128 bits, nothing is known; an
/// end isn't where it, or a number on the way to it, doesn't.
pub fn linearise(expr: &Expr, bounds: &Bounds) -> Linear
    requires { NamesBelow 16 (expression expr.now) }
    ensures { result ≡ forms.linear_of bounds.now (expression expr.now) }
{
    match expr {
        Expr::Number(number) => Linear::exactly(Affine::constant(*number as i128)),
        Expr::Name(place) => Linear::exactly(Affine::var(*place)),
        Expr::Range { lo, hi } => between(wide_end(*lo), wide_end(*hi)),
        Expr::Neg(operand) => scaled(&linearise(operand, bounds), -1),
        Expr::Quot { of, by } => {
            let of = linearise(of, bounds);
            quotient(of.least(bounds), of.greatest(bounds), *by)
        }
        Expr::Rem { of, by } => {
            let of = linearise(of, bounds);
            remainder(of.least(bounds), of.greatest(bounds), *by)
        }
        Expr::Pair { op, left, right } => {
            let left = linearise(left, bounds);
            let right = linearise(right, bounds);
            match op {
                Op2::Add => total(&left, &right),
                Op2::Sub => lessened(&left, &right),
                Op2::Mul => product(&left, &right, bounds),
                _ => between(None, None),
            }
        }
        _ => between(None, None),
    }
}

// A quotient of a number between two ends.
fn quotient(lo: Option<i128>, hi: Option<i128>, by: i64) -> Linear
    ensures { result ≡ forms.quotient_form lo hi by }
{
    if by < 0 {
        between(quotient_end(hi, by), quotient_end(lo, by))
    } else {
        between(quotient_end(lo, by), quotient_end(hi, by))
    }
}

// The quotient of an end, where it is known and fits.
fn quotient_end(end: Option<i128>, by: i64) -> Option<i128>
    ensures { result ≡ forms.quotient_end end by }
{
    match end {
        Some(end) => {
            if by == 0 {
                None
            } else {
                divided(end, by as i128)
            }
        }
        None => None,
    }
}

// The quotient, where it fits.
fn divided(end: i128, by: i128) -> Option<i128>
    requires { IsNonZero w128 by }
    ensures { result ≡ exact_end (int_div end by) }
{
    end.checked_div(by)
}

// What a division of a number between two ends leaves.
fn remainder(lo: Option<i128>, hi: Option<i128>, by: i64) -> Linear
    ensures { result ≡ forms.remainder_form lo hi by }
{
    between(Some(least_left(lo, by)), Some(most_left(hi, by)))
}

// The least that is left.
fn least_left(lo: Option<i128>, by: i64) -> i128
    ensures { result ≡ forms.least_left lo by }
{
    let size = by.unsigned_abs() as i128;
    match lo {
        Some(lo) => { if lo < 0 { 1 - size } else { 0 } }
        None => 1 - size,
    }
}

// The most that is left.
fn most_left(hi: Option<i128>, by: i64) -> i128
    ensures { result ≡ forms.most_left hi by }
{
    let size = by.unsigned_abs() as i128;
    match hi {
        Some(hi) => { if 0 < hi { size - 1 } else { 0 } }
        None => size - 1,
    }
}

/// Nothing but a number between two ends.
pub(crate) fn between(lo: Option<i128>, hi: Option<i128>) -> Linear
    ensures { result ≡ forms.between lo hi }
{
    Linear {
        affine: Affine::constant(0),
        lo,
        hi,
    }
}

// The same end in more bits.
fn wide_end(end: Option<i64>) -> Option<i128>
    ensures { result ≡ end }
{
    match end {
        Some(end) => Some(end as i128),
        None => None,
    }
}

// True exactly where no variable occurs.
fn is_constant(function: &Affine) -> bool
    ensures { result ≡ forms.is_constant function.now }
{
    *function == Affine::constant(function.constant)
}

// True exactly where the end is known and is 0.
fn is_nought(end: Option<i128>) -> bool
    ensures { result ≡ forms.is_nought end }
{
    match end {
        Some(end) => end == 0,
        None => false,
    }
}

// True exactly where nothing is left out.
fn is_exact(form: &Linear) -> bool
    ensures { result ≡ forms.is_exact form.now }
{
    is_nought(form.lo) && is_nought(form.hi)
}

// The function with the two ends, or any number where one of the function's numbers doesn't fit 128 bits.
fn with_ends(function: Result<Affine, Wide>, lo: Option<i128>, hi: Option<i128>) -> Linear
    ensures { (a : AffineFunction) → OkIff function (NumbersFit a) a → result ≡ forms.with_ends a lo hi }
{
    match function {
        Ok(affine) => Linear { affine, lo, hi },
        Err(_) => between(None, None),
    }
}

fn total(left: &Linear, right: &Linear) -> Linear
    ensures { result ≡ forms.total left.now right.now }
{
    with_ends(
        left.affine.add(&right.affine),
        end_sum(left.lo, right.lo),
        end_sum(left.hi, right.hi),
    )
}

fn lessened(left: &Linear, right: &Linear) -> Linear
    ensures { result ≡ forms.lessened left.now right.now }
{
    with_ends(
        left.affine.sub(&right.affine),
        end_difference(left.lo, right.hi),
        end_difference(left.hi, right.lo),
    )
}

fn scaled(form: &Linear, factor: i128) -> Linear
    ensures { result ≡ forms.scaled form.now factor }
{
    with_ends(
        form.affine.scale(factor),
        end_multiple(factor, form.lo, form.hi),
        end_multiple(factor, form.hi, form.lo),
    )
}

fn product(left: &Linear, right: &Linear, bounds: &Bounds) -> Linear
    ensures { result ≡ forms.product bounds.now left.now right.now }
{
    if is_exact(left) && is_constant(&left.affine) {
        scaled(right, left.affine.constant)
    } else if is_exact(right) && is_constant(&right.affine) {
        scaled(left, right.affine.constant)
    } else if is_exact(left) && is_exact(right) && left.affine == right.affine {
        square_between(left.least(bounds), left.greatest(bounds))
    } else {
        between_corners(
            left.least(bounds),
            left.greatest(bounds),
            right.least(bounds),
            right.greatest(bounds),
        )
    }
}
