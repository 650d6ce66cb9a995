//! The affine functions that expressions are.

ghost use Rattle.std.specs.Prelude.{◌≡◌, ◌-◌, ◌^◌, ◌↔◌, min, Result, IsTrue, SomeIff, OkIff};
ghost use Rattle.linear_cons.specs.declared.affine.Affine.{Affine as AffineFunction};
ghost use Rattle.linear_cons.specs.Functions.{NumbersFit, variable_at};
ghost use Rattle.step_meaning.specs.Syntax.{expression};
ghost use Rattle.step_meaning.specs.Naming.{HasNoName};
ghost use Rattle.step_meaning.specs.AffineExpressions.{ExpressionFits, IsAffine};
ghost use Rattle.step_meaning.specs.Countdown.{form_of};
ghost use Rattle.linear_cons.specs.Sizes.{total_size};

use crate::expression::{Expr, Op2};
use linear_cons::{Affine, Wide};

/// The places of a function.
const PLACES: u8 = 16;

/// The function that an affine expression is, where its numbers fit 128 bits. `None` comes exactly for the other expressions.
pub fn function_of(expr: &Expr) -> Option<Affine>
    ensures { SomeIff result (IsAffine (expression expr.now) × ExpressionFits (expression expr.now)) (form_of (expression expr.now)) }
{
    match expr {
        Expr::Number(number) => Some(Affine::constant(*number as i128)),
        Expr::Name(place) => Some(variable(*place)),
        Expr::Neg(operand) => match function_of(operand) {
            Some(function) => exact(function.scale(-1)),
            None => None,
        },
        Expr::Pair { op, left, right } => match (function_of(left), function_of(right)) {
            (Some(first), Some(second)) => match op {
                Op2::Add => exact(first.add(&second)),
                Op2::Sub => exact(first.sub(&second)),
                Op2::Mul if has_no_name(left) => exact(second.scale(first.constant)),
                Op2::Mul if has_no_name(right) => exact(first.scale(second.constant)),
                _ => None,
            },
            _ => None,
        },
        _ => None,
    }
}

// The function whose value is the variable; one past the last place has no coefficient.
fn variable(place: u8) -> Affine
    ensures { result ≡ variable_at place }
{
    if place < PLACES {
        Affine::var(place)
    } else {
        Affine::constant(0)
    }
}

/// The function, where it was made.
pub(crate) fn exact(function: Result<Affine, Wide>) -> Option<Affine>
    ensures { (a : AffineFunction) → OkIff function (NumbersFit a) a → SomeIff result (NumbersFit a) a }
{
    match function {
        Ok(function) => Some(function),
        Err(_) => None,
    }
}

// True exactly where no variable is named.
pub(crate) fn has_no_name(expr: &Expr) -> bool
    ensures { IsTrue result ↔ HasNoName (expression expr.now) }
{
    match expr {
        Expr::Name(_) => false,
        Expr::Neg(operand) | Expr::Not(operand) => has_no_name(operand),
        Expr::Quot { of, by: _ } | Expr::Rem { of, by: _ } => has_no_name(of),
        Expr::Pair { op: _, left, right } => has_no_name(left) && has_no_name(right),
        _ => true,
    }
}

/// The sum of the sizes of the coefficients and the constant, or the type's last value where that is less.
pub fn total_size(function: &Affine) -> u128
    ensures { result ≡ min (total_size function.now) (2 ^ 128 - 1) }
{
    let mut sum = 0u128;
    for place in 0..PLACES {
        sum = sum.saturating_add(function.coef[place as usize].unsigned_abs());
    }
    sum.saturating_add(function.constant.unsigned_abs())
}
