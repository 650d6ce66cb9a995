//! Affine expressions.
ghost use Rattle.std.specs.Prelude.{◌↔◌, IsTrue};
ghost use Rattle.step_meaning.specs.AffineExpressions.{IsAffine, KeepsAffine};
ghost use Rattle.step_meaning.specs.Syntax.{expression};

use crate::expression::{Expr, Op2};
use crate::function::has_no_name;

/// True exactly where the expression is affine: it has no `?`, range, quotient or remainder, and each product has a factor without names.
pub fn is_affine(expr: &Expr) -> bool
    ensures { IsTrue result ↔ IsAffine (expression expr.now) }
{
    match expr {
        Expr::Number(_) | Expr::Name(_) => true,
        Expr::Neg(operand) => is_affine(operand),
        Expr::Pair { op, left, right } => {
            is_affine(left) && is_affine(right) && keeps_affine(*op, left, right)
        }
        _ => false,
    }
}

// True exactly where the operator makes an affine expression of two.
fn keeps_affine(op: Op2, left: &Expr, right: &Expr) -> bool
    ensures { IsTrue result ↔ KeepsAffine op (expression left.now) (expression right.now) }
{
    match op {
        Op2::Add | Op2::Sub => true,
        Op2::Mul => has_no_name(left) || has_no_name(right),
        _ => false,
    }
}
