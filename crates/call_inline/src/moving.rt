//! Expressions of a function over the variables of the whole program.

ghost use Rattle.std.specs.Prelude.{◌≡◌, ◌+◌, ◌≤◌, IfOk};
ghost use Rattle.step_meaning.specs.Naming.{NamesBelow};
ghost use Rattle.step_meaning.specs.Syntax.{expression};
ghost use Rattle.call_inline.specs.Moved.{moved};

use std::alloc::{AllocError, Global};
use step_meaning::Expr;

/// The expression where the variables stand from the place `base` on. The only error is want of memory.
#[cycle(moving)]
pub fn moved(alloc: Global, expr: &Expr, base: u8) -> Result<Expr, AllocError>
    requires names { NamesBelow 16 (expression expr.now) }
    requires room { base ≤ 15 }
    ensures { IfOk result (λ made. expression made ≡ moved base (expression expr.now)) }
{
    match expr {
        Expr::Number(value) => Ok(Expr::Number(*value)),
        Expr::Name(place) => Ok(Expr::Name(base + *place)),
        Expr::Free => Ok(Expr::Free),
        Expr::Range { lo, hi } => Ok(Expr::Range { lo: *lo, hi: *hi }),
        Expr::True => Ok(Expr::True),
        Expr::False => Ok(Expr::False),
        Expr::Quot { of, by } => {
            let inner = boxed(alloc, of, base)?;
            Ok(Expr::Quot { of: inner, by: *by })
        }
        Expr::Rem { of, by } => {
            let inner = boxed(alloc, of, base)?;
            Ok(Expr::Rem { of: inner, by: *by })
        }
        Expr::Neg(operand) => {
            let inner = boxed(alloc, operand, base)?;
            Ok(Expr::Neg(inner))
        }
        Expr::Not(operand) => {
            let inner = boxed(alloc, operand, base)?;
            Ok(Expr::Not(inner))
        }
        Expr::Pair { op, left, right } => {
            let first = boxed(alloc, left, base)?;
            let second = boxed(alloc, right, base)?;
            Ok(Expr::Pair {
                op: *op,
                left: first,
                right: second,
            })
        }
    }
}

/// The same in a box.
#[cycle(moving)]
fn boxed(alloc: Global, expr: &Expr, base: u8) -> Result<Box<Expr>, AllocError>
    requires names { NamesBelow 16 (expression expr.now) }
    requires room { base ≤ 15 }
    ensures { IfOk result (λ made. expression made.value ≡ moved base (expression expr.now)) }
{
    let inner = moved(alloc, expr, base)?;
    let inner = Box::new(alloc, inner)?;
    Ok(inner)
}
