//! Sums as expressions: operators group as their meaning says, in one walk that keeps what is added up already and the product that follows.

ghost use Rattle.std.specs.Prelude.{◌≡◌, ◌≤◌, length, IfOk};
ghost use Rattle.step_meaning.specs.Syntax as syntax;
ghost use Rattle.formula_syntax.specs.Mirror.{factor as factor_of, tail as tail_of, sum as sum_of};
ghost use Rattle.formula_parse.specs.Meanings.{factor_meaning, tail_meaning, sum_meaning, added};
ghost use Rattle.formula_parse.specs.Walking.{terms_of};

use crate::names::place;
use formula_syntax::{Factor, FactorKind, Operator, Sum, Tail};
use std::alloc::{AllocError, Global};
use step_meaning::{Expr, Names, Op2};

/// The expression that a sum is. `AllocError` where it finds no room.
pub fn side(alloc: Global, names: &Names, tree: &Sum) -> Result<Expr, AllocError>
    requires { length names.now ≤ 15 }
    ensures { IfOk result (λ made. syntax.expression made ≡ sum_meaning names.now (sum_of tree.now)) }
{
    let first = factor(alloc, names, &tree.factor)?;
    let made = tail(alloc, names, None, first, &tree.tail)?;
    Ok(made)
}

// A factor.
#[cycle(sides)]
fn factor(alloc: Global, names: &Names, tree: &Factor) -> Result<Expr, AllocError>
    requires { length names.now ≤ 15 }
    ensures { IfOk result (λ made. syntax.expression made ≡ factor_meaning names.now (factor_of tree.now)) }
{
    match &tree.kind {
        FactorKind::Number(value) => Ok(Expr::Number(*value)),
        FactorKind::Name(name) => {
            let place = place(names, name);
            Ok(Expr::Name(place))
        }
        FactorKind::Signed {
            negative,
            factor: inner,
        } => {
            let made = factor(alloc, names, inner)?;
            if *negative {
                let boxed = Box::new(alloc, made)?;
                Ok(Expr::Neg(boxed))
            } else {
                Ok(made)
            }
        }
        FactorKind::Summed {
            factor: inner,
            tail: more,
        } => {
            let made = factor(alloc, names, inner)?;
            let all = tail(alloc, names, None, made, more)?;
            Ok(all)
        }
    }
}

// What stands behind a product that isn't yet added to what is before it.
#[cycle(sides)]
fn tail(
    alloc: Global,
    names: &Names,
    before: Option<(Expr, Op2)>,
    product: Expr,
    tree: &Tail,
) -> Result<Expr, AllocError>
    requires { length names.now ≤ 15 }
    ensures { IfOk result (λ made. syntax.expression made ≡ tail_meaning names.now (terms_of before) (syntax.expression product) (tail_of tree.now)) }
{
    match tree {
        Tail::Ended => {
            let sum = added(alloc, before, product)?;
            Ok(sum)
        }
        Tail::Further {
            op,
            factor: inner,
            rest,
        } => {
            let made = factor(alloc, names, inner)?;
            match op {
                Operator::Multiply => {
                    let longer = pair(alloc, Op2::Mul, product, made)?;
                    let all = tail(alloc, names, before, longer, rest)?;
                    Ok(all)
                }
                Operator::Add => {
                    let sum = added(alloc, before, product)?;
                    let all = tail(alloc, names, Some((sum, Op2::Add)), made, rest)?;
                    Ok(all)
                }
                Operator::Subtract => {
                    let sum = added(alloc, before, product)?;
                    let all = tail(alloc, names, Some((sum, Op2::Sub)), made, rest)?;
                    Ok(all)
                }
            }
        }
    }
}

// A product added to what is before it.
fn added(alloc: Global, before: Option<(Expr, Op2)>, product: Expr) -> Result<Expr, AllocError>
    ensures { IfOk result (λ made. syntax.expression made ≡ added (terms_of before) (syntax.expression product)) }
{
    match before {
        Some((sum, op)) => {
            let made = pair(alloc, op, sum, product)?;
            Ok(made)
        }
        None => Ok(product),
    }
}

// An operator between two operands.
fn pair(alloc: Global, op: Op2, left: Expr, right: Expr) -> Result<Expr, AllocError>
    ensures { IfOk result (λ made. syntax.expression made ≡ syntax.pair op (syntax.expression left) (syntax.expression right)) }
{
    let first = Box::new(alloc, left)?;
    let second = Box::new(alloc, right)?;
    Ok(Expr::Pair {
        op,
        left: first,
        right: second,
    })
}
