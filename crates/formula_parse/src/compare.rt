//! Comparisons of affine functions, as formulas.

ghost use Rattle.std.specs.Prelude.{◌≡◌, IfOk, MatchOption, SomeIff, None};
ghost use Rattle.linear_cons.specs.Ends.{exactly};
ghost use Rattle.linear_cons.specs.Functions.{difference_of};
ghost use Rattle.linear_cons.specs.Rows.{row_kind_of};
ghost use Rattle.linear_forms.specs.Spreading.{above, at_least};
ghost use Rattle.ctl_formula.specs.Mirror.{ctl, ctl_of_kind};
ghost use Rattle.formula_parse.specs.Comparing.{ClaimFits, ComparisonFits, ComplementFits, comparing, less_1};

use ctl_formula::Formula;
use formula_syntax::Comparison;
use linear_cons::{Affine, Row, RowKind};
use std::alloc::{AllocError, Global};

/// The formula that a comparison of two functions is. `None` comes exactly where a number of a difference that it forms, of that less 1 where
/// 1 is taken off, or of a row's complement doesn't fit 128 bits. `AllocError` where the formula finds no room.
pub fn compared(
    alloc: Global,
    comparison: Comparison,
    left: &Affine,
    right: &Affine,
) -> Result<Option<Formula>, AllocError>
    ensures { IfOk result (λ made. MatchOption made (¬ ComparisonFits comparison left.now right.now)
        (λ f. ComparisonFits comparison left.now right.now × (ctl f ≡ comparing comparison left.now right.now))) }
{
    match comparison {
        Comparison::GreaterEqual => Ok(held(at_least(left, right))),
        Comparison::Greater => Ok(held(above(left, right))),
        Comparison::LessEqual => Ok(held(at_least(right, left))),
        Comparison::Less => Ok(held(above(right, left))),
        Comparison::Equal => match (at_least(left, right), at_least(right, left)) {
            (Some(first), Some(second)) => {
                let both = Formula::And(boxed(alloc, first)?, boxed(alloc, second)?);
                Ok(Some(both))
            }
            _ => Ok(None),
        },
        Comparison::NotEqual => match (above(left, right), above(right, left)) {
            (Some(first), Some(second)) => {
                let either = Formula::Or(boxed(alloc, first)?, boxed(alloc, second)?);
                Ok(Some(either))
            }
            _ => Ok(None),
        },
    }
}

// A row as a formula, where there is one.
fn held(kind: Option<RowKind>) -> Option<Formula>
    ensures { MatchOption kind (result ≡ None) (λ k. MatchOption result ⊥ (λ f. ctl f ≡ ctl_of_kind k)) }
{
    match kind {
        Some(kind) => Some(Formula::Holds(kind)),
        None => None,
    }
}

fn boxed(alloc: Global, kind: RowKind) -> Result<Box<Formula>, AllocError>
    ensures { IfOk result (λ made. ctl made.value ≡ ctl_of_kind kind) }
{
    let made = Box::new(alloc, Formula::Holds(kind))?;
    Ok(made)
}

// The row that `greater - smaller >= 0` is, where its numbers and those of its complement fit.
fn at_least(greater: &Affine, smaller: &Affine) -> Option<RowKind>
    ensures { SomeIff result (ClaimFits (at_least (exactly greater.now) (exactly smaller.now))) (row_kind_of (difference_of greater.now smaller.now)) }
{
    match greater.sub(smaller) {
        Ok(difference) => kept(difference),
        Err(_) => None,
    }
}

// The row that `greater - smaller - 1 >= 0` is, likewise.
fn above(greater: &Affine, smaller: &Affine) -> Option<RowKind>
    ensures { SomeIff result (ClaimFits (above (exactly greater.now) (exactly smaller.now))) (row_kind_of (less_1 (difference_of greater.now smaller.now))) }
{
    match greater.sub(smaller) {
        Ok(difference) => match difference.sub(&Affine::constant(1)) {
            Ok(less) => kept(less),
            Err(_) => None,
        },
        Err(_) => None,
    }
}

// The row of a function, where the numbers of its complement fit.
fn kept(function: Affine) -> Option<RowKind>
    ensures { SomeIff result (ComplementFits (row_kind_of function)) (row_kind_of function) }
{
    let kind = Row::of(function);
    let fits = match &kind {
        RowKind::Always | RowKind::Never => true,
        RowKind::Row(row) => row.not().is_ok(),
    };
    if fits { Some(kind) } else { None }
}
