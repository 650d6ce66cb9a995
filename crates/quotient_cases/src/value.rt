//! The rows that a value comes down to.
ghost use Rattle.std.specs.Prelude.{◌≡◌, ◌++◌, ◌<◌, IfOk, OnOk};
ghost use Rattle.std.specs.List.{flat_map};
ghost use Rattle.step_meaning.specs.Naming.{NamesBelow};
ghost use Rattle.step_meaning.specs.Syntax.{expression};
ghost use Rattle.quotient_cases.specs.Cases as ways;

use crate::case::Case;
use crate::ends::{lessened, scaled};
use crate::guards::guarded;
use crate::making::cases_of;
use linear_cons::{Affine, Bounds, Rows};
use linear_forms::with_constraint;
use std::alloc::{AllocError, Global};
use step_meaning::Expr;

/// The conjunctions of rows that a number expression in which a quotient or a remainder stands comes down to: each store in the bounds that has at the
/// place a value which the expression may have there meets every row of one of them. Each name is below 16. Of another expression it is one
/// conjunction without rows.
///
/// A quotient has two cases by the sign of what is divided, and a remainder of a function's value three: what is divided is smaller in size than the
/// divisor, or it isn't and is positive, or negative. Sums, differences and products with a number take each case with each. A part of the expression that
/// would have more than 16 cases has its linear form for the only one; a function of which a number doesn't fit 128 bits is left out. The only error is want of memory.
pub fn value_rows(
    alloc: Global,
    expr: &Expr,
    bounds: &Bounds,
    place: u8,
) -> Result<Vec<Rows>, AllocError>
    requires names { NamesBelow 16 (expression expr.now) }
    requires place { place < 16 }
    ensures { IfOk result (λ list. list.items ≡ ways.value_rows bounds.now place (expression expr.now)) }
{
    let mut list = Vec::new(alloc);
    if divides(expr) {
        let cases = cases_of(alloc, expr, bounds)?;
        add_rows(alloc, &cases, place, &mut list)?;
    } else {
        list.push(Rows::of(Vec::new(alloc)))?;
    }
    Ok(list)
}

/// Whether a quotient or a remainder stands in a number expression.
fn divides(expr: &Expr) -> bool
    ensures { result ≡ ways.divides (expression expr.now) }
{
    match expr {
        Expr::Quot { .. } | Expr::Rem { .. } => true,
        Expr::Neg(operand) => divides(operand),
        Expr::Pair { op: _, left, right } => divides(left) || divides(right),
        _ => false,
    }
}

/// Adds the conjunctions of the cases, for a value that stands at the place.
fn add_rows(
    alloc: Global,
    cases: &[Case],
    place: u8,
    list: &mut Vec<Rows>,
) -> Result<(), AllocError>
    requires { place < 16 }
    ensures { OnOk result (list.new.items ≡ list.old.items ++ flat_map (ways.rows_kept place) cases.now) }
{
    for case in cases {
        add_kept(alloc, case, place, list)?;
    }
    Ok(())
}

/// Adds the conjunction of the case, where it isn't dropped.
fn add_kept(alloc: Global, case: &Case, place: u8, list: &mut Vec<Rows>) -> Result<(), AllocError>
    requires { place < 16 }
    ensures { OnOk result (list.new.items ≡ list.old.items ++ ways.rows_kept place case.now) }
{
    if let Some(rows) = rows_at(alloc, case, place)? {
        list.push(rows)?;
    }
    Ok(())
}

/// The rows of the case, for a value that stands at the place; none where one never holds.
fn rows_at(alloc: Global, case: &Case, place: u8) -> Result<Option<Rows>, AllocError>
    requires { place < 16 }
    ensures { IfOk result (λ rows. rows ≡ ways.rows_at place case.now) }
{
    let value = scaled(case.times, Some(Affine::var(place)));
    let first = guarded(alloc, &case.rows, lessened(case.most, value))?;
    let rows = with_constraint(alloc, lessened(value, case.least), first)?;
    Ok(rows)
}
