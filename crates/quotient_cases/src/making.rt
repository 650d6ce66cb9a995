//! The cases of an expression, made from those of its parts.
ghost use Rattle.std.specs.Prelude.{◌≡◌, ◌++◌, ◌-ℤ◌, ◌∷◌, [], IfOk, OnOk, map, pos, unsigned_abs};
ghost use Rattle.std.specs.List.{flat_map};
ghost use Rattle.step_meaning.specs.Naming.{NamesBelow};
ghost use Rattle.step_meaning.specs.Syntax.{expression};
ghost use Rattle.quotient_cases.specs.Cases as ways;

use crate::case::{
    Case, is_exact, is_number, least_left, less_size, most_left, multiple, natural_quotient,
    negative_quotient, of_form, plainly, sum,
};
use crate::ends::{product, raised, scaled};
use crate::guards::{copied, guarded};
use linear_cons::{Affine, Bounds, Linear, Rows};
use linear_forms::{linearise, with_constraint};
use std::alloc::{AllocError, Global};
use step_meaning::{Expr, Op2};

/// The most cases of an expression.
const MOST_CASES: usize = 16;

/// The cases of a number expression, each name below 16.
pub(crate) fn cases_of(alloc: Global, expr: &Expr, bounds: &Bounds) -> Result<Vec<Case>, AllocError>
    requires { NamesBelow 16 (expression expr.now) }
    ensures { IfOk result (λ list. list.items ≡ ways.cases_of bounds.now (expression expr.now)) }
{
    let whole = linearise(expr, bounds);
    let mut list = Vec::new(alloc);
    match expr {
        Expr::Neg(operand) => {
            let cases = cases_of(alloc, operand, bounds)?;
            add_multiples(alloc, &cases, -1, &mut list)?;
        }
        Expr::Quot { of, by } => {
            let cases = cases_of(alloc, of, bounds)?;
            add_quotients(alloc, &cases, *by, &mut list)?;
        }
        Expr::Rem { of, by } => {
            let cases = cases_of(alloc, of, bounds)?;
            add_remainders(alloc, &cases, *by, &whole, &mut list)?;
        }
        Expr::Pair { op, left, right } => {
            let first = cases_of(alloc, left, bounds)?;
            let second = cases_of(alloc, right, bounds)?;
            let left = linearise(left, bounds);
            let right = linearise(right, bounds);
            add_paired(
                alloc, *op, &whole, &left, &right, &first, &second, &mut list,
            )?;
        }
        _ => add_whole(alloc, &whole, &mut list)?,
    }
    let kept = few(alloc, list, &whole)?;
    Ok(kept)
}

/// The list, where it isn't too long, and else the whole form for the only case.
fn few(alloc: Global, list: Vec<Case>, whole: &Linear) -> Result<Vec<Case>, AllocError>
    ensures { IfOk result (λ kept. kept.items ≡ ways.few whole.now list.items) }
{
    if list.len() > MOST_CASES {
        let mut only = Vec::new(alloc);
        add_whole(alloc, whole, &mut only)?;
        return Ok(only);
    }
    Ok(list)
}

/// Adds the case that says no more than the form.
fn add_whole(alloc: Global, whole: &Linear, list: &mut Vec<Case>) -> Result<(), AllocError>
    ensures { OnOk result (list.new.items ≡ list.old.items ++ ways.of_form whole.now [] ∷ []) }
{
    list.push(of_form(Rows::of(Vec::new(alloc)), whole))?;
    Ok(())
}

/// Adds the cases of what the operator makes of two values, by their cases and their forms.
fn add_paired(
    alloc: Global,
    op: Op2,
    whole: &Linear,
    left: &Linear,
    right: &Linear,
    first: &[Case],
    second: &[Case],
    list: &mut Vec<Case>,
) -> Result<(), AllocError>
    ensures { OnOk result (list.new.items ≡ list.old.items ++ ways.paired op whole.now left.now right.now first.now second.now) }
{
    match op {
        Op2::Add => add_sums(alloc, first, second, list),
        Op2::Sub => {
            let mut less = Vec::new(alloc);
            add_multiples(alloc, second, -1, &mut less)?;
            add_sums(alloc, first, &less, list)
        }
        Op2::Mul => add_products(alloc, whole, left, right, first, second, list),
        _ => add_whole(alloc, whole, list),
    }
}

/// Adds the cases of the product of two values: those of the other where the form of one is a number.
fn add_products(
    alloc: Global,
    whole: &Linear,
    left: &Linear,
    right: &Linear,
    first: &[Case],
    second: &[Case],
    list: &mut Vec<Case>,
) -> Result<(), AllocError>
    ensures { OnOk result (list.new.items ≡ list.old.items ++ ways.products whole.now left.now right.now first.now second.now) }
{
    if is_number(left) {
        add_multiples(alloc, second, left.affine.constant, list)
    } else if is_number(right) {
        add_multiples(alloc, first, right.affine.constant, list)
    } else {
        add_whole(alloc, whole, list)
    }
}

/// Adds the cases of the multiple of a value with these.
fn add_multiples(
    alloc: Global,
    list: &[Case],
    factor: i128,
    made: &mut Vec<Case>,
) -> Result<(), AllocError>
    ensures { OnOk result (made.new.items ≡ made.old.items ++ map (ways.multiple factor) list.now) }
{
    for case in list {
        let one = multiple(alloc, case, factor)?;
        made.push(one)?;
    }
    Ok(())
}

/// Adds the cases of the sum of a value with the first cases and one with the second.
fn add_sums(
    alloc: Global,
    first: &[Case],
    second: &[Case],
    made: &mut Vec<Case>,
) -> Result<(), AllocError>
    ensures { OnOk result (made.new.items ≡ made.old.items ++ ways.sums first.now second.now) }
{
    for case in first {
        add_sums_with(alloc, case, second, made)?;
    }
    Ok(())
}

/// Adds the cases of the sum of a value with the case and one with the others.
fn add_sums_with(
    alloc: Global,
    case: &Case,
    others: &[Case],
    made: &mut Vec<Case>,
) -> Result<(), AllocError>
    ensures { OnOk result (made.new.items ≡ made.old.items ++ map (ways.sum case.now) others.now) }
{
    for other in others {
        let both = sum(alloc, case, other)?;
        made.push(both)?;
    }
    Ok(())
}

/// Adds the cases of the quotient of a value with these.
fn add_quotients(
    alloc: Global,
    list: &[Case],
    by: i64,
    made: &mut Vec<Case>,
) -> Result<(), AllocError>
    ensures { OnOk result (made.new.items ≡ made.old.items ++ flat_map (ways.quotients by) list.now) }
{
    for case in list {
        add_signs(alloc, case, by, made)?;
    }
    Ok(())
}

/// Adds the cases of the quotient by the sign of what is divided.
fn add_signs(alloc: Global, case: &Case, by: i64, made: &mut Vec<Case>) -> Result<(), AllocError>
    ensures { OnOk result (made.new.items ≡ made.old.items ++ ways.quotients by case.now) }
{
    let natural = guarded(alloc, &case.rows, case.most)?;
    add_natural(natural, case, by, made)?;
    let negative = where_negative(alloc, case)?;
    add_negative(negative, case, by, made)?;
    Ok(())
}

/// The rows where the value is below 0.
fn where_negative(alloc: Global, case: &Case) -> Result<Option<Rows>, AllocError>
    ensures { IfOk result (λ rows. rows ≡ ways.where_negative case.now) }
{
    let below = raised(product(case.times, -1), scaled(-1, case.least));
    let rows = guarded(alloc, &case.rows, below)?;
    Ok(rows)
}

/// Adds the case of the quotient of a natural where the rows are met.
fn add_natural(
    rows: Option<Rows>,
    case: &Case,
    by: i64,
    made: &mut Vec<Case>,
) -> Result<(), AllocError>
    ensures { OnOk result (made.new.items ≡ made.old.items ++ ways.where_kept rows (ways.natural_quotient case.now by)) }
{
    if let Some(rows) = rows {
        made.push(natural_quotient(case, by, rows))?;
    }
    Ok(())
}

/// Adds the case of the quotient of a negative number where the rows are met.
fn add_negative(
    rows: Option<Rows>,
    case: &Case,
    by: i64,
    made: &mut Vec<Case>,
) -> Result<(), AllocError>
    ensures { OnOk result (made.new.items ≡ made.old.items ++ ways.where_kept rows (ways.negative_quotient case.now by)) }
{
    if let Some(rows) = rows {
        made.push(negative_quotient(case, by, rows))?;
    }
    Ok(())
}

/// Adds the cases of what is left of a value with these; the whole form is known of it.
fn add_remainders(
    alloc: Global,
    list: &[Case],
    by: i64,
    whole: &Linear,
    made: &mut Vec<Case>,
) -> Result<(), AllocError>
    ensures { OnOk result (made.new.items ≡ made.old.items ++ flat_map (ways.remainders by whole.now) list.now) }
{
    for case in list {
        add_sizes(alloc, case, by, whole, made)?;
    }
    Ok(())
}

/// Adds the cases of what is left of a value with this, by the size of what is divided where that is the value of a function.
fn add_sizes(
    alloc: Global,
    case: &Case,
    by: i64,
    whole: &Linear,
    made: &mut Vec<Case>,
) -> Result<(), AllocError>
    ensures { OnOk result (made.new.items ≡ made.old.items ++ ways.remainders by whole.now case.now) }
{
    if is_exact(case) {
        return add_exact(alloc, case, by, made);
    }
    let rows = copied(alloc, &case.rows)?;
    made.push(of_form(rows, whole))?;
    Ok(())
}

/// Adds the cases of what is left of the value of a function.
fn add_exact(alloc: Global, case: &Case, by: i64, made: &mut Vec<Case>) -> Result<(), AllocError>
    ensures { OnOk result (made.new.items ≡ made.old.items ++ ways.exact_remainders by case.now) }
{
    let large = where_large(alloc, case, by)?;
    add_between(large, nought(), most_end(by), made)?;
    let small = where_small(alloc, case, by)?;
    add_between(small, case.least, case.most, made)?;
    let low = where_low(alloc, case, by)?;
    add_between(low, least_end(by), nought(), made)?;
    Ok(())
}

/// The rows where the value of a function is at least the divisor's size.
fn where_large(alloc: Global, case: &Case, by: i64) -> Result<Option<Rows>, AllocError>
    ensures { IfOk result (λ rows. rows ≡ ways.where_large by case.now) }
{
    let rows = guarded(alloc, &case.rows, raised(Some(less_size(by)), case.least))?;
    Ok(rows)
}

/// The rows where its negative is.
fn where_low(alloc: Global, case: &Case, by: i64) -> Result<Option<Rows>, AllocError>
    ensures { IfOk result (λ rows. rows ≡ ways.where_low by case.now) }
{
    let below = raised(Some(less_size(by)), scaled(-1, case.most));
    let rows = guarded(alloc, &case.rows, below)?;
    Ok(rows)
}

/// The rows where it is smaller in size.
fn where_small(alloc: Global, case: &Case, by: i64) -> Result<Option<Rows>, AllocError>
    ensures { IfOk result (λ rows. rows ≡ ways.where_small by case.now) }
{
    let above = guarded(alloc, &case.rows, raised(Some(most_left(by)), case.least))?;
    let below = raised(Some(most_left(by)), scaled(-1, case.most));
    let rows = with_constraint(alloc, below, above)?;
    Ok(rows)
}

/// Adds the case of a value between the functions where the rows are met.
fn add_between(
    rows: Option<Rows>,
    least: Option<Affine>,
    most: Option<Affine>,
    made: &mut Vec<Case>,
) -> Result<(), AllocError>
    ensures { OnOk result (made.new.items ≡ made.old.items ++ ways.where_kept rows (λ kept. ways.plainly kept least most)) }
{
    if let Some(rows) = rows {
        made.push(plainly(rows, least, most))?;
    }
    Ok(())
}

/// The function that is 0.
fn nought() -> Option<Affine>
    ensures { result ≡ ways.number_end (pos 0) }
{
    Some(Affine::constant(0))
}

/// The function that is the most a division leaves of a natural.
fn most_end(by: i64) -> Option<Affine>
    ensures { result ≡ ways.number_end (pos (unsigned_abs by) -ℤ pos 1) }
{
    Some(Affine::constant(most_left(by)))
}

/// The function that is the least it leaves of a negative number.
fn least_end(by: i64) -> Option<Affine>
    ensures { result ≡ ways.number_end (pos 1 -ℤ pos (unsigned_abs by)) }
{
    Some(Affine::constant(least_left(by)))
}
