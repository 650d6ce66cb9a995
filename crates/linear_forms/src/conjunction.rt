//! The rows that a test comes down to.

ghost use Rattle.std.specs.Prelude.{◌≡◌, ◌++◌, ◌∷◌, [], map, IfOk, OnOk, OkIff};
ghost use Rattle.step_meaning.specs.Syntax.{expression};
ghost use Rattle.step_meaning.specs.Naming.{NamesBelow};
ghost use Rattle.linear_cons.specs.declared.affine.Affine.{Affine as AffineFunction};
ghost use Rattle.linear_cons.specs.Functions.{NumbersFit};
ghost use Rattle.linear_forms.specs.Spreading as spreading;

use crate::linear::linearise;
use linear_cons::{Affine, Bounds, Linear, Row, RowKind, Rows, Wide, end_difference};
use std::alloc::{AllocError, Global};
use step_meaning::{Expr, Op2};

/// The conjunctions of rows that a test comes down to for an outcome: each store in the bounds at which the test may have the outcome
/// meets every row of one of them, and for an affine test without `?` whose numbers fit the converse holds too. Each name is below 16.
/// `conjunctions` tells how many there are at most.
///
/// Negation is pushed to the comparisons. A comparison gives the row of its most favourable end over the bounds; a row that always
/// holds, whose end isn't known, or of which a number doesn't fit 128 bits is left out, and a row that never holds drops its
/// conjunction. `&&` makes all pairs, left first, and `||` appends. `?` gives one conjunction without rows.
pub fn spread(
    alloc: Global,
    test: &Expr,
    holds: bool,
    bounds: &Bounds,
) -> Result<Vec<Rows>, AllocError>
    requires { NamesBelow 16 (expression test.now) }
    ensures { IfOk result (λ list. list.items ≡ spreading.spread_of bounds.now (expression test.now) holds) }
{
    let mut list = Vec::new(alloc);
    add_spread(alloc, test, holds, bounds, &mut list)?;
    Ok(list)
}

// Adds the conjunctions of the test for the outcome.
fn add_spread(
    alloc: Global,
    test: &Expr,
    holds: bool,
    bounds: &Bounds,
    list: &mut Vec<Rows>,
) -> Result<(), AllocError>
    requires { NamesBelow 16 (expression test.now) }
    ensures { OnOk result (list.new.items ≡ list.old.items ++ spreading.spread_of bounds.now (expression test.now) holds) }
{
    match test {
        Expr::Free => add_empty(alloc, list),
        Expr::True if holds => add_empty(alloc, list),
        Expr::False if !holds => add_empty(alloc, list),
        Expr::Not(operand) => add_spread(alloc, operand, !holds, bounds, list),
        Expr::Pair { op, left, right } => match (op, holds) {
            (Op2::And, true) | (Op2::Or, false) => {
                let mut first = Vec::new(alloc);
                add_spread(alloc, left, holds, bounds, &mut first)?;
                let mut second = Vec::new(alloc);
                add_spread(alloc, right, holds, bounds, &mut second)?;
                add_pairs(alloc, &first, &second, list)
            }
            (Op2::And, false) | (Op2::Or, true) => {
                add_spread(alloc, left, holds, bounds, list)?;
                add_spread(alloc, right, holds, bounds, list)
            }
            _ => {
                let comparison = if holds { *op } else { opposite(*op) };
                let left = linearise(left, bounds);
                let right = linearise(right, bounds);
                add_compared(alloc, comparison, &left, &right, list)
            }
        },
        _ => Ok(()),
    }
}

// Adds a conjunction without rows.
fn add_empty(alloc: Global, list: &mut Vec<Rows>) -> Result<(), AllocError>
    ensures { OnOk result (list.new.items ≡ list.old.items ++ [] ∷ []) }
{
    list.push(Rows::of(Vec::new(alloc)))?;
    Ok(())
}

// Adds each conjunction of the first list with each of the second.
fn add_pairs(
    alloc: Global,
    first: &[Rows],
    second: &[Rows],
    list: &mut Vec<Rows>,
) -> Result<(), AllocError>
    ensures { OnOk result (list.new.items ≡ list.old.items ++ spreading.pairs first.now second.now) }
{
    for rows in first {
        add_with_each(alloc, rows, second, list)?;
    }
    Ok(())
}

// Adds the conjunction with each of the second list.
fn add_with_each(
    alloc: Global,
    rows: &Rows,
    second: &[Rows],
    list: &mut Vec<Rows>,
) -> Result<(), AllocError>
    ensures { OnOk result (list.new.items ≡ list.old.items ++ map (λ other. rows.now ++ other) second.now) }
{
    for other in second {
        let both = joined(alloc, rows, other)?;
        list.push(both)?;
    }
    Ok(())
}

// The rows of the first conjunction, followed by those of the second.
fn joined(alloc: Global, first: &Rows, second: &Rows) -> Result<Rows, AllocError>
    ensures { IfOk result (λ rows. rows ≡ first.now ++ second.now) }
{
    let mut rows = Vec::new(alloc);
    rows.extend_from_slice(first.items())?;
    rows.extend_from_slice(second.items())?;
    Ok(Rows::of(rows))
}

// The comparison that holds exactly where this one doesn't.
fn opposite(op: Op2) -> Op2
    ensures { result ≡ spreading.opposite op }
{
    match op {
        Op2::Less => Op2::GreaterEqual,
        Op2::LessEqual => Op2::Greater,
        Op2::Greater => Op2::LessEqual,
        Op2::GreaterEqual => Op2::Less,
        Op2::Equal => Op2::NotEqual,
        Op2::NotEqual => Op2::Equal,
        Op2::Add | Op2::Sub | Op2::Mul | Op2::And | Op2::Or => op,
    }
}

// Adds the conjunctions of a comparison of two forms.
fn add_compared(
    alloc: Global,
    op: Op2,
    left: &Linear,
    right: &Linear,
    list: &mut Vec<Rows>,
) -> Result<(), AllocError>
    ensures { OnOk result (list.new.items ≡ list.old.items ++ spreading.all_rows_of (spreading.claims op left.now right.now)) }
{
    match op {
        Op2::Less => add_claim(alloc, right, left, true, list),
        Op2::LessEqual => add_claim(alloc, right, left, false, list),
        Op2::Greater => add_claim(alloc, left, right, true, list),
        Op2::GreaterEqual => add_claim(alloc, left, right, false, list),
        Op2::Equal => add_equal(alloc, left, right, list),
        Op2::NotEqual => {
            add_claim(alloc, left, right, true, list)?;
            add_claim(alloc, right, left, true, list)
        }
        Op2::Add | Op2::Sub | Op2::Mul | Op2::And | Op2::Or => Ok(()),
    }
}

// Adds the conjunction that one side is at least the other, or greater where it is strict.
fn add_claim(
    alloc: Global,
    greater: &Linear,
    smaller: &Linear,
    is_strict: bool,
    list: &mut Vec<Rows>,
) -> Result<(), AllocError>
    ensures { OnOk result (list.new.items ≡ list.old.items
        ++ spreading.all_rows_of ((record { greater = greater.now; smaller = smaller.now; is_strict = is_strict } ∷ []) ∷ [])) }
{
    let none = Rows::of(Vec::new(alloc));
    let rows = with_constraint(alloc, constraint(greater, smaller, is_strict), Some(none))?;
    add_kept(rows, list)
}

// Adds the conjunction that each side is at least the other.
fn add_equal(
    alloc: Global,
    left: &Linear,
    right: &Linear,
    list: &mut Vec<Rows>,
) -> Result<(), AllocError>
    ensures { OnOk result (list.new.items ≡ list.old.items
        ++ spreading.all_rows_of ((spreading.at_least left.now right.now ∷ spreading.at_least right.now left.now ∷ []) ∷ [])) }
{
    let none = Rows::of(Vec::new(alloc));
    let second = with_constraint(alloc, constraint(right, left, false), Some(none))?;
    let rows = with_constraint(alloc, constraint(left, right, false), second)?;
    add_kept(rows, list)
}

// Adds the conjunction, where it isn't dropped.
fn add_kept(conjunction: Option<Rows>, list: &mut Vec<Rows>) -> Result<(), AllocError>
    ensures { OnOk result (list.new.items ≡ list.old.items ++ spreading.kept_before conjunction []) }
{
    if let Some(rows) = conjunction {
        list.push(rows)?;
    }
    Ok(())
}

/// The rows behind a constraint, if there is one: it comes first, or drops them all where it never holds. The only error is want of memory.
#[tactic(auto, using(linear_cons::proofs::KindLaws::row_kind_unique))]
pub fn with_constraint(
    alloc: Global,
    constraint: Option<Affine>,
    rows: Option<Rows>,
) -> Result<Option<Rows>, AllocError>
    ensures { IfOk result (λ all. all ≡ spreading.with_constraint constraint rows) }
{
    let Some(constraint) = constraint else {
        return Ok(rows);
    };
    match (Row::of(constraint), rows) {
        (RowKind::Always, rows) => Ok(rows),
        (RowKind::Never, _) | (_, None) => Ok(None),
        (RowKind::Row(row), Some(rows)) => {
            let all = before(alloc, row, &rows)?;
            Ok(Some(all))
        }
    }
}

// The row, followed by the others.
fn before(alloc: Global, row: Row, rows: &Rows) -> Result<Rows, AllocError>
    ensures { IfOk result (λ all. all ≡ row ∷ rows.now) }
{
    let mut all = Vec::new(alloc);
    all.push(row)?;
    all.extend_from_slice(rows.items())?;
    Ok(Rows::of(all))
}

// The function that is at least 0 where the claim holds at its most favourable end, where all its numbers fit 128 bits.
fn constraint(left: &Linear, right: &Linear, is_strict: bool) -> Option<Affine>
    ensures { result ≡ spreading.constraint (record { greater = left.now; smaller = right.now; is_strict = is_strict }) }
{
    favoured(
        end_difference(left.hi, right.lo),
        less_one(is_strict, fitting(left.affine.sub(&right.affine))),
    )
}

// The function that was made, where its numbers fit 128 bits.
fn fitting(function: Result<Affine, Wide>) -> Option<Affine>
    ensures { (a : AffineFunction) → OkIff function (NumbersFit a) a → result ≡ spreading.fitting a }
{
    match function {
        Ok(affine) => Some(affine),
        Err(_) => None,
    }
}

// The function less 1, where it is strict.
fn less_one(is_strict: bool, function: Option<Affine>) -> Option<Affine>
    ensures { result ≡ spreading.less_one is_strict function }
{
    match function {
        Some(affine) if is_strict => fitting(affine.sub(&Affine::constant(1))),
        _ => function,
    }
}

// The function with the end added.
fn favoured(end: Option<i128>, function: Option<Affine>) -> Option<Affine>
    ensures { result ≡ spreading.favoured end function }
{
    match (end, function) {
        (Some(end), Some(affine)) => fitting(affine.add(&Affine::constant(end))),
        _ => None,
    }
}
