//! The counts at the labels of statements without loops, last label first.

ghost use Rattle.std.specs.Prelude.{◌≡◌, ◌+◌, ◌^◌, ◌≤◌, ◌++◌, ◌∷◌, [], reverse, All, IfOk, OnOk, unsigned_abs};
ghost use Rattle.step_meaning.specs.Syntax.{expression, size_of, size_of_statement, statement, statements};
ghost use Rattle.step_meaning.specs.Counts as counts;
ghost use Rattle.step_meaning.specs.Countdown.{IsSmall, change_by};
ghost use Rattle.step_meaning.specs.Turns.{IsModerate, MayAssign};
ghost use Rattle.count_down.specs.Building as building;
ghost use Rattle.count_down.specs.LabelCounts.{counts_of, counts_of_statement};

use linear_cons::Affine;
use std::alloc::AllocError;
use step_meaning::{Block, Count, Expr, StmtKind, assigned_change};

/// No step and no change.
pub(crate) fn nothing() -> Count
    ensures { result ≡ counts.none }
{
    Count { most: 0, change: 0 }
}

/// Adds the counts at the labels of the statements, which `after` follows, the last label's first. It answers the count from before the
/// first statement.
#[cycle(counts)]
pub(crate) fn add_counts(
    block: &Block,
    function: &Affine,
    after: Count,
    list: &mut Vec<Count>,
) -> Result<Count, AllocError>
    requires small { IsSmall function.now }
    requires measured { building.AreMeasured function.now (statements block.now) }
    requires room { after.most + size_of (statements block.now) ≤ 2048 }
    requires moderate { IsModerate after }
    requires few { All (building.IsFew 2048) list.old.items }
    ensures first { IfOk result (λ count. count ≡ counts.before (change_by function.now) (statements block.now) after) }
    ensures list { OnOk result (list.new.items ≡ list.old.items ++ reverse (counts_of (change_by function.now) (statements block.now) after)) }
    ensures few { OnOk result (All (building.IsFew 2048) list.new.items) }
    ensures room { IfOk result (λ count. count.most ≤ after.most + size_of (statements block.now)) }
    ensures moderate { IfOk result IsModerate }
{
    match block {
        Block::End => Ok(after),
        Block::Then { first, rest } => {
            let behind = add_counts(rest, function, after, list)?;
            add_counts_of_one(&first.kind, function, behind, list)
        }
    }
}

// Adds the counts at the labels of a statement.
#[cycle(counts)]
fn add_counts_of_one(
    kind: &StmtKind,
    function: &Affine,
    after: Count,
    list: &mut Vec<Count>,
) -> Result<Count, AllocError>
    requires small { IsSmall function.now }
    requires measured { building.IsMeasured function.now (statement kind.now) }
    requires room { after.most + size_of_statement (statement kind.now) ≤ 2048 }
    requires moderate { IsModerate after }
    requires few { All (building.IsFew 2048) list.old.items }
    ensures first { IfOk result (λ count. count ≡ counts.before_statement (change_by function.now) (statement kind.now) after) }
    ensures list { OnOk result (list.new.items ≡ list.old.items ++ reverse (counts_of_statement (change_by function.now) (statement kind.now) after)) }
    ensures few { OnOk result (All (building.IsFew 2048) list.new.items) }
    ensures room { IfOk result (λ count. count.most ≤ after.most + size_of_statement (statement kind.now)) }
    ensures moderate { IfOk result IsModerate }
{
    let count = match kind {
        StmtKind::Assign { var, value } => step(known_change(*var, value, function), &after),
        StmtKind::Skip => step(0, &after),
        StmtKind::Return | StmtKind::Break | StmtKind::Continue => step(0, &nothing()),
        StmtKind::If { test: _, yes, no } => {
            let second = add_counts(no, function, after, list)?;
            let first = add_counts(yes, function, after, list)?;
            either(&first, &second)
        }
        StmtKind::While { .. } | StmtKind::Do { .. } => unreachable!(),
    };
    add(count, list)?;
    Ok(count)
}

// Adds a count.
fn add(count: Count, list: &mut Vec<Count>) -> Result<(), AllocError>
    requires count { building.IsFew 2048 count }
    requires few { All (building.IsFew 2048) list.old.items }
    ensures list { OnOk result (list.new.items ≡ list.old.items ++ count ∷ []) }
    ensures few { OnOk result (All (building.IsFew 2048) list.new.items) }
{
    list.push(count)?;
    Ok(())
}

// The change that an assignment makes.
fn known_change(var: u8, value: &Expr, function: &Affine) -> i128
    requires small { IsSmall function.now }
    requires known { MayAssign function.now var (expression value.now) }
    ensures exact { result ≡ change_by function.now var (expression value.now) }
    ensures moderate { unsigned_abs result ≤ 2 ^ 62 }
{
    match assigned_change(var, value, function) {
        Some(change) => change,
        None => unreachable!(),
    }
}

// A step that makes the change, and then the count.
fn step(change: i128, after: &Count) -> Count
    requires change { unsigned_abs change ≤ 2 ^ 62 }
    requires room { after.now.most ≤ 2047 }
    requires moderate { IsModerate after.now }
    ensures exact { result ≡ counts.step_by change after.now }
    ensures moderate { IsModerate result }
{
    Count {
        most: 1 + after.most,
        change: change + after.change,
    }
}

// A step to the one or the other.
fn either(first: &Count, second: &Count) -> Count
    requires first_room { first.now.most ≤ 2047 }
    requires second_room { second.now.most ≤ 2047 }
    requires first_moderate { IsModerate first.now }
    requires second_moderate { IsModerate second.now }
    ensures exact { result ≡ counts.either_of first.now second.now }
    ensures moderate { IsModerate result }
{
    Count {
        most: 1 + first.most.max(second.most),
        change: first.change.max(second.change),
    }
}
