//! Counts of paths: how long they are, and how much an affine function changes along them.

ghost use Rattle.std.specs.Prelude.{◌≡◌, ◌+◌, ◌^◌, ◌<◌, ◌≤◌, ◌*ℤ◌, max, unsigned_abs, SomeIff, IfSome};
ghost use Rattle.linear_cons.specs.Functions.{coefficient};
ghost use Rattle.step_meaning.specs.Syntax.{expression, statement, statements};
ghost use Rattle.step_meaning.specs.Counts as counts;
ghost use Rattle.step_meaning.specs.Countdown as countdown;
ghost use Rattle.step_meaning.specs.Turns as turns;

use crate::expression::{Expr, Op2};
use crate::statement::{Block, StmtKind};
use linear_cons::Affine;

/// The greatest size of a literal that a counting statement adds.
const LITERAL: u128 = 1 << 31;

/// Of the paths through some statements the most steps, and the greatest sum of changes to an affine function.
#[derive(Clone, Copy, PartialEq, Eq, Debug)]
pub struct Count {
    pub most: u64,
    pub change: i128,
}

impl Count {
    /// No step and no change.
    fn none() -> Count
        ensures { result ≡ counts.none }
    {
        Count { most: 0, change: 0 }
    }

    /// One step with the change.
    fn step(change: i128) -> Count
        ensures { result ≡ counts.step_by change counts.none }
    {
        Count { most: 1, change }
    }

    /// This count and then the other, where the steps fit the type.
    pub(crate) fn and_then(&self, other: &Count) -> Option<Count>
        requires own { turns.IsModerate self.now }
        requires other { turns.IsModerate other.now }
        ensures exact { SomeIff result (self.now.most + other.now.most < 2 ^ 64) (turns.joined self.now other.now) }
        ensures moderate { IfSome result turns.IsModerate }
    {
        let most = self.most.checked_add(other.most)?;
        Some(Count {
            most,
            change: self.change + other.change,
        })
    }

    /// One step and then this count or the other, where the steps fit the type.
    fn or_else(&self, other: &Count) -> Option<Count>
        requires own { turns.IsModerate self.now }
        requires other { turns.IsModerate other.now }
        ensures exact { SomeIff result (1 + max self.now.most other.now.most < 2 ^ 64) (counts.either_of self.now other.now) }
        ensures moderate { IfSome result turns.IsModerate }
    {
        let most = self.most.max(other.most).checked_add(1)?;
        Some(Count {
            most,
            change: self.change.max(other.change),
        })
    }
}

/// The count of the paths through statements that have no loop and no `return` and assign a variable of the function only by adding a
/// literal, where the most steps are below 2^64.
#[cycle(turns)]
pub(crate) fn turn(block: &Block, function: &Affine) -> Option<Count>
    requires { countdown.IsSmall function.now }
    ensures exact { SomeIff result (turns.AreCounted function.now (statements block.now)) (turns.count_of function.now (statements block.now)) }
    ensures moderate { IfSome result turns.IsModerate }
{
    let mut count = Count::none();
    let mut left = block;
    while let Block::Then { first, rest } = left {
        let one = turn_of_one(&first.kind, function)?;
        count = count.and_then(&one)?;
        left = rest;
    }
    Some(count)
}

// The count of the paths through one such statement.
#[cycle(turns)]
fn turn_of_one(kind: &StmtKind, function: &Affine) -> Option<Count>
    requires { countdown.IsSmall function.now }
    ensures exact { SomeIff result (turns.IsCounted function.now (statement kind.now)) (turns.count_of_one function.now (statement kind.now)) }
    ensures moderate { IfSome result turns.IsModerate }
{
    match kind {
        StmtKind::Assign { var, value } => {
            let change = assigned_change(*var, value, function)?;
            Some(Count::step(change))
        }
        StmtKind::Skip => Some(Count::step(0)),
        StmtKind::If { test: _, yes, no } => {
            let yes = turn(yes, function)?;
            let no = turn(no, function)?;
            yes.or_else(&no)
        }
        StmtKind::Return
        | StmtKind::Break
        | StmtKind::Continue
        | StmtKind::While { .. }
        | StmtKind::Do { .. } => None,
    }
}

/// The change that an assignment of the value makes to a function with small numbers, or `None` exactly where the function mentions the
/// variable and the value isn't the variable plus or minus a literal of at most 2^31.
pub fn assigned_change(var: u8, value: &Expr, function: &Affine) -> Option<i128>
    requires { countdown.IsSmall function.now }
    ensures exact { SomeIff result (turns.MayAssign function.now var (expression value.now)) (countdown.change_by function.now var (expression value.now)) }
    ensures moderate { IfSome result (λ change. unsigned_abs change ≤ 2 ^ 62) }
{
    let coefficient = coefficient(function, var);
    if coefficient == 0 {
        return Some(0);
    }
    match added(var, value) {
        Some(amount) if amount.unsigned_abs() <= LITERAL => Some(product(coefficient, amount)),
        _ => None,
    }
}

// The product of two small numbers.
fn product(a: i128, b: i128) -> i128
    requires first { unsigned_abs a ≤ 2 ^ 31 }
    requires second { unsigned_abs b ≤ 2 ^ 31 }
    ensures exact { result ≡ a *ℤ b }
    ensures moderate { unsigned_abs result ≤ 2 ^ 62 }
{
    a * b
}

// The coefficient at the place, 0 past the last.
fn coefficient(function: &Affine, place: u8) -> i128
    requires { countdown.IsSmall function.now }
    ensures exact { result ≡ coefficient function.now place }
    ensures small { unsigned_abs result ≤ 2 ^ 31 }
{
    match function.coef.get(place as usize) {
        Some(number) => *number,
        None => 0,
    }
}

// What an assignment of the value adds to the variable, where the value is the variable and a literal, or less one.
fn added(var: u8, value: &Expr) -> Option<i128>
    ensures { result ≡ countdown.added var (expression value.now) }
{
    match value {
        Expr::Pair { op, left, right } if is_variable(var, left) => added_by(*op, literal(right)),
        _ => None,
    }
}

// True exactly where the expression is the variable.
fn is_variable(var: u8, expr: &Expr) -> bool
    ensures { result ≡ countdown.is_variable var (expression expr.now) }
{
    match expr {
        Expr::Name(place) => var == *place,
        _ => false,
    }
}

// The literal, where the expression is one.
fn literal(expr: &Expr) -> Option<i64>
    ensures { result ≡ countdown.literal_in (expression expr.now) }
{
    match expr {
        Expr::Number(number) => Some(*number),
        _ => None,
    }
}

// What an operator adds with a literal to its right.
fn added_by(op: Op2, literal: Option<i64>) -> Option<i128>
    ensures { result ≡ countdown.added_by op literal }
{
    match (op, literal) {
        (Op2::Add, Some(number)) => Some(number as i128),
        (Op2::Sub, Some(number)) => Some(-(number as i128)),
        _ => None,
    }
}
