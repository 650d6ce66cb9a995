//! Countdown programs: those without loops, and those with one loop that counts an affine function down.

ghost use Rattle.std.specs.Prelude.{◌+◌, ◌*◌, ◌^◌, ◌<◌, ◌≤◌, ◌↔◌, IsTrue, IfSome, IfNone, SomeIff, pos, ◌<ℤ◌};
ghost use Rattle.linear_cons.specs.Functions.{constant_of, difference_of};
ghost use Rattle.linear_cons.specs.Rows.{IsRowOf};
ghost use Rattle.linear_cons.specs.Sizes as sizes;
ghost use Rattle.linear_cons.specs.declared.row.RowKind.TheVariants.{Row as Kept};
ghost use Rattle.step_meaning.specs.Syntax.{expression, statement, statements};
ghost use Rattle.step_meaning.specs.Counts.{HasNoLoop, IsLoopFree};
ghost use Rattle.step_meaning.specs.Countdown as definition;
ghost use Rattle.step_meaning.specs.Turns as turns;

use crate::count::{Count, turn};
use crate::expression::{Expr, Op2};
use crate::function::{exact, function_of, total_size};
use crate::program::Program;
use crate::statement::{Block, StmtKind};
use linear_cons::{Affine, PLACES, Row, RowKind};

/// The greatest size of a number of the function that is counted down.
const SMALL: u128 = 1 << 31;

/// The greatest product of the factors of the assignments before the loop.
const FACTORS: u128 = 1 << 60;

/// Why a program is a countdown program.
#[derive(Clone, Copy, PartialEq, Eq, Debug)]
pub enum Countdown {
    /// It has no loop.
    Straight,
    /// Its one loop counts down the function of this row, which its test asks for.
    Loop(Row),
}

impl Program {
    /// True exactly where the program is a countdown program.
    pub fn is_countdown(&self) -> bool
        ensures { IsTrue result ↔ definition.IsCountdown (statements self.now.body) }
    {
        self.countdown().is_some()
    }

    /// Why the program is a countdown program, or `None` exactly where it is none. The row of a loop is the first in the text of its test
    /// that is counted down.
    pub fn countdown(&self) -> Option<Countdown>
        ensures some { IfSome result (λ countdown. definition.IsCountdownBy countdown (statements self.now.body)) }
        ensures none { IfNone result (definition.IsCountdown (statements self.now.body) → ⊥) }
    {
        if has_no_loop(&self.body) {
            return Some(Countdown::Straight);
        }
        match loop_row(&self.body) {
            Some(row) => Some(Countdown::Loop(row)),
            None => None,
        }
    }
}

// True exactly where no loop stands among the statements.
#[cycle(loops)]
fn has_no_loop(block: &Block) -> bool
    ensures { IsTrue result ↔ HasNoLoop (statements block.now) }
{
    let mut left = block;
    while let Block::Then { first, rest } = left {
        if !is_loop_free(&first.kind) {
            return false;
        }
        left = rest;
    }
    true
}

// True exactly where the statement is no loop and no loop stands in it.
#[cycle(loops)]
fn is_loop_free(kind: &StmtKind) -> bool
    ensures { IsTrue result ↔ IsLoopFree (statement kind.now) }
{
    match kind {
        StmtKind::Assign { .. }
        | StmtKind::Skip
        | StmtKind::Return
        | StmtKind::Break
        | StmtKind::Continue => true,
        StmtKind::If { test: _, yes, no } => has_no_loop(yes) && has_no_loop(no),
        StmtKind::While { .. } | StmtKind::Do { .. } => false,
    }
}

// The row that is counted down by the loop of the statements, behind which no loop stands and before which stand affine assignments.
fn loop_row(block: &Block) -> Option<Row>
    ensures finds { definition.Finds result (λ row. definition.CountsFrom row 1 (statements block.now)) }
    ensures first { IfSome result (λ row. definition.CountsFirst row (statements block.now)) }
{
    let mut product = 1;
    let mut left = block;
    while let Block::Then { first, rest } = left {
        match &first.kind {
            StmtKind::Assign { var: _, value } => product = with_factor(product, value)?,
            StmtKind::While { test, body, step } => {
                return if has_no_loop(rest) {
                    counted_row(test, body, step)
                } else {
                    None
                };
            }
            _ => return None,
        }
        left = rest;
    }
    None
}

// The product times the factor of an affine assignment whose numbers fit, where it is small enough.
fn with_factor(product: u128, value: &Expr) -> Option<u128>
    requires some { 0 < product }
    requires small { product ≤ 2 ^ 60 }
    ensures { SomeIff result (turns.MayPrecede product (expression value.now)) (product * (1 + sizes.total_size (definition.form_of (expression value.now)))) }
{
    let function = function_of(value)?;
    let size = total_size(&function);
    if size >= FACTORS {
        return None;
    }
    let product = product * (1 + size);
    if product <= FACTORS {
        Some(product)
    } else {
        None
    }
}

// The first row in the text of the test that body and step count down.
fn counted_row(test: &Expr, body: &Block, step: &Block) -> Option<Row>
    ensures { turns.FindsFirst result (λ row. definition.CountsDown (statements body.now) (statements step.now) row.affine) (expression test.now) }
{
    match test {
        Expr::Pair { op, left, right } => match op {
            Op2::And => match counted_row(left, body, step) {
                Some(row) => Some(row),
                None => counted_row(right, body, step),
            },
            _ => compared_row(*op, left, right, body, step),
        },
        _ => None,
    }
}

// The first row of a comparison that body and step count down.
fn compared_row(op: Op2, left: &Expr, right: &Expr, body: &Block, step: &Block) -> Option<Row>
    ensures { turns.FindsCompared result (λ row. definition.CountsDown (statements body.now) (statements step.now) row.affine) op (expression left.now) (expression right.now) }
{
    let differences = compare(left, right)?;
    match op {
        Op2::GreaterEqual => falling_row(&differences.own, body, step),
        Op2::Greater => falling_row(&differences.strict, body, step),
        Op2::LessEqual => falling_row(&differences.opposite, body, step),
        Op2::Less => falling_row(&differences.strict_opposite, body, step),
        Op2::Equal => match falling_row(&differences.own, body, step) {
            Some(row) => Some(row),
            None => falling_row(&differences.opposite, body, step),
        },
        Op2::NotEqual | Op2::Add | Op2::Sub | Op2::Mul | Op2::And | Op2::Or => None,
    }
}

/// The functions of the differences of two expressions, and these less 1.
#[derive(Clone, Copy)]
struct Differences {
    own: Affine,
    opposite: Affine,
    strict: Affine,
    strict_opposite: Affine,
}

// The differences of the sides of a comparison, where both are affine and all numbers fit.
fn compare(left: &Expr, right: &Expr) -> Option<Differences>
    ensures { SomeIff result (turns.FitsAsComparison (expression left.now) (expression right.now)) (turns.differences_of (expression left.now) (expression right.now)) }
{
    let first = function_of(left)?;
    let second = function_of(right)?;
    let (own, strict) = subtract(&first, &second)?;
    let (opposite, strict_opposite) = subtract(&second, &first)?;
    Some(Differences {
        own,
        opposite,
        strict,
        strict_opposite,
    })
}

// The first function less the second, and this less 1, where all numbers fit.
fn subtract(first: &Affine, second: &Affine) -> Option<(Affine, Affine)>
    ensures { SomeIff result (turns.DifferencesFit first.now second.now) (difference_of first.now second.now, difference_of (difference_of first.now second.now) (constant_of (pos 1))) }
{
    let own = exact(first.sub(second))?;
    let strict = exact(own.sub(&Affine::constant(1)))?;
    Some((own, strict))
}

// The row of the function, where body and step count it down.
fn falling_row(function: &Affine, body: &Block, step: &Block) -> Option<Row>
    ensures { definition.Finds result (λ row. IsRowOf function.now (Kept row) × definition.CountsDown (statements body.now) (statements step.now) row.affine) }
{
    match Row::of(*function) {
        RowKind::Row(row) => {
            if counts_down(&row.affine, body, step) {
                Some(row)
            } else {
                None
            }
        }
        RowKind::Always | RowKind::Never => None,
    }
}

// True exactly where body and step count the function down.
fn counts_down(function: &Affine, body: &Block, step: &Block) -> bool
    ensures { IsTrue result ↔ definition.CountsDown (statements body.now) (statements step.now) function.now }
{
    if !is_small(function) {
        return false;
    }
    match whole_turn(body, step, function) {
        Some(turn) => falls(&turn),
        None => false,
    }
}

// The count of a turn through body and step, where they may count the function down and the steps fit the type.
fn whole_turn(body: &Block, step: &Block, function: &Affine) -> Option<Count>
    requires { definition.IsSmall function.now }
    ensures { SomeIff result (turns.TurnIsCounted function.now (statements body.now) (statements step.now)) (turns.turn_of function.now (statements body.now) (statements step.now)) }
{
    let first = turn(body, function)?;
    let second = turn(step, function)?;
    first.and_then(&second)
}

// True exactly where the greatest change is below 0.
fn falls(turn: &Count) -> bool
    ensures { IsTrue result ↔ (turn.now.change <ℤ pos 0) }
{
    turn.change < 0
}

// True exactly where each number of the function is small.
fn is_small(function: &Affine) -> bool
    ensures { IsTrue result ↔ definition.IsSmall function.now }
{
    for place in 0..PLACES {
        if function.coef[place].unsigned_abs() > SMALL {
            return false;
        }
    }
    function.constant.unsigned_abs() <= SMALL
}
