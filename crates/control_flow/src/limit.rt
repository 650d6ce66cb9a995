//! The limits of a graph: the number of its labels, and the widths of its tests.

ghost use Rattle.std.specs.Prelude.{◌≡◌, ◌+◌, ◌++◌, MatchResult, Some, slice_get};
ghost use Rattle.step_meaning.specs.Syntax.{expression, statements, statement, size_of, size_of_statement};
ghost use Rattle.control_flow.specs.Faults as faults;
ghost use Rattle.step_meaning.specs.Offsets.{offsets, offsets_at};

use linear_forms::conjunctions;
use step_meaning::{Block, Expr, Stmt, StmtKind};

/// The most conjunctions that a test may spread to.
pub(crate) const CONJUNCTIONS: u32 = 64;

/// How much of the room for labels is left behind the statements, or the offset of the first one that finds none.
#[cycle(rooms)]
pub(crate) fn room_behind(block: &Block, room: u32) -> Result<u32, u32>
    ensures { MatchResult result
        (λ left. left + size_of (statements block.now) ≡ room)
        (λ at. slice_get (offsets block.now) room ≡ Some at) }
{
    let mut room = room;
    let mut left = block;
    while let Block::Then { first, rest } = left {
        room = room_behind_one(first, room)?;
        left = rest;
    }
    Ok(room)
}

// How much of the room is left behind a statement.
#[cycle(rooms)]
fn room_behind_one(stmt: &Stmt, room: u32) -> Result<u32, u32>
    ensures { MatchResult result
        (λ left. left + size_of_statement (statement stmt.now.kind) ≡ room)
        (λ at. slice_get (offsets_at stmt.now.at stmt.now.kind) room ≡ Some at) }
{
    match &stmt.kind {
        StmtKind::Assign { .. }
        | StmtKind::Skip
        | StmtKind::Return
        | StmtKind::Break
        | StmtKind::Continue => one_less(room, stmt.at),
        StmtKind::If { test: _, yes, no } => match one_less(room, stmt.at) {
            Ok(room) => room_behind_both(yes, no, room),
            Err(at) => Err(at),
        },
        StmtKind::While {
            test: _,
            body,
            step,
        } => match one_less(room, stmt.at) {
            Ok(room) => room_behind_both(body, step, room),
            Err(at) => Err(at),
        },
        StmtKind::Do { body, test: _ } => match room_behind(body, room) {
            Ok(room) => one_less(room, stmt.at),
            Err(at) => Err(at),
        },
    }
}

// How much of the room is left behind two lists of statements.
#[cycle(rooms)]
fn room_behind_both(first: &Block, second: &Block, room: u32) -> Result<u32, u32>
    ensures { MatchResult result
        (λ left. left + (size_of (statements first.now) + size_of (statements second.now)) ≡ room)
        (λ at. slice_get (offsets first.now ++ offsets second.now) room ≡ Some at) }
{
    match room_behind(first, room) {
        Ok(room) => room_behind(second, room),
        Err(at) => Err(at),
    }
}

// The room behind one label, or the offset where there is none.
fn one_less(room: u32, at: u32) -> Result<u32, u32>
    ensures { MatchResult result (λ left. left + 1 ≡ room) (λ offset. (room ≡ 0) × (offset ≡ at)) }
{
    if room == 0 { Err(at) } else { Ok(room - 1) }
}

/// The least of the offset and of the offsets of the statements whose test is too wide.
#[cycle(widths)]
#[tactic(auto, using(crate::proofs::Leasts::least_from_both))]
pub(crate) fn least_wide(block: &Block, least: Option<u32>) -> Option<u32>
    ensures { result ≡ faults.least_from least (faults.wide_offsets block.now) }
{
    let mut least = least;
    let mut left = block;
    while let Block::Then { first, rest } = left {
        least = least_wide_of_one(first, least);
        left = rest;
    }
    least
}

// The least of the offset and of the offsets of such statements in this one.
#[cycle(widths)]
#[tactic(auto, using(crate::proofs::Leasts::least_from_both))]
fn least_wide_of_one(stmt: &Stmt, least: Option<u32>) -> Option<u32>
    ensures { result ≡ faults.least_from least (faults.wide_offsets_of stmt.now.at stmt.now.kind) }
{
    match &stmt.kind {
        StmtKind::Assign { .. }
        | StmtKind::Skip
        | StmtKind::Return
        | StmtKind::Break
        | StmtKind::Continue => least,
        StmtKind::If { test, yes, no } => {
            least_wide(no, least_wide(yes, with_test(test, stmt.at, least)))
        }
        StmtKind::While { test, body, step } => {
            least_wide(step, least_wide(body, with_test(test, stmt.at, least)))
        }
        StmtKind::Do { body, test } => with_test(test, stmt.at, least_wide(body, least)),
    }
}

// The lesser of the offset and of the statement's, where its test is too wide.
fn with_test(test: &Expr, at: u32, least: Option<u32>) -> Option<u32>
    ensures { result ≡ faults.least_from least (faults.offset_if_wide at (expression test.now)) }
{
    if !is_wide(test) {
        return least;
    }
    match least {
        Some(least) => Some(least.min(at)),
        None => Some(at),
    }
}

// True exactly where the test or its negation spreads to too many conjunctions.
fn is_wide(test: &Expr) -> bool
    ensures { result ≡ faults.is_wide (expression test.now) }
{
    conjunctions(test, true) > CONJUNCTIONS || conjunctions(test, false) > CONJUNCTIONS
}
