//! The bodies of loops, by their labels.

ghost use Rattle.std.specs.Prelude.{◌≡◌, ◌+◌, ◌≤◌};
ghost use Rattle.step_meaning.specs.Syntax.{statements, statement, size_of, size_of_statement};
ghost use Rattle.control_flow.specs.Bodies.{body_in, body_in_statement, either_span};

use crate::number::{size, size_of_one};
use step_meaning::{Block, Stmt, StmtKind};

/// The labels of the body and the step of the loop whose test has the label `head`, from the first up to before the second, where the loop
/// stands among statements whose labels begin at `number`.
#[cycle(bodies)]
pub(crate) fn body_in(block: &Block, number: u32, head: u32) -> Option<(u32, u32)>
    requires { number + size_of (statements block.now) ≤ 1024 }
    ensures { result ≡ body_in number (statements block.now) head }
{
    let mut here = number;
    let mut left = block;
    while let Block::Then { first, rest } = left {
        if let Some(found) = body_in_one(first, here, head) {
            return Some(found);
        }
        here += size_of_one(first);
        left = rest;
    }
    None
}

// The same where the loop stands in a statement, or is it.
#[cycle(bodies)]
fn body_in_one(stmt: &Stmt, number: u32, head: u32) -> Option<(u32, u32)>
    requires { number + size_of_statement (statement stmt.now.kind) ≤ 1024 }
    ensures { result ≡ body_in_statement number (statement stmt.now.kind) head }
{
    match &stmt.kind {
        StmtKind::Assign { .. }
        | StmtKind::Skip
        | StmtKind::Return
        | StmtKind::Break
        | StmtKind::Continue => None,
        StmtKind::If { test: _, yes, no } => body_in_two(yes, no, number + 1, head),
        StmtKind::While {
            test: _,
            body,
            step,
        } => {
            let first = number + 1;
            if head == number {
                Some((first, first + size(body) + size(step)))
            } else {
                body_in_two(body, step, first, head)
            }
        }
        StmtKind::Do { body, test: _ } => {
            let last = number + size(body);
            if head == last {
                Some((number, last))
            } else {
                body_in(body, number, head)
            }
        }
    }
}

// The same where the loop stands in the one list or in the other behind it.
#[cycle(bodies)]
fn body_in_two(first: &Block, second: &Block, number: u32, head: u32) -> Option<(u32, u32)>
    requires { number + size_of (statements first.now) + size_of (statements second.now) ≤ 1024 }
    ensures { result ≡ either_span (body_in number (statements first.now) head) (body_in (number + size_of (statements first.now)) (statements second.now) head) }
{
    match body_in(first, number, head) {
        Some(found) => Some(found),
        None => body_in(second, number + size(first), head),
    }
}
