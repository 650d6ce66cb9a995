//! Plain programs.
ghost use Rattle.std.specs.Prelude.{◌↔◌, IsTrue};
ghost use Rattle.step_meaning.specs.AffineExpressions.{IsAffineTest};
ghost use Rattle.step_meaning.specs.Syntax.{expression, statement, statements};
ghost use Rattle.step_meaning.specs.Plain.{IsPlain, IsPlainStatement, IsPlainTest};

use crate::affine::is_affine;
use crate::expression::{Expr, Op2};
use crate::program::Program;
use crate::statement::{Block, StmtKind};

impl Program {
    /// True exactly where the program is plain: every number expression is affine, so that no range, quotient or remainder occurs, and `?`
    /// occurs only as the whole test of a statement.
    pub fn is_plain(&self) -> bool
        ensures { IsTrue result ↔ IsPlain (statements self.now.body) }
    {
        are_plain(&self.body)
    }
}

// True exactly where each of the statements is plain.
#[cycle(plain)]
fn are_plain(block: &Block) -> bool
    ensures { IsTrue result ↔ IsPlain (statements block.now) }
{
    let mut left = block;
    while let Block::Then { first, rest } = left {
        if !is_plain_statement(&first.kind) {
            return false;
        }
        left = rest;
    }
    true
}

// True exactly where the statement is plain.
#[cycle(plain)]
fn is_plain_statement(kind: &StmtKind) -> bool
    ensures { IsTrue result ↔ IsPlainStatement (statement kind.now) }
{
    match kind {
        StmtKind::Assign { var: _, value } => is_affine(value),
        StmtKind::Skip | StmtKind::Return | StmtKind::Break | StmtKind::Continue => true,
        StmtKind::If { test, yes, no } => is_plain_test(test) && are_plain(yes) && are_plain(no),
        StmtKind::While { test, body, step } => {
            is_plain_test(test) && are_plain(body) && are_plain(step)
        }
        StmtKind::Do { body, test } => are_plain(body) && is_plain_test(test),
    }
}

// True exactly where the test is a whole `?`, or has none and compares affine expressions.
fn is_plain_test(test: &Expr) -> bool
    ensures { IsTrue result ↔ IsPlainTest (expression test.now) }
{
    match test {
        Expr::Free => true,
        _ => is_affine_test(test),
    }
}

// True exactly where the test has no `?` and compares affine expressions.
fn is_affine_test(test: &Expr) -> bool
    ensures { IsTrue result ↔ IsAffineTest (expression test.now) }
{
    match test {
        Expr::True | Expr::False => true,
        Expr::Not(operand) => is_affine_test(operand),
        Expr::Pair { op, left, right } => match op {
            Op2::And | Op2::Or => is_affine_test(left) && is_affine_test(right),
            _ => is_affine(left) && is_affine(right),
        },
        _ => false,
    }
}
