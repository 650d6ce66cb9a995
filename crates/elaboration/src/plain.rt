//! Bodies without calls.

ghost use Rattle.std.specs.Prelude.{◌≡◌, ℕ, IfOk};
ghost use Rattle.step_meaning.specs.Syntax.{expression, statement, statements};
ghost use Rattle.step_meaning.specs.Offsets.{offsets, offsets_at};
ghost use Rattle.call_meaning.specs.Tables.{command, commands};
ghost use Rattle.call_meaning.specs.Offsets as units;
ghost use Rattle.elaboration.specs.Elaborates.{plain, plain_command};

use call_meaning::{UnitBlock, UnitKind};
use std::alloc::{AllocError, Global};
use step_meaning::{Block, Expr, Stmt, StmtKind};

/// A body without calls; a call becomes `;`.
#[cycle(plain)]
pub fn plain_block(alloc: Global, block: &UnitBlock) -> Result<Block, AllocError>
    ensures meaning { IfOk result (λ made. statements made ≡ plain (commands block.now)) }
    ensures offsets { IfOk result (λ made. offsets made ≡ units.offsets block.now) }
{
    let mut list = Vec::new(alloc);
    let mut left = block;
    while let UnitBlock::Then { first, rest } = left {
        let kind = plain_kind(alloc, &first.kind)?;
        list.push(Stmt { at: first.at, kind })?;
        left = rest;
    }
    let made = Block::of(alloc, list)?;
    Ok(made)
}

// One statement of it.
#[cycle(plain)]
fn plain_kind(alloc: Global, kind: &UnitKind) -> Result<StmtKind, AllocError>
    ensures meaning { IfOk result (λ made. statement made ≡ plain_command (command kind.now)) }
    ensures offsets { IfOk result (λ made. (at : ℕ) → offsets_at at made ≡ units.offsets_at at kind.now) }
{
    match kind {
        UnitKind::Assign { var, value } => {
            let value = copied(alloc, value)?;
            Ok(StmtKind::Assign { var: *var, value })
        }
        UnitKind::Call { .. } | UnitKind::Skip => Ok(StmtKind::Skip),
        UnitKind::Return { value: _ } => Ok(StmtKind::Return),
        UnitKind::Break => Ok(StmtKind::Break),
        UnitKind::Continue => Ok(StmtKind::Continue),
        UnitKind::If { test, yes, no } => {
            let test = copied(alloc, test)?;
            let yes = plain_block(alloc, yes)?;
            let no = plain_block(alloc, no)?;
            Ok(StmtKind::If { test, yes, no })
        }
        UnitKind::While { test, body, step } => {
            let test = copied(alloc, test)?;
            let body = plain_block(alloc, body)?;
            let step = plain_block(alloc, step)?;
            Ok(StmtKind::While { test, body, step })
        }
        UnitKind::Do { body, test } => {
            let body = plain_block(alloc, body)?;
            let test = copied(alloc, test)?;
            Ok(StmtKind::Do { body, test })
        }
    }
}

// The same expression.
fn copied(alloc: Global, expr: &Expr) -> Result<Expr, AllocError>
    ensures { IfOk result (λ made. expression made ≡ expression expr.now) }
{
    match expr {
        Expr::Number(value) => Ok(Expr::Number(*value)),
        Expr::Name(place) => Ok(Expr::Name(*place)),
        Expr::Free => Ok(Expr::Free),
        Expr::Range { lo, hi } => Ok(Expr::Range { lo: *lo, hi: *hi }),
        Expr::True => Ok(Expr::True),
        Expr::False => Ok(Expr::False),
        Expr::Quot { of, by } => {
            let of = Box::new(alloc, copied(alloc, of)?)?;
            Ok(Expr::Quot { of, by: *by })
        }
        Expr::Rem { of, by } => {
            let of = Box::new(alloc, copied(alloc, of)?)?;
            Ok(Expr::Rem { of, by: *by })
        }
        Expr::Neg(operand) => {
            let inner = Box::new(alloc, copied(alloc, operand)?)?;
            Ok(Expr::Neg(inner))
        }
        Expr::Not(operand) => {
            let inner = Box::new(alloc, copied(alloc, operand)?)?;
            Ok(Expr::Not(inner))
        }
        Expr::Pair { op, left, right } => {
            let left = Box::new(alloc, copied(alloc, left)?)?;
            let right = Box::new(alloc, copied(alloc, right)?)?;
            Ok(Expr::Pair {
                op: *op,
                left,
                right,
            })
        }
    }
}
