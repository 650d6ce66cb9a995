//! Statements and lists of them. A list is a chain of links, so what walks along it is a loop: only nesting may recurse.

use crate::expression::Expr;
use std::alloc::{AllocError, Global};

/// A list of statements, first to last.
#[cycle(statements)]
pub enum Block {
    End,
    Then { first: Box<Stmt>, rest: Box<Block> },
}

/// A statement with `at`, the offset of its first byte in the text. For a `do` it is the offset of the `while` that ends it, and for a
/// name declared with an initialiser the offset of that name. The offset has no part in the meaning.
#[cycle(statements)]
#[derive(Drop)]
pub struct Stmt {
    pub at: u32,
    pub kind: StmtKind,
}

#[cycle(statements)]
#[derive(Drop)]
pub enum StmtKind {
    /// Gives the variable at the place `var` an outcome of `value`.
    Assign {
        var: u8,
        value: Expr,
    },
    Skip,
    Return,
    /// Goes on behind the nearest loop.
    Break,
    /// Goes on at the step of the nearest loop, and then at its test.
    Continue,
    If {
        test: Expr,
        yes: Block,
        no: Block,
    },
    /// A `while`, or a `for` with its step.
    While {
        test: Expr,
        body: Block,
        step: Block,
    },
    Do {
        body: Block,
        test: Expr,
    },
}

impl Block {
    ghost use Rattle.std.specs.Prelude.{◌≡◌, IfOk};
    ghost use Rattle.step_meaning.specs.Syntax.{statements, of_list, parts};
    ghost use Rattle.step_meaning.specs.Offsets.{offsets, all_offsets};

    /// The list of these statements, in their order.
    pub fn of(alloc: Global, mut list: Vec<Stmt>) -> Result<Block, AllocError>
        ensures meaning { IfOk result (λ block. statements block ≡ of_list (parts list.items)) }
        ensures offsets { IfOk result (λ block. offsets block ≡ all_offsets list.items) }
    {
        let mut block = Block::End;
        while let Some(last) = list.pop() {
            block = Block::Then {
                first: Box::new(alloc, last)?,
                rest: Box::new(alloc, block)?,
            };
        }
        Ok(block)
    }
}

impl Drop for Block {
    #[cycle(drop_statements)]
    fn drop(mut self) {
        loop {
            match self {
                Block::End => return,
                Block::Then { first: _, rest } => self = Box::into_inner(rest),
            }
        }
    }
}
