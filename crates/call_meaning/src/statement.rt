//! Statements of functions and of `main`, which may call functions, and functions. A list of statements is a chain of links, so what walks along it is a loop.

use crate::lists::ExprList;
use std::alloc::{AllocError, Global};
use step_meaning::{Expr, Names};

/// A list of statements of one function, first to last.
#[cycle(units)]
pub enum UnitBlock {
    End,
    Then {
        first: Box<UnitStmt>,
        rest: Box<UnitBlock>,
    },
}

/// A statement with `at`, the offset that it has in a program without calls; for a call it is that of the called function's name.
#[cycle(units)]
#[derive(Drop)]
pub struct UnitStmt {
    pub at: u32,
    pub kind: UnitKind,
}

/// What a statement is. A variable is named by its place among those of its own function.
#[cycle(units)]
#[derive(Drop)]
pub enum UnitKind {
    /// Gives the variable at the place `var` an outcome of `value`.
    Assign {
        var: u8,
        value: Expr,
    },
    /// Calls the function of the number `func`; its value goes to the variable at the place `target`, if there is one. `level` is the number of levels
    /// that are open at the function's name.
    Call {
        target: Option<u8>,
        func: u32,
        args: ExprList,
        level: u32,
    },
    Skip,
    /// Ends `main`, or a function with its value.
    Return {
        value: Option<Expr>,
    },
    Break,
    Continue,
    If {
        test: Expr,
        yes: UnitBlock,
        no: UnitBlock,
    },
    While {
        test: Expr,
        body: UnitBlock,
        step: UnitBlock,
    },
    Do {
        body: UnitBlock,
        test: Expr,
    },
}

impl UnitBlock {
    ghost use Rattle.std.specs.Prelude.{◌≡◌, IfOk};
    ghost use Rattle.call_meaning.specs.Units.{of_list};
    ghost use Rattle.call_meaning.specs.Tables.{commands, parts};
    ghost use Rattle.call_meaning.specs.Offsets.{offsets, all_offsets, levels, all_levels};

    /// The list of these statements, in their order. `AllocError` where a link finds no room.
    pub fn of(alloc: Global, mut list: Vec<UnitStmt>) -> Result<UnitBlock, AllocError>
        ensures meaning { IfOk result (λ block. commands block ≡ of_list (parts list.items)) }
        ensures offsets { IfOk result (λ block. offsets block ≡ all_offsets list.items) }
        ensures levels { IfOk result (λ block. levels block ≡ all_levels list.items) }
    {
        let mut block = UnitBlock::End;
        while let Some(last) = list.pop() {
            block = UnitBlock::Then {
                first: Box::new(alloc, last)?,
                rest: Box::new(alloc, block)?,
            };
        }
        Ok(block)
    }
}

impl Drop for UnitBlock {
    #[cycle(drop_units)]
    fn drop(mut self) {
        loop {
            match self {
                UnitBlock::End => return,
                UnitBlock::Then { first: _, rest } => self = Box::into_inner(rest),
            }
        }
    }
}

/// A function: its first `params` names are its parameters, `levels` is the greatest number of levels open in its body, and `free` is true at the places of
/// its other variables that are declared without initialiser.
#[derive(Drop)]
pub struct Func {
    pub params: u8,
    pub levels: u32,
    pub names: Names,
    pub free: [bool; 16],
    pub body: UnitBlock,
}
