//! Statements, and lists of items.

ghost use Rattle.std.specs.Prelude.{◌≡◌, IfOk, [], ◌∷◌};
ghost use Rattle.concrete_syntax.specs.Mirror.{items, item};
ghost use Rattle.concrete_syntax.specs.Chains.{items_of};

use crate::expression::Expression;
use crate::simple::{Call, Declaration, Name, Simple, Start};
use std::alloc::{AllocError, Global};

/// A statement, and the number of its first token.
#[cycle(statements)]
#[derive(Drop)]
pub struct Statement {
    pub at: usize,
    pub kind: StatementKind,
}

/// What a statement is.
#[cycle(statements)]
#[derive(Drop)]
pub enum StatementKind {
    Simple(Simple),
    /// A call alone.
    Calls(Call),
    /// A call that gives a variable its value.
    Gives {
        target: Name,
        call: Call,
    },
    /// `;` alone.
    Skip,
    Braces(Items),
    Conditional {
        test: Expression,
        part: Box<Statement>,
        other: Otherwise,
    },
    While {
        test: Expression,
        body: Box<Statement>,
    },
    Do {
        body: Box<Statement>,
        /// The number of the token of the `while` that ends it.
        end: usize,
        test: Expression,
    },
    For(Box<ForLoop>),
    Return(Option<Expression>),
    Break,
    Continue,
}

/// A `for`. It stands in a box, since it is three times as large as any other statement.
#[cycle(statements)]
#[derive(Drop)]
pub struct ForLoop {
    pub start: Start,
    pub test: Option<Expression>,
    pub step: Option<Simple>,
    pub body: Statement,
}

/// The second part of an `if`, where it has one.
#[cycle(statements)]
#[derive(Drop)]
pub enum Otherwise {
    Nothing,
    Else(Box<Statement>),
}

/// The declarations and statements of a pair of braces, in the order of the text.
#[cycle(statements)]
pub enum Items {
    Ended,
    Declaration {
        first: Declaration,
        rest: Box<Items>,
    },
    Statement {
        first: Box<Statement>,
        rest: Box<Items>,
    },
}

/// A declaration or a statement.
#[derive(Drop)]
pub enum Item {
    Declaration(Declaration),
    Statement(Statement),
}

impl Items {
    ghost use Rattle.std.specs.Prelude.{◌≡◌, IfOk, map};
    ghost use Rattle.concrete_syntax.specs.Trees.{none};
    ghost use Rattle.concrete_syntax.specs.Mirror.{items, item};
    ghost use Rattle.concrete_syntax.specs.Chains.{items_of};

    /// These declarations and statements, in their order. `AllocError` where a link finds no room.
    pub fn of(alloc: Global, mut list: Vec<Item>) -> Result<Items, AllocError>
        ensures { IfOk result (λ made. items made ≡ items_of (map item list.items) none) }
    {
        let mut made = Items::Ended;
        while let Some(last) = list.pop() {
            made = before(alloc, last, made)?;
        }
        Ok(made)
    }
}

// The item, and the others behind it.
fn before(alloc: Global, first: Item, rest: Items) -> Result<Items, AllocError>
    ensures { IfOk result (λ made. items made ≡ items_of (item first ∷ []) (items rest)) }
{
    let rest = Box::new(alloc, rest)?;
    match first {
        Item::Declaration(first) => Ok(Items::Declaration { first, rest }),
        Item::Statement(first) => Ok(Items::Statement {
            first: Box::new(alloc, first)?,
            rest,
        }),
    }
}

impl Drop for Items {
    #[cycle(drop_statements)]
    fn drop(mut self) {
        loop {
            match self {
                Items::Ended => return,
                Items::Declaration { first: _, rest } => self = Box::into_inner(rest),
                Items::Statement { first: _, rest } => self = Box::into_inner(rest),
            }
        }
    }
}
