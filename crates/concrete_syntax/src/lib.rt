//! Concrete syntax trees of programs: one variant for each alternative of the grammar. In `specs/`: the grammar and its trees as pure
//! data (Trees), and which of them each tree of this crate is (Mirror). Lists are chains of links, so what walks along one is a loop:
//! only nesting may recurse. What may have to be found again in the text holds the number of its first token, counted from 0.
#![tactic(auto)]

mod expression;
mod program;
mod sign;
mod simple;
mod statement;

pub use expression::{Divisor, End, Expression, Link, Operand, OperandKind, Tail};
pub use program::{Function, Parameters, Prelude, Program};
pub use sign::{Assignment, Division, Operator, Prefix, Step};
pub use simple::{Action, Call, Declaration, Name, Part, Simple, Start, Value};
pub use statement::{ForLoop, Item, Items, Otherwise, Statement, StatementKind};
