//! The parts of statements that no statement is a part of.

use crate::expression::Expression;
use crate::sign::{Assignment, Step};

/// A name by its bytes in the text, and the number of its token.
#[derive(Drop)]
pub struct Name {
    pub at: usize,
    pub bytes: Vec<u8>,
}

/// What a simple statement does to the name that it begins with.
#[derive(Drop)]
pub enum Action {
    Assigns {
        assignment: Assignment,
        value: Expression,
    },
    Steps(Step),
}

/// A statement that gives a variable a value, without its `;`.
#[derive(Drop)]
pub enum Simple {
    Acts { name: Name, action: Action },
    /// `++x` or `--x`, with the number of the sign's token.
    StepsBefore { at: usize, step: Step, name: Name },
}

/// A call of a function of the program.
#[derive(Drop)]
pub struct Call {
    pub function: Name,
    pub arguments: Vec<Expression>,
}

/// What gives a variable its value behind an `=`.
#[derive(Drop)]
pub enum Value {
    Expression(Expression),
    Call(Call),
}

/// A declared name, and its initialiser if it has one.
#[derive(Drop)]
pub struct Part {
    pub declared: Name,
    pub initialiser: Option<Value>,
}

/// A declaration: its first part, and the parts behind that.
#[derive(Drop)]
pub struct Declaration {
    pub part: Part,
    pub more: Vec<Part>,
}

/// What stands before the first `;` of a `for`.
#[derive(Drop)]
pub enum Start {
    Nothing,
    Simple(Simple),
    Declaration(Declaration),
}
