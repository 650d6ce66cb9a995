//! Programs: `main`, and what stands before it.

use crate::simple::Name;
use crate::statement::Items;

/// What may stand before `main`.
#[derive(Clone, Copy)]
pub enum Prelude {
    /// The declaration of `__VERIFIER_nondet_int`, and whether `void` is written in its parentheses.
    ExternCall { void: bool },
    /// `typedef enum {false, true} bool;`
    TypedefBool,
}

/// What stands in the parentheses of a function.
#[derive(Drop)]
pub enum Parameters {
    /// None, and whether `void` is written there.
    Nothing { void: bool },
    /// The first, and those behind it.
    Named { first: Name, more: Vec<Name> },
}

/// A function other than `main`.
#[derive(Drop)]
pub struct Function {
    /// Whether it is declared with `int`, and so gives a value; else it is with `void`.
    pub valued: bool,
    pub name: Name,
    pub parameters: Parameters,
    pub items: Items,
    /// The number of the token behind the `}` of its items.
    pub behind: usize,
}

/// A program.
#[derive(Drop)]
pub struct Program {
    pub preludes: Vec<Prelude>,
    /// The functions before `main`.
    pub functions: Vec<Function>,
    /// Whether `void` is written in the parentheses of `main`.
    pub void: bool,
    pub items: Items,
}
