//! Expressions, as they are written: operands with the operators between them. How they group has no part in the tree.

use crate::sign::{Division, Operator, Prefix};
use std::alloc::{AllocError, Global};

/// The end of a range.
#[derive(Clone, Copy)]
pub struct End {
    /// Whether a `-` stands before it.
    pub negative: bool,
    /// Its number, or `None` for `inf`.
    pub size: Option<i64>,
}

/// What divides.
#[derive(Clone, Copy)]
pub struct Divisor {
    /// Whether a `-` stands before its number.
    pub negative: bool,
    /// The number of its number's token.
    pub at: usize,
    pub size: i64,
}

/// An operand, and the number of its first token.
#[cycle(operands)]
#[derive(Drop)]
pub struct Operand {
    pub at: usize,
    pub kind: OperandKind,
}

/// What an operand is.
#[cycle(operands)]
#[derive(Drop)]
pub enum OperandKind {
    Number(i64),
    /// A variable, by its bytes in the text.
    Name(Vec<u8>),
    Truth(bool),
    /// `?`
    Unknown,
    /// `__VERIFIER_nondet_int()`
    Call,
    Signed {
        prefix: Prefix,
        operand: Box<Operand>,
    },
    /// An expression in parentheses: its first operand, and what stands behind that.
    Parentheses {
        operand: Box<Operand>,
        tail: Box<Tail>,
    },
    /// `[low, high]`
    Range {
        low: End,
        high: End,
    },
}

/// An operator or a sign of a division, and what stands at its right.
#[cycle(operands)]
#[derive(Drop)]
pub enum Link {
    Operation {
        op: Operator,
        operand: Operand,
    },
    Division {
        division: Division,
        divisor: Divisor,
    },
}

/// What stands behind the first operand of an expression, in the order of the text.
#[cycle(operands)]
pub enum Tail {
    Ended,
    Further { link: Link, rest: Box<Tail> },
}

/// An expression.
#[derive(Drop)]
pub struct Expression {
    pub operand: Operand,
    pub tail: Tail,
}

impl Tail {
    ghost use Rattle.std.specs.Prelude.{◌≡◌, IfOk};
    ghost use Rattle.concrete_syntax.specs.Trees.{ended};
    ghost use Rattle.concrete_syntax.specs.Mirror.{tail, links};
    ghost use Rattle.concrete_syntax.specs.Chains.{tail_of};

    /// The tail of these links, in their order. `AllocError` where one finds no room.
    pub fn of(alloc: Global, mut list: Vec<Link>) -> Result<Tail, AllocError>
        ensures { IfOk result (λ made. tail made ≡ tail_of (links list.items) ended) }
    {
        let mut made = Tail::Ended;
        while let Some(link) = list.pop() {
            made = Tail::Further {
                link,
                rest: Box::new(alloc, made)?,
            };
        }
        Ok(made)
    }
}

impl Drop for Tail {
    #[cycle(drop_operands)]
    fn drop(mut self) {
        loop {
            match self {
                Tail::Ended => return,
                Tail::Further { link: _, rest } => self = Box::into_inner(rest),
            }
        }
    }
}
