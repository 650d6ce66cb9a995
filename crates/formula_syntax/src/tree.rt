//! Concrete syntax trees of formulas: one variant for each alternative of the grammar. How operators and connectives group has no part in
//! them. What may have to be found again in the text holds the number of its first token, counted from 0.

use crate::sign::{Comparison, Connective, Operator, Prefix};

/// A factor, and the number of its first token.
#[cycle(factors)]
#[derive(Drop)]
pub struct Factor {
    pub at: usize,
    pub kind: FactorKind,
}

/// What a factor is.
#[cycle(factors)]
#[derive(Drop)]
pub enum FactorKind {
    Number(i64),
    /// A variable, by its bytes in the text.
    Name(Vec<u8>),
    /// `-` or `+` before a factor.
    Signed {
        negative: bool,
        factor: Box<Factor>,
    },
    /// A sum in parentheses: its first factor, and what stands behind that.
    Summed {
        factor: Box<Factor>,
        tail: Box<Tail>,
    },
}

/// What stands behind the first factor of a sum.
#[cycle(factors)]
#[derive(Drop)]
pub enum Tail {
    Ended,
    Further {
        op: Operator,
        factor: Box<Factor>,
        rest: Box<Tail>,
    },
}

/// Factors with the operators between them.
#[derive(Drop)]
pub struct Sum {
    pub factor: Factor,
    pub tail: Tail,
}

/// A part of a formula.
#[cycle(parts)]
#[derive(Drop)]
pub enum Part {
    Prefixed {
        prefix: Prefix,
        part: Box<Part>,
    },
    /// `A[keep U goal]` where it is said of all runs, else `E[keep U goal]`; with `W` in place of `U` where it is weak. Each side is a
    /// part and what stands behind it.
    Quantified {
        all: bool,
        keep: Box<Part>,
        behind_keep: Box<Chain>,
        weak: bool,
        goal: Box<Part>,
        behind_goal: Box<Chain>,
    },
    Truth(bool),
    Exit,
    Compared {
        left: Sum,
        comparison: Comparison,
        right: Sum,
    },
    /// A formula in parentheses, and the number of the first of them.
    Grouped {
        at: usize,
        part: Box<Part>,
        chain: Box<Chain>,
    },
}

/// What stands behind the first part of a formula.
#[cycle(parts)]
#[derive(Drop)]
pub enum Chain {
    Done,
    Joined {
        connective: Connective,
        part: Box<Part>,
        rest: Box<Chain>,
    },
}

/// A formula.
#[derive(Drop)]
pub struct Formula {
    pub part: Part,
    pub chain: Chain,
}

/// What stands in parentheses where a formula or a sum may.
#[derive(Drop)]
pub enum Inner {
    Formula(Formula),
    Sum(Sum),
}

/// What stands behind a sum in such parentheses.
#[derive(Drop)]
pub enum InnerEnd {
    Closed,
    Compared {
        comparison: Comparison,
        right: Sum,
        chain: Chain,
    },
}
