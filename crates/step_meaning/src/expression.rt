//! Expressions: numbers and tests in one tree, of which `Program` promises that each operand has the sort that its place needs.

/// A binary operator, with the precedence and the meaning of C99 (6.5.5 to 6.5.14), but over unbounded whole numbers and with no
/// order of evaluation, since operands have no side effects.
#[derive(Clone, Copy)]
pub enum Op2 {
    Add,
    Sub,
    Mul,
    Less,
    LessEqual,
    Greater,
    GreaterEqual,
    Equal,
    NotEqual,
    And,
    Or,
}

/// An expression. As a number it may have several outcomes in one store, and as a test one or both truth values.
#[derive(Drop)]
pub enum Expr {
    Number(i64),
    /// The variable at this place of the program's names, counted from 0.
    Name(u8),
    /// `?`: any whole number, or as a test either truth value.
    Free,
    /// `[lo, hi]`: any whole number between the ends, of which a missing one is infinite.
    Range {
        lo: Option<i64>,
        hi: Option<i64>,
    },
    True,
    False,
    /// The quotient by `by`, which isn't 0 in a `Program`, rounded towards 0.
    Quot {
        of: Box<Expr>,
        by: i64,
    },
    /// What that quotient leaves: 0, or a number with the sign of the operand.
    Rem {
        of: Box<Expr>,
        by: i64,
    },
    Neg(Box<Expr>),
    Not(Box<Expr>),
    Pair {
        op: Op2,
        left: Box<Expr>,
        right: Box<Expr>,
    },
}
