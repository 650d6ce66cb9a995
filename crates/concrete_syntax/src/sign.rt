//! Signs that have a part in trees.

/// A sign between two operands.
#[derive(Clone, Copy)]
pub enum Operator {
    Or,
    And,
    Equal,
    NotEqual,
    Less,
    LessEqual,
    Greater,
    GreaterEqual,
    Add,
    Subtract,
    Multiply,
}

/// A sign between what is divided and its divisor.
#[derive(Clone, Copy)]
pub enum Division {
    /// `/`
    Quotient,
    /// `%`
    Remainder,
}

/// A sign before an operand.
#[derive(Clone, Copy)]
pub enum Prefix {
    Plus,
    Minus,
    Not,
}

/// A sign that assigns to the name before it.
#[derive(Clone, Copy)]
pub enum Assignment {
    Assign,
    Add,
    Subtract,
    Multiply,
}

/// A sign that adds or takes off one.
#[derive(Clone, Copy)]
pub enum Step {
    Increment,
    Decrement,
}
