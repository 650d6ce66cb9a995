//! Programs: so many columns, and the equations between them.
use std::alloc::{AllocError, Global};

/// A column's value, so many times.
#[derive(Clone, Copy, PartialEq, Eq, Debug)]
pub struct Term {
    pub column: usize,
    pub number: i128,
}

/// The terms add up to the number on the right.
#[derive(Drop)]
pub struct Equation {
    pub(crate) terms: Vec<Term>,
    pub(crate) right: i128,
}

/// Columns whose values are not below 0, and equations that they meet.
#[derive(Drop)]
pub struct Program {
    pub(crate) columns: usize,
    pub(crate) equations: Vec<Equation>,
}

impl Program {
    /// The program without a column.
    pub fn new(alloc: Global) -> Program {
        Program {
            columns: 0,
            equations: Vec::new(alloc),
        }
    }

    /// How many columns there are, which is the index of the next.
    pub fn columns(&self) -> usize {
        self.columns
    }

    /// A column more, by its index.
    pub fn add_column(&mut self) -> usize {
        let column = self.columns;
        self.columns = column.saturating_add(1);
        column
    }

    /// An equation more: the terms add up to the number. A program with a term of a column that it doesn't have has no solution. The only
    /// error is want of memory.
    pub fn add_equation(&mut self, terms: Vec<Term>, right: i128) -> Result<(), AllocError> {
        self.equations.push(Equation { terms, right })?;
        Ok(())
    }
}
