//! The formulas.

use linear_cons::RowKind;
use std::alloc::{AllocError, Global};

/// A formula of CTL (Clarke and Emerson 1981) whose atoms are rows over the variables of a program and `exit`. The successor relation is
/// total: a final configuration has itself as its only successor.
#[cycle(formulas)]
#[derive(Drop)]
pub enum Formula {
    True,
    False,
    /// Nothing is left to do.
    Exit,
    NotExit,
    /// The store meets the row.
    Holds(RowKind),
    Not(Box<Formula>),
    And(Box<Formula>, Box<Formula>),
    Or(Box<Formula>, Box<Formula>),
    /// `AX` where it is said of all successors, else `EX`.
    Next {
        all: bool,
        part: Box<Formula>,
    },
    /// `A[keep U goal]` or `E[keep U goal]`.
    Until {
        all: bool,
        keep: Box<Formula>,
        goal: Box<Formula>,
    },
    /// `A[keep W goal]` or `E[keep W goal]`: the goal need not come while what is to be kept holds.
    Weak {
        all: bool,
        keep: Box<Formula>,
        goal: Box<Formula>,
    },
}

impl Formula {
    ghost use Rattle.std.specs.Prelude.{◌≡◌, IfOk};
    ghost use Rattle.ctl_formula.specs.Formulas as formulas;
    ghost use Rattle.ctl_formula.specs.Mirror.{ctl};

    /// `AF exit`: every run ends. The only error is want of memory.
    pub fn af_exit(alloc: Global) -> Result<Formula, AllocError>
        ensures { IfOk result (λ formula. ctl formula ≡ formulas.af_exit) }
    {
        Ok(Formula::Until {
            all: true,
            keep: Box::new(alloc, Formula::True)?,
            goal: Box::new(alloc, Formula::Exit)?,
        })
    }
}
