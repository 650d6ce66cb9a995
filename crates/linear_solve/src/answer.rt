//! What the solver answers.
ghost use Rattle.std.specs.Prelude.{◌≡◌};

use linear_cons::{Row, Wide};
use std::alloc::AllocError;

/// What is known of a system of rows.
#[derive(Clone, Copy, PartialEq, Eq, Debug)]
pub enum Answer {
    /// No store meets all rows.
    Empty,
    /// The point `num / den`, with `den` above 0, meets every row.
    Point { num: [i128; 16], den: i128 },
    /// A number on the way lies outside `i128`: the exact result of these operands.
    Wide(Wide),
    /// An elimination comes to this many tightest rows, more than 4,096.
    Rows { count: u32 },
}

/// A system without one of its places.
#[derive(Drop, Debug)]
pub enum Projected {
    /// The rows on the other places.
    Rows(Vec<Row>),
    /// A number on the way lies outside `i128`: the exact result of these operands.
    Wide(Wide),
    /// The elimination comes to this many tightest rows, more than 4,096.
    TooMany { count: u32 },
}

/// Why a system was given up.
#[derive(Drop, Debug)]
pub(crate) enum Stop {
    Memory(AllocError),
    Wide(Wide),
    Rows { count: u32 },
}

impl From<AllocError> for Stop {
    ghost use Rattle.linear_solve.specs.declared.answer.Stop.TheVariants.{Memory};

    ghost from_gives = { λ fault stop. stop ≡ Memory fault };

    fn from(fault: AllocError) -> Stop {
        Stop::Memory(fault)
    }
}

impl From<Wide> for Stop {
    ghost use Rattle.linear_solve.specs.declared.answer.Stop.TheVariants.{Wide};

    ghost from_gives = { λ wide stop. stop ≡ Wide wide };

    fn from(wide: Wide) -> Stop {
        Stop::Wide(wide)
    }
}
