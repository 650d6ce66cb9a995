//! What a report holds.
ghost use Rattle.std.specs.Prelude.{◌≡◌};

use crate::line_list::Lines;
use std::marker::Model;

/// Why the exact levels stopped.
#[derive(Clone, Copy, PartialEq, Eq, Debug)]
pub enum Stop {
    /// A number is outside `i128`.
    WideNumbers,
    /// A tree has too many nodes.
    TooManyNodes,
    /// The program isn't plain.
    NotPlain,
}

/// What stands above the exact lines. `tests` is the number of loop tests of the last level that was made.
#[derive(Clone, Copy, PartialEq, Eq, Debug)]
pub enum Header {
    /// There is no exact part.
    Absent,
    /// Every level was made.
    Whole { tests: u32 },
    /// The next level stopped.
    Partial { tests: u32, cause: Stop },
    /// No level was made.
    Stopped { cause: Stop },
}

/// A list of numbers; contracts see it as the list.
#[derive(Drop)]
pub struct Counts {
    counts: Vec<u64>,
}

impl Model for Counts {
    ghost use Rattle.std.specs.Prelude.{List, ℕ};

    ghost Value = { List ℕ };

    ghost view = { λ inside. inside.counts.items };
}

impl Counts {
    /// The list of the vector's numbers. It takes no memory.
    pub fn of(counts: Vec<u64>) -> Counts
        ensures { result ≡ counts.items }
    {
        Counts { counts }
    }

    /// The numbers as a slice.
    pub fn items(&self) -> &[u64]
        ensures { result.now ≡ self.now }
    {
        &self.counts
    }
}

/// How the report came about: the labels of the program, the families that were checked, and how often
/// each adviser was asked.
#[derive(Drop)]
pub struct Explain {
    pub labels: u32,
    pub families: u32,
    pub asked: Counts,
}

/// A report: the exact lines under their header, what is proved, what ends by a rank, and what isn't known. The exact lines of a
/// report with the header `Absent` or `Stopped` aren't printed.
#[derive(Drop)]
pub struct Report {
    pub header: Header,
    pub exact: Lines,
    pub proved: Lines,
    pub ranked: Lines,
    pub unknown: Lines,
    pub explain: Option<Explain>,
}
