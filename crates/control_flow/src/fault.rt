//! Why a program has no graph.

use std::alloc::AllocError;

/// Why a program has no graph. Offsets are in bytes from the text's start; a count is a number above the limit, and says no more.
#[derive(Clone, Copy, PartialEq, Eq, Debug)]
pub enum FlowFault {
    /// More than 1,024 labels with label 0, at the statement that would have the 1,024th besides it.
    Labels { at: u32, count: u32 },
    /// The spreading of a test or of its negation has more than 64 conjunctions, counted before any is dropped, at the least offset of
    /// a statement with such a test.
    Conjunctions { at: u32, count: u32 },
    /// Memory ran out. It says nothing of the program.
    Memory(AllocError),
}

impl From<AllocError> for FlowFault {
    ghost use Rattle.std.specs.Prelude.{◌≡◌};
    ghost use Rattle.control_flow.specs.declared.fault.FlowFault.TheVariants.{Memory};

    ghost from_gives = { λ error fault. fault ≡ Memory error };

    fn from(error: AllocError) -> FlowFault {
        FlowFault::Memory(error)
    }
}
