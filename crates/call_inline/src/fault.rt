//! Why a unit has no program without calls.

use std::alloc::AllocError;

/// Why a unit has no program without calls. Offsets are in bytes from the text's start; a count is a number above the limit, and says no more.
#[derive(Clone, Copy, PartialEq, Eq, Debug)]
pub enum InlineFault {
    /// The first call in the text where the levels of nesting pass 64 together with those of the body that takes its place, at the function's name.
    Nesting { at: u32, count: u32 },
    /// More than 1,024 labels with label 0, at the statement that would have the 1,024th besides it.
    Labels { at: u32, count: u32 },
    /// Memory ran out. It says nothing of the unit.
    Memory(AllocError),
}

impl From<AllocError> for InlineFault {
    ghost use Rattle.std.specs.Prelude.{◌≡◌};
    ghost use Rattle.call_inline.specs.declared.fault.InlineFault.TheVariants.{Memory};

    ghost from_gives = { λ error fault. fault ≡ Memory error };

    fn from(error: AllocError) -> InlineFault {
        InlineFault::Memory(error)
    }
}
