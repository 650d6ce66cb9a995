//! Why a search stops.
use linear_cons::Wide;
use std::alloc::{AllocError, AllocFailed};

/// Why a search stops.
#[derive(Drop)]
pub enum Stop {
    Memory(AllocError),
    /// A number lies outside `i128`, there are too many paths or moves, or no work is left to the search.
    GivenUp,
}

/// What was found, or nothing where the search for it was given up. The only error is want of memory.
pub fn unless_given_up<T: Drop>(found: Result<T, Stop>) -> Result<Option<T>, AllocError> {
    match found {
        Ok(found) => Ok(Some(found)),
        Err(Stop::GivenUp) => Ok(None),
        Err(Stop::Memory(error)) => Err(error),
    }
}

impl From<AllocError> for Stop {
    fn from(error: AllocError) -> Stop {
        Stop::Memory(error)
    }
}

impl<T: Drop> From<AllocFailed<T>> for Stop {
    fn from(failed: AllocFailed<T>) -> Stop {
        Stop::Memory(AllocError::from(failed))
    }
}

impl From<Wide> for Stop {
    fn from(_wide: Wide) -> Stop {
        Stop::GivenUp
    }
}
