//! Why a text has no tokens.

use std::alloc::AllocError;
use thiserror::Error;

/// The first fault of a text, with its offset in bytes from the text's start.
#[derive(Debug, Drop, Error)]
pub enum LexFault {
    /// A byte that begins no token, or directly behind a number a letter, `_` or, behind a leading `0`, a digit.
    #[error("a byte that begins no token, at {at}")]
    BadByte { at: u32 },
    /// A decimal literal above 2^63 - 1, at its first digit.
    #[error("a number above 9223372036854775807, at {at}")]
    BigNumber { at: u32 },
    /// `/*` with no `*/` behind it, at the `/`.
    #[error("a comment without an end, at {at}")]
    OpenComment { at: u32 },
    /// Memory ran out. It says nothing of the text.
    #[error("out of memory")]
    Memory(AllocError),
}
