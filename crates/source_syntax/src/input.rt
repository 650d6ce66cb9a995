//! What the readers of this crate read from, and what they answer.

use derivation::{Failure, Lexeme};
use std::alloc::Global;

/// The words of a text, and where the trees that they spell find room.
#[derive(Clone, Copy)]
pub struct Reader<'t> {
    pub alloc: Global,
    pub words: &'t [Lexeme<'t>],
}

/// A tree and the number of the word behind it; or the first fault, or that memory ran out.
pub type Read<T> = Result<(T, usize), Failure>;

/// The same with the count of operators by then.
pub type Counted<T> = Result<(T, usize, u32), Failure>;
