//! What the readers of this crate read from, and what they answer.

use crate::lexeme::Lexeme;
use derivation::Failure;
use std::alloc::Global;

/// The words of a text, and where the trees that they spell find room.
#[derive(Clone, Copy)]
pub struct Reader<'t> {
    pub alloc: Global,
    pub words: &'t [Lexeme<'t>],
}

/// A tree, the number of the word behind it and the count of operators by then; or the first fault, or that memory ran out.
pub type Read<T> = Result<(T, usize, u32), Failure>;
