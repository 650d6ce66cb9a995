//! What an until is made of.
use decision_tree::{AffineRank, Tree};

/// What an until or a weak until is made of, as trees for the labels. A label past the end of a slice claims nothing.
#[derive(Clone, Copy)]
pub struct Operands<'a> {
    /// Whether it speaks of all next states, or of some.
    pub all: bool,
    /// Where the goal holds now: claims of rank 0.
    pub goal: &'a [Tree<AffineRank>],
    /// Where what is to be kept holds.
    pub keep: &'a [Tree<AffineRank>],
}
