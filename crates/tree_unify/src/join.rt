//! The ways to join two trees.

/// Which tree stands where a leaf of a first tree meets a second tree.
#[derive(Clone, Copy)]
pub enum Join {
    /// The first where it is defined, else the second.
    Either,
    /// The second, where the first is defined.
    Both,
    /// The one of the greater rank, where both are defined.
    Later,
}
