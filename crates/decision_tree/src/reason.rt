//! Why a leaf stands, and what a tree gave up for.
use linear_cons::{Affine, Wide};

/// Which next states a leaf speaks of at a step.
#[derive(Clone, Copy, PartialEq, Eq, Hash, Debug)]
pub enum Pick {
    /// Every next state.
    All,
    /// The state behind a test that holds.
    Yes,
    /// The state behind a test that fails.
    No,
    /// The state in which the value of the function was put.
    Value(Affine),
}

/// The reason for which a leaf is defined.
#[derive(Clone, Copy, PartialEq, Eq, Hash, Debug)]
pub enum Why {
    /// The program has ended.
    End,
    /// An atom holds.
    Atom,
    /// Both parts of a conjunction hold.
    Both,
    /// The left part of a disjunction holds.
    Left,
    /// The right part of a disjunction holds.
    Right,
    /// The goal holds now.
    Now,
    /// No run comes here.
    Dead,
    /// A step leads to leaves of smaller rank.
    Step(Pick),
}

/// What a tree gave up for at an undefined leaf.
#[derive(Clone, Copy, PartialEq, Eq, Hash, Debug)]
pub enum Cause {
    /// A number lies outside `i128`.
    Wide(Wide),
    /// An elimination left too many rows.
    Rows { count: u32 },
    /// A tree has too many nodes.
    Nodes { count: u32 },
    /// The point `num / den` refutes the leaf that stood here.
    Point { num: [i128; 16], den: i128 },
    /// The leaf was given up to widen the tree.
    Given,
}
