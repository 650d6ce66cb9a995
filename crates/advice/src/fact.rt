//! Facts about loops, and hints.

use linear_cons::{Affine, Row};

/// Where the measure of a fact comes from.
#[derive(Clone, Copy, PartialEq, Eq, Debug)]
pub enum FactKind {
    /// A row of the loop's test.
    Guard,
    /// The distance of a variable from an end of its range at the loop.
    Range,
}

/// A loop head without a loop in its body, a function of the variables there, and when it falls: on each path through the body it falls by
/// at least 1 wherever these rows are met.
#[derive(Clone, Copy, PartialEq, Eq, Debug)]
pub struct LoopFact {
    /// The label of the loop's test.
    pub label: u32,
    pub kind: FactKind,
    pub measure: Affine,
    pub falls: [Option<Row>; 3],
}

/// What may bound a loop: where all the rows are met, it makes at most so many turns.
#[derive(Clone, Copy, PartialEq, Eq, Debug)]
pub struct Hint {
    /// The label of the loop's test.
    pub label: u32,
    pub split: [Option<Row>; 4],
    pub turns: Affine,
}
