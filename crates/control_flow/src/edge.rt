//! The edges between labels, and the choices that are made at them.

/// What is done along an edge.
#[derive(Clone, Copy, PartialEq, Eq, Debug)]
pub enum EdgeKind {
    /// The assignment of the label that the edge comes from.
    Assign,
    /// Nothing, where the test of the label that the edge comes from has this outcome.
    Test { holds: bool },
    /// Nothing.
    Skip,
}

/// One step, from the configurations of a label to those of a label.
#[derive(Clone, Copy, PartialEq, Eq, Debug)]
pub struct Edge {
    pub from: u32,
    pub to: u32,
    pub kind: EdgeKind,
}

/// What an existential formula may choose at a label.
#[derive(Clone, Copy, PartialEq, Eq, Debug)]
pub enum Choice {
    None,
    /// The outcome of a whole test `?`.
    Branch,
    /// The number of a whole right side that is `?` or a range; a missing end is infinite.
    Range { lo: Option<i64>, hi: Option<i64> },
}
