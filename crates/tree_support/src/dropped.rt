//! Leaves that are given up.

use constraint_stack::Reason;

/// A leaf that was given up: its label, its number at the label, the number of the edge of the system that refuted it (0 or 1, and 2 for
/// a system without an edge), and the reason.
#[derive(Clone, Copy, PartialEq, Eq, Debug)]
pub struct Dropped {
    pub label: u32,
    pub leaf: u64,
    pub edge: u32,
    pub reason: Reason,
}
