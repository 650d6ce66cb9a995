//! What refutes a leaf.

use crate::reason::Reason;

/// A reason against a leaf, and the number of the edge of the system that it holds for.
#[derive(Clone, Copy)]
pub struct Finding {
    pub edge: u32,
    pub reason: Reason,
}
