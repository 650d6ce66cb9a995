//! What it means that the leaves of decision trees are supported, and why that makes them true.
//!
//! `specs/` has the systems of a leaf, support, firm support, and legal eliminations of leaves, over the edges of a program, its invariants
//! and one part of a formula. Nothing here decides: `tree_check` does. The front door for claims is the laws.
#![tactic(auto)]

mod dropped;
mod entry;
pub mod laws;

pub use dropped::Dropped;
pub use entry::tree_at_entry;
