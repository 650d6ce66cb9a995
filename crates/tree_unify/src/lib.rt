//! Joining trees: a tree trimmed by rows that are known to hold, two trees joined leaf by leaf, and a
//! tree pruned by a numerical domain.
//!
//! It stands on `linear_cons`, `num_domain` and `decision_tree`. What each call makes is a definition in
//! `specs/Shapes`, so that a tree, and each line printed of it, is one thing. The front door: `trim`,
//! `either`, `both`, `later` and `prune`.
#![tactic(auto)]

mod choosing;
mod fault;
mod join;
mod joining;
pub mod laws;
mod pruning;
mod sizes;
mod trimming;
mod walk;

pub use fault::TreeFault;
pub use join::Join;
pub use joining::{both, either, later};
pub use pruning::prune;
pub use trimming::trim;
pub use walk::{Stopped, Walk};
