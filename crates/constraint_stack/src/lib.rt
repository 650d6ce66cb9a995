//! The rows of a system in a search, as a stack of constraints with checkpoints, and what they give: no store that meets them, or a reason against
//! the leaf that the system is of.
//!
//! `specs/` has systems, what forms their rows, and when a reason holds against one.
//!
//! A search adds what a system asks for as far as it could be formed, goes on behind it, and takes it back. The rows stand in the trail of
//! `decision_tree`, which keeps the tightest of each linear part, so that only these are handed to `linear_solve`, and only where no two
//! of them are opposed.
#![tactic(auto)]

mod claim;
mod finding;
mod reason;
mod stack;

pub use claim::{Asked, try_claim, try_unformed};
pub use finding::Finding;
pub use reason::Reason;
pub use stack::{Checkpoint, ConstraintStack};
