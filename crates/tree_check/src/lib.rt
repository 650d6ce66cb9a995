//! The check: of the leaves of a family it leaves those that are supported.
//!
//! Whatever proposed the leaves, only what is left here may be claimed. It stands on `tree_support`, whose definitions say what a
//! supported leaf and a legal elimination are, on `leaf_search` for the reasons against one leaf, and on `decision_tree` for trees and ranks.
#![tactic(auto)]

mod checking;
mod giving;
pub mod laws;
mod narrow;
mod rounds;
mod survey;

pub use checking::{check, check_beside, check_over};
pub use constraint_stack::Reason;
pub use tree_support::Dropped;
