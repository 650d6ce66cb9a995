//! Exact levels: from which stores all runs end with at most so many tests of a loop, and how long the longest one is.
//!
//! It stands on `control_flow` for labels and what is done there, on `decision_tree` for trees and on `backward_transfer` for the trees before a
//! step. The front door: `unroll`, for plain programs; `specs/Levels` says what its trees tell.
#![tactic(auto)]

mod levels;
mod moving;
mod sizes;
mod steps;
mod trees;

pub use levels::{Unrolled, unroll};
