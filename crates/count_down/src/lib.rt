//! Countdown candidates: for each label of a countdown program a tree that promises the end within a bound of steps.
//!
//! It stands on `step_meaning` for countdown programs, on `decision_tree` for trees, on `control_flow` for labels and on `tree_support` for
//! what trees are held against. The front door: `candidate`; `specs/Candidates` says what its trees are. The `laws`: no legal elimination
//! gives up a leaf of a candidate, since all its systems are blocked (`specs/Blocking`).
#![tactic(auto)]

mod exact;
mod family;
mod label_counts;
pub mod laws;
mod loop_trees;

pub use family::candidate;
