//! Decision trees moved backward over the actions of a program: what a tree says behind an action,
//! said of the stores before it.
//!
//! It stands on `linear_cons`, `linear_forms`, `decision_tree` and `tree_unify`. What each call makes is a
//! definition in `specs/`, so that a tree, and each line printed of it, is one thing. The front door:
//! `back_assign`, `back_range`, `back_skip` and `back_test` for claims about every run, `back_pick` and
//! `back_some` for claims about some run; `laws` tells which leaf stands at each store.
#![tactic(auto)]

mod assigning;
mod choosing;
pub mod laws;
mod picking;
mod ranging;
mod stepping;
mod testing;
mod values;

pub use assigning::back_assign;
pub use choosing::back_some;
pub use picking::back_pick;
pub use ranging::back_range;
pub use stepping::back_skip;
pub use testing::back_test;
