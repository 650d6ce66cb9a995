//! The widening of a tree by a newer one: nodes stay, claims that the newer tree does not bear out are
//! given up, and where there is no claim yet one is extrapolated from the newer tree's.
//!
//! It stands on `linear_cons`, `linear_solve`, `decision_tree` and `tree_unify`. What stands in place of
//! each leaf is a definition in `specs/Widening`. The front door: `widen`, over ranks that
//! are `Extrapolates`. Soundness never rests on it.
#![tactic(auto)]

mod against;
mod extrapolates;
mod extrapolation;
pub mod laws;
mod newer;
mod walk;
mod widening;

pub use extrapolates::{Extrapolates, along};
pub use widening::widen;
