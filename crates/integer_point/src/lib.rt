//! Whether a system of rows has a store: a rational point that is found is rounded down, and else the places at which it has fractions are split
//! (branch and bound; Schrijver, "Theory of Linear and Integer Programming", 24.1).
//!
//! It stands on `linear_solve`, whose answers speak of rational points. The front door: `decide_whole` and `has_no_store`, with the words of
//! `specs/` for splits and answers.
#![tactic(auto)]

mod emptiness;
mod rounding;
mod split;
mod whole;

pub use emptiness::has_no_store;
pub use whole::{MOST_TO_SPLIT, Whole, decide_whole};
