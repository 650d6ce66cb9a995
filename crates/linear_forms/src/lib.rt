//! Linear forms of expressions over bounds, and the rows that a test comes down to.
//!
//! It stands on `step_meaning` for expressions and what they may give, and on `linear_cons` for functions and rows. The front door:
//! `affine_of`, `linearise` and `spread`, whose answers are the definitions of `specs/`; `laws` says that they cover every outcome, and
//! when they are exact.
#![tactic(auto)]

mod conjunction;
mod count;
pub mod laws;
mod linear;
mod product;

pub use conjunction::{spread, with_constraint};
pub use count::conjunctions;
pub use linear::{affine_of, linearise};
