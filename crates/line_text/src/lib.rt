//! The exact text of affine functions, rows, conditions, claims and lines of a report, and the law that a line says at most one thing.
//!
//! It stands on `linear_cons` (functions and rows) and on the names of `step_meaning`. Each text is a function of the value, in `specs/`;
//! the calls append it to a buffer, so that a long report takes linear time. The front door: `push_line` and `Claim`, the word `Spells`,
//! and the law `a_line_spells_at_most_one_claim`.
#![tactic(auto)]

mod affine;
mod claim;
pub mod laws;
mod line;
mod number;
mod over;

pub use affine::push_affine;
pub use claim::Claim;
pub use line::{push_claim, push_line, push_row};
pub use number::{push_number, push_numeral};
pub use over::{are_over, is_claim_over, is_over};
