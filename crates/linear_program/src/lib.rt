//! Linear programs over whole numbers: columns that are not below 0, equations between them, and costs that are to be small.
//!
//! The method is the simplex method in two phases (Dantzig 1951; against circles Bland 1977), over lines of whole numbers that are divided by
//! what they have in common, so that nothing is rounded. Nothing of the method is believed: a solution is answered only once it is seen to meet
//! every equation. That none is found says nothing. It stands on `linear_cons` for divisors. The front door: `Program` and `minimised`, with
//! the words of `specs/` for what meets a program.
#![tactic(auto)]

mod checking;
mod line;
mod program;
mod searching;
mod solution;
mod table;
mod tabling;

pub use program::{Program, Term};
pub use searching::minimised;
pub use solution::Solution;
