//! Whether a system of rows has a store or a rational point, and systems without one of their places.
//!
//! The method is that of Fourier and Motzkin, with each combination tightened to the whole numbers
//! (Schrijver, "Theory of Linear and Integer Programming", 12.2). In front of it stands a search that
//! pivots and of which nothing is believed but what is checked. It stands on `linear_cons`. The front
//! door: `decide`, `project`, `tightest` and `opposes_one`, with the words of `specs/` for systems,
//! answers and tightest rows.
#![tactic(auto)]

mod answer;
mod attempt;
mod certificate;
mod eliminate;
pub mod laws;
mod mixture;
mod opposed;
mod order;
mod point;
mod projection;
mod solver;
mod tableau;
mod tighten;
mod whole;

pub use answer::{Answer, Projected};
pub use opposed::opposes_one;
pub use projection::project;
pub use solver::{decide, decide_tightest};
pub use tighten::tightest;
