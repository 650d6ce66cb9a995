//! Calls of the check on small programs, as lines say them.
//!
//! It is for programs that are told in lines what to do, and promises nothing but that each call returns. The front door: `answers`.
#![tactic(auto)]

mod checks;
mod families;
mod graphs;

pub use checks::answers;
