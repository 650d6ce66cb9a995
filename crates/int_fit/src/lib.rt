//! Runs that stay within the numbers of 32 bits, and programs in which each chosen number is one of these, and such as are done where each variable is: where the runs from a configuration fit, whole numbers and those of 32 bits agree on them.
#![tactic(auto)]

mod guarding;
mod laws;
mod narrowing;

pub use guarding::guard;
pub use laws::{
    fitting_runs_are_the_same, narrowing_keeps_what_wraps, what_fits_behind_the_guard_fits,
};
pub use narrowing::narrow;
