//! Formulas of CTL and when a configuration satisfies them.
//!
//! `specs/Satisfaction` says it, with until and weak until by a number of steps; `specs/Formulas` has the normal form, in which negation
//! stands nowhere. Two laws join them: a normal form means what its formula does, and `AF exit` within so many steps is that every run
//! ends within so many. It stands on `step_meaning` (runs) and `linear_cons` (rows). The front door is `Formula`.
#![tactic(auto)]

mod formula;
mod laws;

pub use formula::Formula;
pub use laws::{af_exit_is_that_runs_end, normal_forms_mean_the_same};
