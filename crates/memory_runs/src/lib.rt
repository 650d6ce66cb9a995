//! Runs of the command over memory, for tests: the status and the bytes that come of a text, and texts that several tests share, with their reports.
//!
//! It stands on `function_top`, `outside` and `advice`, and promises nothing but that each call returns. The front doors: `outcome_of`, `outcome`,
//! `outcome_within` and `outcome_by`.
#![tactic(auto)]

mod programs;
mod running;

pub use programs::{
    ALWAYS_HOLDS, COUNT_UP, COUNT_UP_REPORT, COUNTDOWN, COUNTDOWN_REPORT, EMPTY, EMPTY_REPORT,
    NOISE, TWO_SPEEDS,
};
pub use running::{NO_OPTIONS, outcome, outcome_by, outcome_of, outcome_within, unadvised};
