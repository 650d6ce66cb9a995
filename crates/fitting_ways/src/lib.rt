//! Where the way of an input through a tree is found within 128 bits: through trees of levels and candidates of countdown programs, where their
//! numbers are small.
//!
//! It stands on `count_down` and `unroll`. The front door: the laws.
#![tactic(auto)]

pub mod laws;
