//! Rows on `run` under hostile use: sources and sinks that drip, fail or never end, a text that is cut off, no words at all, formulas up to the limits
//! and past them, and advisers that lie.
//!
//! It holds tests alone, which need only the public calls of the crates below.
#![tactic(auto)]

#[cfg(test)]
mod advisers;
#[cfg(test)]
mod endings;
#[cfg(test)]
mod ends;
#[cfg(test)]
mod faults;
#[cfg(test)]
mod limits;
#[cfg(test)]
mod words;
