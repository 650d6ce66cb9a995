//! Tests of single layers that no line of `cases_cli` can say: sources and sinks that fail, what is long or deep, the lines of trees and the texts of
//! reports, and advisers that are asked turn after turn.
//!
//! It holds tests alone, which need only the public calls of the crates below.
#![tactic(auto)]

#[cfg(test)]
mod chains;
#[cfg(test)]
mod hints;
#[cfg(test)]
mod lines;
#[cfg(test)]
mod reports;
#[cfg(test)]
mod streams;
