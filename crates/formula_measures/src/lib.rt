//! How many nodes the trees of a formula's parts may have in a program without loops, and how large the numbers in their rows may be: by the program and
//! the formula alone.
//!
//! `specs/Measures` says it. It stands on `control_flow` for programs and their labels, and on `ctl_formula`. The front door: `part_size`,
//! `greatest_size` and `growth`, each in time linear in the labels for each operator of the formula; a law says what the greatest size tells of the others.
#![tactic(auto)]

pub mod laws;
mod numbers;
mod sizes;

pub use numbers::growth;
pub use sizes::{greatest_size, part_size};
