//! Invariants: for each label of a program a set of stores that has each store with which the label is reached.
//!
//! Sets are guessed for the labels by sweeps with widening, and of each set the rows are kept that can be shown inductive: each edge leads from
//! the members of its label's set into that of its target. Nothing is asked of the guesses. It stands on `control_flow` for labels, edges and
//! transitions, and on `num_domain` for sets of stores. The front door: `invariants`, and `Inv`, which holds one set for each label;
//! `transitions_of`, what is done at each label over these sets; `inductive`, which keeps what can be shown of any guesses.
#![tactic(auto)]

mod behind;
mod doing;
mod guess;
mod implied;
mod keeping;
pub mod laws;
mod meet;
mod sets;
mod sweeps;
mod transfer;

pub use doing::transitions_of;
pub use keeping::inductive;
pub use sets::{Inv, invariants};
