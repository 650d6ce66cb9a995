//! The trees that are proposed for a part of a formula, by those of its own parts.
//!
//! They only propose: what is printed is what the check leaves of them. A formula is done from the inside: an atom's trees ask its row,
//! conjunctions and disjunctions join the trees of their parts, a next moves them back by one step, and untils and weak untils are swept.
//! It stands on `ctl_formula` for formulas, on `tree_unify` for joins, and on `backward_sweeps` for steps and sweeps. The front door:
//! `proposed`, and `Claims`, of which the operands of an until are made.
#![tactic(auto)]

mod atoms;
mod claims;
mod joining;
mod labelling;
mod proposing;
mod stepping;

pub use claims::Claims;
pub use proposing::proposed;
