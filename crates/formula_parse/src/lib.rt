//! Formulas read: the formula that a text is, or its first fault, and its normal form within the limit.
//!
//! Front doors: `read_formula` and `normal`. Stands on the concrete trees that `formula_syntax` reads, on the expressions of `step_meaning`, which
//! sides of comparisons are, and on the formulas of `ctl_formula`. In `specs/`: what a tree means (Meanings, Comparing), which text is which
//! formula (Derives), and the first fault of the others (Faults, FaultOf).
#![tactic(auto)]

mod atom;
mod compare;
mod fault;
mod front;
mod laws;
mod names;
mod normalising;
mod parts;
mod refusal;
mod sums;
mod unknown;

pub use fault::{FormulaFault, FormulaLimit};
pub use front::read_formula;
pub use laws::{
    a_formula_has_no_fault, a_text_has_one_fault, a_text_is_one_formula, complements_of_texts_fit,
    texts_name_their_variables,
};
pub use normalising::normal;
