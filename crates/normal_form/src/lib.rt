//! The normal form of a formula within its limit of 256 operators.
//!
//! What the normal form is, and that it means the same, is said where formulas are (`ctl_formula`); here it is made, or refused where it would
//! be too long: a refuted until holds its goal twice, so nested ones grow without bound. It stands on `ctl_formula` and `linear_cons`. The
//! front door: `normal_form`. In `specs/`: how many operators a formula has (Operators), and what may be asked of each of its rows (Rows).
#![tactic(auto)]

mod count;
mod laws;
mod limited;
mod negate;

pub use laws::{normal_forms_have_no_negation, normal_forms_keep_variables};
pub use limited::normal_form;
