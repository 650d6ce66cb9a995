//! The text of a formula.
//!
//! It stands on `line_text` for the text of rows and on `ctl_formula`. The front door: `print`, whose text is that of `specs/FormulaText`.
#![tactic(auto)]

mod printing;

pub use printing::print;
