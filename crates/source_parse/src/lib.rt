//! The parser: the program that a text is, or its first fault; with functions, or without.
//! Front door: `parse` for programs without functions, `parse_unit` for those of functions, `read_expr` for one expression of a text. Stands on the concrete trees that `source_syntax` reads and on `elaboration`, which makes programs of them. What
//! a text derives, and which fault is its first, stands in `specs/` (Derives, Faults, Expressions).
#![tactic(auto)]

mod expression;
mod fault;
mod front;
mod laws;

pub use expression::{ReadExpr, read_expr};
pub use fault::{ParseFault, Which};
pub use front::{parse, parse_unit};
pub use laws::{
    a_program_has_no_fault, a_program_is_no_larger_than_its_text, a_text_has_one_fault,
    a_text_is_a_valid_program, a_text_is_one_program, a_text_is_one_unit, a_unit_has_no_fault,
    names_are_distinct, names_are_spelled_as_names, names_of_units_are_spelled_as_names,
};
