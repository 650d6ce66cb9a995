//! The cases of a value that is made with a quotient or a remainder, by the sign or the size of what is divided.
//!
//! A linear form says of a quotient no more than its two ends. Here a value has cases: where a store meets the rows of one, some multiple of the value lies between two
//! functions of the store. It stands on `linear_forms` for the forms of what isn't divided. The front door: `value_rows`, whose answer is a definition of `specs/`; `laws` says that each value has its case.
#![tactic(auto)]

mod case;
mod ends;
mod guards;
pub mod laws;
mod making;
mod value;

pub use value::value_rows;
