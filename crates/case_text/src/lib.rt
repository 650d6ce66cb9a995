//! Texts, functions, rows, ranges, ends, trees, formulas and answers of single layers, read from lines of text and written.
//!
//! It is for programs that are told in lines what to do, and promises nothing but that each call returns. The front door: `spaced` and `Words`,
//! `read_text`, `read_function`,
//! `read_linear`, `read_ends`, `read_constraint`, `read_row`, `read_rows`, `read_tree`, `read_formula`, and `Answer`.
#![tactic(auto)]

mod answer;
mod formulas;
mod functions;
mod line;
mod many;
mod texts;
mod trees;
mod words;

pub use answer::Answer;
pub use formulas::read_formula;
pub use functions::{read_constraint, read_ends, read_function, read_linear, read_row, read_rows};
pub use texts::read_text;
pub use trees::{read_leaf, read_tree};
pub use words::{Words, spaced};
