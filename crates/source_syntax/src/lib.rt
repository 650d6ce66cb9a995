//! The syntax of programs: which texts the grammar derives within the limits on nesting and on operators, and the first fault of the
//! others. Front doors: `read_syntax`, and `read_expression` for one expression of a text. Stands on the concrete trees and their grammar of
//! `concrete_syntax`, and on the words and the calculus of reading of `derivation`. In `specs/`: the pieces that a tree spells (Spelling), the trees of a text
//! (Texts), and where an expression stands in one (Places).
#![tactic(auto)]

mod call;
mod declaration;
mod expression;
mod front;
mod input;
mod laws;
mod opening;
mod program;
mod reader;
mod simple;
mod statement;

pub use derivation::SyntaxFault;
pub use front::{Syntax, offset_in, read_expression, read_syntax};
pub use laws::{first_faults_agree, programs_have_no_fault, trees_are_unique};
