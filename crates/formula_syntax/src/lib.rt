//! The syntax of formulas: which texts the grammar derives within the limits on nesting and on operators, and the first fault of the
//! others. Front door: `read_syntax`. Stands on the tokens of `source_lex` and on the calculus of reading of `derivation`; its words and
//! concrete trees are its own. In `specs/`: the words (Words), the trees (Trees), the pieces that a tree spells (Spelling), and the trees
//! of a text (Texts).
#![tactic(auto)]

mod front;
mod input;
mod laws;
mod lexeme;
mod opening;
mod part;
mod reader;
mod sign;
mod sum;
mod tree;

pub use derivation::SyntaxFault;
pub use front::{Syntax, offset_in, read_syntax};
pub use laws::{first_faults_agree, formulas_have_no_fault, trees_are_unique};
pub use sign::{Comparison, Connective, Operator, Prefix, Sign};
pub use tree::{Chain, Factor, FactorKind, Formula, Part, Sum, Tail};
