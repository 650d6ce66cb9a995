//! The words of a text, and a calculus of reading for any language: from what is still to be read and the next word, what is to be read
//! next. Stands on the tokens of `source_lex`. The front door for parsers are `lexemes`, `after`, which reads a symbol, the faults with which
//! readers end, and in `specs/` the relations `Comes` and `Breaks`, `Grammars`, by which parsers say what is still to be read, and `Texts`.
//! What the readings of all grammars have in common is proved here once (`proofs/Grammars`, `Choices`, `OneTree`, `Whole`, `Texts`).
#![tactic(auto)]

mod fault;
mod laws;
mod lexeme;
mod rule;
mod symbol;
mod words;

pub use fault::{Failure, Fault, SyntaxFault};
pub use laws::tokens_are_words;
pub use lexeme::{Lexeme, lexemes};
pub use rule::{MOST_LEVELS, Rule};
pub use symbol::{Symbol, reserved_word, sign};
pub use words::after;
