//! The tokens of the language: names, numbers and signs, with blanks and comments between them.
//! A reserved word is a name here; parsers know it by its bytes.
//! Front door: `lex`, which answers the tokens of a text or its first fault.
//! Stands on no other crate of the repository.
#![tactic(auto)]

mod bytes;
mod fault;
mod laws;
mod lexer;
mod piece;
mod scan;
mod token;

pub use fault::LexFault;
pub use laws::{
    each_text_is_read, first_fault_is_unique, no_token_is_missed, tokens_are_in_order,
    tokens_are_longest, tokens_are_unique, tokens_exclude_faults, tokens_spell_their_kinds,
    tokens_stand_in_text,
};
pub use lexer::lex;
pub use token::{Kind, Token, start_of};
