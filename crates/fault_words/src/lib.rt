//! A refusal in words: what the line that the command wrote means, where in the text its place is, and which word of a command line is wrong.
//!
//! It is for people alone: nothing that the command promises stands on it. The front doors: [`Place::of`], [`refusal_of`], [`told`], [`wrong_word`], [`told_of_word`].
#![tactic(auto)]

mod line;
mod place;
mod refusal;
mod telling;
mod wording;

pub use place::Place;
pub use refusal::{Refusal, Text, refusal_of};
pub use telling::told;
pub use wording::{WordFault, WrongWord, told_of_word, wrong_word};
