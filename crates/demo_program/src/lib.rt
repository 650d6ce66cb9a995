//! The demo programs: for each number a program whose loop takes so many steps more a turn, as a text and as what the text means.
//!
//! It stands on the readers, for the law that each text is its program. The front door: `demo_text`.
#![tactic(auto)]

pub mod laws;
mod text;

pub use text::demo_text;
