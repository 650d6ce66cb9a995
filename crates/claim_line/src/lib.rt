//! Lines that are a claim alone: what they tell, and that nothing else is read in them.
//!
//! It stands on `line_text`. The front doors: the word `Tells` and the laws.
#![tactic(auto)]

pub mod laws;
