//! The text of one input of a program, as `x=1,y=-2`, read back.
//!
//! It stands on `number_parse` and on the names of `step_meaning`. The front door: `read_input`.
#![tactic(auto)]

mod finding;
mod input;
mod pair;

pub use input::read_input;
