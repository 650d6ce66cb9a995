//! The loops of a program, with the moves from the head of one to the next, and the rows by which the stores at a head are parted.
//!
//! A move is a path from a head to the next one, or to where a goal holds: where it is taken, what it makes of the store, and how many steps it has. What is to be kept on the way, where the goal holds, and for a
//! formula about some run which choices are made, a question says. Nothing of this is believed: who proposes by it is checked. It stands on `backward_sweeps` for what a question is about, and on `linear_solve` for
//! which rows are met. The front door: `Loops::of` a `Question`, `Loops::rows` of a `Parting`, the labels in `front` of the first heads, and the `Search` that says what work is left.
#![tactic(auto)]

mod bounding;
mod cases;
mod comparing;
mod loops;
mod moves;
mod parting;
mod paths;
mod plan;
mod planned;
mod reach;
mod search;
mod stop;

pub use cases::{Rescaled, back_cases, function_of_multiple, have_rows};
pub use comparing::claims_more;
pub use loops::{Head, Loops, Question};
pub use moves::{Move, Target, add_through, through, unchanged};
pub use parting::Parting;
pub use plan::Plan;
pub use planned::front;
pub use reach::Arrows;
pub use search::Search;
pub use stop::{Stop, unless_given_up};
