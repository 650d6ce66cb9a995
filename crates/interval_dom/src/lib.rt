//! Boxes: the numerical domain of a lower and an upper end at each place.
//!
//! It stands on `linear_cons` for rows and functions, and on `num_domain` for the trait and the ends.
//! The front door: `Boxes`, which takes no memory but for the list of its rows.
#![tactic(auto)]

mod boxes;
mod interval;

pub use boxes::Boxes;
