//! Octagons: the numerical domain of bounds on sums and differences of two places.
//!
//! It stands on `linear_cons` for rows and functions, and on `num_domain` for the trait and the ends.
//! The front door: `Octagon`.
#![tactic(auto)]

mod cells;
mod closing;
mod ends;
mod listing;
mod meeting;
mod merging;
mod moving;
mod octagon;
mod setting;
mod stated;
mod terms;

pub use octagon::Octagon;
