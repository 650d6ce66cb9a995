//! Numerical domains: sets of stores that an analysis keeps, as far as they can be written down.
//!
//! It stands on `linear_cons` for rows and functions, and on `num_traits` for the integer type of an
//! end. The front door: the trait `NumDomain` with its laws, `Bound`, an end that may be missing, and
//! `ends_imply`.
#![tactic(auto)]

mod bound;
mod domain;
mod ends;

pub use bound::Bound;
pub use domain::NumDomain;
pub use ends::ends_imply;
