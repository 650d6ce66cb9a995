//! Convex polyhedra: the numerical domain of lists of rows.
//!
//! A polyhedron is kept by its rows alone, and never by vertices and rays (Cousot and Halbwachs,
//! "Automatic discovery of linear restraints among variables of a program", 1978, keep both). It stands
//! on `linear_cons` for rows and functions, on `linear_solve` for whether rows have a store and for
//! rows without a place, on `interval_dom` for the ends at each place, and on `num_domain` for the
//! trait. The front door: `Poly`.
#![tactic(auto)]

mod adding;
mod carrying;
mod judging;
mod poly;

pub use poly::Poly;
