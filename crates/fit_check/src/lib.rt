//! From which inputs the runs of a program stay within the numbers of 32 bits: trees that are defined where the store and what is done there are of 32 bits, and a family of trees, checked over these, that is
//! defined where the runs stay there.
#![tactic(auto)]

mod entry;
mod family;
mod laws;
mod ranging;

pub use entry::fit_tree;
pub use family::fit_family;
