//! The search for a reason against one leaf of a family, for every formula, by the reason for which the leaf stands.
//!
//! A step is searched along the arcs of its label, over the leaves of the tree to which each arc leads. It stands on `control_flow` for what is
//! done at a label, on `tree_support`, whose definitions say which systems a leaf has, and on the rows on the stack. The front door: `Stand`, what
//! the leaves of a label are held against; `Ahead`, how far a walk over them has come in the trees behind; `Part`, what of a formula is needed for it; and along arcs `refute_arcs`, `refute_outcome` and
//! `refute_value`, `refute_at` and `Way` for one tree, and `add_rows`.
#![tactic(auto)]

mod ahead;
mod follow;
mod leaf;
mod part;
mod step;
mod walk;

pub use ahead::Ahead;
pub use follow::{add_rows, refute_arcs, refute_at, refute_outcome, refute_value};
pub use leaf::{Stand, UNEDGED};
pub use part::Part;
pub use walk::Way;
