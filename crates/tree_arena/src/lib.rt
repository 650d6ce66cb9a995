//! Trees as numbers into one table of distinct nodes, so that equal trees, and equal parts of trees, stand once.
//!
//! It stands on `linear_cons`, on `decision_tree`, whose boxed trees are put into the table and taken out of it, and on the kit's `indexmap`. What callers see of
//! an arena, the list of its trees, is defined in `specs/Trees`. The front door: `Arena` with `put`, `take`, `view`, `leaf` and `node`. `specs/Laws/` holds proofs
//! that its impls cite.
#![tactic(auto)]

mod arena;
mod node;
mod numbering;

pub use arena::Arena;
pub use node::{NodeView, TreeRef};
