//! Sweeps backward over the labels of a program, which propose a family of trees for an until or a weak until.
//!
//! They only propose: what is printed is what the check leaves of them. Each pass over the labels makes a tree of those behind it, and so it
//! is said of programs without loops; nothing is promised of what widening makes. It stands on `backward_transfer` for the step from a
//! label's successors to the label, on `tree_widening` and `tree_unify` at the heads of loops, and on `forward_inv` for what is known where.
//! While sweeps over loops go on the trees stand in one table of `shared_trees`.
//! The front door: `swept` for an until and `kept` for a weak until, of `Operands`; `moved_back` is one step, `remade` makes one tree anew, `begun` and `follow` are
//! one pass; `taken_over` takes claims over from another part; `LabelTrees` are the trees of any ranks while sweeps make them anew.
#![tactic(auto)]

mod claiming;
mod label_trees;
mod moving;
mod operands;
mod pass;
mod remaking;
mod shared;
mod starting;
mod sweep;

pub use claiming::taken_over;
pub use label_trees::LabelTrees;
pub use moving::{at_once, moved_back};
pub use operands::Operands;
pub use pass::{begun, copied, follow, has_head, is_given};
pub use remaking::{given_up, remade, stays, tree_at};
pub use sweep::{kept, swept};
