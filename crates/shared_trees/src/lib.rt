//! Trees as numbers into one table of nodes, moved backward and joined: what sweeps over the labels of a loop do again and again.
//!
//! Equal trees have one number, and so have equal rows, ranks and parts of trees. So a tree is compared, copied and kept by its number, a row's complement
//! and what an assignment makes of it are formed once, and which rows a way settles is two look-ups by the numbers of their linear parts.
//!
//! Trees are only proposed by it: what it makes is what `backward_transfer` and `tree_unify` make, but nothing is promised of that, and what is printed is
//! what the check leaves. It stands on `decision_tree` for boxed trees, which are put into the table and taken out of it, on `tree_unify` for the ways to join
//! and the faults, and on the kit's `indexmap`. The front door: `Forest`.
#![tactic(auto)]

mod forest;
mod joining;
mod moving;
mod rows;
mod testing;
mod way;

pub use forest::Forest;
