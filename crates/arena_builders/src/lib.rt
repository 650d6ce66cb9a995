//! Trees of an arena, trimmed, joined leaf by leaf, pruned by a numerical domain, and moved backward over the actions of a program.
//!
//! Its calls are those of `tree_unify` and of `backward_transfer` for trees that stand in one arena. Each has the clauses and the refusals of the boxed call of its
//! name; and the arena only grows, so after a refusal or want of memory too it has the trees that it had at their places, and perhaps some more. What the calls
//! make is defined once for both, in these two crates, and whether rows of the way settle a row is asked of the same walk.
//!
//! The others walk along the nodes of the arena; `prune_in`, `back_range_in` and `back_test_in` take their trees into boxes, make the boxed call, and put its tree into
//! the arena. There a tree takes the room of all its nodes without sharing. The front door: `trim_in`, `either_in`, `both_in`, `later_in`, `prune_in`,
//! `back_assign_in`, `back_range_in`, `back_skip_in`, `back_test_in`.
#![tactic(auto)]

mod assigning;
mod boxes;
mod joining;
mod laying;
mod nodes;
mod pruning;
mod ranging;
mod stepping;
mod testing;
mod trimming;

pub use assigning::back_assign_in;
pub use joining::{both_in, either_in, later_in};
pub use pruning::prune_in;
pub use ranging::back_range_in;
pub use stepping::back_skip_in;
pub use testing::back_test_in;
pub use trimming::trim_in;
