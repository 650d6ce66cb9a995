//! Decision trees over the stores of sixteen whole numbers: rows at the inner nodes, ranks at the
//! leaves.
//!
//! It stands on `linear_cons`. A tree divides the stores by the sides of its rows; each defined leaf
//! says why it stands and how many steps it promises. The front door: `Tree` with `leaf_at` and
//! `path`, `Trail` for walks with the rows on the stack, the trait `Rank` with its laws, and `AffineRank`.
//! `specs/Laws/` holds proofs that its impls cite.
#![tactic(auto)]

mod affine_rank;
mod family;
mod family_list;
mod held;
mod held_reason;
pub mod laws;
mod path;
mod rank;
mod reason;
mod shared;
mod trail;
mod tree;

pub use affine_rank::AffineRank;
pub use family::{Family, TreeList};
pub use family_list::FamilyList;
pub use held_reason::{HeldCause, HeldWhy};
pub use path::PathFault;
pub use rank::{Comparison, Rank};
pub use reason::{Cause, Pick, Why};
pub use shared::Shared;
pub use trail::Trail;
pub use tree::{MOST_NODES, Tree};
