//! Ranks below ω^5, and what families of such ranks say of runs that no number known at the start bounds.
//!
//! A rank is affine functions in order, up to five: that of ω^4 is the highest. Where a step may choose any number at all, the functions behind one of them begin anew, at the price of one of
//! that. Trees of such ranks are proposed by sweeps over the labels and by linear programs, and what is said is what the check leaves of them: wherever a tree makes a
//! claim, every run ends, bounded one after the other (`Ends.antt` in `specs/`). It stands on `tree_check` for the check, on `backward_sweeps`,
//! `backward_transfer` and `tree_widening` for the sweeps, and on `rank_synthesis` for ranks of cells. The front door: `ranked`, the tree at the entry; `rank_family` is one family, and `OrdinalRank` a rank.
#![tactic(auto)]

mod cells;
mod entry;
mod family;
mod fitting;
mod jump;
mod lacking;
pub mod laws;
mod operands;
mod ordinal;
mod raising;
mod sweeps;

pub use entry::ranked;
pub use family::rank_family;
pub use jump::{Power, back_jump};
pub use ordinal::OrdinalRank;
