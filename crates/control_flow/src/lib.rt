//! The control flow of a program: its labels, the edges between them, what is done at each, and how large the trees of its levels may be.
//!
//! It stands on `step_meaning` for programs and their steps, and on `linear_forms`, whose calls it passes on. The front door: `Graph`,
//! whose readers answer in constant time, and whose `weight` and `growth` bound the trees of a level and their numbers by the program alone,
//! as `size_before` and `factor` tell them of a step;
//! `Transition`, what is done at a label over what is known of the stores there; `laws` says that the steps of a label's configurations are
//! its edges, that there are such sizes, and that transitions lead on.
#![tactic(auto)]

mod action;
mod bodies;
mod edge;
mod fault;
mod fitting;
mod graph;
mod growth;
pub mod laws;
mod limit;
mod measure;
mod node;
mod number;
mod place;
mod sizes;
mod transition;

pub use action::Action;
pub use edge::{Choice, Edge, EdgeKind};
pub use fault::FlowFault;
pub use graph::{Graph, LABELS};
pub use linear_forms::{affine_of, conjunctions, linearise, spread};
pub use measure::{anywhere, greatest_number};
pub use place::{CHOSEN_PLACE, Place};
pub use transition::Transition;
