//! Families of trees for untils and weak untils, by linear programs over cells of the stores at the heads of loops.
//!
//! The stores at a head are parted into cells by rows; the moves from head to head lead from cell to cell. For an until each cell gets an affine rank that is never below 0 in it and falls along each of its moves
//! by the move's steps: by the lemma of Farkas that is a linear program, which cells that lead to one another share (Podelski and Rybalchenko, VMCAI 2004; Colón and
//! Sipma, TACAS 2001; over the locations of a program Alias and others, SAS 2010). Ranks of two parts are found by two such programs, the second for the
//! moves along which the higher part stays (Alias and others), and ranks of up to five parts by one for each part. For a weak until the cells are kept that no move leads out of
//! (closed recurrent sets, Gupta and others, POPL 2008). Nothing of this is believed: it only proposes, and what is claimed is what the check
//! leaves. It stands on `loop_moves` for the loops and their moves, on `backward_sweeps` for the pass over the other labels, and on `linear_program`.
//! The front door: `Synthesis` with `Synthesis::proposed`, whose `Proposal` is made whole where it may add a claim, `Synthesis::paired` and `Synthesis::listed`.
#![tactic(auto)]

mod cells;
mod closing;
mod components;
mod farkas;
mod lists;
mod meeting;
mod pairs;
mod ranking;
mod synthesis;

pub use lists::{ORDER, RankedCell};
pub use synthesis::{Proposal, Synthesis};
