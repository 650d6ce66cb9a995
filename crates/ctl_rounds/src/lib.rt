//! The analysis: for a formula and each label of a program trees that claim where the formula holds, and the trees for its smaller parts that
//! bear them out.
//!
//! The families of the smaller parts come first (`part_families`). For `AF exit` a countdown program has a candidate (`count_down`); for any other formula or
//! program a family of the whole is proposed (`part_trees`), and for an `A[f U g]` the advisers' hints propose more (`loop_facts`, `advice`). Linear programs
//! propose more for any until or weak until (`rank_synthesis`). Whoever proposes it, what is answered is what the check leaves of it.
//! The front door: `analyse`, which answers a `Certificate`, `cover`, the first claim of its families for each input, and `laws`, which says why the cover is true.
#![tactic(auto)]

mod analysis;
mod certificate;
mod coarse;
mod covering;
mod hints;
mod inquiry;
pub mod laws;
mod rounds;
mod settling;
mod synthesis;
mod tops;

pub use analysis::{analyse, is_af_exit, synthesises};
pub use certificate::Certificate;
pub use covering::{cover, is_open};
