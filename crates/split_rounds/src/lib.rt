//! Families that are added to a certificate of `AF exit` by splits: guesses at what bounds a loop, parted where points refute them. The front door: `refine`.
#![tactic(auto)]

mod refining;

pub use refining::refine;
