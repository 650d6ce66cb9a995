//! Why nothing is lost of what is proposed in a plain program without loops.
//!
//! The trees that sweeps make there are defined wherever the formula holds, and no check has a reason to give up a leaf of them: whoever says
//! of each function whether it is at least 0, as a store does and as clashing constraints don't, finds at a leaf's place what the leaf promises.
//! Nothing here decides. It stands on `part_trees` for the trees that are proposed and on `tree_support` for the systems of a leaf. The front
//! door is the laws.
#![tactic(auto)]

pub mod laws;
