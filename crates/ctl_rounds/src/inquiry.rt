//! What is analysed.

use ctl_formula::Formula;
use num_domain::NumDomain;
use part_families::{Premises, SmallerParts};

/// A formula, what is known of the program that it is asked of, and families that show the formula's smaller parts.
#[derive(Drop)]
pub(crate) struct Inquiry<'a, D: NumDomain> {
    pub(crate) premises: &'a Premises<'a, D>,
    pub(crate) formula: &'a Formula,
    pub(crate) smaller: &'a SmallerParts,
}
