//! What the analysis finds of a program and a formula.

use decision_tree::{AffineRank, Tree};
use ordinal_rank::OrdinalRank;
use report_text::{Stop, Top};

/// What is known exactly of a program.
#[derive(Drop)]
pub(crate) enum Exact {
    /// Nothing: a formula is asked about.
    Unasked,
    /// Nothing, and why.
    Unmade(Stop),
    /// For so many tests of loops: the tree at the entry, which claims the length of the longest run where all end with as many tests. Why
    /// there is no further level, where fewer tests are allowed than were asked for.
    Made {
        tests: u32,
        stop: Option<Stop>,
        tree: Tree<AffineRank>,
    },
}

/// What was found, before any of it is text.
#[derive(Drop)]
pub(crate) struct Found {
    pub exact: Exact,
    /// What a defined leaf of the cover claims.
    pub claims: Top,
    /// What the families of a certificate say at the entry, joined.
    pub cover: Tree<AffineRank>,
    /// Where no formula is asked about, what ordinal ranks say at the entry of inputs of which the cover says nothing.
    pub ranked: Tree<OrdinalRank>,
    /// How many families of the whole formula the cover was joined from.
    pub families: u32,
    /// How often each adviser was asked for it.
    pub turns: u32,
}
