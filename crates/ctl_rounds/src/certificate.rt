//! What an analysis answers.
ghost use Rattle.std.specs.Prelude.{◌≡◌, ◌∷◌, ◌++◌, [], OnErr, OnOk};

use decision_tree::{AffineRank, Family, FamilyList};
use std::alloc::{AllocError, Global};
use std::mem;

/// Families that show the parts of a formula, each of which the check left so or needs no check.
#[derive(Drop)]
pub struct Certificate {
    /// The families of the smaller parts, one for each, in the order of their numbers.
    pub parts: FamilyList<AffineRank>,
    /// The families of the whole formula, in the order in which they were found; there is at least one.
    pub tops: FamilyList<AffineRank>,
    /// The turns of advice, each of which asked each adviser once.
    pub turns: u32,
}

impl Certificate {
    /// Adds a family of the whole formula behind the others. The only error is want of memory; then none is added.
    pub fn add(&mut self, alloc: Global, family: Family<AffineRank>) -> Result<(), AllocError>
        ensures parts { self.new.parts ≡ self.old.parts }
        ensures turns { self.new.turns ≡ self.old.turns }
        ensures added { OnOk result (self.new.tops ≡ self.old.tops ++ family ∷ []) }
        ensures kept { OnErr result (self.new.tops ≡ self.old.tops) }
    {
        let mut tops = mem::replace(&mut self.tops, FamilyList::of(Vec::new(alloc))).into_vec();
        let pushed = tops.push(family);
        self.tops = FamilyList::of(tops);
        pushed?;
        Ok(())
    }
}
