//! What was found on the way to a certificate.
ghost use Rattle.std.specs.Prelude.{◌≡◌, ◌↔◌, [], None, IsTrue, option_map};
ghost use Rattle.decision_tree.specs.Extent.{IsWhole};
ghost use Rattle.decision_tree.specs.Plans.{plan_of};
ghost use Rattle.ctl_rounds.specs.Covers.{claims_of};

use crate::certificate::Certificate;
use crate::covering::is_whole;
use decision_tree::{AffineRank, Family, FamilyList, Tree, TreeList};
use std::alloc::{AllocError, Global};

/// Families that the check left so; the first claim of theirs for each input, once one of their trees at the entry could begin a cover; and the
/// turns of advice. Hints begin from the trees ahead, of which nothing is known, or where there are none from the last family.
#[derive(Drop)]
pub(crate) struct Tops {
    pub(crate) tops: Vec<Family<AffineRank>>,
    pub(crate) cover: Option<Tree<AffineRank>>,
    pub(crate) turns: u32,
    pub(crate) ahead: Option<TreeList<AffineRank>>,
}

impl Tops {
    /// No family.
    pub(crate) fn none(alloc: Global) -> Tops
        ensures tops { result.tops.items ≡ [] }
        ensures cover { option_map plan_of result.cover ≡ None }
        ensures turns { result.turns ≡ 0 }
    {
        Tops {
            tops: Vec::new(alloc),
            cover: None,
            turns: 0,
            ahead: None,
        }
    }

    /// The trees that hints begin from, if there are some.
    pub(crate) fn at_hand(&self) -> Option<&[Tree<AffineRank>]> {
        match &self.ahead {
            Some(trees) => Some(trees.items()),
            None => Some(self.tops.last()?.trees.items()),
        }
    }

    /// A copy of the last family's trees, if there is one.
    pub(crate) fn last_copied(&self, alloc: Global) -> Result<Vec<Tree<AffineRank>>, AllocError> {
        let mut trees = Vec::new(alloc);
        if let Some(last) = self.tops.last() {
            for tree in last.trees.items() {
                trees.push(tree.copy(alloc)?)?;
            }
        }
        Ok(trees)
    }

    /// Whether each input has a claim.
    pub(crate) fn is_whole(&self) -> bool
        ensures { IsTrue result ↔ IsWhole (claims_of (option_map plan_of self.now.cover)) }
    {
        match &self.cover {
            Some(cover) => is_whole(cover),
            None => false,
        }
    }

    /// The certificate, over the families of the smaller parts.
    pub(crate) fn certificate(self, parts: Vec<Family<AffineRank>>) -> Certificate
        ensures parts { result.parts ≡ parts.items }
        ensures tops { result.tops ≡ self.tops.items }
        ensures turns { result.turns ≡ self.turns }
    {
        Certificate {
            parts: FamilyList::of(parts),
            tops: FamilyList::of(self.tops),
            turns: self.turns,
        }
    }
}
