//! What hints begin from, checked.
ghost use Rattle.std.specs.Prelude.{◌≡◌, ◌<◌, IfOk, IfSome, OnOk, length, option_map};
ghost use Rattle.step_meaning.specs.Syntax.{statements};
ghost use Rattle.decision_tree.specs.Extent.{IsWhole};
ghost use Rattle.decision_tree.specs.Plans.{plan_of};
ghost use Rattle.exact_families.specs.Completeness.{IsLoopless};
ghost use Rattle.ctl_rounds.specs.Covers.{claims_of};
ghost use Rattle.ctl_rounds.specs.Finding.{AreFoundSoFar, BeginsExactly, IsInquiry, IsTop};

use crate::coarse::{all_coarse, coarse};
use crate::covering::MOST_NODES;
use crate::inquiry::Inquiry;
use crate::tops::Tops;
use backward_sweeps::{Operands, begun, follow, tree_at};
use decision_tree::{AffineRank, Family, Tree, TreeList};
use num_domain::NumDomain;
use part_trees::Claims;
use std::alloc::AllocError;
use std::mem;

impl<'a, D: NumDomain> Inquiry<'a, D> {
    /// Settles what hints begin from, and begins a cover if none is begun.
    pub(crate) fn finish(&self, found: &mut Tops) -> Result<(), AllocError>
        requires inquiry { IsInquiry D.NumDomain.own self.now }
        requires found { AreFoundSoFar D.NumDomain.own self.now found.old.tops.items (option_map plan_of found.old.cover) }
        ensures found { OnOk result (AreFoundSoFar D.NumDomain.own self.now found.new.tops.items (option_map plan_of found.new.cover)) }
        ensures some { 0 < length found.old.tops.items → OnOk result (0 < length found.new.tops.items) }
        ensures exact { BeginsExactly self.now found.old.tops.items → OnOk result (BeginsExactly self.now found.new.tops.items) }
        ensures alone { IsLoopless (statements self.now.premises.now.graph.now.body) → OnOk result (found.new.tops.items ≡ found.old.tops.items) }
        ensures whole { IsWhole (claims_of (option_map plan_of found.old.cover))
            → OnOk result (IsWhole (claims_of (option_map plan_of found.new.cover))) }
        ensures turns { found.new.turns ≡ found.old.turns }
    {
        self.settle(found)?;
        self.begin(found)?;
        Ok(())
    }

    /// Adds what the check leaves of the trees ahead, if there are some and an input has no claim: those at the tests of loops, and what follows from these
    /// at the other labels. Hints begin from that then.
    pub(crate) fn settle(&self, found: &mut Tops) -> Result<(), AllocError>
        requires inquiry { IsInquiry D.NumDomain.own self.now }
        requires found { AreFoundSoFar D.NumDomain.own self.now found.old.tops.items (option_map plan_of found.old.cover) }
        ensures found { OnOk result (AreFoundSoFar D.NumDomain.own self.now found.new.tops.items (option_map plan_of found.new.cover)) }
        ensures some { 0 < length found.old.tops.items → OnOk result (0 < length found.new.tops.items) }
        ensures exact { BeginsExactly self.now found.old.tops.items → OnOk result (BeginsExactly self.now found.new.tops.items) }
        ensures alone { IsLoopless (statements self.now.premises.now.graph.now.body) → OnOk result (found.new.tops.items ≡ found.old.tops.items) }
        ensures whole { IsWhole (claims_of (option_map plan_of found.old.cover))
            → OnOk result (IsWhole (claims_of (option_map plan_of found.new.cover))) }
        ensures turns { found.new.turns ≡ found.old.turns }
    {
        if !self.premises.has_loop() {
            return Ok(());
        }
        if found.is_whole() {
            return Ok(());
        }
        let Some(ahead) = mem::replace(&mut found.ahead, None) else {
            return Ok(());
        };
        let Some(family) = self.left_of_heads(ahead.items())? else {
            return Ok(());
        };
        self.keep(family, found)?;
        Ok(())
    }

    /// What the check leaves of the trees at the tests of loops, and of what follows from these at the other labels, if the formula has two operands.
    fn left_of_heads(
        &self,
        trees: &[Tree<AffineRank>],
    ) -> Result<Option<Family<AffineRank>>, AllocError>
        requires inquiry { IsInquiry D.NumDomain.own self.now }
        ensures { IfOk result (λ found. IfSome found (IsTop D.NumDomain.own self.now)) }
    {
        let (Some(keep), Some(goal)) = (self.smaller.operands.first(), self.smaller.operands.get(1))
        else {
            return Ok(None);
        };
        let claims = Claims::of(self.premises.alloc, keep, goal)?;
        let made = self.remade(&claims.operands(true), trees)?;
        let family = self
            .premises
            .left_of(self.formula, self.smaller, TreeList::of(made))?;
        Ok(Some(family))
    }

    /// The trees at the tests of loops, and at the other labels what follows from these; no claim where that can't be made.
    pub(crate) fn remade(
        &self,
        operands: &Operands<'_>,
        trees: &[Tree<AffineRank>],
    ) -> Result<Vec<Tree<AffineRank>>, AllocError>
        requires inquiry { IsInquiry D.NumDomain.own self.now }
        ensures { IfOk result (λ made. length made.items ≡ self.now.premises.now.labels) }
    {
        let premises = self.premises;
        let mut made = begun(premises.alloc, premises.transitions, operands, trees)?;
        let _ = follow(premises.alloc, premises.transitions, operands, &mut made)?;
        Ok(made)
    }

    /// Where no cover is begun, since the trees at the entry have too many nodes: adds what the check leaves of the families' trees in fewer nodes, of the last
    /// family's first, where a cover may begin with them or changes with them.
    pub(crate) fn begin(&self, found: &mut Tops) -> Result<(), AllocError>
        requires inquiry { IsInquiry D.NumDomain.own self.now }
        requires found { AreFoundSoFar D.NumDomain.own self.now found.old.tops.items (option_map plan_of found.old.cover) }
        ensures found { OnOk result (AreFoundSoFar D.NumDomain.own self.now found.new.tops.items (option_map plan_of found.new.cover)) }
        ensures some { 0 < length found.old.tops.items → OnOk result (0 < length found.new.tops.items) }
        ensures exact { BeginsExactly self.now found.old.tops.items → OnOk result (BeginsExactly self.now found.new.tops.items) }
        ensures alone { IsLoopless (statements self.now.premises.now.graph.now.body) → OnOk result (found.new.tops.items ≡ found.old.tops.items) }
        ensures whole { IsWhole (claims_of (option_map plan_of found.old.cover))
            → OnOk result (IsWhole (claims_of (option_map plan_of found.new.cover))) }
        ensures turns { found.new.turns ≡ found.old.turns }
    {
        let premises = self.premises;
        if !premises.has_loop() {
            return Ok(());
        }
        if found.cover.is_some() {
            return Ok(());
        }
        for place in (0..found.tops.len()).rev() {
            if let Some(trees) = self.in_fewer_nodes(found.tops.get(place))? {
                let family = premises.left_of(self.formula, self.smaller, trees)?;
                self.keep_if_it_adds(family, found)?;
            }
        }
        Ok(())
    }

    /// The family's trees in fewer nodes, if that at the entry has few enough then for a cover to begin with it.
    fn in_fewer_nodes(
        &self,
        family: Option<&Family<AffineRank>>,
    ) -> Result<Option<TreeList<AffineRank>>, AllocError>
        ensures { IfOk result (λ made. IfSome made (λ trees. length trees ≡ self.now.premises.now.labels)) }
    {
        let premises = self.premises;
        let Some(family) = family else {
            return Ok(None);
        };
        let trees = family.trees.items();
        let none = Tree::Bottom;
        let entry = coarse(
            premises.alloc,
            tree_at(trees, premises.graph.entry(), &none),
        )?;
        if entry.size() > MOST_NODES {
            return Ok(None);
        }
        let made = all_coarse(premises.alloc, trees, premises.labels)?;
        Ok(Some(TreeList::of(made)))
    }
}
