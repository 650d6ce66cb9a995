//! What is found by hints.
ghost use Rattle.std.specs.Prelude.{◌≡◌, ◌<◌, IfOk, IfSome, OnOk, length, option_map};
ghost use Rattle.step_meaning.specs.Syntax.{statements};
ghost use Rattle.decision_tree.specs.Plans.{plan_of};
ghost use Rattle.exact_families.specs.Completeness.{IsLoopless};
ghost use Rattle.ctl_rounds.specs.Finding.{AreFoundSoFar, BeginsExactly, IsInquiry, IsTop};

use crate::inquiry::Inquiry;
use crate::tops::Tops;
use advice::Hint;
use backward_sweeps::{Operands, is_given};
use control_flow::Graph;
use decision_tree::{AffineRank, Family, Tree, TreeList};
use loop_facts::{holds_under, proposal, proposal_beside};
use loop_moves::{Arrows, front};
use num_domain::NumDomain;
use std::alloc::{AllocError, Global};
use std::mem;

/// Trees in front of a loop that have at most so many nodes together, leaves included, are made and checked with those behind.
const FEW_NODES: u64 = 4_096;

/// A tree at the entry that is made anew of what the check left is looked for where the one at hand has at most so many nodes, leaves included.
const MOST_AT_ENTRY: u64 = 16_384;

impl<'a, D: NumDomain> Inquiry<'a, D> {
    /// Adds what the check leaves of the families that the hints propose, one after the other; none of a program without loops. Of a hint that can add no
    /// claim only what its loop leads to may be tried, which adds no family.
    pub(crate) fn follow(
        &self,
        operands: &Operands<'_>,
        hints: &[Hint],
        found: &mut Tops,
    ) -> Result<(), AllocError>
        requires inquiry { IsInquiry D.NumDomain.own self.now }
        requires found { AreFoundSoFar D.NumDomain.own self.now found.old.tops.items (option_map plan_of found.old.cover) }
        ensures found { OnOk result (AreFoundSoFar D.NumDomain.own self.now found.new.tops.items (option_map plan_of found.new.cover)) }
        ensures some { 0 < length found.old.tops.items → OnOk result (0 < length found.new.tops.items) }
        ensures exact { BeginsExactly self.now found.old.tops.items → OnOk result (BeginsExactly self.now found.new.tops.items) }
        ensures alone { IsLoopless (statements self.now.premises.now.graph.now.body) → OnOk result (found.new.tops.items ≡ found.old.tops.items) }
    {
        if !self.premises.has_loop() {
            return Ok(());
        }
        for hint in hints {
            self.try_hint(operands, hint, found)?;
        }
        Ok(())
    }

    /// Adds what the check leaves of the family that the hint proposes, where it claims something under the hint's rows; or tries what the hint's
    /// loop leads to alone.
    fn try_hint(
        &self,
        operands: &Operands<'_>,
        hint: &Hint,
        found: &mut Tops,
    ) -> Result<(), AllocError>
        requires inquiry { IsInquiry D.NumDomain.own self.now }
        requires found { AreFoundSoFar D.NumDomain.own self.now found.old.tops.items (option_map plan_of found.old.cover) }
        ensures found { OnOk result (AreFoundSoFar D.NumDomain.own self.now found.new.tops.items (option_map plan_of found.new.cover)) }
        ensures some { 0 < length found.old.tops.items → OnOk result (0 < length found.new.tops.items) }
        ensures exact { BeginsExactly self.now found.old.tops.items → OnOk result (BeginsExactly self.now found.new.tops.items) }
    {
        let behind = reached(self.premises.alloc, self.premises.graph, hint.label)?;
        if !self.is_tried_whole(hint, &behind, found)? {
            self.try_behind(operands, hint, &behind, found)?;
            return Ok(());
        }
        self.settle(found)?;
        let Some(last) = found.tops.last() else {
            return Ok(());
        };
        let Some(family) = self.proposed_beside(operands, last, hint, &behind)? else {
            return Ok(());
        };
        self.keep(family, found)?;
        Ok(())
    }

    /// Whether the trees in front of the hint's loop are made and checked with those behind: where they are small, and where the hint may add a claim,
    /// since the tree at the entry is made of that at the loop's head.
    fn is_tried_whole(
        &self,
        hint: &Hint,
        behind: &[bool],
        found: &Tops,
    ) -> Result<bool, AllocError> {
        let Some(trees) = found.at_hand() else {
            return Ok(true);
        };
        if is_front_small(trees, behind) || self.may_begin(trees, found) {
            return Ok(true);
        }
        let premises = self.premises;
        let first = front(premises.alloc, premises.transitions, premises.graph.entry())?;
        Ok(first.get(hint.label as usize) == Some(&true))
    }

    /// Whether no cover is begun, and one may begin with a tree at the entry that is made anew of what the check left.
    fn may_begin(&self, trees: &[Tree<AffineRank>], found: &Tops) -> bool {
        let entry = self.premises.graph.entry() as usize;
        match (self.premises.transitions.get(entry), trees.get(entry)) {
            (Some(transition), Some(tree)) => {
                found.cover.is_none() && !is_given(transition) && tree.size() <= MOST_AT_ENTRY
            }
            _ => false,
        }
    }

    /// Puts what the check leaves of the trees behind, to which the hint's loop leads, in their places, where it claims something under the hint's
    /// rows: no other tree matters to these. Hints begin from the trees as they stand then.
    fn try_behind(
        &self,
        operands: &Operands<'_>,
        hint: &Hint,
        behind: &[bool],
        found: &mut Tops,
    ) -> Result<(), AllocError>
        requires inquiry { IsInquiry D.NumDomain.own self.now }
        ensures tops { found.new.tops.items ≡ found.old.tops.items }
        ensures cover { option_map plan_of found.new.cover ≡ option_map plan_of found.old.cover }
    {
        let alloc = self.premises.alloc;
        let was_ahead = found.ahead.is_some();
        let mut trees = match mem::replace(&mut found.ahead, None) {
            Some(ahead) => ahead.into_vec(),
            None => found.last_copied(alloc)?,
        };
        let mut part = undefined(alloc, trees.len())?;
        exchange(behind, &mut trees, &mut part);
        let current = self.remade(operands, &part)?;
        match self.proposed(operands, &current, hint)? {
            Some(family) => part = family.trees.into_vec(),
            None if was_ahead => {}
            None => return Ok(()),
        }
        exchange(behind, &mut trees, &mut part);
        found.ahead = Some(TreeList::of(trees));
        Ok(())
    }

    /// What the check leaves of the family that the hint proposes beside the one known, where it claims something under the hint's rows. What the hint's loop leads to
    /// is checked alone first, since no other tree matters to whether it does.
    fn proposed_beside(
        &self,
        operands: &Operands<'_>,
        known: &Family<AffineRank>,
        hint: &Hint,
        behind: &[bool],
    ) -> Result<Option<Family<AffineRank>>, AllocError>
        requires inquiry { IsInquiry D.NumDomain.own self.now }
        requires known { IsTop D.NumDomain.own self.now known.now }
        ensures { IfOk result (λ found. IfSome found (IsTop D.NumDomain.own self.now)) }
    {
        let Some(trees) = self.trees_beside(operands, known, hint)? else {
            return Ok(None);
        };
        let mut trees = trees.into_vec();
        let mut part = undefined(self.premises.alloc, trees.len())?;
        exchange(behind, &mut trees, &mut part);
        let left = self.left_beside(known, part)?;
        if !self.is_met(&left, hint)? {
            return Ok(None);
        }
        let mut part = left.trees.into_vec();
        exchange(behind, &mut trees, &mut part);
        let family = self.left_beside(known, trees)?;
        Ok(Some(family))
    }

    /// The trees that the hint proposes beside the family, one for each label.
    fn trees_beside(
        &self,
        operands: &Operands<'_>,
        known: &Family<AffineRank>,
        hint: &Hint,
    ) -> Result<Option<TreeList<AffineRank>>, AllocError>
        requires inquiry { IsInquiry D.NumDomain.own self.now }
        ensures { IfOk result (λ found. IfSome found (λ trees. length trees ≡ self.now.premises.now.labels)) }
    {
        let premises = self.premises;
        let marked = front(premises.alloc, premises.transitions, premises.graph.entry())?;
        proposal_beside(
            premises.alloc,
            premises.graph,
            premises.transitions,
            operands,
            known.trees.items(),
            &marked,
            self.variables(),
            hint,
        )
    }

    /// What the check leaves of the trees beside the family.
    fn left_beside(
        &self,
        known: &Family<AffineRank>,
        trees: Vec<Tree<AffineRank>>,
    ) -> Result<Family<AffineRank>, AllocError>
        requires inquiry { IsInquiry D.NumDomain.own self.now }
        requires known { IsTop D.NumDomain.own self.now known.now }
        requires labels { length trees.items ≡ self.now.premises.now.labels }
        ensures { IfOk result (IsTop D.NumDomain.own self.now) }
    {
        self.premises
            .left_beside(self.formula, self.smaller, known, TreeList::of(trees))
    }

    /// What the check leaves of the family that the hint proposes in place of the trees at hand, where it claims something under the hint's rows.
    fn proposed(
        &self,
        operands: &Operands<'_>,
        current: &[Tree<AffineRank>],
        hint: &Hint,
    ) -> Result<Option<Family<AffineRank>>, AllocError>
        requires inquiry { IsInquiry D.NumDomain.own self.now }
        ensures { IfOk result (λ found. IfSome found (IsTop D.NumDomain.own self.now)) }
    {
        let premises = self.premises;
        let Some(trees) = proposal(
            premises.alloc,
            premises.graph,
            premises.transitions,
            operands,
            current,
            self.variables(),
            hint,
        )?
        else {
            return Ok(None);
        };
        let family = premises.left_of(self.formula, self.smaller, trees)?;
        if self.is_met(&family, hint)? {
            Ok(Some(family))
        } else {
            Ok(None)
        }
    }

    /// Whether the family claims something under the hint's rows at its label.
    fn is_met(&self, family: &Family<AffineRank>, hint: &Hint) -> Result<bool, AllocError> {
        match family.trees.items().get(hint.label as usize) {
            Some(head) => holds_under(self.premises.alloc, head, &hint.split),
            None => Ok(false),
        }
    }

    /// The number of the program's variables.
    fn variables(&self) -> u32 {
        self.premises.graph.program().names.items().len() as u32
    }
}

/// For each label whether steps lead there from the one; to that itself they do.
fn reached(alloc: Global, graph: &Graph, label: u32) -> Result<Vec<bool>, AllocError> {
    let mut steps = Arrows::none(alloc, graph.labels() as usize)?;
    for from in 0..graph.labels() {
        for edge in graph.edges(from) {
            if let Some(edge) = edge {
                steps.add(from as usize, edge.to as usize)?;
            }
        }
    }
    steps.reached(alloc, label as usize, 0)
}

/// Whether the trees that aren't behind have few nodes together, or no more than those that are.
fn is_front_small(trees: &[Tree<AffineRank>], behind: &[bool]) -> bool {
    let mut nodes_in_front: u64 = 0;
    let mut nodes_behind: u64 = 0;
    for (label, tree) in trees.iter().enumerate() {
        if behind.get(label) == Some(&true) {
            nodes_behind = nodes_behind.saturating_add(tree.size());
        } else {
            nodes_in_front = nodes_in_front.saturating_add(tree.size());
        }
    }
    nodes_in_front <= nodes_behind.max(FEW_NODES)
}

/// So many trees that claim nothing.
fn undefined(alloc: Global, count: usize) -> Result<Vec<Tree<AffineRank>>, AllocError>
    ensures { IfOk result (λ trees. length trees.items ≡ count) }
{
    let mut trees = Vec::with_capacity(alloc, count)?;
    for _ in 0..count {
        trees.push(Tree::Bottom)?;
    }
    Ok(trees)
}

/// Exchanges the trees of the labels that are behind.
fn exchange(behind: &[bool], trees: &mut [Tree<AffineRank>], others: &mut [Tree<AffineRank>])
    ensures trees { length trees.new ≡ length trees.old }
    ensures others { length others.new ≡ length others.old }
{
    for label in 0..trees.len() {
        if behind.get(label) == Some(&true) && label < others.len() {
            mem::swap(&mut trees[label], &mut others[label]);
        }
    }
}
