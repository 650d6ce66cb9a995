//! Families of ranks by linear programs.
ghost use Rattle.std.specs.Prelude.{◌≡◌, ◌<◌, OnOk, length, option_map};
ghost use Rattle.decision_tree.specs.Plans.{plan_of};
ghost use Rattle.step_meaning.specs.Syntax.{statements};
ghost use Rattle.exact_families.specs.Completeness.{IsLoopless};
ghost use Rattle.ctl_rounds.specs.Finding.{AreFoundSoFar, BeginsExactly, IsInquiry, IsTop};

use crate::covering::extended;
use crate::inquiry::Inquiry;
use crate::tops::Tops;
use decision_tree::{AffineRank, Family, Tree};
use loop_moves::{Parting, Plan, Question, Search};
use num_domain::NumDomain;
use part_families::UntilKind;
use part_trees::Claims;
use rank_synthesis::Synthesis;
use std::alloc::AllocError;
use tree_support::tree_at_entry;

impl<'a, D: NumDomain> Inquiry<'a, D> {
    /// Adds what the check leaves of families that linear programs propose for an until or a weak until of a program with loops, as long as some input
    /// has no claim. The only error is want of memory.
    pub(crate) fn synthesise(&self, search: &mut Search, found: &mut Tops) -> Result<(), AllocError>
        requires inquiry { IsInquiry D.NumDomain.own self.now }
        requires found { AreFoundSoFar D.NumDomain.own self.now found.old.tops.items (option_map plan_of found.old.cover) }
        ensures found { OnOk result (AreFoundSoFar D.NumDomain.own self.now found.new.tops.items (option_map plan_of found.new.cover)) }
        ensures some { 0 < length found.old.tops.items → OnOk result (0 < length found.new.tops.items) }
        ensures exact { BeginsExactly self.now found.old.tops.items → OnOk result (BeginsExactly self.now found.new.tops.items) }
        ensures alone { IsLoopless (statements self.now.premises.now.graph.now.body) → OnOk result (found.new.tops.items ≡ found.old.tops.items) }
        ensures turns { found.new.turns ≡ found.old.turns }
    {
        if !self.premises.has_loop() {
            return Ok(());
        }
        let (Some(keep), Some(goal)) = (self.smaller.operands.first(), self.smaller.operands.get(1))
        else {
            return Ok(());
        };
        let Some(until) = UntilKind::of(self.formula) else {
            return Ok(());
        };
        let premises = self.premises;
        let claims = Claims::of(premises.alloc, keep, goal)?;
        for plan in Plan::tried(premises.alloc, premises.transitions, until.all)? {
            let question = Question {
                transitions: premises.transitions,
                operands: &claims.operands(until.all),
                is_weak: until.is_weak,
                under: &[],
                plan,
                variables: premises.graph.program().names.items().len() as u32,
            };
            self.answer(search, &question, found)?;
        }
        Ok(())
    }

    /// Adds what the check leaves of the families that are proposed for the question, parting after parting, as long as some input has no claim.
    fn answer(
        &self,
        search: &mut Search,
        question: &Question<'_>,
        found: &mut Tops,
    ) -> Result<(), AllocError>
        requires inquiry { IsInquiry D.NumDomain.own self.now }
        requires transitions { question.now.transitions.now ≡ self.now.premises.now.transitions.now }
        requires found { AreFoundSoFar D.NumDomain.own self.now found.old.tops.items (option_map plan_of found.old.cover) }
        ensures found { OnOk result (AreFoundSoFar D.NumDomain.own self.now found.new.tops.items (option_map plan_of found.new.cover)) }
        ensures some { 0 < length found.old.tops.items → OnOk result (0 < length found.new.tops.items) }
        ensures exact { BeginsExactly self.now found.old.tops.items → OnOk result (BeginsExactly self.now found.new.tops.items) }
        ensures turns { found.new.turns ≡ found.old.turns }
    {
        let mut synthesis = Synthesis::of(search, self.premises.inv, question)?;
        for parting in Parting::ALL {
            if !found.is_whole() {
                self.propose(search, question, &mut synthesis, parting, found)?;
            }
        }
        Ok(())
    }

    /// Adds what the check leaves of the family that is proposed for the question by the parting, if one is.
    fn propose(
        &self,
        search: &mut Search,
        question: &Question<'_>,
        synthesis: &mut Synthesis,
        parting: Parting,
        found: &mut Tops,
    ) -> Result<(), AllocError>
        requires inquiry { IsInquiry D.NumDomain.own self.now }
        requires transitions { question.now.transitions.now ≡ self.now.premises.now.transitions.now }
        requires found { AreFoundSoFar D.NumDomain.own self.now found.old.tops.items (option_map plan_of found.old.cover) }
        ensures found { OnOk result (AreFoundSoFar D.NumDomain.own self.now found.new.tops.items (option_map plan_of found.new.cover)) }
        ensures some { 0 < length found.old.tops.items → OnOk result (0 < length found.new.tops.items) }
        ensures exact { BeginsExactly self.now found.old.tops.items → OnOk result (BeginsExactly self.now found.new.tops.items) }
        ensures turns { found.new.turns ≡ found.old.turns }
    {
        let entry = self.premises.graph.entry();
        let Some(proposal) = synthesis.proposed(search, question, parting, entry)? else {
            return Ok(());
        };
        if !self.may_add(&proposal.trees, found)? {
            return Ok(());
        }
        let trees = proposal.whole(self.premises.alloc, question)?;
        let family = self.premises.left_of(self.formula, self.smaller, trees)?;
        self.keep_if_it_adds(family, found)?;
        Ok(())
    }

    /// Adds the family, if it says something of an input that has no claim yet.
    pub(crate) fn keep_if_it_adds(
        &self,
        family: Family<AffineRank>,
        found: &mut Tops,
    ) -> Result<(), AllocError>
        requires inquiry { IsInquiry D.NumDomain.own self.now }
        requires family { IsTop D.NumDomain.own self.now family }
        requires found { AreFoundSoFar D.NumDomain.own self.now found.old.tops.items (option_map plan_of found.old.cover) }
        ensures found { OnOk result (AreFoundSoFar D.NumDomain.own self.now found.new.tops.items (option_map plan_of found.new.cover)) }
        ensures some { 0 < length found.old.tops.items → OnOk result (0 < length found.new.tops.items) }
        ensures exact { BeginsExactly self.now found.old.tops.items → OnOk result (BeginsExactly self.now found.new.tops.items) }
        ensures turns { found.new.turns ≡ found.old.turns }
    {
        let entry = tree_at_entry(self.premises.graph, &family);
        if self.changes(entry, found)? == Some(true) {
            self.keep(family, found)?;
        }
        Ok(())
    }

    /// Whether what the check leaves of the trees may say something of an input that has no claim yet, by what is proposed at the entry.
    fn may_add(&self, trees: &[Tree<AffineRank>], found: &Tops) -> Result<bool, AllocError> {
        match trees.get(self.premises.graph.entry() as usize) {
            Some(entry) => Ok(self.changes(entry, found)? != Some(false)),
            None => Ok(true),
        }
    }

    /// Whether the cover changes with the tree at the entry; none where that can't be joined to it.
    fn changes(&self, entry: &Tree<AffineRank>, found: &Tops) -> Result<Option<bool>, AllocError> {
        let Some(next) = extended(self.premises.alloc, &found.cover, entry)? else {
            return Ok(None);
        };
        Ok(Some(match &found.cover {
            Some(cover) => next != *cover,
            None => true,
        }))
    }
}
