//! Turns of advice.
ghost use Rattle.std.specs.Prelude.{◌≡◌, ◌↔◌, ◌<◌, ◌≤◌, ◌^◌, ◌⊎◌, [], ◌∷◌, ◌++◌, All, IfOk, IsTrue, OnOk, length, option_map};
ghost use Rattle.ctl_formula.specs.Mirror.{ctl};
ghost use Rattle.decision_tree.specs.Extent.{IsWhole};
ghost use Rattle.decision_tree.specs.Plans.{plan_of};
ghost use Rattle.ctl_rounds.specs.Asked.{AreAskedAlike, IsAdvised};
ghost use Rattle.ctl_rounds.specs.Covers.{claims_of};
ghost use Rattle.step_meaning.specs.Syntax.{statements};
ghost use Rattle.exact_families.specs.Completeness.{IsLoopless};
ghost use Rattle.ctl_rounds.specs.Finding.{AreFoundSoFar, BeginsExactly, IsInquiry, IsTop};

use crate::covering::extended;
use crate::inquiry::Inquiry;
use crate::tops::Tops;
use advice::{Adviser, consult};
use ctl_formula::Formula;
use decision_tree::{AffineRank, Family};
use loop_facts::Facts;
use loop_moves::Search;
use num_domain::NumDomain;
use part_trees::Claims;
use std::alloc::AllocError;
use tree_support::tree_at_entry;

/// The most turns of advice.
const TURNS: u32 = 8;

impl<'a, D: NumDomain> Inquiry<'a, D> {
    /// What is found by proposals: a family; for an `A[f U g]` those of turns of advice; and, where there are advisers and more than one sweep comes
    /// before widening, those of linear programs. The only error is want of memory.
    pub(crate) fn sought(
        &self,
        search: &mut Search,
        advisers: &mut Vec<Box<dyn Adviser>>,
    ) -> Result<Tops, AllocError>
        requires inquiry { IsInquiry D.NumDomain.own self.now }
        requires patient { All (λ adviser. asked_of adviser ≤ 2 ^ 32) advisers.old.items }
        ensures found { IfOk result (λ found. AreFoundSoFar D.NumDomain.own self.now found.tops.items (option_map plan_of found.cover)) }
        ensures some { IfOk result (λ found. 0 < length found.tops.items) }
        ensures exact { IfOk result (λ found. BeginsExactly self.now found.tops.items) }
        ensures alone { IsLoopless (statements self.now.premises.now.graph.now.body) → IfOk result (λ found. length found.tops.items ≡ 1) }
        ensures turns { IsAdvised (ctl self.now.formula.now) → IfOk result (λ found.
            IsWhole (claims_of (option_map plan_of found.cover)) ⊎ (found.turns ≡ 8)) }
        ensures unadvised { (IsAdvised (ctl self.now.formula.now) → ⊥) → IfOk result (λ found. found.turns ≡ 0) }
        ensures asked { AreAskedAlike (λ adviser. asked_of adviser) advisers.old.items advisers.new.items (λ times. IfOk result (λ found. found.turns ≡ times)) }
    {
        let synthesises = self.premises.synthesises;
        let mut found = self.hinted(advisers)?;
        if synthesises && !found.is_whole() {
            self.synthesise(search, &mut found)?;
        }
        Ok(found)
    }

    /// The same without linear programs.
    fn hinted(&self, advisers: &mut Vec<Box<dyn Adviser>>) -> Result<Tops, AllocError>
        requires inquiry { IsInquiry D.NumDomain.own self.now }
        requires patient { All (λ adviser. asked_of adviser ≤ 2 ^ 32) advisers.old.items }
        ensures found { IfOk result (λ found. AreFoundSoFar D.NumDomain.own self.now found.tops.items (option_map plan_of found.cover)) }
        ensures some { IfOk result (λ found. 0 < length found.tops.items) }
        ensures exact { IfOk result (λ found. BeginsExactly self.now found.tops.items) }
        ensures alone { IsLoopless (statements self.now.premises.now.graph.now.body) → IfOk result (λ found. length found.tops.items ≡ 1) }
        ensures turns { IsAdvised (ctl self.now.formula.now) → IfOk result (λ found.
            IsWhole (claims_of (option_map plan_of found.cover)) ⊎ (found.turns ≡ 8)) }
        ensures unadvised { (IsAdvised (ctl self.now.formula.now) → ⊥) → IfOk result (λ found. found.turns ≡ 0) }
        ensures asked { AreAskedAlike (λ adviser. asked_of adviser) advisers.old.items advisers.new.items (λ times. IfOk result (λ found. found.turns ≡ times)) }
    {
        if is_advised(self.formula) {
            let mut found = self.advised(advisers)?;
            self.finish(&mut found)?;
            Ok(found)
        } else {
            Ok(self.begun()?)
        }
    }

    /// What the check leaves of the trees that are proposed, and then, in at most eight turns as long as some input has no claim, of those
    /// that the advisers' hints propose. The only error is want of memory.
    fn advised(&self, advisers: &mut Vec<Box<dyn Adviser>>) -> Result<Tops, AllocError>
        requires inquiry { IsInquiry D.NumDomain.own self.now }
        requires formula { IsAdvised (ctl self.now.formula.now) }
        requires patient { All (λ adviser. asked_of adviser ≤ 2 ^ 32) advisers.old.items }
        ensures found { IfOk result (λ found. AreFoundSoFar D.NumDomain.own self.now found.tops.items (option_map plan_of found.cover)) }
        ensures some { IfOk result (λ found. 0 < length found.tops.items) }
        ensures exact { IfOk result (λ found. BeginsExactly self.now found.tops.items) }
        ensures alone { IsLoopless (statements self.now.premises.now.graph.now.body) → IfOk result (λ found. length found.tops.items ≡ 1) }
        ensures turns { IfOk result (λ found. IsWhole (claims_of (option_map plan_of found.cover)) ⊎ (found.turns ≡ 8)) }
        ensures asked { AreAskedAlike (λ adviser. asked_of adviser) advisers.old.items advisers.new.items (λ times. IfOk result (λ found. found.turns ≡ times)) }
    {
        let alloc = self.premises.alloc;
        let (keep, goal) = (&self.smaller.operands[0], &self.smaller.operands[1]);
        let claims = Claims::of(alloc, keep, goal)?;
        let operands = claims.operands(true);
        let mut found = self.begun()?;
        let facts = self.facts()?;
        let mut turns = 0;
        while turns < TURNS && !found.is_whole() {
            let shown = facts.of_turn(alloc, turns)?;
            let hints = consult(alloc, advisers, turns, &shown)?;
            turns += 1;
            self.follow(&operands, &hints, &mut found)?;
        }
        found.turns = turns;
        Ok(found)
    }

    /// What is seen of the program's loops.
    fn facts(&self) -> Result<Facts, AllocError>
        requires inquiry { IsInquiry D.NumDomain.own self.now }
    {
        let premises = self.premises;
        let variables = premises.graph.program().names.items().len() as u32;
        let facts = Facts::of(
            premises.alloc,
            premises.graph,
            premises.inv,
            premises.transitions,
            variables,
        )?;
        Ok(facts)
    }

    /// What the check leaves of the trees that are proposed.
    fn begun(&self) -> Result<Tops, AllocError>
        requires inquiry { IsInquiry D.NumDomain.own self.now }
        ensures found { IfOk result (λ found. AreFoundSoFar D.NumDomain.own self.now found.tops.items (option_map plan_of found.cover)) }
        ensures some { IfOk result (λ found. 0 < length found.tops.items) }
        ensures exact { IfOk result (λ found. BeginsExactly self.now found.tops.items) }
        ensures alone { IfOk result (λ found. length found.tops.items ≡ 1) }
        ensures turns { IfOk result (λ found. found.turns ≡ 0) }
    {
        let first = self.premises.found(self.formula, self.smaller)?;
        let mut found = Tops::none(self.premises.alloc);
        self.keep(first, &mut found)?;
        Ok(found)
    }

    /// Adds the family, and what it says of inputs that have no claim yet.
    pub(crate) fn keep(
        &self,
        family: Family<AffineRank>,
        found: &mut Tops,
    ) -> Result<(), AllocError>
        requires inquiry { IsInquiry D.NumDomain.own self.now }
        requires family { IsTop D.NumDomain.own self.now family }
        requires found { AreFoundSoFar D.NumDomain.own self.now found.old.tops.items (option_map plan_of found.old.cover) }
        ensures found { OnOk result (AreFoundSoFar D.NumDomain.own self.now found.new.tops.items (option_map plan_of found.new.cover)) }
        ensures tops { OnOk result (found.new.tops.items ≡ found.old.tops.items ++ family ∷ []) }
        ensures exact { BeginsExactly self.now found.old.tops.items → OnOk result (BeginsExactly self.now found.new.tops.items) }
        ensures turns { found.new.turns ≡ found.old.turns }
    {
        let entry = tree_at_entry(self.premises.graph, &family);
        match extended(self.premises.alloc, &found.cover, entry)? {
            Some(next) => found.cover = Some(next),
            None => {}
        }
        found.tops.push(family)?;
        Ok(())
    }
}

/// Whether the formula is an `A[f U g]`.
fn is_advised(formula: &Formula) -> bool
    ensures { IsTrue result ↔ IsAdvised (ctl formula.now) }
{
    matches!(formula, Formula::Until { all: true, .. })
}
