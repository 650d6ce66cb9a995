//! Better families of the untils within a formula, by linear programs.
ghost use Rattle.std.specs.Prelude.{◌≡◌, IfOk};
ghost use Rattle.step_meaning.specs.Syntax.{statements};
ghost use Rattle.ctl_formula.specs.Mirror.{ctl};
ghost use Rattle.exact_families.specs.Completeness.{IsLoopless};
ghost use Rattle.part_families.specs.Knowing.{ArePremises, told_on};
ghost use Rattle.part_families.specs.Showing.{Shows};

use crate::premises::Premises;
use crate::smaller::SmallerParts;
use crate::until_kind::UntilKind;
use ctl_formula::Formula;
use decision_tree::{AffineRank, Family};
use loop_moves::{Parting, Plan, Question, Search, claims_more};
use num_domain::NumDomain;
use part_trees::Claims;
use rank_synthesis::Synthesis;
use std::alloc::AllocError;

impl<'a, D: NumDomain> Premises<'a, D> {
    /// The family of an until or a weak until over those of its operands, or one that claims more, of those that linear programs propose and the
    /// check leaves: parting after parting over the best so far. Nothing is proposed without loops. The only error is want of memory.
    pub(crate) fn improved(
        &self,
        search: &mut Search,
        formula: &Formula,
        smaller: &SmallerParts,
        family: Family<AffineRank>,
    ) -> Result<Family<AffineRank>, AllocError>
        requires premises { ArePremises D.NumDomain.own self.now }
        requires shows { Shows self.now.graph.now (told_on D.NumDomain.own self.now) (ctl formula.now) smaller.now.number smaller.now.operands.items family }
        ensures shows { IfOk result (Shows self.now.graph.now (told_on D.NumDomain.own self.now) (ctl formula.now) smaller.now.number
            smaller.now.operands.items) }
        ensures loopless { IsLoopless (statements self.now.graph.now.body) → IfOk result (λ improved. improved ≡ family) }
    {
        if !self.has_loop() {
            return Ok(family);
        }
        let found = self.searched(search, formula, smaller, family)?;
        Ok(found)
    }

    /// The best of the family and those that are proposed.
    fn searched(
        &self,
        search: &mut Search,
        formula: &Formula,
        smaller: &SmallerParts,
        family: Family<AffineRank>,
    ) -> Result<Family<AffineRank>, AllocError>
        requires premises { ArePremises D.NumDomain.own self.now }
        requires shows { Shows self.now.graph.now (told_on D.NumDomain.own self.now) (ctl formula.now) smaller.now.number smaller.now.operands.items family }
        ensures shows { IfOk result (Shows self.now.graph.now (told_on D.NumDomain.own self.now) (ctl formula.now) smaller.now.number
            smaller.now.operands.items) }
    {
        let (Some(keep), Some(goal)) = (smaller.operands.first(), smaller.operands.get(1)) else {
            return Ok(family);
        };
        let Some(until) = UntilKind::of(formula) else {
            return Ok(family);
        };
        let claims = Claims::of(self.alloc, keep, goal)?;
        let mut best = family;
        for plan in Plan::tried(self.alloc, self.transitions, until.all)? {
            let operands = claims.operands(until.all);
            let question = Question {
                transitions: self.transitions,
                operands: &operands,
                is_weak: until.is_weak,
                under: &[],
                plan,
                variables: self.graph.program().names.items().len() as u32,
            };
            best = self.by_plan(search, formula, smaller, &question, best)?;
        }
        Ok(best)
    }

    /// The best of the family and those that are proposed for the question, parting after parting.
    fn by_plan(
        &self,
        search: &mut Search,
        formula: &Formula,
        smaller: &SmallerParts,
        question: &Question<'_>,
        family: Family<AffineRank>,
    ) -> Result<Family<AffineRank>, AllocError>
        requires premises { ArePremises D.NumDomain.own self.now }
        requires transitions { question.now.transitions.now ≡ self.now.transitions.now }
        requires shows { Shows self.now.graph.now (told_on D.NumDomain.own self.now) (ctl formula.now) smaller.now.number smaller.now.operands.items family }
        ensures shows { IfOk result (Shows self.now.graph.now (told_on D.NumDomain.own self.now) (ctl formula.now) smaller.now.number
            smaller.now.operands.items) }
    {
        let mut synthesis = Synthesis::of(search, self.inv, question)?;
        let mut best = family;
        for parting in Parting::ALL {
            best = self.by_parting(
                search,
                formula,
                smaller,
                question,
                &mut synthesis,
                parting,
                best,
            )?;
        }
        Ok(best)
    }

    /// The family, or the one that is proposed by the parting over it, where what the check leaves of that claims more.
    fn by_parting(
        &self,
        search: &mut Search,
        formula: &Formula,
        smaller: &SmallerParts,
        question: &Question<'_>,
        synthesis: &mut Synthesis,
        parting: Parting,
        family: Family<AffineRank>,
    ) -> Result<Family<AffineRank>, AllocError>
        requires premises { ArePremises D.NumDomain.own self.now }
        requires transitions { question.now.transitions.now ≡ self.now.transitions.now }
        requires shows { Shows self.now.graph.now (told_on D.NumDomain.own self.now) (ctl formula.now) smaller.now.number smaller.now.operands.items family }
        ensures shows { IfOk result (Shows self.now.graph.now (told_on D.NumDomain.own self.now) (ctl formula.now) smaller.now.number
            smaller.now.operands.items) }
    {
        let over = Question {
            under: family.trees.items(),
            ..*question
        };
        let Some(proposal) = synthesis.proposed(search, &over, parting, self.graph.entry())? else {
            return Ok(family);
        };
        let trees = proposal.whole(self.alloc, &over)?;
        let next = self.left_of(formula, smaller, trees)?;
        let variables = question.variables;
        if claims_more(
            search,
            self.inv,
            variables,
            next.trees.items(),
            family.trees.items(),
        )? {
            Ok(next)
        } else {
            Ok(family)
        }
    }
}
