//! The way through a formula, its smaller parts first.
ghost use Rattle.std.specs.Prelude.{◌≡◌, ◌<◌, ℕ, IfOk, length};
ghost use Rattle.ctl_formula.specs.Formulas.{truth};
ghost use Rattle.ctl_formula.specs.Mirror.{ctl};
ghost use Rattle.decision_tree.specs.Extent.{IsWhole};
ghost use Rattle.part_families.specs.Families.{IsExact, IsNarrowFor, IsWithin, trees_of};
ghost use Rattle.exact_families.specs.Narrowness.{IsNarrowAndComplete};
ghost use Rattle.part_families.specs.Knowing.{ArePremises, told_on};
ghost use Rattle.part_families.specs.Showing.{AreOperandsOf, AreShown, AreSmaller, Shows};
ghost use Rattle.exact_families.specs.Completeness.{EachPart, IsComplete, IsLoopless};
ghost use Rattle.step_meaning.specs.Syntax.{statements};
ghost use Rattle.tree_check.specs.Checking.{families_of};

use crate::known::{end, truth};
use crate::premises::Premises;
use crate::smaller::{Shown, SmallerParts};
use ctl_formula::Formula;
use decision_tree::{AffineRank, Family};
use loop_moves::Search;
use num_domain::NumDomain;
use std::alloc::AllocError;

impl<'a, D: NumDomain> Premises<'a, D> {
    /// Families that show the smaller parts of the formula, where the first of these has the number `first`: of the truth and of `exit` those
    /// that are known, of any other part what the check leaves of the trees that are proposed for it, of an until or a weak until by linear
    /// programs too. The error is want of memory, as for more than 2^32 parts.
    pub fn smaller_parts(
        &self,
        search: &mut Search,
        formula: &Formula,
        first: u32,
    ) -> Result<SmallerParts, AllocError>
        requires premises { ArePremises D.NumDomain.own self.now }
        ensures { IfOk result (AreSmaller self.now.graph.now (told_on D.NumDomain.own self.now) self.now.labels first (ctl formula.now)) }
    {
        match formula {
            Formula::True | Formula::False | Formula::Exit | Formula::NotExit | Formula::Holds(_) =>
                Ok(SmallerParts::none(self.alloc, first)),
            Formula::Not(part) | Formula::Next { all: _, part } => {
                let below = self.smaller_parts(search, part, first)?;
                let part = self.shown(search, part, below)?;
                let found = SmallerParts::of_one(self.alloc, part)?;
                Ok(found)
            }
            Formula::And(left, right)
            | Formula::Or(left, right)
            | Formula::Until {
                all: _,
                keep: left,
                goal: right,
            }
            | Formula::Weak {
                all: _,
                keep: left,
                goal: right,
            } => {
                let below = self.smaller_parts(search, left, first)?;
                let left = self.shown(search, left, below)?;
                let second = left.number_behind()?;
                let below = self.smaller_parts(search, right, second)?;
                let right = self.shown(search, right, below)?;
                let found = SmallerParts::of_two(self.alloc, left, right)?;
                Ok(found)
            }
        }
    }

    /// Families that show the formula and its smaller parts, where those of the latter are given. The only error is want of memory.
    fn shown(
        &self,
        search: &mut Search,
        formula: &Formula,
        smaller: SmallerParts,
    ) -> Result<Shown, AllocError>
        requires premises { ArePremises D.NumDomain.own self.now }
        ensures { (k : ℕ) → AreSmaller self.now.graph.now (told_on D.NumDomain.own self.now) self.now.labels k (ctl formula.now) smaller
            → IfOk result (AreShown self.now.graph.now (told_on D.NumDomain.own self.now) self.now.labels k (ctl formula.now)) }
    {
        let whole = self.itself(search, formula, &smaller)?;
        let smaller = smaller.in_order()?;
        Ok(Shown { smaller, whole })
    }

    /// A family that shows the formula over those of its operands: the one that is known, or what the check leaves of the trees that are
    /// proposed. The only error is want of memory.
    fn itself(
        &self,
        search: &mut Search,
        formula: &Formula,
        smaller: &SmallerParts,
    ) -> Result<Family<AffineRank>, AllocError>
        requires premises { ArePremises D.NumDomain.own self.now }
        ensures shows { IfOk result (Shows self.now.graph.now (told_on D.NumDomain.own self.now) (ctl formula.now) smaller.now.number
            smaller.now.operands.items) }
        ensures exact { IsLoopless (statements self.now.graph.now.body) → EachPart (IsComplete (statements self.now.graph.now.body)) (ctl formula.now)
            (families_of smaller.now.operands.items) → IfOk result (IsExact (statements self.now.graph.now.body) (ctl formula.now)) }
        ensures narrow { IsLoopless (statements self.now.graph.now.body)
            → IsWithin (length self.now.graph.now.names) (statements self.now.graph.now.body) (ctl formula.now)
            → AreOperandsOf (ctl formula.now) self.now.labels smaller.now.operands.items
            → EachPart (IsNarrowAndComplete (length self.now.graph.now.names) (statements self.now.graph.now.body)) (ctl formula.now)
            (families_of smaller.now.operands.items)
            → IfOk result (IsNarrowFor (length self.now.graph.now.names) (statements self.now.graph.now.body) (ctl formula.now)) }
        ensures everywhere { ctl formula.now ≡ truth → IfOk result (λ family. (label : ℕ) → label < self.now.labels
            → IsWhole (trees_of family label)) }
    {
        match formula {
            Formula::True => {
                let known = truth(self.alloc, self.labels, smaller.number)?;
                Ok(known)
            }
            Formula::Exit => {
                let known = end(self.alloc, self.labels, smaller.number)?;
                Ok(known)
            }
            Formula::False
            | Formula::NotExit
            | Formula::Holds(_)
            | Formula::Not(_)
            | Formula::And(_, _)
            | Formula::Or(_, _)
            | Formula::Next { .. } => self.found(formula, smaller),
            Formula::Until { .. } | Formula::Weak { .. } => {
                let found = self.found(formula, smaller)?;
                if self.synthesises {
                    self.improved(search, formula, smaller, found)
                } else {
                    Ok(found)
                }
            }
        }
    }
}
