//! One leaf of a family, by its why.
ghost use Rattle.std.specs.Prelude.{◌∷◌, ◌++◌, [], None, IfOk, IfSome, OnOk, map};
ghost use Rattle.linear_cons.specs.Functions.{complement_of};
ghost use Rattle.decision_tree.specs.Plans.{leaf, plan_of};
ghost use Rattle.constraint_stack.specs.Forming.{Formed, given};
ghost use Rattle.tree_support.specs.Setting.{trees_in};
ghost use Rattle.tree_support.specs.Systems.{of_atom, of_both, of_end, of_keep, of_leaf, of_now, of_rank, of_side, of_why, unedged, undefined_at};
ghost use Rattle.constraint_stack.specs.Claims.{unnatural};
ghost use Rattle.constraint_stack.specs.Stacks.{Forms, IsTried, all_asked, asked};
ghost use Rattle.constraint_stack.specs.Searches.{IsSame, IsSearched, WhereAsked};
ghost use Rattle.leaf_search.specs.Ahead.{IsAhead};
ghost use Rattle.leaf_search.specs.Operands.{families_of};
ghost use Rattle.leaf_search.specs.Leaves.{WhereStood};
ghost use Rattle.leaf_search.specs.Walks.{LeadsTo};

use crate::ahead::{Ahead, here};
use crate::follow::refute_at;
use crate::part::Part;
use crate::walk::Way;
use constraint_stack::{Asked, ConstraintStack, Finding, try_claim};
use control_flow::{Choice, Transition};
use decision_tree::{Family, Rank, Tree, Why};
use linear_cons::{Affine, Row, RowKind, Wide};
use std::alloc::AllocError;

/// The edge number of a system that has no edge.
pub const UNEDGED: u32 = 2;

/// What the leaves of a label are held against: the part, what is done and may be chosen at the label, the family itself, and those of
/// the part's operands.
#[derive(Drop)]
pub struct Stand<'a, R: Rank> {
    pub part: Part,
    pub label: u32,
    pub choice: Choice,
    pub transition: &'a Transition,
    pub family: &'a [Tree<R>],
    pub parts: &'a [Family<R>],
}

impl<'a, R: Rank> Stand<'a, R> {
    /// Looks for a reason against the systems of a defined leaf, behind the rows of its region on the stack, which have led to the trees ahead. False where no store meets any of
    /// them. The error is want of memory.
    #[inline(never)]
    pub fn refute_leaf(
        &self,
        why: &Why,
        rank: &R,
        ahead: &Ahead<'a, R>,
        stack: &mut ConstraintStack,
        found: &mut Option<Finding>,
    ) -> Result<bool, AllocError>
        requires { IsAhead self.now stack.old.rows ahead.now }
        ensures same { OnOk result (IsSame stack.old stack.new) }
        ensures searched { IfOk result (λ refuted. WhereStood self.now (λ at. WhereAsked stack.old (λ asks.
            IsSearched R.Rank.own (of_leaf at (leaf why.now rank.now) (trees_in (map plan_of self.now.family.now)) self.now.label asks)
            refuted found.new))) }
    {
        if self.refute_bound(rank, stack, found)? {
            return Ok(true);
        }
        let refuted = self.refute_why(why, rank, ahead, stack, found)?;
        Ok(refuted)
    }

    /// The rank of an until's leaf is a natural.
    fn refute_bound(
        &self,
        rank: &R,
        stack: &mut ConstraintStack,
        found: &mut Option<Finding>,
    ) -> Result<bool, AllocError>
        ensures same { OnOk result (IsSame stack.old stack.new) }
        ensures searched { IfOk result (λ refuted. WhereStood self.now (λ at. WhereAsked stack.old (λ asks.
            IsSearched R.Rank.own (of_rank at at.formula rank.now asks) refuted found.new))) }
    {
        if self.part.has_bound() {
            let refuted = refute_rank(rank, stack, found)?;
            return Ok(refuted);
        }
        Ok(false)
    }

    /// The systems by the why of a leaf.
    fn refute_why(
        &self,
        why: &Why,
        rank: &R,
        ahead: &Ahead<'a, R>,
        stack: &mut ConstraintStack,
        found: &mut Option<Finding>,
    ) -> Result<bool, AllocError>
        requires { IsAhead self.now stack.old.rows ahead.now }
        ensures same { OnOk result (IsSame stack.old stack.new) }
        ensures searched { IfOk result (λ refuted. WhereStood self.now (λ at. WhereAsked stack.old (λ asks.
            IsSearched R.Rank.own (of_why at why.now (trees_in (map plan_of self.now.family.now)) rank.now self.now.label asks)
            refuted found.new))) }
    {
        match why {
            Why::End => {
                let refuted = self.refute_end(stack, found)?;
                Ok(refuted)
            }
            Why::Atom => {
                let refuted = self.refute_atom(stack, found)?;
                Ok(refuted)
            }
            Why::Both => {
                let refuted = self.refute_both(stack, found)?;
                Ok(refuted)
            }
            Why::Left => {
                let refuted = self.refute_side(0, stack, found)?;
                Ok(refuted)
            }
            Why::Right => {
                let refuted = self.refute_side(1, stack, found)?;
                Ok(refuted)
            }
            Why::Now => {
                let refuted = self.refute_now(stack, found)?;
                Ok(refuted)
            }
            Why::Dead => {
                let refuted = refute_plain(stack, found)?;
                Ok(refuted)
            }
            Why::Step(pick) => {
                if self.refute_kept(ahead.kept, stack, found)? {
                    return Ok(true);
                }
                let refuted = self.refute_pick(pick, rank, ahead, stack, found)?;
                Ok(refuted)
            }
        }
    }

    /// The end stands at label 0, where the part may say that it is there.
    fn refute_end(
        &self,
        stack: &mut ConstraintStack,
        found: &mut Option<Finding>,
    ) -> Result<bool, AllocError>
        ensures same { OnOk result (IsSame stack.old stack.new) }
        ensures searched { IfOk result (λ refuted. WhereStood self.now (λ at. WhereAsked stack.old (λ asks.
            IsSearched R.Rank.own (of_end at at.formula self.now.label asks) refuted found.new))) }
    {
        if self.label != 0 {
            let refuted = refute_plain(stack, found)?;
            return Ok(refuted);
        }
        if self.part.may_end() {
            return Ok(false);
        }
        let refuted = refute_plain(stack, found)?;
        Ok(refuted)
    }

    /// An atom holds at the label, or where the complement of its row is met nowhere.
    fn refute_atom(
        &self,
        stack: &mut ConstraintStack,
        found: &mut Option<Finding>,
    ) -> Result<bool, AllocError>
        ensures same { OnOk result (IsSame stack.old stack.new) }
        ensures searched { IfOk result (λ refuted. WhereStood self.now (λ at. WhereAsked stack.old (λ asks.
            IsSearched R.Rank.own (of_atom at at.formula self.now.label asks) refuted found.new))) }
    {
        if let Some(function) = self.part.function() {
            let refuted = refute_with(complement(&function), stack, found)?;
            return Ok(refuted);
        }
        if self.part.holds_at(self.label) {
            return Ok(false);
        }
        let refuted = refute_plain(stack, found)?;
        Ok(refuted)
    }

    /// Both sides of a conjunction are defined.
    fn refute_both(
        &self,
        stack: &mut ConstraintStack,
        found: &mut Option<Finding>,
    ) -> Result<bool, AllocError>
        ensures same { OnOk result (IsSame stack.old stack.new) }
        ensures searched { IfOk result (λ refuted. WhereStood self.now (λ at. WhereAsked stack.old (λ asks.
            IsSearched R.Rank.own (of_both at at.formula self.now.label asks) refuted found.new))) }
    {
        if !self.part.is_both() {
            let refuted = refute_plain(stack, found)?;
            return Ok(refuted);
        }
        if refute_part(self.parts, 0, self.label, stack, found)? {
            return Ok(true);
        }
        let refuted = refute_part(self.parts, 1, self.label, stack, found)?;
        Ok(refuted)
    }

    /// The side of a disjunction is defined.
    fn refute_side(
        &self,
        side: usize,
        stack: &mut ConstraintStack,
        found: &mut Option<Finding>,
    ) -> Result<bool, AllocError>
        ensures same { OnOk result (IsSame stack.old stack.new) }
        ensures searched { IfOk result (λ refuted. WhereStood self.now (λ at. WhereAsked stack.old (λ asks.
            IsSearched R.Rank.own (of_side at at.formula side self.now.label asks) refuted found.new))) }
    {
        if !self.part.is_either() {
            let refuted = refute_plain(stack, found)?;
            return Ok(refuted);
        }
        let refuted = refute_part(self.parts, side, self.label, stack, found)?;
        Ok(refuted)
    }

    /// The goal of an until is met now, and at label 0 the operand of a next holds.
    fn refute_now(
        &self,
        stack: &mut ConstraintStack,
        found: &mut Option<Finding>,
    ) -> Result<bool, AllocError>
        ensures same { OnOk result (IsSame stack.old stack.new) }
        ensures searched { IfOk result (λ refuted. WhereStood self.now (λ at. WhereAsked stack.old (λ asks.
            IsSearched R.Rank.own (of_now at at.formula self.now.label asks) refuted found.new))) }
    {
        match self.part.met_now(self.label) {
            Some(number) => {
                let refuted = refute_part(self.parts, number, self.label, stack, found)?;
                Ok(refuted)
            }
            None => {
                let refuted = refute_plain(stack, found)?;
                Ok(refuted)
            }
        }
    }

    /// What an until is to keep holds before a step.
    fn refute_kept(
        &self,
        ahead: Option<&Tree<R>>,
        stack: &mut ConstraintStack,
        found: &mut Option<Finding>,
    ) -> Result<bool, AllocError>
        requires { IfSome ahead (λ part.
            LeadsTo stack.old.rows None (families_of self.now.parts.now 0 self.now.label) (plan_of part.now)) }
        ensures same { OnOk result (IsSame stack.old stack.new) }
        ensures searched { IfOk result (λ refuted. WhereStood self.now (λ at. WhereAsked stack.old (λ asks.
            IsSearched R.Rank.own (of_keep at at.formula self.now.label asks) refuted found.new))) }
    {
        if self.part.keeps() {
            let refuted = self.refute_first(ahead, stack, found)?;
            return Ok(refuted);
        }
        Ok(false)
    }

    /// Looks for a reason against the undefined leaves of the first operand's tree at the label, in the part of it to which the rows on the stack lead, where it is told.
    fn refute_first(
        &self,
        ahead: Option<&Tree<R>>,
        stack: &mut ConstraintStack,
        found: &mut Option<Finding>,
    ) -> Result<bool, AllocError>
        requires { IfSome ahead (λ part.
            LeadsTo stack.old.rows None (families_of self.now.parts.now 0 self.now.label) (plan_of part.now)) }
        ensures same { OnOk result (IsSame stack.old stack.new) }
        ensures searched { IfOk result (λ refuted. WhereAsked stack.old (λ asks.
            IsSearched R.Rank.own (undefined_at (families_of self.now.parts.now 0 self.now.label) asks) refuted found.new)) }
    {
        match ahead {
            Some(part) => {
                let refuted = here().refute_tree(part, stack, found)?;
                Ok(refuted)
            }
            None => {
                let refuted = refute_part(self.parts, 0, self.label, stack, found)?;
                Ok(refuted)
            }
        }
    }
}

/// Looks for a reason against the one system of a why that stands elsewhere.
pub(crate) fn refute_plain(
    stack: &mut ConstraintStack,
    found: &mut Option<Finding>,
) -> Result<bool, AllocError>
    ensures same { OnOk result (IsSame stack.old stack.new) }
    ensures tried { IfOk result (λ refuted. WhereAsked stack.old (λ asks. IsTried (all_asked asks) 2 refuted found.new)) }
{
    let refuted = stack.check(UNEDGED, found)?;
    Ok(refuted)
}

/// Looks for a reason against the system of the rows on the stack and one more.
pub(crate) fn refute_with(
    formed: Result<RowKind, Wide>,
    stack: &mut ConstraintStack,
    found: &mut Option<Finding>,
) -> Result<bool, AllocError>
    ensures same { OnOk result (IsSame stack.old stack.new) }
    ensures tried { IfOk result (λ refuted. WhereAsked stack.old (λ asks. (a : Formed) → Forms (asked a) formed
        → IsTried (all_asked (asks ++ a ∷ [])) 2 refuted found.new)) }
{
    let checkpoint = stack.checkpoint();
    if !stack.add(formed)? {
        return Ok(false);
    }
    let refuted = stack.check(UNEDGED, found)?;
    stack.restore(checkpoint);
    Ok(refuted)
}

/// The function's value is below 0.
fn complement(function: &Affine) -> Result<RowKind, Wide>
    ensures { Forms (asked (given (complement_of function.now))) result }
{
    let below = Affine::constant(-1).sub(function)?;
    Ok(Row::of(below))
}

/// Looks for a reason against the system that says that a leaf's rank is no natural.
fn refute_rank<R: Rank>(
    rank: &R,
    stack: &mut ConstraintStack,
    found: &mut Option<Finding>,
) -> Result<bool, AllocError>
    ensures same { OnOk result (IsSame stack.old stack.new) }
    ensures searched { IfOk result (λ refuted. WhereAsked stack.old (λ asks.
        IsSearched R.Rank.own (record { edge = unedged; asks = asks; claim = unnatural rank.now } ∷ []) refuted found.new)) }
{
    let refuted = try_claim(&Asked::Negative(rank), UNEDGED, stack, found)?;
    Ok(refuted)
}

/// Looks for a reason against the undefined leaves of an operand's tree at the label; past the last operand nothing is defined.
fn refute_part<R: Rank>(
    parts: &[Family<R>],
    number: usize,
    label: u32,
    stack: &mut ConstraintStack,
    found: &mut Option<Finding>,
) -> Result<bool, AllocError>
    ensures same { OnOk result (IsSame stack.old stack.new) }
    ensures searched { IfOk result (λ refuted. WhereAsked stack.old (λ asks.
        IsSearched R.Rank.own (undefined_at (families_of parts.now number label) asks) refuted found.new)) }
{
    match parts.get(number) {
        Some(family) => {
            let way = Way {
                edge: UNEDGED,
                sets: None,
                limit: None,
            };
            let refuted = refute_at(family.trees.items(), &way, label, stack, found)?;
            Ok(refuted)
        }
        None => {
            let refuted = refute_plain(stack, found)?;
            Ok(refuted)
        }
    }
}
