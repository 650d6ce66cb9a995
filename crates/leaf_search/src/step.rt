//! A step of a leaf, by its pick.
ghost use Rattle.std.specs.Prelude.{◌≡◌, List, pos, IfOk, IfSome, OnOk, map};
ghost use Rattle.linear_cons.specs.Functions.{constant_of};
ghost use Rattle.decision_tree.specs.Plans.{plan_of};
ghost use Rattle.tree_support.specs.Arcs.{Arc};
ghost use Rattle.constraint_stack.specs.Forming.{Formed, given, minus};
ghost use Rattle.tree_support.specs.Setting.{trees_in};
ghost use Rattle.tree_support.specs.Systems.{of_arcs, of_outcome, of_pick, of_value};
ghost use Rattle.constraint_stack.specs.Stacks.{Forms, asked};
ghost use Rattle.constraint_stack.specs.Searches.{IsSame, IsSearched, WhereAsked};
ghost use Rattle.leaf_search.specs.Ahead.{IsAhead, aims};
ghost use Rattle.leaf_search.specs.Operands.{families_of};
ghost use Rattle.leaf_search.specs.Leaves.{IsPastTried, WhereStood, above_ends, below_ends, over_targets, where_some};

use crate::ahead::Ahead;
use crate::follow::{refute_arcs, refute_outcome, refute_value, untold};
use crate::leaf::{Stand, refute_plain, refute_with};
use crate::part::Part;
use constraint_stack::{ConstraintStack, Finding};
use control_flow::Choice;
use decision_tree::{Pick, Rank, Tree};
use linear_cons::{Affine, Row, RowKind, Wide};
use std::alloc::AllocError;

/// The trees to which a step leads, one for each label, and the rank that those of their leaves are to be less than, where there is one.
#[derive(Clone, Copy)]
pub(crate) struct Targets<'a, R: Rank> {
    pub(crate) trees: &'a [Tree<R>],
    pub(crate) limit: Option<R>,
}

impl<'a, R: Rank> Stand<'a, R> {
    /// Where a step leads: a next to the trees of its operand, an until to the family itself, with a rank that is less, and a weak until to
    /// the family itself. A step stands for nothing else.
    fn targets(&self, rank: &R) -> Option<Targets<'a, R>>
        ensures over { WhereStood self.now (λ at. (arcs : List Arc) (asks : List Formed)
            → of_arcs at at.formula (trees_in (map plan_of self.now.family.now)) rank.now arcs asks ≡ over_targets result arcs asks) }
        ensures aims { IfSome result (λ to. trees_in (map plan_of to.trees.now) ≡ aims self.now) }
    {
        match self.part {
            Part::Next { all: _ } => Some(Targets {
                trees: self.operand(),
                limit: None,
            }),
            Part::Until { all: _, ends: _ } => Some(Targets {
                trees: self.family,
                limit: Some(*rank),
            }),
            Part::Weak { all: _ } => Some(Targets {
                trees: self.family,
                limit: None,
            }),
            _ => None,
        }
    }

    /// The trees of a next's operand; past the last operand there are none.
    pub(crate) fn operand(&self) -> &'a [Tree<R>]
        ensures { trees_in (map plan_of result.now) ≡ families_of self.now.parts.now 0 }
    {
        match self.parts.first() {
            Some(family) => family.trees.items(),
            None => &[],
        }
    }

    /// Looks for a reason against the systems of a step by its pick.
    pub(crate) fn refute_pick(
        &self,
        pick: &Pick,
        rank: &R,
        ahead: &Ahead<'a, R>,
        stack: &mut ConstraintStack,
        found: &mut Option<Finding>,
    ) -> Result<bool, AllocError>
        requires { IsAhead self.now stack.old.rows ahead.now }
        ensures same { OnOk result (IsSame stack.old stack.new) }
        ensures searched { IfOk result (λ refuted. WhereStood self.now (λ at. WhereAsked stack.old (λ asks.
            IsSearched R.Rank.own (of_pick at pick.now (trees_in (map plan_of self.now.family.now)) rank.now self.now.label asks)
            refuted found.new))) }
    {
        match pick {
            Pick::All => {
                let refuted = self.refute_arcs(rank, ahead, stack, found)?;
                Ok(refuted)
            }
            Pick::Yes => {
                let refuted = self.refute_outcome(true, rank, stack, found)?;
                Ok(refuted)
            }
            Pick::No => {
                let refuted = self.refute_outcome(false, rank, stack, found)?;
                Ok(refuted)
            }
            Pick::Value(value) => {
                let refuted = self.refute_value(value, rank, stack, found)?;
                Ok(refuted)
            }
        }
    }

    /// The arcs of all edges.
    fn refute_arcs(
        &self,
        rank: &R,
        ahead: &Ahead<'a, R>,
        stack: &mut ConstraintStack,
        found: &mut Option<Finding>,
    ) -> Result<bool, AllocError>
        requires { IsAhead self.now stack.old.rows ahead.now }
        ensures same { OnOk result (IsSame stack.old stack.new) }
        ensures searched { IfOk result (λ refuted. WhereStood self.now (λ at. WhereAsked stack.old (λ asks.
            IsSearched R.Rank.own (of_arcs at at.formula (trees_in (map plan_of self.now.family.now)) rank.now (at.flow.arcs self.now.label) asks)
            refuted found.new))) }
    {
        match self.targets(rank) {
            Some(to) => {
                let refuted = refute_arcs(
                    self.transition,
                    to.trees,
                    to.limit,
                    ahead,
                    stack,
                    found,
                )?;
                Ok(refuted)
            }
            None => {
                let refuted = refute_plain(stack, found)?;
                Ok(refuted)
            }
        }
    }

    /// Those of one outcome, where some successor is spoken of and a test may have both.
    fn refute_outcome(
        &self,
        outcome: bool,
        rank: &R,
        stack: &mut ConstraintStack,
        found: &mut Option<Finding>,
    ) -> Result<bool, AllocError>
        ensures same { OnOk result (IsSame stack.old stack.new) }
        ensures searched { IfOk result (λ refuted. WhereStood self.now (λ at. WhereAsked stack.old (λ asks.
            IsSearched R.Rank.own (where_some at
            (of_outcome at (at.flow.choice self.now.label) outcome (trees_in (map plan_of self.now.family.now)) rank.now self.now.label asks) asks)
            refuted found.new))) }
    {
        if !self.part.is_existential() {
            let refuted = refute_plain(stack, found)?;
            return Ok(refuted);
        }
        match self.choice {
            Choice::Branch => {
                let refuted = self.refute_branch(outcome, rank, stack, found)?;
                Ok(refuted)
            }
            _ => {
                let refuted = refute_plain(stack, found)?;
                Ok(refuted)
            }
        }
    }

    /// The arcs of one outcome.
    fn refute_branch(
        &self,
        outcome: bool,
        rank: &R,
        stack: &mut ConstraintStack,
        found: &mut Option<Finding>,
    ) -> Result<bool, AllocError>
        ensures same { OnOk result (IsSame stack.old stack.new) }
        ensures searched { IfOk result (λ refuted. WhereStood self.now (λ at. WhereAsked stack.old (λ asks.
            IsSearched R.Rank.own (of_arcs at at.formula (trees_in (map plan_of self.now.family.now)) rank.now
            (at.flow.arcs_of self.now.label outcome) asks) refuted found.new))) }
    {
        match self.targets(rank) {
            Some(to) => {
                let refuted = refute_outcome(
                    self.transition,
                    outcome,
                    to.trees,
                    to.limit,
                    untold(to.trees),
                    stack,
                    found,
                )?;
                Ok(refuted)
            }
            None => {
                let refuted = refute_plain(stack, found)?;
                Ok(refuted)
            }
        }
    }

    /// Those of a value, where some successor is spoken of and the value may be chosen.
    fn refute_value(
        &self,
        value: &Affine,
        rank: &R,
        stack: &mut ConstraintStack,
        found: &mut Option<Finding>,
    ) -> Result<bool, AllocError>
        ensures same { OnOk result (IsSame stack.old stack.new) }
        ensures searched { IfOk result (λ refuted. WhereStood self.now (λ at. WhereAsked stack.old (λ asks.
            IsSearched R.Rank.own (where_some at
            (of_value at (at.flow.choice self.now.label) value.now (trees_in (map plan_of self.now.family.now)) rank.now self.now.label asks) asks)
            refuted found.new))) }
    {
        if !self.part.is_existential() {
            let refuted = refute_plain(stack, found)?;
            return Ok(refuted);
        }
        match self.choice {
            Choice::Range { lo, hi } => {
                if refute_below(lo, value, stack, found)? {
                    return Ok(true);
                }
                if refute_above(hi, value, stack, found)? {
                    return Ok(true);
                }
                let refuted = self.refute_put(value, rank, stack, found)?;
                Ok(refuted)
            }
            _ => {
                let refuted = refute_plain(stack, found)?;
                Ok(refuted)
            }
        }
    }

    /// The arc of an assignment that puts the value.
    fn refute_put(
        &self,
        value: &Affine,
        rank: &R,
        stack: &mut ConstraintStack,
        found: &mut Option<Finding>,
    ) -> Result<bool, AllocError>
        ensures same { OnOk result (IsSame stack.old stack.new) }
        ensures searched { IfOk result (λ refuted. WhereStood self.now (λ at. WhereAsked stack.old (λ asks.
            IsSearched R.Rank.own (of_arcs at at.formula (trees_in (map plan_of self.now.family.now)) rank.now
            (at.flow.arcs_with self.now.label value.now) asks) refuted found.new))) }
    {
        match self.targets(rank) {
            Some(to) => {
                let refuted = refute_value(
                    self.transition,
                    value,
                    to.trees,
                    to.limit,
                    stack,
                    found,
                )?;
                Ok(refuted)
            }
            None => {
                let refuted = refute_plain(stack, found)?;
                Ok(refuted)
            }
        }
    }
}

/// Looks for a reason against the system that says that the value is below the lower end, where there is one.
fn refute_below(
    lo: Option<i64>,
    value: &Affine,
    stack: &mut ConstraintStack,
    found: &mut Option<Finding>,
) -> Result<bool, AllocError>
    ensures same { OnOk result (IsSame stack.old stack.new) }
    ensures tried { IfOk result (λ refuted. WhereAsked stack.old (λ asks.
        IsPastTried (below_ends lo value.now) asks refuted found.new)) }
{
    let Some(lo) = lo else {
        return Ok(false);
    };
    let below = past(&Affine::constant(i128::from(lo)), value);
    let refuted = refute_with(below, stack, found)?;
    Ok(refuted)
}

/// Looks for a reason against the system that says that the value is above the upper end, where there is one.
fn refute_above(
    hi: Option<i64>,
    value: &Affine,
    stack: &mut ConstraintStack,
    found: &mut Option<Finding>,
) -> Result<bool, AllocError>
    ensures same { OnOk result (IsSame stack.old stack.new) }
    ensures tried { IfOk result (λ refuted. WhereAsked stack.old (λ asks.
        IsPastTried (above_ends hi value.now) asks refuted found.new)) }
{
    let Some(hi) = hi else {
        return Ok(false);
    };
    let above = past(value, &Affine::constant(i128::from(hi)));
    let refuted = refute_with(above, stack, found)?;
    Ok(refuted)
}

/// The first function is above the second.
fn past(greater: &Affine, less: &Affine) -> Result<RowKind, Wide>
    ensures { Forms (asked (minus (minus (given greater.now) (given less.now)) (given (constant_of (pos 1))))) result }
{
    let distance = greater.sub(less)?;
    let above = distance.sub(&Affine::constant(1))?;
    Ok(Row::of(above))
}
