//! The trees that lie behind a label's edges. Along a walk over the leaves of the label's tree they are followed as far as the rows on the stack lead, so that leaves
//! behind the same rows share the way.
ghost use Rattle.std.specs.Prelude.{◌≡◌, ◌<◌, List, None, true, false, IfSome, map};
ghost use Rattle.linear_cons.specs.declared.row.Row.{Row};
ghost use Rattle.decision_tree.specs.Plans.{Plan, plan_of};
ghost use Rattle.tree_support.specs.Setting.{trees_in};
ghost use Rattle.leaf_search.specs.Ahead.{IsAhead, aims, put_by, target_of};
ghost use Rattle.leaf_search.specs.Operands.{families_of};
ghost use Rattle.leaf_search.specs.Walks.{LeadsTo};

use crate::leaf::{Stand, UNEDGED};
use crate::part::Part;
use crate::walk::Way;
use constraint_stack::ConstraintStack;
use control_flow::Transition;
use decision_tree::{Rank, Tree};

/// The trees behind the steps of a label's leaves, each as far as the rows on the stack lead into it: that of what is kept, and those to which the label's edges lead,
/// the second that of a test that fails. Where none is told the whole tree is looked at.
#[derive(Clone, Copy)]
pub struct Ahead<'a, R: Rank> {
    pub(crate) kept: Option<&'a Tree<R>>,
    pub(crate) first: Option<&'a Tree<R>>,
    pub(crate) second: Option<&'a Tree<R>>,
}

impl<'a, R: Rank> Ahead<'a, R> {
    /// Whether one of the trees has rows that may lead further into it.
    fn leads_on(&self) -> bool {
        has_rows(self.kept) || has_rows(self.first) || has_rows(self.second)
    }
}

impl<'a, R: Rank> Stand<'a, R> {
    /// The whole trees, into which any rows lead.
    pub fn ahead(&self) -> Ahead<'a, R>
        ensures { (rows : List Row) → IsAhead self.now rows result }
    {
        Ahead {
            kept: self.kept(),
            first: self.target(true),
            second: self.target(false),
        }
    }

    /// The tree of what is kept at the label, where a step is to keep something.
    fn kept(&self) -> Option<&'a Tree<R>>
        ensures { IfSome result (λ tree. plan_of tree.now ≡ families_of self.now.parts.now 0 self.now.label) }
    {
        if !self.part.keeps() {
            return None;
        }
        let family = self.parts.first()?;
        family.trees.items().get(self.label as usize)
    }

    /// The tree to which an edge leads, of a test that of the outcome.
    fn target(&self, outcome: bool) -> Option<&'a Tree<R>>
        ensures { IfSome result (λ tree. plan_of tree.now ≡ aims self.now (target_of self.now.transition.now outcome)) }
    {
        let label = match self.transition {
            Transition::End => 0,
            Transition::Pass { to } => *to,
            Transition::Assign { to, .. } => *to,
            Transition::Test { yes, no, .. } => if outcome { *yes } else { *no },
            Transition::Dead | Transition::Choose { .. } => return None,
        };
        self.aimed().get(label as usize)
    }

    /// The trees to which a step leads.
    fn aimed(&self) -> &'a [Tree<R>]
        ensures { trees_in (map plan_of result.now) ≡ aims self.now }
    {
        match self.part {
            Part::Next { all: _ } => self.operand(),
            _ => self.family,
        }
    }

    /// The trees, followed as far as the rows on the stack lead now.
    #[inline(never)]
    pub fn led(&self, ahead: &Ahead<'a, R>, stack: &ConstraintStack) -> Ahead<'a, R>
        requires { IsAhead self.now stack.now.rows ahead.now }
        ensures { IsAhead self.now stack.now.rows result }
    {
        if !ahead.leads_on() {
            return *ahead;
        }
        let here = here();
        let step = self.step();
        Ahead {
            kept: led_on(&here, ahead.kept, stack),
            first: led_on(&step, ahead.first, stack),
            second: led_on(&step, ahead.second, stack),
        }
    }

    /// How the trees to which the edges lead are looked at.
    fn step(&self) -> Way<R>
        ensures sets { result.sets ≡ put_by self.now.transition.now }
        ensures place { IfSome result.sets (λ s. s.0 < 16) }
    {
        let sets = match self.transition {
            Transition::Assign { place, value, .. } => Some((place.number, *value)),
            Transition::End
            | Transition::Dead
            | Transition::Pass { .. }
            | Transition::Choose { .. }
            | Transition::Test { .. } => None,
        };
        Way {
            edge: 0,
            sets,
            limit: None,
        }
    }
}

/// Whether the tree that is told, if one is, has rows.
fn has_rows<R: Rank>(tree: Option<&Tree<R>>) -> bool {
    matches!(tree, Some(Tree::Node { .. }))
}

/// How a tree at the same label is looked at.
pub(crate) fn here<R: Rank>() -> Way<R>
    ensures edge { result.edge ≡ 2 }
    ensures sets { result.sets ≡ None }
    ensures limit { result.limit ≡ None }
{
    Way {
        edge: UNEDGED,
        sets: None,
        limit: None,
    }
}

/// The part of a tree to which the rows on the stack lead, where one is told.
fn led_on<'a, R: Rank>(
    way: &Way<R>,
    tree: Option<&'a Tree<R>>,
    stack: &ConstraintStack,
) -> Option<&'a Tree<R>>
    requires { IfSome way.now.sets (λ s. s.0 < 16) }
    ensures { (plan : Plan R) → IfSome tree.entry (λ part. LeadsTo stack.now.rows way.now.sets plan (plan_of part.now))
        → IfSome result (λ part. LeadsTo stack.now.rows way.now.sets plan (plan_of part.now)) }
{
    match tree {
        Some(tree) => Some(way.led(tree, stack)),
        None => None,
    }
}
