//! The trees before a weak until's sweeps.
ghost use Rattle.std.specs.Prelude.{◌≡◌, ◌≤◌, IfOk, length};
ghost use Rattle.decision_tree.specs.Plans.{plan_of};
ghost use Rattle.backward_transfer.specs.AffineShapes.{plans};
ghost use Rattle.backward_sweeps.specs.Remaking.{AreEndsStarted, IsStarted, IsStartOrTop, parts_of};

use crate::claiming::taken_over;
use crate::moving::at_once;
use crate::operands::Operands;
use crate::remaking::{given_up, tree_at};
use control_flow::Transition;
use decision_tree::{AffineRank, Pick, Tree, Why};
use std::alloc::{AllocError, Global};
use tree_unify::either;

/// The trees before a weak until's sweeps: what the goal claims, or else that what is to be kept is kept behind each step. One that can't be
/// made claims nothing. The only error is want of memory.
pub(crate) fn started(
    alloc: Global,
    transitions: &[Transition],
    operands: &Operands<'_>,
) -> Result<Vec<Tree<AffineRank>>, AllocError>
    requires few { length transitions.now ≤ 1024 }
    ensures labels { IfOk result (λ trees. length trees.items ≡ length transitions.now) }
    ensures ends { IfOk result (λ trees. AreEndsStarted (parts_of operands.now) transitions.now (plans trees.items)) }
{
    let mut trees = Vec::with_capacity(alloc, transitions.len())?;
    for label in 0..transitions.len() as u32 {
        let tree = start(alloc, &transitions[label as usize], operands, label)?;
        trees.push(tree)?;
    }
    Ok(trees)
}

/// The tree of the label, at which this is done.
fn start(
    alloc: Global,
    transition: &Transition,
    operands: &Operands<'_>,
    label: u32,
) -> Result<Tree<AffineRank>, AllocError>
    ensures { IfOk result (λ tree. IsStarted (parts_of operands.now) label transition.now (plan_of tree)) }
{
    match transition {
        Transition::Dead => at_once(alloc, Why::Dead),
        _ => now_or_kept(alloc, operands, label),
    }
}

/// What the goal claims at the label, or else what is to be kept there, for every next state.
fn now_or_kept(
    alloc: Global,
    operands: &Operands<'_>,
    label: u32,
) -> Result<Tree<AffineRank>, AllocError>
    ensures { IfOk result (λ tree. IsStartOrTop (parts_of operands.now) label (plan_of tree)) }
{
    let none = Tree::Bottom;
    let why = Some(Why::Step(Pick::All));
    let keep = taken_over(alloc, tree_at(operands.keep, label, &none), why)?;
    match either(alloc, tree_at(operands.goal, label, &none), &keep) {
        Ok(tree) => Ok(tree),
        Err(fault) => given_up(alloc, fault),
    }
}
