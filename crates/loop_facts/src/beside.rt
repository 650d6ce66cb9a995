//! Families that hints propose beside one that was checked.
ghost use Rattle.std.specs.Prelude.{◌≡◌, ◌⊎◌, ℕ, ◌<◌, ◌≤◌, true, false, IfOk, IfSome, length};
ghost use Rattle.backward_transfer.specs.AffineShapes.{plans, tree_at};
ghost use Rattle.control_flow.specs.Transitions.{AreOnward, transition_in, is_given};
ghost use Rattle.backward_sweeps.specs.Remaking.{IsMade, given_for, goal_at, parts_of};

use crate::proposing::{at_test, put};
use advice::Hint;
use backward_sweeps::{Operands, begun, copied, is_given, remade};
use control_flow::{Graph, Transition};
use decision_tree::{AffineRank, Tree, TreeList};
use std::alloc::{AllocError, Global};
use tree_unify::TreeFault;

/// The trees that a hint proposes in place of those of a family that was checked, one for each label: at the tests of loops as `proposal` has them; what follows from
/// these at each label that leads to the hint's loop, or to one of the marked, without another loop's test, and at the marked; and at each other label the tree at hand.
/// Nothing where the hint is not on a loop without a loop in its body, speaks of a place past the variables, or leads to a number past 128 bits or to a tree of too
/// many nodes. The only error is want of memory.
pub fn proposal_beside(
    alloc: Global,
    graph: &Graph,
    transitions: &[Transition],
    operands: &Operands<'_>,
    trees: &[Tree<AffineRank>],
    marked: &[bool],
    variables: u32,
    hint: &Hint,
) -> Result<Option<TreeList<AffineRank>>, AllocError>
    requires few { length transitions.now ≤ 1024 }
    requires onward { AreOnward transitions.now }
    ensures labels { IfOk result (λ found. IfSome found (λ made. length made ≡ length transitions.now)) }
    ensures given { IfOk result (λ found. IfSome found (λ made. (label : ℕ) → (label ≡ hint.now.label → ⊥) → label < length transitions.now
        → is_given (transition_in transitions.now label) ≡ true
        → tree_at made label ≡ given_for (goal_at (parts_of operands.now) label) (transition_in transitions.now label) (tree_at (plans trees.now) label))) }
    ensures others { IfOk result (λ found. IfSome found (λ made. (label : ℕ) → label < length transitions.now
        → is_given (transition_in transitions.now label) ≡ false
        → (tree_at made label ≡ tree_at (plans trees.now) label)
        ⊎ IsMade (parts_of operands.now) label (transition_in transitions.now label) made (tree_at made label))) }
{
    let Some(head) = at_test(alloc, graph, trees, variables, hint)? else {
        return Ok(None);
    };
    let due = due(alloc, transitions, marked, hint.label)?;
    match followed(alloc, transitions, operands, trees, &due, hint.label, head) {
        Ok(made) => Ok(Some(made)),
        Err(TreeFault::Memory(error)) => Err(error),
        Err(TreeFault::Full { .. } | TreeFault::Wide(_)) => Ok(None),
    }
}

/// The trees at hand with the one proposed at the label, if that is the test of a loop, and what follows from it at the labels that are due.
fn followed(
    alloc: Global,
    transitions: &[Transition],
    operands: &Operands<'_>,
    trees: &[Tree<AffineRank>],
    due: &[bool],
    label: u32,
    head: Tree<AffineRank>,
) -> Result<TreeList<AffineRank>, TreeFault>
    requires few { length transitions.now ≤ 1024 }
    requires onward { AreOnward transitions.now }
    ensures labels { IfOk result (λ made. length made ≡ length transitions.now) }
    ensures given { IfOk result (λ made. (other : ℕ) → (other ≡ label → ⊥) → other < length transitions.now
        → is_given (transition_in transitions.now other) ≡ true
        → tree_at made other ≡ given_for (goal_at (parts_of operands.now) other) (transition_in transitions.now other) (tree_at (plans trees.now) other)) }
    ensures others { IfOk result (λ made. (other : ℕ) → other < length transitions.now → is_given (transition_in transitions.now other) ≡ false
        → (tree_at made other ≡ tree_at (plans trees.now) other)
        ⊎ IsMade (parts_of operands.now) other (transition_in transitions.now other) made (tree_at made other)) }
{
    let mut made = begun(alloc, transitions, operands, trees)?;
    put(transitions, &mut made, label, head);
    for at in (0..transitions.len() as u32).rev() {
        let place = at as usize;
        let transition = &transitions[place];
        if !is_given(transition) {
            made[place] = if due.get(place) == Some(&true) {
                remade(alloc, operands, at, transition, &made)?
            } else {
                copied(alloc, trees, place)?
            };
        }
    }
    Ok(TreeList::of(made))
}

/// The labels that are marked, and those whose trees aren't given that lead to one of these or to the label.
fn due(
    alloc: Global,
    transitions: &[Transition],
    marked: &[bool],
    label: u32,
) -> Result<Vec<bool>, AllocError> {
    let mut due = vec![in alloc; false; transitions.len()]?;
    for at in (0..transitions.len()).rev() {
        if !is_given(&transitions[at]) {
            due[at] = marked.get(at) == Some(&true) || leads(&transitions[at], &due, label);
        }
    }
    Ok(due)
}

/// Whether what is done leads to the label or to one that is due.
fn leads(transition: &Transition, due: &[bool], label: u32) -> bool {
    let is_due = |to: u32| to == label || due.get(to as usize) == Some(&true);
    match transition {
        Transition::End | Transition::Dead => false,
        Transition::Pass { to } | Transition::Assign { to, .. } | Transition::Choose { to, .. } =>
            is_due(*to),
        Transition::Test { yes, no, .. } => is_due(*yes) || is_due(*no),
    }
}
