//! One pass over the labels.
ghost use Rattle.std.specs.Prelude.{◌≡◌, ◌&&◌, suc, ◌<◌, ◌≤◌, Bool, false, true, IfOk, OnOk, length};
ghost use Rattle.decision_tree.specs.Plans.{plan_of};
ghost use Rattle.backward_transfer.specs.AffineShapes.{plans, tree_at};
ghost use Rattle.control_flow.specs.Transitions.{AreOnward, HasNoHead, transition_in, is_given, is_head, is_idle};
ghost use Rattle.backward_sweeps.specs.Remaking.{AreGiven, AreKept, AreRemadeFrom, given_for, goal_at, parts_of};

use crate::moving::at_once;
use crate::operands::Operands;
use crate::remaking::{given_up, remade};
use control_flow::Transition;
use decision_tree::{AffineRank, Tree, Why};
use std::alloc::{AllocError, Global};

/// The trees before a pass: at the test of a loop the one at hand, what the goal claims where nothing is done, and elsewhere no claim. The
/// only error is want of memory.
pub fn begun(
    alloc: Global,
    transitions: &[Transition],
    operands: &Operands<'_>,
    heads: &[Tree<AffineRank>],
) -> Result<Vec<Tree<AffineRank>>, AllocError>
    ensures labels { IfOk result (λ trees. length trees.items ≡ length transitions.now) }
    ensures given { IfOk result (λ trees. AreGiven (parts_of operands.now) transitions.now (plans heads.now) (plans trees.items)) }
{
    let mut trees = Vec::with_capacity(alloc, transitions.len())?;
    for label in 0..transitions.len() {
        let tree = given(alloc, &transitions[label], operands, heads, label)?;
        trees.push(tree)?;
    }
    Ok(trees)
}

/// The tree that is given at the label, at which this is done; no claim where none is.
fn given(
    alloc: Global,
    transition: &Transition,
    operands: &Operands<'_>,
    heads: &[Tree<AffineRank>],
    label: usize,
) -> Result<Tree<AffineRank>, AllocError>
    ensures { is_given transition.now ≡ true
        → IfOk result (λ tree. plan_of tree ≡ given_for (goal_at (parts_of operands.now) label) transition.now (tree_at (plans heads.now) label)) }
{
    match transition {
        Transition::End => copied(alloc, operands.goal, label),
        Transition::Dead => at_once(alloc, Why::Dead),
        Transition::Test { is_head: true, .. } => copied(alloc, heads, label),
        _ => Ok(Tree::Bottom),
    }
}

/// A copy of the tree at the label, or no claim where there is none. The only error is want of memory.
pub fn copied(
    alloc: Global,
    trees: &[Tree<AffineRank>],
    label: usize,
) -> Result<Tree<AffineRank>, AllocError>
    ensures { IfOk result (λ copy. plan_of copy ≡ tree_at (plans trees.now) label) }
{
    match trees.get(label) {
        Some(tree) => tree.copy(alloc),
        None => Ok(Tree::Bottom),
    }
}

/// Makes the tree of each label anew but those that are given, the greatest label first, so that each is made of the trees as they stand
/// afterwards. True where each could be made; one that can't be, for another reason than want of memory, claims nothing.
pub fn follow(
    alloc: Global,
    transitions: &[Transition],
    operands: &Operands<'_>,
    trees: &mut [Tree<AffineRank>],
) -> Result<bool, AllocError>
    requires few { length transitions.now ≤ 1024 }
    requires onward { AreOnward transitions.now }
    requires labels { length trees.old ≡ length transitions.now }
    ensures labels { length trees.new ≡ length trees.old }
    ensures given { OnOk result (AreKept is_given transitions.now (plans trees.old) (plans trees.new)) }
    ensures remade { IfOk result (λ all. AreRemadeFrom 0 all (parts_of operands.now) transitions.now (plans trees.new)) }
{
    let mut all = true;
    for label in (0..transitions.len() as u32).rev() {
        if !is_given(&transitions[label as usize]) {
            all = remake(alloc, transitions, operands, label, trees)? && all;
        }
    }
    Ok(all)
}

/// Makes the tree of the label anew; true where it could be made.
fn remake(
    alloc: Global,
    transitions: &[Transition],
    operands: &Operands<'_>,
    label: u32,
    trees: &mut [Tree<AffineRank>],
) -> Result<bool, AllocError>
    requires label { label < length transitions.now }
    requires open { is_given (transition_in transitions.now label) ≡ false }
    requires onward { AreOnward transitions.now }
    requires labels { length trees.old ≡ length transitions.now }
    ensures labels { length trees.new ≡ length trees.old }
    ensures given { OnOk result (AreKept is_given transitions.now (plans trees.old) (plans trees.new)) }
    ensures remade { (all : Bool) → AreRemadeFrom (suc label) all (parts_of operands.now) transitions.now (plans trees.old)
        → IfOk result (λ made. AreRemadeFrom label (made && all) (parts_of operands.now) transitions.now (plans trees.new)) }
{
    let place = label as usize;
    match remade(alloc, operands, label, &transitions[place], trees) {
        Ok(tree) => {
            trees[place] = tree;
            Ok(true)
        }
        Err(fault) => {
            trees[place] = given_up(alloc, fault)?;
            Ok(false)
        }
    }
}

/// Whether the tree of the label isn't made of those of its successors: nothing is done there, or it is the test of a loop.
pub fn is_given(transition: &Transition) -> bool
    ensures { result ≡ is_given transition.now }
{
    match transition {
        Transition::Test { is_head, .. } => *is_head,
        _ => is_idle(transition),
    }
}

/// Whether nothing is done at the label.
pub(crate) fn is_idle(transition: &Transition) -> bool
    ensures { result ≡ is_idle transition.now }
{
    match transition {
        Transition::End | Transition::Dead => true,
        Transition::Pass { .. }
        | Transition::Assign { .. }
        | Transition::Choose { .. }
        | Transition::Test { .. } => false,
    }
}

/// Whether some label is that of a loop's test.
pub fn has_head(transitions: &[Transition]) -> bool
    ensures { HasNoHead transitions.now → result ≡ false }
{
    transitions.iter().any(is_head)
}

/// Whether the label is that of a loop's test.
pub(crate) fn is_head(transition: &Transition) -> bool
    ensures { result ≡ is_head transition.now }
{
    match transition {
        Transition::Test { is_head, .. } => *is_head,
        _ => false,
    }
}
