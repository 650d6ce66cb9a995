//! Trees of nexts.
ghost use Rattle.std.specs.Prelude.{◌≡◌, ◌<◌, ◌≤◌, IfOk, length};
ghost use Rattle.decision_tree.specs.Plans.{plan_of};
ghost use Rattle.backward_transfer.specs.AffineShapes.{plans, tree_at};
ghost use Rattle.control_flow.specs.Transitions.{AreOnward, LeadsWithin, first_target, second_target};
ghost use Rattle.part_trees.specs.Next.{AreNexts, AreReranked, IsNext, IsStep};

use backward_sweeps::{given_up, moved_back, taken_over, tree_at};
use control_flow::Transition;
use decision_tree::{AffineRank, Tree, Why};
use std::alloc::{AllocError, Global};

/// The trees of a next of the part that has these: what a step claims of them, and at the end what the part does. One that can't be made
/// claims nothing. The only error is want of memory.
pub(crate) fn nexts(
    alloc: Global,
    transitions: &[Transition],
    all: bool,
    part: &[Tree<AffineRank>],
) -> Result<Vec<Tree<AffineRank>>, AllocError>
    requires few { length transitions.now ≤ 1024 }
    requires onward { AreOnward transitions.now }
    ensures labels { IfOk result (λ trees. length trees.items ≡ length transitions.now) }
    ensures nexts { IfOk result (λ trees. AreNexts all transitions.now (plans part.now) (plans trees.items)) }
{
    let behind = reranked(alloc, part, transitions.len() as u32)?;
    let mut trees = Vec::with_capacity(alloc, transitions.len())?;
    for label in 0..transitions.len() as u32 {
        let transition = &transitions[label as usize];
        let tree = next(alloc, all, transition, label, part, &behind)?;
        trees.push(tree)?;
    }
    Ok(trees)
}

/// For each label below the number the tree with the rank 0.
fn reranked(
    alloc: Global,
    trees: &[Tree<AffineRank>],
    count: u32,
) -> Result<Vec<Tree<AffineRank>>, AllocError>
    ensures labels { IfOk result (λ made. length made.items ≡ count) }
    ensures reranked { IfOk result (λ made. AreReranked count (plans trees.now) (plans made.items)) }
{
    let none = Tree::Bottom;
    let mut made = Vec::with_capacity(alloc, count as usize)?;
    for label in 0..count {
        let claims = taken_over(alloc, tree_at(trees, label, &none), None)?;
        made.push(claims)?;
    }
    Ok(made)
}

/// The tree of the label, at which this is done, by the part's trees and by the same with the rank 0.
fn next(
    alloc: Global,
    all: bool,
    transition: &Transition,
    label: u32,
    part: &[Tree<AffineRank>],
    behind: &[Tree<AffineRank>],
) -> Result<Tree<AffineRank>, AllocError>
    requires leads { LeadsWithin (length behind.now) transition.now }
    requires reranked { AreReranked (length behind.now) (plans part.now) (plans behind.now) }
    ensures { IfOk result (λ tree. IsNext all (plans part.now) label transition.now (plan_of tree)) }
{
    let none = Tree::Bottom;
    match transition {
        Transition::End => taken_over(alloc, tree_at(part, label, &none), Some(Why::Now)),
        _ => step(alloc, all, transition, behind),
    }
}

/// What a step claims of the trees behind it.
fn step(
    alloc: Global,
    all: bool,
    transition: &Transition,
    behind: &[Tree<AffineRank>],
) -> Result<Tree<AffineRank>, AllocError>
    requires { LeadsWithin (length behind.now) transition.now }
    ensures { IfOk result (λ tree. IsStep all transition.now (tree_at (plans behind.now) (first_target transition.now))
        (tree_at (plans behind.now) (second_target transition.now)) (plan_of tree)) }
{
    match moved_back(alloc, all, transition, behind) {
        Ok(tree) => Ok(tree),
        Err(fault) => given_up(alloc, fault),
    }
}
