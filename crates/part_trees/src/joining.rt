//! Trees of conjunctions and disjunctions.
ghost use Rattle.std.specs.Prelude.{IfOk};
ghost use Rattle.decision_tree.specs.Plans.{plan_of};
ghost use Rattle.part_trees.specs.Local.{IsConjunction, IsDisjunction};

use backward_sweeps::{given_up, taken_over};
use decision_tree::{AffineRank, Tree, Why};
use std::alloc::{AllocError, Global};
use tree_unify::{both, either};

/// What both trees claim; nothing where the tree can't be made. The only error is want of memory.
pub(crate) fn conjunction(
    alloc: Global,
    first: &Tree<AffineRank>,
    second: &Tree<AffineRank>,
) -> Result<Tree<AffineRank>, AllocError>
    ensures { IfOk result (λ tree. IsConjunction (plan_of first.now) (plan_of second.now) (plan_of tree)) }
{
    let first = taken_over(alloc, first, None)?;
    let second = taken_over(alloc, second, None)?;
    match both(alloc, &first, &second) {
        Ok(tree) => taken_over(alloc, &tree, Some(Why::Both)),
        Err(fault) => given_up(alloc, fault),
    }
}

/// What the first tree claims, or else the second; nothing where the tree can't be made. The only error is want of memory.
pub(crate) fn disjunction(
    alloc: Global,
    first: &Tree<AffineRank>,
    second: &Tree<AffineRank>,
) -> Result<Tree<AffineRank>, AllocError>
    ensures { IfOk result (λ tree. IsDisjunction (plan_of first.now) (plan_of second.now) (plan_of tree)) }
{
    let left = taken_over(alloc, first, Some(Why::Left))?;
    let right = taken_over(alloc, second, Some(Why::Right))?;
    match either(alloc, &left, &right) {
        Ok(tree) => Ok(tree),
        Err(fault) => given_up(alloc, fault),
    }
}
