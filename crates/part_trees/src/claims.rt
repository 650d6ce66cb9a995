//! What an until is made of, from the families of its parts.
ghost use Rattle.std.specs.Prelude.{◌≡◌, IfOk, map};
ghost use Rattle.decision_tree.specs.declared.reason.Why.TheVariants.{Now};
ghost use Rattle.backward_transfer.specs.AffineShapes.{plans};
ghost use Rattle.backward_sweeps.specs.Claiming.{claimed, reranked, taken_over};
ghost use Rattle.backward_sweeps.specs.Remaking.{parts_of};

use backward_sweeps::{Operands, taken_over};
use decision_tree::{AffineRank, Family, Tree, Why};
use std::alloc::{AllocError, Global};

/// What an until or a weak until takes from the families of its parts: their claims with the rank 0.
#[derive(Drop)]
pub struct Claims {
    /// The goal's claims, each for the reason that the goal holds now.
    pub goal: Vec<Tree<AffineRank>>,
    /// The claims of what is to be kept, for their own reasons.
    pub keep: Vec<Tree<AffineRank>>,
}

impl Claims {
    /// The claims of the families. The only error is want of memory.
    pub fn of(
        alloc: Global,
        keep: &Family<AffineRank>,
        goal: &Family<AffineRank>,
    ) -> Result<Claims, AllocError>
        ensures goal { IfOk result (λ claims. plans claims.goal.items ≡ map (claimed Now) goal.now.trees) }
        ensures keep { IfOk result (λ claims. plans claims.keep.items ≡ map reranked keep.now.trees) }
    {
        Claims::of_trees(alloc, keep.trees.items(), goal.trees.items())
    }

    /// The claims of the trees of what is to be kept and of the goal. The only error is want of memory.
    pub fn of_trees(
        alloc: Global,
        keep: &[Tree<AffineRank>],
        goal: &[Tree<AffineRank>],
    ) -> Result<Claims, AllocError>
        ensures goal { IfOk result (λ claims. plans claims.goal.items ≡ map (claimed Now) (plans goal.now)) }
        ensures keep { IfOk result (λ claims. plans claims.keep.items ≡ map reranked (plans keep.now)) }
    {
        let goal = each_taken_over(alloc, goal, Some(Why::Now))?;
        let keep = each_taken_over(alloc, keep, None)?;
        Ok(Claims { goal, keep })
    }

    /// The operands that are made of them, for an until of all next states, or of some.
    pub fn operands(&self, all: bool) -> Operands<'_>
        ensures all { result.all ≡ all }
        ensures goal { (parts_of result).goals ≡ plans self.now.goal.items }
        ensures keep { (parts_of result).keeps ≡ plans self.now.keep.items }
    {
        Operands {
            all,
            goal: &self.goal,
            keep: &self.keep,
        }
    }
}

/// Each of the trees with the rank 0, for the reason that is given or else for their own.
pub(crate) fn each_taken_over(
    alloc: Global,
    trees: &[Tree<AffineRank>],
    why: Option<Why>,
) -> Result<Vec<Tree<AffineRank>>, AllocError>
    ensures { IfOk result (λ made. plans made.items ≡ map (taken_over why) (plans trees.now)) }
{
    let mut made = Vec::with_capacity(alloc, trees.len())?;
    for tree in trees {
        let claims = taken_over(alloc, tree, why)?;
        made.push(claims)?;
    }
    Ok(made)
}
