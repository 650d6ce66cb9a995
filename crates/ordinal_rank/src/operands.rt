//! The families of the operands of `AF exit`.
ghost use Rattle.std.specs.Prelude.{◌≡◌, ℕ, suc, IfOk};
ghost use Rattle.decision_tree.specs.Plans.{bottom};
ghost use Rattle.leaf_search.specs.Operands.{families_of};
ghost use Rattle.tree_support.specs.Setting.{trees_in};

use crate::ordinal::{OrdinalRank, at_once};
use decision_tree::{Family, Tree, TreeList, Why};
use std::alloc::{AllocError, Global};

/// The families of the truth, which holds at each of so many labels, and of `exit`, which holds at label 0 alone. The only error is want of
/// memory.
pub(crate) fn operands(alloc: Global, labels: u32) -> Result<Vec<Family<OrdinalRank>>, AllocError>
    ensures { IfOk result (λ parts. (label : ℕ) → families_of parts.items 1 (suc label) ≡ bottom) }
{
    let truth = truth(alloc, labels)?;
    let end = end(alloc, labels)?;
    let mut operands = Vec::with_capacity(alloc, 2)?;
    operands.push(truth)?;
    operands.push(end)?;
    Ok(operands)
}

/// The family of the truth.
fn truth(alloc: Global, labels: u32) -> Result<Family<OrdinalRank>, AllocError> {
    let mut trees = Vec::with_capacity(alloc, labels as usize)?;
    for _ in 0..labels {
        let claim = at_once(alloc, Why::Atom)?;
        trees.push(claim)?;
    }
    Ok(Family {
        part: 0,
        trees: TreeList::of(trees),
    })
}

/// The family of `exit`.
fn end(alloc: Global, labels: u32) -> Result<Family<OrdinalRank>, AllocError>
    ensures { IfOk result (λ family. (label : ℕ) → trees_in family.trees (suc label) ≡ bottom) }
{
    let mut trees = Vec::with_capacity(alloc, labels as usize)?;
    let claim = at_once(alloc, Why::End)?;
    trees.push(claim)?;
    for _ in 1..labels {
        trees.push(Tree::Bottom)?;
    }
    Ok(Family {
        part: 1,
        trees: TreeList::of(trees),
    })
}
