//! Trees in fewer nodes.
ghost use Rattle.std.specs.Prelude.{◌≡◌, IfOk, length};

use backward_sweeps::tree_at;
use decision_tree::{AffineRank, Tree};
use std::alloc::{AllocError, Global};
use tree_unify::{TreeFault, either};

/// What the tree claims, with one undefined leaf in place of those that stand beside one another; as it is where that can't be made.
pub(crate) fn coarse(
    alloc: Global,
    tree: &Tree<AffineRank>,
) -> Result<Tree<AffineRank>, AllocError> {
    match either(alloc, &Tree::Bottom, tree) {
        Ok(made) => Ok(made),
        Err(TreeFault::Full { .. } | TreeFault::Wide(_)) => tree.copy(alloc),
        Err(TreeFault::Memory(error)) => Err(error),
    }
}

/// The same of the trees of so many labels.
pub(crate) fn all_coarse(
    alloc: Global,
    trees: &[Tree<AffineRank>],
    labels: u32,
) -> Result<Vec<Tree<AffineRank>>, AllocError>
    ensures { IfOk result (λ made. length made.items ≡ labels) }
{
    let none = Tree::Bottom;
    let mut made = Vec::with_capacity(alloc, labels as usize)?;
    for label in 0..labels {
        let tree = coarse(alloc, tree_at(trees, label, &none))?;
        made.push(tree)?;
    }
    Ok(made)
}
