//! Trees of atoms.
ghost use Rattle.std.specs.Prelude.{◌≡◌, IfOk};
ghost use Rattle.decision_tree.specs.Plans.{plan_of};
ghost use Rattle.part_trees.specs.Local.{kind_tree};

use backward_sweeps::at_once;
use decision_tree::{AffineRank, Tree, Why};
use linear_cons::RowKind;
use std::alloc::{AllocError, Global};

/// The claim that a row is met. The only error is want of memory.
pub(crate) fn of_kind(alloc: Global, kind: &RowKind) -> Result<Tree<AffineRank>, AllocError>
    ensures { IfOk result (λ tree. plan_of tree ≡ kind_tree kind.now) }
{
    match kind {
        RowKind::Always => at_once(alloc, Why::Atom),
        RowKind::Never => Ok(Tree::Bottom),
        RowKind::Row(row) => {
            let claim = at_once(alloc, Why::Atom)?;
            Tree::branch(alloc, *row, claim, Tree::Bottom)
        }
    }
}
