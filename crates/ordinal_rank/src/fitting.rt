//! Trees that may be checked and printed.
ghost use Rattle.std.specs.Prelude.{◌≡◌, ◌⊎◌, All, IfOk, IsTrue, length};
ghost use Rattle.linear_cons.specs.Functions.{IsOver, NumbersFit, complement_of};
ghost use Rattle.decision_tree.specs.Extent.{ComplementsFit, PickIs};
ghost use Rattle.decision_tree.specs.Plans.{plan_of, top};
ghost use Rattle.decision_tree.specs.declared.reason.Cause.TheVariants.{Given};
ghost use Rattle.ordinal_rank.specs.Families.{IsFit, IsTreeOver};
ghost use Rattle.ordinal_rank.specs.Ordinals.{functions_of};

use crate::ordinal::OrdinalRank;
use decision_tree::{HeldCause, HeldWhy, Pick, Shared, Tree, TreeList, Why};
use line_text::is_over;
use linear_cons::Row;
use std::alloc::{AllocError, Global};
use step_meaning::Names;

/// The trees, where one that can't be printed is given up: it speaks of a place past the names, has a row whose complement passes 128 bits, or
/// more leaves than can be numbered. The only error is want of memory.
pub(crate) fn fitted(
    alloc: Global,
    trees: &[Tree<OrdinalRank>],
    names: &Names,
) -> Result<TreeList<OrdinalRank>, AllocError>
    ensures fit { IfOk result (λ made. All (IsFit (length names.now)) made) }
    ensures labels { IfOk result (λ made. length made ≡ length trees.now) }
{
    let mut made = Vec::with_capacity(alloc, trees.len())?;
    for label in 0..trees.len() {
        let tree = fit_or_given_up(alloc, &trees[label], names)?;
        made.push(tree)?;
    }
    Ok(TreeList::of(made))
}

/// A copy of the tree, or what stands for one that can't be printed.
pub(crate) fn fit_or_given_up(
    alloc: Global,
    tree: &Tree<OrdinalRank>,
    names: &Names,
) -> Result<Tree<OrdinalRank>, AllocError>
    ensures fit { IfOk result (λ made. IsFit (length names.now) (plan_of made)) }
    ensures same { IfOk result (λ made. (plan_of made ≡ plan_of tree.now) ⊎ (plan_of made ≡ top Given)) }
{
    if is_fit(tree, names) && tree.leaves() < u64::MAX {
        let copy = tree.copy(alloc)?;
        Ok(copy)
    } else {
        Ok(Tree::Top(HeldCause::given()))
    }
}

/// True only where the rows, ranks and picks of the tree are over the names, and the complements of the rows fit 128 bits.
fn is_fit(tree: &Tree<OrdinalRank>, names: &Names) -> bool
    ensures over { IsTrue result → IsTreeOver (length names.now) (plan_of tree.now) }
    ensures complements { IsTrue result → ComplementsFit (plan_of tree.now) }
{
    match tree {
        Tree::Bottom | Tree::Top(_) => true,
        Tree::Leaf { why, rank } => is_rank_over(rank, names) && is_pick_over(why, names),
        Tree::Node { row, yes, no } => {
            is_row_fit(row, names) && is_fit(yes, names) && is_fit(no, names)
        }
    }
}

/// True only where the row's function is over the names, and its complement fits 128 bits.
#[inline(never)]
fn is_row_fit(row: &Shared<Row>, names: &Names) -> bool
    ensures over { IsTrue result → IsOver (length names.now) row.now.affine }
    ensures complement { IsTrue result → NumbersFit (complement_of row.now.affine) }
{
    is_over(&row.affine, names) && row.not().is_ok()
}

/// True only where all functions of the rank are over the names.
#[inline(never)]
fn is_rank_over(rank: &Shared<OrdinalRank>, names: &Names) -> bool
    ensures { IsTrue result → All (IsOver (length names.now)) (functions_of rank.now) }
{
    is_over(&rank.fourth, names)
        && is_over(&rank.third, names)
        && is_over(&rank.second, names)
        && is_over(&rank.first, names)
        && is_over(&rank.finite, names)
}

/// True only where the function whose value the leaf picks, if it picks one, is over the names.
#[inline(never)]
fn is_pick_over(why: &HeldWhy, names: &Names) -> bool
    ensures { IsTrue result → PickIs (IsOver (length names.now)) why.now }
{
    let reason = why.why();
    match &reason {
        Why::Step(Pick::Value(value)) => is_over(value, names),
        _ => true,
    }
}
