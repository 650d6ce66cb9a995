//! Families that may be checked and printed.
ghost use Rattle.std.specs.Prelude.{◌≡◌, ◌↔◌, ◌≤◌, All, IsTrue, length};
ghost use Rattle.linear_cons.specs.Functions.{IsOver, NumbersFit, complement_of};
ghost use Rattle.decision_tree.specs.Extent.{ComplementsFit, IsTreeOver, PickIs};
ghost use Rattle.decision_tree.specs.Plans.{plan_of};
ghost use Rattle.part_families.specs.Fitting.{IsFit};
ghost use Rattle.exact_families.specs.Completeness.{AreKept};

use decision_tree::{AffineRank, HeldCause, HeldWhy, Pick, Shared, Tree, TreeList, Why};
use line_text::is_over;
use linear_cons::Row;
use step_meaning::Names;

/// The trees, where one that can't be printed is given up: it speaks of a place past the names, has a row whose complement passes 128 bits,
/// or more leaves than can be numbered.
pub fn fitted(trees: TreeList<AffineRank>, names: &Names) -> TreeList<AffineRank>
    ensures fit { All (IsFit (length names.now)) result }
    ensures kept { AreKept trees result }
    ensures same { length names.now ≤ 16 → All (IsFit (length names.now)) trees → result ≡ trees }
    ensures labels { length result ≡ length trees }
{
    let mut trees = trees.into_vec();
    for label in 0..trees.len() {
        if !(is_fit(&trees[label], names) && trees[label].leaves() < u64::MAX) {
            trees[label] = Tree::Top(HeldCause::given());
        }
    }
    TreeList::of(trees)
}

/// True exactly where the rows, ranks and picks of the tree are over the names, and the complements of the rows fit 128 bits.
pub(crate) fn is_fit(tree: &Tree<AffineRank>, names: &Names) -> bool
    ensures over { IsTrue result → IsTreeOver (length names.now) (plan_of tree.now) }
    ensures complements { IsTrue result → ComplementsFit (plan_of tree.now) }
    ensures fit { length names.now ≤ 16 → IsTreeOver (length names.now) (plan_of tree.now) → ComplementsFit (plan_of tree.now) → IsTrue result }
{
    match tree {
        Tree::Bottom | Tree::Top(_) => true,
        Tree::Leaf { why, rank } => {
            let rank: &AffineRank = rank;
            is_over(&rank.value, names) && is_pick_over(why, names)
        }
        Tree::Node { row, yes, no } => {
            let function: &Row = row;
            is_over(&function.affine, names)
                && has_complement(row)
                && is_fit(yes, names)
                && is_fit(no, names)
        }
    }
}

/// True exactly where the row's complement fits 128 bits. It stands apart, since `is_fit` recurs along a tree.
#[inline(never)]
fn has_complement(row: &Shared<Row>) -> bool
    ensures { IsTrue result ↔ NumbersFit (complement_of row.now.affine) }
{
    row.not().is_ok()
}

/// True exactly where the function whose value the leaf picks, if it picks one, is over the names.
#[inline(never)]
fn is_pick_over(why: &HeldWhy, names: &Names) -> bool
    ensures over { IsTrue result → PickIs (IsOver (length names.now)) why.now }
    ensures fit { length names.now ≤ 16 → PickIs (IsOver (length names.now)) why.now → IsTrue result }
{
    let reason = why.why();
    match &reason {
        Why::Step(Pick::Value(value)) => is_over(value, names),
        _ => true,
    }
}
