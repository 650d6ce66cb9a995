//! Which of two trees is the smaller one.
ghost use Rattle.std.specs.Prelude.{◌≡◌, ◌<◌, min, IsTrue};
ghost use Rattle.decision_tree.specs.Plans.{plan_of, size_of};

use decision_tree::{Rank, Tree};

/// True only where the tree has fewer nodes than the other one. It looks at a few times as many nodes as
/// the smaller one has, however large the other one is.
#[inline(never)]
pub(crate) fn is_smaller<R: Rank>(tree: &Tree<R>, other: &Tree<R>) -> bool
    ensures { IsTrue result → size_of (plan_of tree.now) < size_of (plan_of other.now) }
{
    for most in [4, 16, 64, 256, 1_024, 4_096, 16_384, 65_536] {
        let size = size_up_to(tree, most);
        let other_size = size_up_to(other, most);
        if size < most || other_size < most {
            return size < other_size;
        }
    }
    false
}

/// The number of the tree's nodes, or the given one where that is less.
fn size_up_to<R: Rank>(tree: &Tree<R>, most: u64) -> u64
    ensures { result ≡ min (size_of (plan_of tree.now)) most }
{
    if most == 0 {
        return 0;
    }
    match tree {
        Tree::Bottom | Tree::Top(_) | Tree::Leaf { .. } => 1,
        Tree::Node { row: _, yes, no } => {
            let size = size_up_to(yes, most - 1);
            1 + size + size_up_to(no, most - 1 - size)
        }
    }
}
