//! Where a leaf that was given up can be reached from: the rows of its path, moved back.
ghost use Rattle.std.specs.Prelude.{◌≡◌, ◌+◌, ◌<◌, [], true, false, IfOk, IfSome, map};
ghost use Rattle.decision_tree.specs.Paths.{path_of};
ghost use Rattle.decision_tree.specs.Plans.{leaves_of, plan_of};
ghost use Rattle.tree_support.specs.Systems.{moved_by};
ghost use Rattle.constraint_stack.specs.Searches.{Holds, IsSame};
ghost use Rattle.tree_check.specs.Narrowing.{HoldsAmong, sets_of};

use constraint_stack::ConstraintStack;
use control_flow::{CHOSEN_PLACE, Transition};
use decision_tree::{Rank, Tree};
use leaf_search::Way;
use linear_cons::Affine;
use std::alloc::AllocError;

/// What the arcs of a label set: a place, to the value of a function.
pub(crate) fn sets(transition: &Transition) -> Option<(u8, Affine)>
    ensures sets { result ≡ sets_of transition.now }
    ensures place { IfSome result (λ s. s.0 < 16) }
{
    match transition {
        Transition::Assign { place, value, .. } => Some((place.number, *value)),
        Transition::Choose { place, .. } => Some((place.number, Affine::var(CHOSEN_PLACE))),
        Transition::End | Transition::Dead | Transition::Pass { .. } | Transition::Test { .. } =>
            None,
    }
}

/// Adds the rows of the path to the leaf that `left` others come before, the last one first, and counts `left` down by each leaf that it
/// passes. True where the leaf is one of the tree. A row that is opposed to one on the stack is left out.
#[cycle(path)]
pub(crate) fn add_path<R: Rank>(
    tree: &Tree<R>,
    way: &Way<R>,
    left: &mut u64,
    stack: &mut ConstraintStack,
) -> Result<bool, AllocError>
    requires { IfSome way.now.sets (λ s. s.0 < 16) }
    ensures count { IfOk result (λ found. found ≡ false → left.old ≡ left.new + leaves_of (plan_of tree.now)) }
    ensures inside { IfOk result (λ found. found ≡ true → left.old < leaves_of (plan_of tree.now)) }
    ensures same { IfOk result (λ found. found ≡ false → IsSame stack.old stack.new) }
    ensures among { IfOk result (λ found. found ≡ true → Holds stack.old []
        → HoldsAmong stack.new (map (moved_by way.now.sets) (path_of (plan_of tree.now) left.old))) }
{
    match tree {
        Tree::Node { row, yes, no } => {
            if add_path(yes, way, left, stack)? {
                let _ = way.enter(row, true, stack)?;
                return Ok(true);
            }
            if add_path(no, way, left, stack)? {
                let _ = way.enter(row, false, stack)?;
                return Ok(true);
            }
            Ok(false)
        }
        Tree::Bottom | Tree::Top(_) => Ok(is_next(left)),
        Tree::Leaf { why: _, rank: _ } => Ok(is_next(left)),
    }
}

/// Whether no leaf is left before the one that is looked for; else there is one fewer.
fn is_next(left: &mut u64) -> bool
    ensures next { result ≡ true → left.old ≡ 0 }
    ensures later { result ≡ false → left.old ≡ left.new + 1 }
{
    if *left == 0 {
        return true;
    }
    *left -= 1;
    false
}
