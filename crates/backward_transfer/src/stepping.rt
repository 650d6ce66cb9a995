//! Trees moved back over a step that changes nothing.
ghost use Rattle.std.specs.Prelude.{◌≡◌, ℕ, ◌<◌, ◌≤◌, [], Err, IfOk, OnOk};
ghost use Rattle.linear_cons.specs.Exact.{IsOutside};
ghost use Rattle.linear_cons.specs.declared.exact.Wide.{Wide};
ghost use Rattle.decision_tree.specs.Plans.{bottom, plan_of, size_of};
ghost use Rattle.tree_unify.specs.Builds.{Builds, formed, given};
ghost use Rattle.tree_unify.specs.Shapes.{TrimFits, trimmed};
ghost use Rattle.tree_unify.specs.declared.fault.TreeFault.TheVariants.{Full as TooFull, Wide as TooWide};
ghost use Rattle.backward_transfer.specs.Steps.{StepFits, step_by, stepped, stepping};

use decision_tree::{Pick, Rank, Shared, Tree, Why};
use std::alloc::Global;
use tree_unify::{Stopped, TreeFault, Walk, trim};

/// The tree before a step that changes nothing, with the tree behind it given: one more step at each
/// defined leaf, for every next state, and trimmed. `Full` comes exactly where it would have more than
/// 65,536 nodes before it is trimmed, `Wide` exactly where a rank with one more, or a complement of a row
/// that trimming asks, has a number outside `i128`; where both stand, either may come. `Memory` says
/// nothing.
pub fn back_skip<R: Rank>(alloc: Global, tree: &Tree<R>) -> Result<Tree<R>, TreeFault>
    ensures tree { IfOk result (λ made. plan_of made ≡ trimmed R.eq [] (stepped R.eq R.one_more (plan_of tree.now))) }
    ensures small { OnOk result (size_of (stepped R.eq R.one_more (plan_of tree.now)) ≤ 65536) }
    ensures ranks { OnOk result (StepFits R.add_one_fits (plan_of tree.now)) }
    ensures rows { OnOk result (TrimFits R.eq [] (stepped R.eq R.one_more (plan_of tree.now))) }
    ensures full { (count : ℕ) → result ≡ Err (TooFull count)
        → (65536 < count) × (65536 < size_of (stepped R.eq R.one_more (plan_of tree.now))) }
    ensures wide { (w : Wide) → result ≡ Err (TooWide w) → StepFits R.add_one_fits (plan_of tree.now)
        → TrimFits R.eq [] (stepped R.eq R.one_more (plan_of tree.now)) → ⊥ }
    ensures operands { (w : Wide) → result ≡ Err (TooWide w) → IsOutside w }
{
    let mut walk = Walk::new(alloc);
    match step(alloc, &mut walk, &Pick::All, tree) {
        Ok(moved) => trim(alloc, &moved, &[]),
        Err(_) => Err(walk.fault),
    }
}

/// The tree with one more step at each defined leaf, for the next states that are picked; the walk knows
/// the size.
pub(crate) fn step<R: Rank>(
    alloc: Global,
    walk: &mut Walk,
    pick: &Pick,
    tree: &Tree<R>,
) -> Result<Box<Tree<R>>, Stopped>
    ensures { Builds (stepping R.eq R.Rank.own pick.now (plan_of tree.now)) walk.old walk.new result }
{
    match tree {
        Tree::Bottom => walk.copied(alloc, tree),
        Tree::Top(_) => walk.copied(alloc, tree),
        Tree::Leaf { why: _, rank } => step_held(alloc, walk, pick, rank),
        Tree::Node { row, yes, no } => {
            let first = step(alloc, walk, pick, yes)?;
            let size = walk.size;
            match step(alloc, walk, pick, no) {
                Ok(other) => walk.join_sides(alloc, row, first, other, size),
                Err(stopped) => {
                    Tree::discard(first);
                    Err(stopped)
                }
            }
        }
    }
}

/// The same of a leaf.
#[inline(never)]
fn step_held<R: Rank>(
    alloc: Global,
    walk: &mut Walk,
    pick: &Pick,
    rank: &Shared<R>,
) -> Result<Box<Tree<R>>, Stopped>
    ensures { Builds (formed (step_by pick.now (R.one_more rank.now)) (R.add_one_fits rank.now)) walk.old walk.new result }
{
    let rank: &R = rank;
    step_leaf(alloc, walk, pick, rank)
}

/// A leaf of the rank with one more, for the next states that are picked; its size is known.
#[inline(never)]
pub(crate) fn step_leaf<R: Rank>(
    alloc: Global,
    walk: &mut Walk,
    pick: &Pick,
    rank: &R,
) -> Result<Box<Tree<R>>, Stopped>
    ensures { Builds (formed (step_by pick.now (R.one_more rank.now)) (R.add_one_fits rank.now)) walk.old walk.new result }
{
    let more = match rank.add_one() {
        Ok(more) => more,
        Err(wide) => return Err(walk.stop(TreeFault::Wide(wide))),
    };
    match Tree::boxed_leaf(alloc, &Why::Step(*pick), &more) {
        Ok(leaf) => {
            walk.size = 1;
            Ok(leaf)
        }
        Err(error) => Err(walk.stop(TreeFault::Memory(error))),
    }
}

/// No claim; its size is known.
#[inline(never)]
pub(crate) fn none<R: Rank>(alloc: Global, walk: &mut Walk) -> Result<Box<Tree<R>>, Stopped>
    ensures { Builds (given bottom) walk.old walk.new result }
{
    match Tree::boxed_bottom(alloc) {
        Ok(none) => {
            walk.size = 1;
            Ok(none)
        }
        Err(error) => Err(walk.stop(TreeFault::Memory(error))),
    }
}
