//! Trees of an arena moved back over a step that changes nothing.
ghost use Rattle.std.specs.Prelude.{◌≡◌, ℕ, ◌<◌, ◌≤◌, [], Err, IfOk, OnOk, length};
ghost use Rattle.linear_cons.specs.Exact.{IsOutside};
ghost use Rattle.linear_cons.specs.declared.exact.Wide.{Wide};
ghost use Rattle.decision_tree.specs.Plans.{IsEnd, size_of};
ghost use Rattle.decision_tree.specs.declared.reason.Pick.TheVariants.{All as EveryState};
ghost use Rattle.tree_unify.specs.Builds.{formed};
ghost use Rattle.tree_unify.specs.Shapes.{TrimFits, trimmed};
ghost use Rattle.tree_unify.specs.declared.fault.TreeFault.TheVariants.{Full as TooFull, Wide as TooWide};
ghost use Rattle.tree_arena.specs.Trees.{Extends, IsAt, tree_at};
ghost use Rattle.arena_builders.specs.BuildsIn.{BuildsIn};
ghost use Rattle.backward_transfer.specs.Steps.{StepFits, step_to, stepped, stepping};

use crate::nodes::{join_at, sides};
use crate::trimming::trim_in;
use decision_tree::{Pick, Rank, Tree, Why};
use std::alloc::{AllocError, Global};
use tree_arena::{Arena, NodeView, TreeRef};
use tree_unify::{Stopped, TreeFault, Walk};

/// The tree before a step that changes nothing, with the tree behind it given: what `back_skip` makes of an equal tree in boxes. The refusals are those of
/// `back_skip`.
pub fn back_skip_in<R: Rank>(
    alloc: Global,
    arena: &mut Arena<R>,
    tree: TreeRef,
) -> Result<TreeRef, TreeFault>
    requires { tree.place < length arena.old }
    ensures kept { Extends arena.old arena.new }
    ensures tree { IfOk result (λ made. IsAt arena.new made (trimmed R.eq [] (stepped R.eq R.one_more (tree_at arena.old tree.place)))) }
    ensures small { OnOk result (size_of (stepped R.eq R.one_more (tree_at arena.old tree.place)) ≤ 65536) }
    ensures ranks { OnOk result (StepFits R.add_one_fits (tree_at arena.old tree.place)) }
    ensures rows { OnOk result (TrimFits R.eq [] (stepped R.eq R.one_more (tree_at arena.old tree.place))) }
    ensures full { (count : ℕ) → result ≡ Err (TooFull count)
        → (65536 < count) × (65536 < size_of (stepped R.eq R.one_more (tree_at arena.old tree.place))) }
    ensures wide { (w : Wide) → result ≡ Err (TooWide w) → StepFits R.add_one_fits (tree_at arena.old tree.place)
        → TrimFits R.eq [] (stepped R.eq R.one_more (tree_at arena.old tree.place)) → ⊥ }
    ensures operands { (w : Wide) → result ≡ Err (TooWide w) → IsOutside w }
{
    let mut walk = Walk::new(alloc);
    match step_in(alloc, arena, &mut walk, tree) {
        Ok(moved) => trim_in(alloc, arena, moved, &[]),
        Err(_) => Err(walk.fault),
    }
}

/// The tree with one more step at each defined leaf, for every next state.
fn step_in<R: Rank>(
    alloc: Global,
    arena: &mut Arena<R>,
    walk: &mut Walk,
    tree: TreeRef,
) -> Result<TreeRef, Stopped>
    requires { tree.place < length arena.old }
    ensures { BuildsIn (stepping R.eq R.Rank.own EveryState (tree_at arena.old tree.place)) arena.old arena.new walk.old.trail walk.new result }
{
    let Some((yes, no)) = sides(arena, tree) else {
        return step_end(alloc, arena, walk, tree);
    };
    let this = step_in(alloc, arena, walk, yes)?;
    let that = step_in(alloc, arena, walk, no)?;
    join_at(arena, walk, tree, this, that)
}

/// The leaf with one more step, where it is defined.
#[inline(never)]
fn step_end<R: Rank>(
    alloc: Global,
    arena: &mut Arena<R>,
    walk: &mut Walk,
    leaf: TreeRef,
) -> Result<TreeRef, Stopped>
    requires { (leaf.place < length arena.old) × IsEnd (tree_at arena.old leaf.place) }
    ensures { BuildsIn (stepping R.eq R.Rank.own EveryState (tree_at arena.old leaf.place)) arena.old arena.new walk.old.trail walk.new result }
{
    match arena.view(leaf) {
        NodeView::Leaf { why: _, rank } => {
            let rank = *rank;
            step_leaf(alloc, arena, walk, &rank)
        }
        NodeView::Bottom | NodeView::Top(_) => Ok(leaf),
        NodeView::Node { .. } => unreachable!(),
    }
}

/// A leaf of the rank with one more, for every next state.
#[inline(never)]
pub(crate) fn step_leaf<R: Rank>(
    alloc: Global,
    arena: &mut Arena<R>,
    walk: &mut Walk,
    rank: &R,
) -> Result<TreeRef, Stopped>
    ensures { BuildsIn (formed (step_to (R.one_more rank.now)) (R.add_one_fits rank.now)) arena.old arena.new walk.old.trail walk.new result }
{
    let more = match rank.add_one() {
        Ok(more) => more,
        Err(wide) => return Err(walk.stop(TreeFault::Wide(wide))),
    };
    match claim_in(alloc, arena, &more) {
        Ok(made) => Ok(made),
        Err(error) => Err(walk.stop(TreeFault::Memory(error))),
    }
}

/// A leaf of the rank, for every next state.
fn claim_in<R: Rank>(alloc: Global, arena: &mut Arena<R>, rank: &R) -> Result<TreeRef, AllocError>
    ensures tree { IfOk result (λ made. IsAt arena.new made (step_to rank.now)) }
    ensures kept { Extends arena.old arena.new }
{
    let leaf = Tree::claim(alloc, &Why::Step(Pick::All), rank)?;
    arena.leaf(&leaf)
}
