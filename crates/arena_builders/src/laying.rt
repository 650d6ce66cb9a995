//! A tree of an arena trimmed by the rows of a walk.
ghost use Rattle.std.specs.Prelude.{◌≡◌, ℕ, ◌<◌, ◌≤◌, Err, IfOk, IsTrue, OnOk, length};
ghost use Rattle.linear_cons.specs.Exact.{IsOutside};
ghost use Rattle.linear_cons.specs.declared.exact.Wide.{Wide};
ghost use Rattle.decision_tree.specs.Plans.{IsEnd, is_defined, size_of};
ghost use Rattle.tree_unify.specs.Shapes.{MetFits, laying, leaf_met, meeting};
ghost use Rattle.tree_unify.specs.declared.fault.TreeFault.TheVariants.{Full as TooFull, Wide as TooWide};
ghost use Rattle.tree_unify.specs.declared.join.Join.TheVariants.{Later};
ghost use Rattle.tree_arena.specs.Trees.{Extends, IsAt, tree_at};
ghost use Rattle.arena_builders.specs.BuildsIn.{BuildsIn};

use crate::nodes::{down, is_claim, join_at, settled, sides};
use decision_tree::Rank;
use std::alloc::Global;
use tree_arena::{Arena, TreeRef};
use tree_unify::{Join, Stopped, TreeFault, Walk, later};

/// The second tree trimmed by the rows of the walk, with what stands where the leaf meets its leaves. The walk is where it was.
pub(crate) fn lay_in<R: Rank>(
    alloc: Global,
    arena: &mut Arena<R>,
    walk: &mut Walk,
    join: Join,
    leaf: TreeRef,
    second: TreeRef,
) -> Result<TreeRef, Stopped>
    requires leaf { (leaf.place < length arena.old) × IsEnd (tree_at arena.old leaf.place) }
    requires second { second.place < length arena.old }
    ensures { BuildsIn (laying R.eq R.Rank.own join (tree_at arena.old leaf.place) walk.old.trail (tree_at arena.old second.place))
        arena.old arena.new walk.old.trail walk.new result }
{
    let Some((yes, no)) = sides(arena, second) else {
        return meet_in(alloc, arena, walk, join, leaf, second);
    };
    match settled(arena, walk, second) {
        Some(true) => lay_in(alloc, arena, walk, join, leaf, yes),
        Some(false) => lay_in(alloc, arena, walk, join, leaf, no),
        None => {
            down(arena, walk, second)?;
            let first = lay_in(alloc, arena, walk, join, leaf, yes)?;
            walk.turn()?;
            let other = lay_in(alloc, arena, walk, join, leaf, no)?;
            walk.trail.up();
            join_at(arena, walk, second, first, other)
        }
    }
}

/// What stands where the leaf meets the second one.
#[inline(never)]
fn meet_in<R: Rank>(
    alloc: Global,
    arena: &mut Arena<R>,
    walk: &mut Walk,
    join: Join,
    leaf: TreeRef,
    second: TreeRef,
) -> Result<TreeRef, Stopped>
    requires leaf { (leaf.place < length arena.old) × IsEnd (tree_at arena.old leaf.place) }
    requires second { (second.place < length arena.old) × IsEnd (tree_at arena.old second.place) }
    ensures { BuildsIn (meeting R.eq R.Rank.own join (tree_at arena.old leaf.place) (tree_at arena.old second.place))
        arena.old arena.new walk.old.trail walk.new result }
{
    let claimed = is_claim(arena, second);
    match join {
        Join::Both => Ok(second),
        Join::Either => { if claimed { Ok(second) } else { Ok(leaf) } }
        Join::Later => {
            if !claimed || !is_claim(arena, leaf) {
                return Ok(second);
            }
            match later_leaf(alloc, arena, leaf, second) {
                Ok(made) => Ok(made),
                Err(fault) => Err(walk.stop(fault)),
            }
        }
    }
}

/// The claim of the greater rank, as a tree. The two are joined in boxes: which alternatives are asked where is said there once.
#[inline(never)]
fn later_leaf<R: Rank>(
    alloc: Global,
    arena: &mut Arena<R>,
    leaf: TreeRef,
    second: TreeRef,
) -> Result<TreeRef, TreeFault>
    requires leaf { (leaf.place < length arena.old) × IsTrue (is_defined (tree_at arena.old leaf.place)) }
    requires second { (second.place < length arena.old) × IsTrue (is_defined (tree_at arena.old second.place)) }
    ensures kept { Extends arena.old arena.new }
    ensures tree { IfOk result (λ made. IsAt arena.new made
        (leaf_met R.eq R.where_greater R.greater_fits Later (tree_at arena.old leaf.place) (tree_at arena.old second.place))) }
    ensures small { OnOk result (size_of
        (leaf_met R.eq R.where_greater R.greater_fits Later (tree_at arena.old leaf.place) (tree_at arena.old second.place)) ≤ 65536) }
    ensures fits { OnOk result (MetFits R.eq R.where_greater R.greater_fits Later (tree_at arena.old leaf.place) (tree_at arena.old second.place)) }
    ensures full { (count : ℕ) → result ≡ Err (TooFull count) → (65536 < count) × (65536 < size_of
        (leaf_met R.eq R.where_greater R.greater_fits Later (tree_at arena.old leaf.place) (tree_at arena.old second.place))) }
    ensures wide { (w : Wide) → result ≡ Err (TooWide w)
        → MetFits R.eq R.where_greater R.greater_fits Later (tree_at arena.old leaf.place) (tree_at arena.old second.place) → ⊥ }
    ensures operands { (w : Wide) → result ≡ Err (TooWide w) → IsOutside w }
{
    let first = arena.take(alloc, leaf)?;
    let other = arena.take(alloc, second)?;
    let made = later(alloc, &first, &other)?;
    let made = arena.put(&made)?;
    Ok(made)
}
