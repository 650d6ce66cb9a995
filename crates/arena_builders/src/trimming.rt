//! A tree of an arena trimmed by rows that are known to hold.
ghost use Rattle.std.specs.Prelude.{◌≡◌, ℕ, ◌<◌, ◌≤◌, [], Err, IfOk, OnOk, length};
ghost use Rattle.linear_cons.specs.Exact.{IsOutside};
ghost use Rattle.linear_cons.specs.declared.exact.Wide.{Wide};
ghost use Rattle.decision_tree.specs.Plans.{size_of};
ghost use Rattle.tree_unify.specs.Shapes.{TrimFits, trimmed};
ghost use Rattle.tree_unify.specs.declared.fault.TreeFault.TheVariants.{Full as TooFull, Wide as TooWide};
ghost use Rattle.tree_arena.specs.Trees.{Extends, IsAt, tree_at};

use crate::laying::lay_in;
use crate::nodes::first_leaf;
use decision_tree::Rank;
use linear_cons::Row;
use std::alloc::{AllocError, Global};
use tree_arena::{Arena, TreeRef};
use tree_unify::{Join, TreeFault, Walk};

/// The tree trimmed by the rows of a path: what `trim` makes of an equal tree in boxes. The refusals are those of `trim`.
pub fn trim_in<R: Rank>(
    alloc: Global,
    arena: &mut Arena<R>,
    tree: TreeRef,
    path: &[Row],
) -> Result<TreeRef, TreeFault>
    requires { tree.place < length arena.old }
    ensures kept { Extends arena.old arena.new }
    ensures tree { IfOk result (λ made. IsAt arena.new made (trimmed R.eq path.now (tree_at arena.old tree.place))) }
    ensures small { IfOk result (λ made. size_of (tree_at arena.new made.place) ≤ 65536) }
    ensures fits { OnOk result (TrimFits R.eq path.now (tree_at arena.old tree.place)) }
    ensures full { (count : ℕ) → result ≡ Err (TooFull count)
        → (65536 < count) × (65536 < size_of (trimmed R.eq path.now (tree_at arena.old tree.place))) }
    ensures wide { (w : Wide) → result ≡ Err (TooWide w) → TrimFits R.eq path.now (tree_at arena.old tree.place) → ⊥ }
    ensures operands { (w : Wide) → result ≡ Err (TooWide w) → IsOutside w }
{
    let mut walk = Walk::new(alloc);
    follow(&mut walk, path)?;
    // `Both` asks nothing of its first leaf.
    let any = first_leaf(arena);
    match lay_in(alloc, arena, &mut walk, Join::Both, any, tree) {
        Ok(made) => Ok(made),
        Err(_) => Err(walk.fault),
    }
}

/// Goes down the rows.
fn follow(walk: &mut Walk, path: &[Row]) -> Result<(), AllocError>
    requires { walk.old.trail ≡ [] }
    ensures { OnOk result (walk.new.trail ≡ path.now) }
{
    for row in path {
        walk.trail.down(row)?;
    }
    Ok(())
}
