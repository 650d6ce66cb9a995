//! A tree of an arena moved back over the assignment of a value of a range.
ghost use Rattle.std.specs.Prelude.{◌≡◌, ℕ, ◌<◌, [], Err, IfOk, OnOk, length};
ghost use Rattle.linear_cons.specs.Exact.{IsOutside};
ghost use Rattle.linear_cons.specs.declared.exact.Wide.{Wide};
ghost use Rattle.tree_unify.specs.Shapes.{TrimFits, trimmed};
ghost use Rattle.tree_unify.specs.declared.fault.TreeFault.TheVariants.{Full as TooFull, Wide as TooWide};
ghost use Rattle.tree_arena.specs.Trees.{Extends, IsAt, tree_at};
ghost use Rattle.backward_transfer.specs.Ranges.{AreSmall, RangeFits, ranged};

use crate::boxes::taken;
use backward_transfer::back_range;
use decision_tree::Rank;
use linear_cons::Linear;
use std::alloc::Global;
use tree_arena::{Arena, TreeRef};
use tree_unify::TreeFault;

/// The tree before a value of the range is assigned to the variable at the place, with the tree behind it given: what `back_range` makes of an equal tree in
/// boxes. The refusals are those of `back_range`.
pub fn back_range_in<R: Rank>(
    alloc: Global,
    arena: &mut Arena<R>,
    tree: TreeRef,
    place: u8,
    range: &Linear,
) -> Result<TreeRef, TreeFault>
    requires tree { tree.place < length arena.old }
    requires place { place < 16 }
    ensures kept { Extends arena.old arena.new }
    ensures tree { IfOk result (λ made. IsAt arena.new made (trimmed R.eq []
        (ranged R.eq R.where_greater R.greater_fits R.trend R.substituted R.one_more place range.now (tree_at arena.old tree.place)))) }
    ensures small { OnOk result (AreSmall R.eq R.where_greater R.greater_fits R.trend R.substituted R.one_more 65536 place range.now
        (tree_at arena.old tree.place)) }
    ensures moved { OnOk result (RangeFits R.eq R.where_greater R.greater_fits R.trend R.substituted R.one_more R.subst_fits R.add_one_fits
        place range.now (tree_at arena.old tree.place)) }
    ensures rows { OnOk result (TrimFits R.eq []
        (ranged R.eq R.where_greater R.greater_fits R.trend R.substituted R.one_more place range.now (tree_at arena.old tree.place))) }
    ensures full { (count : ℕ) → result ≡ Err (TooFull count) → (65536 < count)
        × (AreSmall R.eq R.where_greater R.greater_fits R.trend R.substituted R.one_more 65536 place range.now (tree_at arena.old tree.place) → ⊥) }
    ensures wide { (w : Wide) → result ≡ Err (TooWide w)
        → RangeFits R.eq R.where_greater R.greater_fits R.trend R.substituted R.one_more R.subst_fits R.add_one_fits place range.now
        (tree_at arena.old tree.place)
        → TrimFits R.eq []
        (ranged R.eq R.where_greater R.greater_fits R.trend R.substituted R.one_more place range.now (tree_at arena.old tree.place)) → ⊥ }
    ensures operands { (w : Wide) → result ≡ Err (TooWide w) → IsOutside w }
{
    let given = taken(alloc, arena, tree)?;
    let moved = back_range(alloc, &given, place, range)?;
    let made = arena.put(&moved)?;
    Ok(made)
}
