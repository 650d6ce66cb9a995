//! Two trees of an arena moved back over a test.
ghost use Rattle.std.specs.Prelude.{◌≡◌, ℕ, ◌<◌, ◌≤◌, ⊤, [], Err, IfOk, OnOk, length};
ghost use Rattle.linear_cons.specs.Exact.{IsOutside};
ghost use Rattle.linear_cons.specs.declared.exact.Wide.{Wide};
ghost use Rattle.decision_tree.specs.Plans.{size_of};
ghost use Rattle.tree_unify.specs.Shapes.{TrimFits, trimmed};
ghost use Rattle.tree_unify.specs.declared.fault.TreeFault.TheVariants.{Full as TooFull, Wide as TooWide};
ghost use Rattle.tree_arena.specs.Trees.{Extends, IsAt, tree_at};
ghost use Rattle.backward_transfer.specs.Tests.{ComplementFits, EnabledFits, IsLaterSmall, TestAsks, tested};

use crate::boxes::taken;
use backward_transfer::back_test;
use decision_tree::Rank;
use linear_cons::Rows;
use std::alloc::Global;
use tree_arena::{Arena, TreeRef};
use tree_unify::TreeFault;

/// The tree before a test, with the trees behind its two outcomes given: what `back_test` makes of equal trees in boxes. The refusals are those of `back_test`.
pub fn back_test_in<R: Rank>(
    alloc: Global,
    arena: &mut Arena<R>,
    yes: TreeRef,
    no: TreeRef,
    yes_rows: &[Rows],
    no_rows: &[Rows],
) -> Result<TreeRef, TreeFault>
    requires yes { yes.place < length arena.old }
    requires no { no.place < length arena.old }
    ensures kept { Extends arena.old arena.new }
    ensures tree { IfOk result (λ made. IsAt arena.new made (trimmed R.eq [] (tested R.eq R.where_greater R.greater_fits R.one_more
        (tree_at arena.old yes.place) (tree_at arena.old no.place) yes_rows.now no_rows.now))) }
    ensures small { OnOk result (size_of (tested R.eq R.where_greater R.greater_fits R.one_more (tree_at arena.old yes.place)
        (tree_at arena.old no.place) yes_rows.now no_rows.now) ≤ 65536) }
    ensures later { OnOk result (TestAsks (λ row. ⊤) (IsLaterSmall R.eq R.where_greater R.greater_fits (tree_at arena.old yes.place)
        (tree_at arena.old no.place)) no_rows.now yes_rows.now) }
    ensures fits { OnOk result (TestAsks ComplementFits (EnabledFits R.eq R.where_greater R.greater_fits R.one_more R.add_one_fits
        (tree_at arena.old yes.place) (tree_at arena.old no.place)) no_rows.now yes_rows.now) }
    ensures rows { OnOk result (TrimFits R.eq [] (tested R.eq R.where_greater R.greater_fits R.one_more (tree_at arena.old yes.place)
        (tree_at arena.old no.place) yes_rows.now no_rows.now)) }
    ensures full { (count : ℕ) → result ≡ Err (TooFull count) → (65536 < count)
        × (TestAsks (λ row. ⊤) (IsLaterSmall R.eq R.where_greater R.greater_fits (tree_at arena.old yes.place) (tree_at arena.old no.place))
        no_rows.now yes_rows.now
        → size_of (tested R.eq R.where_greater R.greater_fits R.one_more (tree_at arena.old yes.place) (tree_at arena.old no.place) yes_rows.now
        no_rows.now) ≤ 65536 → ⊥) }
    ensures wide { (w : Wide) → result ≡ Err (TooWide w)
        → TestAsks ComplementFits (EnabledFits R.eq R.where_greater R.greater_fits R.one_more R.add_one_fits (tree_at arena.old yes.place)
        (tree_at arena.old no.place)) no_rows.now yes_rows.now
        → TrimFits R.eq [] (tested R.eq R.where_greater R.greater_fits R.one_more (tree_at arena.old yes.place) (tree_at arena.old no.place)
        yes_rows.now no_rows.now) → ⊥ }
    ensures operands { (w : Wide) → result ≡ Err (TooWide w) → IsOutside w }
{
    let first = taken(alloc, arena, yes)?;
    let second = taken(alloc, arena, no)?;
    let moved = back_test(alloc, &first, &second, yes_rows, no_rows)?;
    let made = arena.put(&moved)?;
    Ok(made)
}
