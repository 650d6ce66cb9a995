//! A tree of an arena without the sides at which a numerical domain has no member.
ghost use Rattle.std.specs.Prelude.{◌≡◌, ℕ, ◌<◌, ◌≤◌, Err, IfOk, length};
ghost use Rattle.linear_cons.specs.Exact.{IsOutside};
ghost use Rattle.linear_cons.specs.declared.exact.Wide.{Wide};
ghost use Rattle.decision_tree.specs.Extent.{ComplementsFit};
ghost use Rattle.decision_tree.specs.Plans.{size_of};
ghost use Rattle.tree_unify.specs.Pruned.{IsPartOf, SameLeaves};
ghost use Rattle.tree_unify.specs.declared.fault.TreeFault.TheVariants.{Full as TooFull, Wide as TooWide};
ghost use Rattle.tree_arena.specs.Trees.{Extends, tree_at};

use crate::boxes::taken;
use decision_tree::Rank;
use num_domain::NumDomain;
use std::alloc::Global;
use tree_arena::{Arena, TreeRef};
use tree_unify::{TreeFault, prune};

/// The tree without the sides at which the domain's value has no member, as far as the domain tells: what `prune` makes of an equal tree in boxes. The refusals
/// are those of `prune`.
pub fn prune_in<R: Rank, D: NumDomain>(
    alloc: Global,
    arena: &mut Arena<R>,
    tree: TreeRef,
    at: &D,
) -> Result<TreeRef, TreeFault>
    requires { tree.place < length arena.old }
    ensures kept { Extends arena.old arena.new }
    ensures within { IfOk result (λ made. made.place < length arena.new) }
    ensures leaves { IfOk result (λ made. SameLeaves (D.has at.now) (tree_at arena.new made.place) (tree_at arena.old tree.place)) }
    ensures part { IfOk result (λ made. IsPartOf (tree_at arena.new made.place) (tree_at arena.old tree.place)) }
    ensures small { IfOk result (λ made. size_of (tree_at arena.new made.place) ≤ 65536) }
    ensures full { (count : ℕ) → result ≡ Err (TooFull count) → (65536 < count) × (65536 < size_of (tree_at arena.old tree.place)) }
    ensures wide { (w : Wide) → result ≡ Err (TooWide w) → ComplementsFit (tree_at arena.old tree.place) → ⊥ }
    ensures operands { (w : Wide) → result ≡ Err (TooWide w) → IsOutside w }
{
    let given = taken(alloc, arena, tree)?;
    let pruned = prune(alloc, &given, at)?;
    let made = arena.put(&pruned)?;
    Ok(made)
}
