//! The widening of a tree.
ghost use Rattle.std.specs.Prelude.{◌≡◌, ℕ, ◌<◌, ◌≤◌, Err, IfOk, OnErr, OnOk};
ghost use Rattle.linear_cons.specs.Exact.{IsOutside};
ghost use Rattle.linear_cons.specs.declared.exact.Wide.{Wide};
ghost use Rattle.linear_cons.specs.declared.row.Row.{Row};
ghost use Rattle.decision_tree.specs.Plans.{plan_of, size_of};
ghost use Rattle.decision_tree.specs.declared.path.PathFault.TheVariants.{Wide as TooWide};
ghost use Rattle.tree_unify.specs.Pruned.{HasRow};
ghost use Rattle.tree_unify.specs.declared.fault.TreeFault.TheVariants.{Full, Wide as WideFault};
ghost use Rattle.tree_unify.specs.Shapes.{TrimWithFits};
ghost use Rattle.tree_widening.specs.Leaves.{beginning};
ghost use Rattle.tree_widening.specs.Widening.{ExceedFits, IsHeld, IsWidened, IsWideningOf, WidenedFits, WideningFits};

use crate::against::tells_against;
use crate::extrapolates::Extrapolates;
use crate::extrapolation::grow;
use crate::newer::beginnings;
use crate::walk::{Stopped, Walk};
use decision_tree::{HeldCause, HeldWhy, MOST_NODES, PathFault, Rank, Shared, Tree};
use std::alloc::Global;
use tree_unify::TreeFault;

/// The old tree, widened by the new one. It has the old tree's nodes, but for those whose sides become
/// equal. A leaf that was given up stays. A claim stays where each leaf of the new tree, trimmed by the
/// claim's path, makes a claim whose rank the solver shows to exceed it nowhere there, and else is given up.
/// A leaf without a claim takes the first claim of the new tree there, extrapolated along the last row on
/// the path from the claim beside it, where there is one; where the new tree has no claim there, or the
/// old tree is a single leaf, the leaf stays without a claim.
///
/// `Full` comes only where the old tree has more than 65,536 nodes, `Wide` only where a number that may be
/// formed lies outside `i128`. `Memory` says nothing.
pub fn widen<R: Extrapolates>(
    alloc: Global,
    old: &Tree<R>,
    new: &Tree<R>,
) -> Result<Tree<R>, TreeFault>
    ensures widened { IfOk result (λ made. IsWideningOf R.eq R.Rank.own R.raised (plan_of old.now) (plan_of new.now) (plan_of made)) }
    ensures rows { IfOk result (λ made. (row : Row) → HasRow row (plan_of made) → HasRow row (plan_of old.now)) }
    ensures size { IfOk result (λ made. size_of (plan_of made) ≤ size_of (plan_of old.now)) }
    ensures full { (count : ℕ) → result ≡ Err (Full count) → (65536 < count) × (65536 < size_of (plan_of old.now)) }
    ensures wide { (w : Wide) → result ≡ Err (WideFault w) → WideningFits R.eq R.greater_fits R.raised_fits (plan_of old.now) (plan_of new.now) → ⊥ }
    ensures operands { (w : Wide) → result ≡ Err (WideFault w) → IsOutside w }
{
    if old.size() > MOST_NODES {
        return Err(TreeFault::Full {
            count: MOST_NODES + 1,
        });
    }
    let mut walk = Walk::new(alloc);
    match weave(alloc, &mut walk, old, old, true, new, new) {
        Ok(made) => Ok(Box::into_inner(made)),
        Err(_) => match walk.fault {
            PathFault::Wide(wide) => Err(TreeFault::Wide(wide)),
            PathFault::Memory(error) => Err(TreeFault::Memory(error)),
        },
    }
}

/// The part of the old tree behind the rows of the walk, widened. It stands on a side of the node above it,
/// or is the whole tree, which counts as above itself. Behind these rows the newer tree is what `rest` is
/// there. The walk is where it was.
fn weave<R: Extrapolates>(
    alloc: Global,
    walk: &mut Walk,
    old: &Tree<R>,
    above: &Tree<R>,
    holds: bool,
    new: &Tree<R>,
    rest: &Tree<R>,
) -> Result<Box<Tree<R>>, Stopped>
    requires { beginning walk.old.trail (plan_of rest.now) ≡ beginning walk.old.trail (plan_of new.now) }
    ensures widened { IfOk result (λ made. IsWidened R.eq R.Rank.own R.raised (plan_of new.now) (plan_of above.now) holds walk.old.trail (plan_of old.now)
        (plan_of made.value)) }
    ensures trail { OnOk result (walk.new.trail ≡ walk.old.trail) }
    ensures wide { OnErr result ((w : Wide) → walk.new.fault ≡ TooWide w
        → WidenedFits R.eq R.greater_fits R.raised_fits (plan_of new.now) (plan_of above.now) holds walk.old.trail (plan_of old.now) → ⊥) }
    ensures operands { OnErr result ((w : Wide) → walk.new.fault ≡ TooWide w → IsOutside w) }
{
    match old {
        Tree::Bottom => grow(alloc, walk, above, holds, rest),
        Tree::Top(cause) => walk.given_up(alloc, cause),
        Tree::Leaf { why, rank } => hold(alloc, walk, why, rank, rest),
        Tree::Node { row, yes, no } => {
            let (this_rest, other_rest) = beginnings(&walk.trail, row, new, rest);
            walk.down(row)?;
            let this = weave(alloc, walk, yes, old, true, new, this_rest)?;
            if let Err(stopped) = walk.turn() {
                Tree::discard(this);
                return Err(stopped);
            }
            match weave(alloc, walk, no, old, false, new, other_rest) {
                Ok(other) => {
                    walk.trail.up();
                    walk.join_sides(alloc, row, this, other)
                }
                Err(stopped) => {
                    Tree::discard(this);
                    Err(stopped)
                }
            }
        }
    }
}

/// The claim, or what it is given up for. The walk is where it was.
#[inline(never)]
fn hold<R: Rank>(
    alloc: Global,
    walk: &mut Walk,
    why: &HeldWhy,
    rank: &Shared<R>,
    new: &Tree<R>,
) -> Result<Box<Tree<R>>, Stopped>
    ensures tree { IfOk result (λ made. IsHeld R.Rank.own why.now rank.now walk.old.trail (plan_of new.now) (plan_of made.value)) }
    ensures trail { OnOk result (walk.new.trail ≡ walk.old.trail) }
    ensures wide { OnErr result ((w : Wide) → walk.new.fault ≡ TooWide w
        → TrimWithFits R.eq (ExceedFits R.greater_fits rank.now) walk.old.trail (plan_of new.now) → ⊥) }
    ensures operands { OnErr result ((w : Wide) → walk.new.fault ≡ TooWide w → IsOutside w) }
{
    if tells_against::<R>(alloc, walk, rank, new)? {
        return walk.given_up(alloc, &HeldCause::given());
    }
    walk.claim(alloc, why, rank)
}
