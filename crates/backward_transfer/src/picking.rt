//! Trees moved back over a free test of which one outcome is picked.
ghost use Rattle.std.specs.Prelude.{◌≡◌, ℕ, ◌<◌, [], Err, IfOk, OnOk};
ghost use Rattle.linear_cons.specs.Exact.{IsOutside};
ghost use Rattle.linear_cons.specs.declared.exact.Wide.{Wide};
ghost use Rattle.decision_tree.specs.Plans.{plan_of};
ghost use Rattle.tree_unify.specs.Builds.{Builds};
ghost use Rattle.tree_unify.specs.Shapes.{TrimFits, joining, trimmed};
ghost use Rattle.tree_unify.specs.declared.fault.TreeFault.TheVariants.{Full as TooFull, Wide as TooWide};
ghost use Rattle.tree_unify.specs.declared.join.Join.TheVariants.{Either};
ghost use Rattle.backward_transfer.specs.Picks.{ArePicksSmall, PickFits, picked, picking};

use crate::stepping::step;
use decision_tree::{Pick, Rank, Tree};
use std::alloc::Global;
use tree_unify::{Stopped, TreeFault, Walk, either, trim};

/// The tree before a free test of which one outcome is picked, with the trees behind the two outcomes given:
/// one more step at each defined leaf behind the one that holds, for that outcome; where that tree claims
/// nothing, those behind the one that fails; and trimmed. `Full` comes exactly where a tree that this forms
/// before the trimming would have more than 65,536 nodes, `Wide` exactly where a rank with one more, or a
/// complement that it forms, has a number outside `i128`; where both stand, either may come. `Memory` says
/// nothing.
pub fn back_pick<R: Rank>(alloc: Global, yes: &Tree<R>, no: &Tree<R>) -> Result<Tree<R>, TreeFault>
    ensures tree { IfOk result (λ made. plan_of made
        ≡ trimmed R.eq [] (picked R.eq R.where_greater R.greater_fits R.one_more (plan_of yes.now) (plan_of no.now))) }
    ensures small { OnOk result (ArePicksSmall R.eq R.where_greater R.greater_fits R.one_more 65536 (plan_of yes.now) (plan_of no.now)) }
    ensures moved { OnOk result (PickFits R.eq R.where_greater R.greater_fits R.one_more R.add_one_fits (plan_of yes.now) (plan_of no.now)) }
    ensures rows { OnOk result (TrimFits R.eq [] (picked R.eq R.where_greater R.greater_fits R.one_more (plan_of yes.now) (plan_of no.now))) }
    ensures full { (count : ℕ) → result ≡ Err (TooFull count) → (65536 < count)
        × (ArePicksSmall R.eq R.where_greater R.greater_fits R.one_more 65536 (plan_of yes.now) (plan_of no.now) → ⊥) }
    ensures wide { (w : Wide) → result ≡ Err (TooWide w)
        → PickFits R.eq R.where_greater R.greater_fits R.one_more R.add_one_fits (plan_of yes.now) (plan_of no.now)
        → TrimFits R.eq [] (picked R.eq R.where_greater R.greater_fits R.one_more (plan_of yes.now) (plan_of no.now)) → ⊥ }
    ensures operands { (w : Wide) → result ≡ Err (TooWide w) → IsOutside w }
{
    let mut walk = Walk::new(alloc);
    match pick(alloc, &mut walk, yes, no) {
        Ok(moved) => trim(alloc, &moved, &[]),
        Err(_) => Err(walk.fault),
    }
}

/// The tree before the test, before it is trimmed; the walk knows the size.
fn pick<R: Rank>(
    alloc: Global,
    walk: &mut Walk,
    yes: &Tree<R>,
    no: &Tree<R>,
) -> Result<Box<Tree<R>>, Stopped>
    ensures { Builds (picking R.eq R.Rank.own (plan_of yes.now) (plan_of no.now)) walk.old walk.new result }
{
    let first = step(alloc, walk, &Pick::Yes, yes)?;
    match step(alloc, walk, &Pick::No, no) {
        Ok(second) => join_either(alloc, walk, &first, &second),
        Err(stopped) => {
            Tree::discard(first);
            Err(stopped)
        }
    }
}

/// The first of two trees that claims something; its size is known.
#[inline(never)]
pub(crate) fn join_either<R: Rank>(
    alloc: Global,
    walk: &mut Walk,
    first: &Tree<R>,
    second: &Tree<R>,
) -> Result<Box<Tree<R>>, Stopped>
    ensures { Builds (joining R.eq R.Rank.own Either (plan_of first.now) (plan_of second.now)) walk.old walk.new result }
{
    match either(alloc, first, second) {
        Ok(tree) => match Box::new(alloc, tree) {
            Ok(tree) => walk.measured(tree),
            Err(error) => Err(walk.stop(TreeFault::Memory(error.into()))),
        },
        Err(fault) => Err(walk.stop(fault)),
    }
}
