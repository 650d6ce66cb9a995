//! The tree before what is done at a label, by those of the labels that follow.
ghost use Rattle.std.specs.Prelude.{◌≡◌, ℕ, Err, IfOk, length};
ghost use Rattle.linear_cons.specs.Exact.{IsOutside};
ghost use Rattle.linear_cons.specs.declared.exact.Wide.{Wide};
ghost use Rattle.decision_tree.specs.Plans.{plan_of};
ghost use Rattle.tree_unify.specs.declared.fault.TreeFault.TheVariants.{Full as TooFull, Wide as TooWide};
ghost use Rattle.backward_transfer.specs.AffineShapes.{plans, tree_at};
ghost use Rattle.control_flow.specs.Transitions.{LeadsWithin, first_target, second_target};
ghost use Rattle.backward_sweeps.specs.Before.{BeforeFits, IsBeforeSmall, before};
ghost use Rattle.backward_sweeps.specs.Moving.{AllFit, AreAllSmall, at_once, before_all};
ghost use Rattle.backward_sweeps.specs.Picking.{AreOutcomesSmall, AreSomeSmall, AreValuesSmall, OutcomesFit, SomeFit, ValuesFit};
ghost use Rattle.backward_sweeps.specs.Picking.{before_outcome, before_some, before_value};

use backward_transfer::{back_assign, back_pick, back_range, back_skip, back_some, back_test};
use control_flow::{Choice, Transition};
use decision_tree::{AffineRank, Tree, Why};
use linear_cons::Affine;
use std::alloc::{AllocError, Global};
use tree_unify::TreeFault;

/// The tree before what is done at a label, with the trees of all labels given, for all next states or, where `all` is false, for some: then
/// the outcome of a free test and the number of a range are picked, and all else is as for all. `Full` comes only where a tree that is formed
/// on the way would have more than 65,536 nodes, `Wide` only where a function, a rank, a difference of ranks or a complement has a number
/// outside `i128`. `Memory` says nothing.
pub fn moved_back(
    alloc: Global,
    all: bool,
    transition: &Transition,
    trees: &[Tree<AffineRank>],
) -> Result<Tree<AffineRank>, TreeFault>
    requires { LeadsWithin (length trees.now) transition.now }
    ensures tree { IfOk result (λ tree. plan_of tree ≡ before all transition.now
        (tree_at (plans trees.now) (first_target transition.now)) (tree_at (plans trees.now) (second_target transition.now))) }
    ensures full { (count : ℕ) → result ≡ Err (TooFull count)
        → IsBeforeSmall all transition.now (tree_at (plans trees.now) (first_target transition.now))
        (tree_at (plans trees.now) (second_target transition.now)) → ⊥ }
    ensures wide { (w : Wide) → result ≡ Err (TooWide w)
        → BeforeFits all transition.now (tree_at (plans trees.now) (first_target transition.now))
        (tree_at (plans trees.now) (second_target transition.now)) → ⊥ }
    ensures operands { (w : Wide) → result ≡ Err (TooWide w) → IsOutside w }
{
    if all {
        for_all(alloc, transition, trees)
    } else {
        for_some(alloc, transition, trees)
    }
}

/// The tree before what is done, for all next states.
fn for_all(
    alloc: Global,
    transition: &Transition,
    trees: &[Tree<AffineRank>],
) -> Result<Tree<AffineRank>, TreeFault>
    requires { LeadsWithin (length trees.now) transition.now }
    ensures tree { IfOk result (λ tree. plan_of tree ≡ before_all transition.now
        (tree_at (plans trees.now) (first_target transition.now)) (tree_at (plans trees.now) (second_target transition.now))) }
    ensures full { (count : ℕ) → result ≡ Err (TooFull count)
        → AreAllSmall transition.now (tree_at (plans trees.now) (first_target transition.now)) (tree_at (plans trees.now) (second_target transition.now))
        → ⊥ }
    ensures wide { (w : Wide) → result ≡ Err (TooWide w)
        → AllFit transition.now (tree_at (plans trees.now) (first_target transition.now)) (tree_at (plans trees.now) (second_target transition.now))
        → ⊥ }
    ensures operands { (w : Wide) → result ≡ Err (TooWide w) → IsOutside w }
{
    match transition {
        Transition::End => Ok(Tree::Bottom),
        Transition::Dead => {
            let tree = at_once(alloc, Why::Dead)?;
            Ok(tree)
        }
        Transition::Pass { to } => back_skip(alloc, &trees[*to as usize]),
        Transition::Assign { place, value, to } => {
            back_assign(alloc, &trees[*to as usize], place.number, value)
        }
        Transition::Choose {
            place,
            range,
            choice: _,
            cases: _,
            to,
        } => back_range(alloc, &trees[*to as usize], place.number, range),
        Transition::Test {
            is_head: _,
            choice: _,
            holds,
            fails,
            yes,
            no,
        } => back_test(
            alloc,
            &trees[*yes as usize],
            &trees[*no as usize],
            holds,
            fails,
        ),
    }
}

/// The tree before what is done, for some next state: where it may be chosen it is picked, and else it is as for all.
fn for_some(
    alloc: Global,
    transition: &Transition,
    trees: &[Tree<AffineRank>],
) -> Result<Tree<AffineRank>, TreeFault>
    requires { LeadsWithin (length trees.now) transition.now }
    ensures tree { IfOk result (λ tree. plan_of tree ≡ before_some transition.now
        (tree_at (plans trees.now) (first_target transition.now)) (tree_at (plans trees.now) (second_target transition.now))) }
    ensures full { (count : ℕ) → result ≡ Err (TooFull count)
        → AreSomeSmall transition.now (tree_at (plans trees.now) (first_target transition.now)) (tree_at (plans trees.now) (second_target transition.now))
        → ⊥ }
    ensures wide { (w : Wide) → result ≡ Err (TooWide w)
        → SomeFit transition.now (tree_at (plans trees.now) (first_target transition.now)) (tree_at (plans trees.now) (second_target transition.now))
        → ⊥ }
    ensures operands { (w : Wide) → result ≡ Err (TooWide w) → IsOutside w }
{
    match transition.choice() {
        Choice::None => for_all(alloc, transition, trees),
        Choice::Branch => with_outcome(alloc, transition, trees),
        Choice::Range { lo, hi } => with_value(alloc, transition, lo, hi, trees),
    }
}

/// The tree before a test of which one outcome is picked, and before anything else as for all next states.
fn with_outcome(
    alloc: Global,
    transition: &Transition,
    trees: &[Tree<AffineRank>],
) -> Result<Tree<AffineRank>, TreeFault>
    requires { LeadsWithin (length trees.now) transition.now }
    ensures tree { IfOk result (λ tree. plan_of tree ≡ before_outcome transition.now
        (tree_at (plans trees.now) (first_target transition.now)) (tree_at (plans trees.now) (second_target transition.now))) }
    ensures full { (count : ℕ) → result ≡ Err (TooFull count)
        → AreOutcomesSmall transition.now (tree_at (plans trees.now) (first_target transition.now))
        (tree_at (plans trees.now) (second_target transition.now)) → ⊥ }
    ensures wide { (w : Wide) → result ≡ Err (TooWide w)
        → OutcomesFit transition.now (tree_at (plans trees.now) (first_target transition.now))
        (tree_at (plans trees.now) (second_target transition.now)) → ⊥ }
    ensures operands { (w : Wide) → result ≡ Err (TooWide w) → IsOutside w }
{
    match transition {
        Transition::Test {
            is_head: _,
            choice: _,
            holds: _,
            fails: _,
            yes,
            no,
        } => back_pick(alloc, &trees[*yes as usize], &trees[*no as usize]),
        _ => for_all(alloc, transition, trees),
    }
}

/// The tree before the assignment of a number of a range of which one is picked, and before anything else as for all next states.
fn with_value(
    alloc: Global,
    transition: &Transition,
    lo: Option<i64>,
    hi: Option<i64>,
    trees: &[Tree<AffineRank>],
) -> Result<Tree<AffineRank>, TreeFault>
    requires { LeadsWithin (length trees.now) transition.now }
    ensures tree { IfOk result (λ tree. plan_of tree ≡ before_value lo hi transition.now
        (tree_at (plans trees.now) (first_target transition.now)) (tree_at (plans trees.now) (second_target transition.now))) }
    ensures full { (count : ℕ) → result ≡ Err (TooFull count)
        → AreValuesSmall lo hi transition.now (tree_at (plans trees.now) (first_target transition.now))
        (tree_at (plans trees.now) (second_target transition.now)) → ⊥ }
    ensures wide { (w : Wide) → result ≡ Err (TooWide w)
        → ValuesFit lo hi transition.now (tree_at (plans trees.now) (first_target transition.now))
        (tree_at (plans trees.now) (second_target transition.now)) → ⊥ }
    ensures operands { (w : Wide) → result ≡ Err (TooWide w) → IsOutside w }
{
    match transition {
        Transition::Choose {
            place,
            range: _,
            choice: _,
            cases: _,
            to,
        } => back_some(alloc, &trees[*to as usize], place.number, lo, hi),
        _ => for_all(alloc, transition, trees),
    }
}

/// A claim of rank 0 for the reason.
pub fn at_once(alloc: Global, why: Why) -> Result<Tree<AffineRank>, AllocError>
    ensures { IfOk result (λ tree. plan_of tree ≡ at_once why) }
{
    let rank = AffineRank {
        value: Affine::constant(0),
    };
    Tree::claim(alloc, &why, &rank)
}
