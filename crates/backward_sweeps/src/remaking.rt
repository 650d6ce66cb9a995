//! The tree of a label by those of the labels that follow.
ghost use Rattle.std.specs.Prelude.{◌≡◌, ℕ, Err, IfOk, length, true};
ghost use Rattle.linear_cons.specs.Exact.{IsOutside};
ghost use Rattle.linear_cons.specs.declared.exact.Wide.{Wide};
ghost use Rattle.decision_tree.specs.Plans.{bottom, plan_of, top};
ghost use Rattle.decision_tree.specs.declared.reason.Cause.TheVariants.{Nodes, Wide as WideNumber};
ghost use Rattle.tree_unify.specs.declared.fault.TreeFault.TheVariants.{Full as TooFull, Memory, Wide as TooWide};
ghost use Rattle.backward_transfer.specs.AffineShapes.{cut, plans, tree_at};
ghost use Rattle.control_flow.specs.Transitions.{LeadsWithin, first_target, second_target};
ghost use Rattle.backward_sweeps.specs.Remaking.{HasNoCause, IsMade, IsMadeSmall, IsRemadeSmall, MadeFits, RemadeFits, made, parts_of};

use crate::moving::moved_back;
use crate::operands::Operands;
use control_flow::Transition;
use decision_tree::{AffineRank, Cause, Tree};
use std::alloc::{AllocError, Global};
use tree_unify::{TreeFault, both, either};

/// The tree of a label at which this is done, with the trees of all labels given: what the goal claims there, or else what the trees behind
/// the transition claim before it, where it is to be kept. `Full` comes only where a tree that is formed on the way would have more than 65,536
/// nodes, `Wide` only where a function, a rank, a difference of ranks or a complement has a number outside `i128`. `Memory` says nothing.
pub fn remade(
    alloc: Global,
    operands: &Operands<'_>,
    label: u32,
    transition: &Transition,
    trees: &[Tree<AffineRank>],
) -> Result<Tree<AffineRank>, TreeFault>
    requires { LeadsWithin (length trees.now) transition.now }
    ensures tree { IfOk result (λ tree. IsMade (parts_of operands.now) label transition.now (plans trees.now) (plan_of tree)) }
    ensures full { (count : ℕ) → result ≡ Err (TooFull count)
        → IsRemadeSmall (parts_of operands.now) label transition.now (tree_at (plans trees.now) (first_target transition.now))
        (tree_at (plans trees.now) (second_target transition.now)) → ⊥ }
    ensures wide { (w : Wide) → result ≡ Err (TooWide w)
        → RemadeFits (parts_of operands.now) label transition.now (tree_at (plans trees.now) (first_target transition.now))
        (tree_at (plans trees.now) (second_target transition.now)) → ⊥ }
    ensures operands { (w : Wide) → result ≡ Err (TooWide w) → IsOutside w }
{
    let none = Tree::Bottom;
    let goal = tree_at(operands.goal, label, &none);
    let keep = tree_at(operands.keep, label, &none);
    let moved = moved_back(alloc, operands.all, transition, trees)?;
    if stays(goal, keep, &moved) {
        return Ok(moved);
    }
    made(alloc, goal, keep, &moved)
}

/// Whether it is seen that a step's tree, once trimmed, is all that is made of it, what is claimed now and what is to be kept: nothing is claimed now, one leaf keeps
/// everywhere, and no leaf of the tree has a cause, which would be lost.
pub fn stays(now: &Tree<AffineRank>, keep: &Tree<AffineRank>, step: &Tree<AffineRank>) -> bool
    ensures { result ≡ true → cut (plan_of step.now) ≡ plan_of step.now → made (plan_of now.now) (plan_of keep.now) (plan_of step.now) ≡ plan_of step.now }
{
    if let Tree::Bottom = now {
        if let Tree::Leaf { .. } = keep {
            return has_no_cause(step);
        }
    }
    false
}

/// Whether no leaf of the tree has a cause.
fn has_no_cause(tree: &Tree<AffineRank>) -> bool
    ensures { result ≡ true → HasNoCause (plan_of tree.now) }
{
    match tree {
        Tree::Top(_) => false,
        Tree::Bottom | Tree::Leaf { .. } => true,
        Tree::Node { row: _, yes, no } => has_no_cause(yes) && has_no_cause(no),
    }
}

/// What is claimed now, or else what a step claims where it is to be kept. A tree that one leaf keeps everywhere is only trimmed by that, and
/// the step's tree is trimmed.
fn made(
    alloc: Global,
    now: &Tree<AffineRank>,
    keep: &Tree<AffineRank>,
    step: &Tree<AffineRank>,
) -> Result<Tree<AffineRank>, TreeFault>
    requires { cut (plan_of step.now) ≡ plan_of step.now }
    ensures tree { IfOk result (λ tree. plan_of tree ≡ made (plan_of now.now) (plan_of keep.now) (plan_of step.now)) }
    ensures full { (count : ℕ) → result ≡ Err (TooFull count) → IsMadeSmall (plan_of now.now) (plan_of keep.now) (plan_of step.now) → ⊥ }
    ensures wide { (w : Wide) → result ≡ Err (TooWide w) → MadeFits (plan_of now.now) (plan_of keep.now) (plan_of step.now) → ⊥ }
    ensures operands { (w : Wide) → result ≡ Err (TooWide w) → IsOutside w }
{
    if let Tree::Leaf { .. } = keep {
        return either(alloc, now, step);
    }
    let kept = both(alloc, keep, step)?;
    either(alloc, now, &kept)
}

/// The tree at the label, or, where the slice ends before, `none`, which claims nothing.
pub fn tree_at<'a>(
    trees: &'a [Tree<AffineRank>],
    label: u32,
    none: &'a Tree<AffineRank>,
) -> &'a Tree<AffineRank>
    requires { plan_of none.now ≡ bottom }
    ensures { plan_of result.now ≡ tree_at (plans trees.now) label }
{
    match trees.get(label as usize) {
        Some(tree) => tree,
        None => none,
    }
}

/// What a label has for a tree that can't be made: no claim, with the cause. The only error is want of memory.
pub fn given_up(alloc: Global, fault: TreeFault) -> Result<Tree<AffineRank>, AllocError>
    ensures full { (count : ℕ) → fault ≡ TooFull count → IfOk result (λ tree. (n : ℕ) × (plan_of tree ≡ top (Nodes n))) }
    ensures wide { (w : Wide) → fault ≡ TooWide w → IfOk result (λ tree. plan_of tree ≡ top (WideNumber w)) }
    ensures memory { (error : AllocError) → fault ≡ Memory error → IfOk result (λ tree. ⊥) }
{
    match fault {
        TreeFault::Full { count } => {
            let count = u32::try_from(count).unwrap_or(u32::MAX);
            let tree = Tree::given_up(alloc, &Cause::Nodes { count })?;
            Ok(tree)
        }
        TreeFault::Wide(wide) => {
            let tree = Tree::given_up(alloc, &Cause::Wide(wide))?;
            Ok(tree)
        }
        TreeFault::Memory(error) => Err(error),
    }
}
