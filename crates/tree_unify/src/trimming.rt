//! A tree trimmed by rows that are known to hold.
ghost use Rattle.std.specs.Prelude.{◌≡◌, ℕ, ◌<◌, ◌≤◌, ◌↔◌, [], Err, IfOk, IsTrue, OnOk};
ghost use Rattle.linear_cons.specs.Exact.{IsOutside};
ghost use Rattle.linear_cons.specs.declared.exact.Wide.{Wide};
ghost use Rattle.decision_tree.specs.Plans.{IsEnd, plan_of, size_of};
ghost use Rattle.decision_tree.specs.declared.path.PathFault;
ghost use Rattle.tree_unify.specs.Builds.{Builds};
ghost use Rattle.tree_unify.specs.Shapes.{MetFits, TrimFits, beside, laying, leaf_met, meeting, trimmed};
ghost use Rattle.tree_unify.specs.declared.fault.TreeFault.TheVariants.{Full as TooFull, Wide as TooWide};

use crate::choosing::choose;
use crate::fault::TreeFault;
use crate::join::Join;
use crate::walk::{Stopped, Walk};
use decision_tree::{PathFault, Rank, Shared, Tree};
use linear_cons::Row;
use std::alloc::{AllocError, Global};

/// The tree trimmed by the rows of a path: at a node whose row they settle its side is taken, and else
/// each side is trimmed with the row or its complement behind them; equal sides make one. It has the
/// tree's leaf at each store that meets the path. `Full` comes exactly where it would have more than
/// 65,536 nodes, `Wide` exactly where a complement that it forms has a number outside `i128`; where
/// both stand, either may come. `Memory` says nothing.
pub fn trim<R: Rank>(alloc: Global, tree: &Tree<R>, path: &[Row]) -> Result<Tree<R>, TreeFault>
    ensures tree { IfOk result (λ made. plan_of made ≡ trimmed R.eq path.now (plan_of tree.now)) }
    ensures small { IfOk result (λ made. size_of (plan_of made) ≤ 65536) }
    ensures fits { OnOk result (TrimFits R.eq path.now (plan_of tree.now)) }
    ensures full { (count : ℕ) → result ≡ Err (TooFull count)
        → (65536 < count) × (65536 < size_of (trimmed R.eq path.now (plan_of tree.now))) }
    ensures wide { (w : Wide) → result ≡ Err (TooWide w) → TrimFits R.eq path.now (plan_of tree.now) → ⊥ }
    ensures operands { (w : Wide) → result ≡ Err (TooWide w) → IsOutside w }
{
    let mut walk = Walk::new(alloc);
    follow(&mut walk, path)?;
    let undefined = Tree::Bottom;
    match lay(alloc, &mut walk, Join::Both, &undefined, tree) {
        Ok(part) => Ok(Box::into_inner(part)),
        Err(_) => Err(walk.fault),
    }
}

/// Goes down the rows.
fn follow(walk: &mut Walk, path: &[Row]) -> Result<(), AllocError>
    requires { walk.old.trail ≡ [] }
    ensures { OnOk result (walk.new.trail ≡ path.now) }
{
    for row in path {
        walk.trail.down(row)?;
    }
    Ok(())
}

/// The second tree trimmed by the rows of the walk, with what stands where the leaf meets its leaves.
/// The walk is where it was, and knows the size. A leaf on a yes side comes last, and asks nothing of the
/// walk.
pub(crate) fn lay<R: Rank>(
    alloc: Global,
    walk: &mut Walk,
    join: Join,
    leaf: &Tree<R>,
    second: &Tree<R>,
) -> Result<Box<Tree<R>>, Stopped>
    ensures { Builds (laying R.eq R.Rank.own join (plan_of leaf.now) walk.old.trail (plan_of second.now)) walk.old walk.new result }
{
    let Tree::Node { row, yes, no } = second else {
        return meet(alloc, walk, join, leaf, second);
    };
    match walk.settles(row) {
        Some(true) => lay(alloc, walk, join, leaf, yes),
        Some(false) => lay(alloc, walk, join, leaf, no),
        None => {
            if is_leaf(yes) {
                walk.down_no(row)?;
                let other = lay(alloc, walk, join, leaf, no)?;
                walk.trail.up();
                return lay_beside(alloc, walk, join, leaf, row, yes, other);
            }
            walk.down(row)?;
            let first = lay(alloc, walk, join, leaf, yes)?;
            let size = walk.size;
            if let Err(stopped) = walk.turn() {
                Tree::discard(first);
                return Err(stopped);
            }
            match lay(alloc, walk, join, leaf, no) {
                Ok(other) => {
                    walk.trail.up();
                    walk.join_sides(alloc, row, first, other, size)
                }
                Err(stopped) => {
                    Tree::discard(first);
                    Err(stopped)
                }
            }
        }
    }
}

/// The node of the row, with what stands where the leaf meets the one on its yes side, and on its no side
/// the part that was made last.
#[inline(never)]
fn lay_beside<R: Rank>(
    alloc: Global,
    walk: &mut Walk,
    join: Join,
    leaf: &Tree<R>,
    row: &Shared<Row>,
    second: &Tree<R>,
    no: Box<Tree<R>>,
) -> Result<Box<Tree<R>>, Stopped>
    requires no { (walk.old.size ≡ size_of (plan_of no.value)) × (walk.old.size ≤ 65536) }
    ensures { Builds (beside R.eq row.now (meeting R.eq R.Rank.own join (plan_of leaf.now) (plan_of second.now)) (plan_of no.value)) walk.old walk.new result }
{
    let no_size = walk.size;
    let yes = meet(alloc, walk, join, leaf, second)?;
    let yes_size = walk.size;
    walk.size = no_size;
    walk.join_sides(alloc, row, yes, no, yes_size)
}

/// Whether the tree is a leaf.
pub(crate) fn is_leaf<R: Rank>(tree: &Tree<R>) -> bool
    ensures { IsTrue result ↔ IsEnd (plan_of tree.now) }
{
    match tree {
        Tree::Bottom | Tree::Top(_) | Tree::Leaf { .. } => true,
        Tree::Node { .. } => false,
    }
}

/// What stands where the leaf meets the second one; its size is known.
#[inline(never)]
fn meet<R: Rank>(
    alloc: Global,
    walk: &mut Walk,
    join: Join,
    leaf: &Tree<R>,
    second: &Tree<R>,
) -> Result<Box<Tree<R>>, Stopped>
    ensures { Builds (meeting R.eq R.Rank.own join (plan_of leaf.now) (plan_of second.now)) walk.old walk.new result }
{
    match met(alloc, join, leaf, second) {
        Ok(tree) => walk.measured(tree),
        Err(PathFault::Wide(wide)) => Err(walk.stop(TreeFault::Wide(wide))),
        Err(PathFault::Memory(error)) => Err(walk.stop(TreeFault::Memory(error))),
    }
}

/// What stands where the leaf meets the second one.
fn met<R: Rank>(
    alloc: Global,
    join: Join,
    leaf: &Tree<R>,
    second: &Tree<R>,
) -> Result<Box<Tree<R>>, PathFault>
    ensures tree { IfOk result (λ tree. plan_of tree.value
        ≡ leaf_met R.eq R.where_greater R.greater_fits join (plan_of leaf.now) (plan_of second.now)) }
    ensures fits { OnOk result (MetFits R.eq R.where_greater R.greater_fits join (plan_of leaf.now) (plan_of second.now)) }
    ensures wide { (w : Wide) → result ≡ Err (PathFault.Wide w)
        → MetFits R.eq R.where_greater R.greater_fits join (plan_of leaf.now) (plan_of second.now) → ⊥ }
    ensures operands { (w : Wide) → result ≡ Err (PathFault.Wide w) → IsOutside w }
{
    let tree = match (join, leaf, second) {
        (Join::Either, _, Tree::Leaf { .. }) => second.boxed(alloc)?,
        (Join::Either, _, _) => leaf.boxed(alloc)?,
        (Join::Both, _, _) => second.boxed(alloc)?,
        (Join::Later, Tree::Leaf { rank, .. }, Tree::Leaf { rank: other, .. }) => {
            choose::<R>(alloc, other, rank, second, leaf)?
        }
        (Join::Later, _, _) => second.boxed(alloc)?,
    };
    Ok(tree)
}
