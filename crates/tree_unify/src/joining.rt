//! Two trees joined leaf by leaf.
ghost use Rattle.std.specs.Prelude.{◌≡◌, ℕ, ◌<◌, ◌≤◌, [], ◌∷◌, ◌++◌, Err, IfOk, OnOk};
ghost use Rattle.linear_cons.specs.Exact.{IsOutside};
ghost use Rattle.linear_cons.specs.declared.exact.Wide.{Wide};
ghost use Rattle.decision_tree.specs.Plans.{is_defined, plan_of, size_of};
ghost use Rattle.tree_unify.specs.Builds.{Builds};
ghost use Rattle.tree_unify.specs.Shapes.{JoinedFits, asks_second, beside, grafting, joined, replacing};
ghost use Rattle.tree_unify.specs.declared.fault.TreeFault.TheVariants.{Full as TooFull, Wide as TooWide};
ghost use Rattle.tree_unify.specs.declared.join.Join.TheVariants.{Both, Either, Later};

use crate::fault::TreeFault;
use crate::join::Join;
use crate::sizes::is_smaller;
use crate::trimming::{is_leaf, lay};
use crate::walk::{Stopped, Walk};
use decision_tree::{Rank, Shared, Tree};
use linear_cons::Row;
use std::alloc::Global;

/// The first tree's shape, with the second tree, trimmed by the leaf's path, in place of each undefined
/// leaf; where the second is undefined too the leaf stays. At each store it has the first tree's leaf
/// where that is defined or the second's is not, else the second's. `Full` comes exactly where it would
/// have more than 65,536 nodes, `Wide` exactly where a complement has a number outside `i128`: one of a
/// row of the first tree, or of one that the path of an undefined leaf doesn't settle. Where both stand,
/// either may come. `Memory` says nothing.
pub fn either<R: Rank>(alloc: Global, a: &Tree<R>, b: &Tree<R>) -> Result<Tree<R>, TreeFault>
    ensures tree { IfOk result (λ made. plan_of made ≡ joined R.eq R.where_greater R.greater_fits Either (plan_of a.now) (plan_of b.now)) }
    ensures small { IfOk result (λ made. size_of (plan_of made) ≤ 65536) }
    ensures fits { OnOk result (JoinedFits R.eq R.where_greater R.greater_fits Either (plan_of a.now) (plan_of b.now)) }
    ensures full { (count : ℕ) → result ≡ Err (TooFull count)
        → (65536 < count) × (65536 < size_of (joined R.eq R.where_greater R.greater_fits Either (plan_of a.now) (plan_of b.now))) }
    ensures wide { (w : Wide) → result ≡ Err (TooWide w)
        → JoinedFits R.eq R.where_greater R.greater_fits Either (plan_of a.now) (plan_of b.now) → ⊥ }
    ensures operands { (w : Wide) → result ≡ Err (TooWide w) → IsOutside w }
{
    join(alloc, Join::Either, a, b)
}

/// The first tree's shape, with the second tree, trimmed by the leaf's path, in place of each defined
/// leaf: at each store the second tree's leaf where the first is defined, else the first's. The refusals
/// are those of `either`, with the paths of the defined leaves.
pub fn both<R: Rank>(alloc: Global, a: &Tree<R>, b: &Tree<R>) -> Result<Tree<R>, TreeFault>
    ensures tree { IfOk result (λ made. plan_of made ≡ joined R.eq R.where_greater R.greater_fits Both (plan_of a.now) (plan_of b.now)) }
    ensures small { IfOk result (λ made. size_of (plan_of made) ≤ 65536) }
    ensures fits { OnOk result (JoinedFits R.eq R.where_greater R.greater_fits Both (plan_of a.now) (plan_of b.now)) }
    ensures full { (count : ℕ) → result ≡ Err (TooFull count)
        → (65536 < count) × (65536 < size_of (joined R.eq R.where_greater R.greater_fits Both (plan_of a.now) (plan_of b.now))) }
    ensures wide { (w : Wide) → result ≡ Err (TooWide w)
        → JoinedFits R.eq R.where_greater R.greater_fits Both (plan_of a.now) (plan_of b.now) → ⊥ }
    ensures operands { (w : Wide) → result ≡ Err (TooWide w) → IsOutside w }
{
    join(alloc, Join::Both, a, b)
}

/// The first tree's shape, with the second tree, trimmed by the leaf's path, in place of each defined
/// leaf, and in that, where both are defined, the leaf of the greater rank, the first tree's on a tie:
/// a node asks which, unless a constant difference tells. Where one is undefined, so is the result. The
/// refusals are those of `both`; `Wide` comes also where a difference of ranks that it compares, or the
/// complement of its row, has a number outside `i128`.
pub fn later<R: Rank>(alloc: Global, a: &Tree<R>, b: &Tree<R>) -> Result<Tree<R>, TreeFault>
    ensures tree { IfOk result (λ made. plan_of made ≡ joined R.eq R.where_greater R.greater_fits Later (plan_of a.now) (plan_of b.now)) }
    ensures small { IfOk result (λ made. size_of (plan_of made) ≤ 65536) }
    ensures fits { OnOk result (JoinedFits R.eq R.where_greater R.greater_fits Later (plan_of a.now) (plan_of b.now)) }
    ensures full { (count : ℕ) → result ≡ Err (TooFull count)
        → (65536 < count) × (65536 < size_of (joined R.eq R.where_greater R.greater_fits Later (plan_of a.now) (plan_of b.now))) }
    ensures wide { (w : Wide) → result ≡ Err (TooWide w)
        → JoinedFits R.eq R.where_greater R.greater_fits Later (plan_of a.now) (plan_of b.now) → ⊥ }
    ensures operands { (w : Wide) → result ≡ Err (TooWide w) → IsOutside w }
{
    join(alloc, Join::Later, a, b)
}

/// The first tree joined with the second.
fn join<R: Rank>(
    alloc: Global,
    join: Join,
    first: &Tree<R>,
    second: &Tree<R>,
) -> Result<Tree<R>, TreeFault>
    ensures tree { IfOk result (λ made. plan_of made
        ≡ joined R.eq R.where_greater R.greater_fits join (plan_of first.now) (plan_of second.now)) }
    ensures small { IfOk result (λ made. size_of (plan_of made) ≤ 65536) }
    ensures fits { OnOk result (JoinedFits R.eq R.where_greater R.greater_fits join (plan_of first.now) (plan_of second.now)) }
    ensures full { (count : ℕ) → result ≡ Err (TooFull count)
        → (65536 < count) × (65536 < size_of (joined R.eq R.where_greater R.greater_fits join (plan_of first.now) (plan_of second.now))) }
    ensures wide { (w : Wide) → result ≡ Err (TooWide w)
        → JoinedFits R.eq R.where_greater R.greater_fits join (plan_of first.now) (plan_of second.now) → ⊥ }
    ensures operands { (w : Wide) → result ≡ Err (TooWide w) → IsOutside w }
{
    let mut walk = Walk::new(alloc);
    match graft(alloc, &mut walk, join, first, second) {
        Ok(part) => Ok(Box::into_inner(part)),
        Err(_) => Err(walk.fault),
    }
}

/// The first tree with what stands in place of each of its leaves. The walk is where it was, and knows
/// the size. Of two sides the one that is no leaf is made first: what is made first is held while the
/// other is made, and along a line of rows all that stands in place of its leaves would be held at once.
fn graft<R: Rank>(
    alloc: Global,
    walk: &mut Walk,
    join: Join,
    first: &Tree<R>,
    second: &Tree<R>,
) -> Result<Box<Tree<R>>, Stopped>
    ensures { Builds (grafting R.eq R.Rank.own join (plan_of second.now) walk.old.trail (plan_of first.now)) walk.old walk.new result }
{
    match first {
        Tree::Bottom => graft_leaf(alloc, walk, join, first, second),
        Tree::Top(_) => graft_leaf(alloc, walk, join, first, second),
        Tree::Leaf { .. } => graft_leaf(alloc, walk, join, first, second),
        Tree::Node { row, yes, no } => {
            if is_leaf(yes) {
                walk.down_no(row)?;
                let other = graft(alloc, walk, join, no, second)?;
                walk.trail.up();
                return graft_beside(alloc, walk, join, row, yes, other, second);
            }
            if is_smaller(yes, no) {
                walk.down_no(row)?;
                let other = graft(alloc, walk, join, no, second)?;
                let size = walk.size;
                let other = walk.turn_back(row, other)?;
                return match graft(alloc, walk, join, yes, second) {
                    Ok(this) => {
                        walk.trail.up();
                        walk.join_last(alloc, row, this, other, size)
                    }
                    Err(stopped) => {
                        Tree::discard(other);
                        Err(stopped)
                    }
                };
            }
            walk.down(row)?;
            let this = graft(alloc, walk, join, yes, second)?;
            let size = walk.size;
            if let Err(stopped) = walk.turn() {
                Tree::discard(this);
                return Err(stopped);
            }
            match graft(alloc, walk, join, no, second) {
                Ok(other) => {
                    walk.trail.up();
                    walk.join_sides(alloc, row, this, other, size)
                }
                Err(stopped) => {
                    Tree::discard(this);
                    Err(stopped)
                }
            }
        }
    }
}

/// The node of the row, with what stands in place of the leaf on its yes side, and on its no side the part
/// that was made last.
#[inline(never)]
fn graft_beside<R: Rank>(
    alloc: Global,
    walk: &mut Walk,
    join: Join,
    row: &Shared<Row>,
    leaf: &Tree<R>,
    no: Box<Tree<R>>,
    second: &Tree<R>,
) -> Result<Box<Tree<R>>, Stopped>
    requires no { (walk.old.size ≡ size_of (plan_of no.value)) × (walk.old.size ≤ 65536) }
    ensures { Builds (beside R.eq row.now (replacing R.eq R.Rank.own join (plan_of second.now) (walk.old.trail ++ row.now ∷ []) (plan_of leaf.now))
        (plan_of no.value)) walk.old walk.new result }
{
    let no_size = walk.size;
    let yes = graft_below(alloc, walk, join, row, leaf, second)?;
    let yes_size = walk.size;
    walk.size = no_size;
    walk.join_sides(alloc, row, yes, no, yes_size)
}

/// What stands in place of the leaf on the yes side of a node with the row. The row is entered only where
/// the second tree is asked.
#[inline(never)]
fn graft_below<R: Rank>(
    alloc: Global,
    walk: &mut Walk,
    join: Join,
    row: &Shared<Row>,
    leaf: &Tree<R>,
    second: &Tree<R>,
) -> Result<Box<Tree<R>>, Stopped>
    ensures { Builds (replacing R.eq R.Rank.own join (plan_of second.now) (walk.old.trail ++ row.now ∷ []) (plan_of leaf.now))
        walk.old walk.new result }
{
    if !asks_second(join, leaf) {
        return walk.copied(alloc, leaf);
    }
    walk.down(row)?;
    let part = lay(alloc, walk, join, leaf, second)?;
    walk.trail.up();
    Ok(part)
}

/// What stands in place of a leaf of the first tree.
#[inline(never)]
fn graft_leaf<R: Rank>(
    alloc: Global,
    walk: &mut Walk,
    join: Join,
    leaf: &Tree<R>,
    second: &Tree<R>,
) -> Result<Box<Tree<R>>, Stopped>
    ensures { Builds (replacing R.eq R.Rank.own join (plan_of second.now) walk.old.trail (plan_of leaf.now)) walk.old walk.new result }
{
    if asks_second(join, leaf) {
        lay(alloc, walk, join, leaf, second)
    } else {
        walk.copied(alloc, leaf)
    }
}

/// Whether the second tree is asked at the leaf of the first.
fn asks_second<R: Rank>(join: Join, leaf: &Tree<R>) -> bool
    ensures { result ≡ asks_second join (plan_of leaf.now) }
{
    match join {
        Join::Either => !is_defined(leaf),
        Join::Both => is_defined(leaf),
        Join::Later => is_defined(leaf),
    }
}

/// Whether the tree is a defined leaf.
fn is_defined<R: Rank>(tree: &Tree<R>) -> bool
    ensures { result ≡ is_defined (plan_of tree.now) }
{
    match tree {
        Tree::Leaf { .. } => true,
        Tree::Bottom | Tree::Top(_) => false,
        Tree::Node { .. } => false,
    }
}
