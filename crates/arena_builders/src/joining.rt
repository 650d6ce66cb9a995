//! Two trees of an arena joined leaf by leaf.
ghost use Rattle.std.specs.Prelude.{◌≡◌, ℕ, ◌<◌, ◌≤◌, Err, IfOk, OnOk, length};
ghost use Rattle.linear_cons.specs.Exact.{IsOutside};
ghost use Rattle.linear_cons.specs.declared.exact.Wide.{Wide};
ghost use Rattle.decision_tree.specs.Plans.{IsEnd, size_of};
ghost use Rattle.tree_unify.specs.Shapes.{JoinedFits, asks_second, grafting, joined};
ghost use Rattle.tree_unify.specs.declared.fault.TreeFault.TheVariants.{Full as TooFull, Wide as TooWide};
ghost use Rattle.tree_unify.specs.declared.join.Join.TheVariants.{Both, Either, Later};
ghost use Rattle.tree_arena.specs.Trees.{Extends, IsAt, tree_at};
ghost use Rattle.arena_builders.specs.BuildsIn.{BuildsIn};

use crate::laying::lay_in;
use crate::nodes::{down, is_claim, join_at, sides};
use decision_tree::Rank;
use std::alloc::Global;
use tree_arena::{Arena, TreeRef};
use tree_unify::{Join, Stopped, TreeFault, Walk};

/// The first tree's shape, with the second tree, trimmed by the leaf's path, in place of each undefined leaf: what `either` makes of equal trees in boxes. The
/// refusals are those of `either`.
pub fn either_in<R: Rank>(
    alloc: Global,
    arena: &mut Arena<R>,
    a: TreeRef,
    b: TreeRef,
) -> Result<TreeRef, TreeFault>
    requires a { a.place < length arena.old }
    requires b { b.place < length arena.old }
    ensures kept { Extends arena.old arena.new }
    ensures tree { IfOk result (λ made. IsAt arena.new made
        (joined R.eq R.where_greater R.greater_fits Either (tree_at arena.old a.place) (tree_at arena.old b.place))) }
    ensures small { IfOk result (λ made. size_of (tree_at arena.new made.place) ≤ 65536) }
    ensures fits { OnOk result (JoinedFits R.eq R.where_greater R.greater_fits Either (tree_at arena.old a.place) (tree_at arena.old b.place)) }
    ensures full { (count : ℕ) → result ≡ Err (TooFull count) → (65536 < count)
        × (65536 < size_of (joined R.eq R.where_greater R.greater_fits Either (tree_at arena.old a.place) (tree_at arena.old b.place))) }
    ensures wide { (w : Wide) → result ≡ Err (TooWide w)
        → JoinedFits R.eq R.where_greater R.greater_fits Either (tree_at arena.old a.place) (tree_at arena.old b.place) → ⊥ }
    ensures operands { (w : Wide) → result ≡ Err (TooWide w) → IsOutside w }
{
    join_in(alloc, arena, Join::Either, a, b)
}

/// The first tree's shape, with the second tree, trimmed by the leaf's path, in place of each defined leaf: what `both` makes of equal trees in boxes. The refusals
/// are those of `both`.
pub fn both_in<R: Rank>(
    alloc: Global,
    arena: &mut Arena<R>,
    a: TreeRef,
    b: TreeRef,
) -> Result<TreeRef, TreeFault>
    requires a { a.place < length arena.old }
    requires b { b.place < length arena.old }
    ensures kept { Extends arena.old arena.new }
    ensures tree { IfOk result (λ made. IsAt arena.new made
        (joined R.eq R.where_greater R.greater_fits Both (tree_at arena.old a.place) (tree_at arena.old b.place))) }
    ensures small { IfOk result (λ made. size_of (tree_at arena.new made.place) ≤ 65536) }
    ensures fits { OnOk result (JoinedFits R.eq R.where_greater R.greater_fits Both (tree_at arena.old a.place) (tree_at arena.old b.place)) }
    ensures full { (count : ℕ) → result ≡ Err (TooFull count) → (65536 < count)
        × (65536 < size_of (joined R.eq R.where_greater R.greater_fits Both (tree_at arena.old a.place) (tree_at arena.old b.place))) }
    ensures wide { (w : Wide) → result ≡ Err (TooWide w)
        → JoinedFits R.eq R.where_greater R.greater_fits Both (tree_at arena.old a.place) (tree_at arena.old b.place) → ⊥ }
    ensures operands { (w : Wide) → result ≡ Err (TooWide w) → IsOutside w }
{
    join_in(alloc, arena, Join::Both, a, b)
}

/// The first tree's shape, with the second tree, trimmed by the leaf's path, in place of each defined leaf, and in that, where both are defined, the leaf of the
/// greater rank: what `later` makes of equal trees in boxes. The refusals are those of `later`.
pub fn later_in<R: Rank>(
    alloc: Global,
    arena: &mut Arena<R>,
    a: TreeRef,
    b: TreeRef,
) -> Result<TreeRef, TreeFault>
    requires a { a.place < length arena.old }
    requires b { b.place < length arena.old }
    ensures kept { Extends arena.old arena.new }
    ensures tree { IfOk result (λ made. IsAt arena.new made
        (joined R.eq R.where_greater R.greater_fits Later (tree_at arena.old a.place) (tree_at arena.old b.place))) }
    ensures small { IfOk result (λ made. size_of (tree_at arena.new made.place) ≤ 65536) }
    ensures fits { OnOk result (JoinedFits R.eq R.where_greater R.greater_fits Later (tree_at arena.old a.place) (tree_at arena.old b.place)) }
    ensures full { (count : ℕ) → result ≡ Err (TooFull count) → (65536 < count)
        × (65536 < size_of (joined R.eq R.where_greater R.greater_fits Later (tree_at arena.old a.place) (tree_at arena.old b.place))) }
    ensures wide { (w : Wide) → result ≡ Err (TooWide w)
        → JoinedFits R.eq R.where_greater R.greater_fits Later (tree_at arena.old a.place) (tree_at arena.old b.place) → ⊥ }
    ensures operands { (w : Wide) → result ≡ Err (TooWide w) → IsOutside w }
{
    join_in(alloc, arena, Join::Later, a, b)
}

/// The first tree joined with the second.
fn join_in<R: Rank>(
    alloc: Global,
    arena: &mut Arena<R>,
    join: Join,
    a: TreeRef,
    b: TreeRef,
) -> Result<TreeRef, TreeFault>
    requires a { a.place < length arena.old }
    requires b { b.place < length arena.old }
    ensures kept { Extends arena.old arena.new }
    ensures tree { IfOk result (λ made. IsAt arena.new made
        (joined R.eq R.where_greater R.greater_fits join (tree_at arena.old a.place) (tree_at arena.old b.place))) }
    ensures small { IfOk result (λ made. size_of (tree_at arena.new made.place) ≤ 65536) }
    ensures fits { OnOk result (JoinedFits R.eq R.where_greater R.greater_fits join (tree_at arena.old a.place) (tree_at arena.old b.place)) }
    ensures full { (count : ℕ) → result ≡ Err (TooFull count) → (65536 < count)
        × (65536 < size_of (joined R.eq R.where_greater R.greater_fits join (tree_at arena.old a.place) (tree_at arena.old b.place))) }
    ensures wide { (w : Wide) → result ≡ Err (TooWide w)
        → JoinedFits R.eq R.where_greater R.greater_fits join (tree_at arena.old a.place) (tree_at arena.old b.place) → ⊥ }
    ensures operands { (w : Wide) → result ≡ Err (TooWide w) → IsOutside w }
{
    let mut walk = Walk::new(alloc);
    match graft_in(alloc, arena, &mut walk, join, a, b) {
        Ok(made) => Ok(made),
        Err(_) => Err(walk.fault),
    }
}

/// The first tree with what stands in place of each of its leaves. The walk is where it was.
fn graft_in<R: Rank>(
    alloc: Global,
    arena: &mut Arena<R>,
    walk: &mut Walk,
    join: Join,
    first: TreeRef,
    second: TreeRef,
) -> Result<TreeRef, Stopped>
    requires first { first.place < length arena.old }
    requires second { second.place < length arena.old }
    ensures { BuildsIn (grafting R.eq R.Rank.own join (tree_at arena.old second.place) walk.old.trail (tree_at arena.old first.place))
        arena.old arena.new walk.old.trail walk.new result }
{
    let Some((yes, no)) = sides(arena, first) else {
        return graft_leaf(alloc, arena, walk, join, first, second);
    };
    down(arena, walk, first)?;
    let this = graft_in(alloc, arena, walk, join, yes, second)?;
    walk.turn()?;
    let that = graft_in(alloc, arena, walk, join, no, second)?;
    walk.trail.up();
    join_at(arena, walk, first, this, that)
}

/// What stands in place of a leaf of the first tree.
#[inline(never)]
fn graft_leaf<R: Rank>(
    alloc: Global,
    arena: &mut Arena<R>,
    walk: &mut Walk,
    join: Join,
    leaf: TreeRef,
    second: TreeRef,
) -> Result<TreeRef, Stopped>
    requires leaf { (leaf.place < length arena.old) × IsEnd (tree_at arena.old leaf.place) }
    requires second { second.place < length arena.old }
    ensures { BuildsIn (grafting R.eq R.Rank.own join (tree_at arena.old second.place) walk.old.trail (tree_at arena.old leaf.place))
        arena.old arena.new walk.old.trail walk.new result }
{
    if asks(arena, join, leaf) {
        lay_in(alloc, arena, walk, join, leaf, second)
    } else {
        Ok(leaf)
    }
}

/// Whether the second tree is asked at the leaf of the first.
#[inline(never)]
fn asks<R: Rank>(arena: &Arena<R>, join: Join, leaf: TreeRef) -> bool
    requires { leaf.place < length arena.now }
    ensures { result ≡ asks_second join (tree_at arena.now leaf.place) }
{
    match join {
        Join::Either => !is_claim(arena, leaf),
        Join::Both => is_claim(arena, leaf),
        Join::Later => is_claim(arena, leaf),
    }
}
