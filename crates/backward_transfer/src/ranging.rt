//! Trees moved back over the assignment of a value in a range.
ghost use Rattle.std.specs.Prelude.{◌≡◌, ℕ, ◌<◌, ◌≤◌, [], Err, Ok, IfErr, IfOk, IsTrue, OkIff, OnErr, OnOk, ◌↔◌};
ghost use Rattle.linear_cons.specs.Exact.{IsOutside};
ghost use Rattle.linear_cons.specs.declared.exact.Wide.{Wide};
ghost use Rattle.linear_cons.specs.declared.row.RowKind.TheVariants.{Always, Never};
ghost use Rattle.decision_tree.specs.AffineRanks.{trend_of};
ghost use Rattle.decision_tree.specs.Plans.{plan_of, size_of};
ghost use Rattle.tree_unify.specs.Builds.{Builds};
ghost use Rattle.tree_unify.specs.Shapes.{TrimFits, joining, trimmed};
ghost use Rattle.tree_unify.specs.declared.fault.TreeFault.TheVariants.{Full as TooFull, Wide as TooWide};
ghost use Rattle.tree_unify.specs.declared.join.Join.TheVariants.{Later};
ghost use Rattle.backward_transfer.specs.Ranges.{AreSmall, FailsAtFits, FailsFits, HoldsAtFits, HoldsFits, NegationFits, RangeFits};
ghost use Rattle.backward_transfer.specs.Ranges.{RowAtFits, asking_both, asking_second, fails_at, fails_throughout, holds_at};
ghost use Rattle.backward_transfer.specs.Ranges.{holds_throughout, negated, ranged, ranging, row_at, spreading};

use crate::stepping::{none, step_leaf};
use decision_tree::{Pick, Rank, Shared, Tree};
use linear_cons::{Linear, Row, RowKind, Wide};
use std::alloc::Global;
use tree_unify::{Stopped, TreeFault, Walk, later, trim};

/// The tree before a value of the range is assigned to the variable at the place, with the tree behind it
/// given. A row with the place has its yes side where it holds for every value of the range, its no side
/// where it fails for every one, and else the later of both; an end that is not known settles nothing. Each
/// defined leaf has the greatest that its rank becomes over the range, and one more step, for every next
/// state; it is undefined where that isn't known. The whole is trimmed. `Full` comes exactly where a tree
/// that this forms before the trimming would have more than 65,536 nodes, `Wide` exactly where a row, rank or
/// complement that it forms, or a difference of ranks that it compares, has a number outside `i128`; where
/// both stand, either may come. `Memory` says nothing.
pub fn back_range<R: Rank>(
    alloc: Global,
    tree: &Tree<R>,
    place: u8,
    range: &Linear,
) -> Result<Tree<R>, TreeFault>
    requires { place < 16 }
    ensures tree { IfOk result (λ made. plan_of made ≡ trimmed R.eq []
        (ranged R.eq R.where_greater R.greater_fits R.trend R.substituted R.one_more place range.now (plan_of tree.now))) }
    ensures small { OnOk result (AreSmall R.eq R.where_greater R.greater_fits R.trend R.substituted R.one_more 65536 place range.now
        (plan_of tree.now)) }
    ensures moved { OnOk result (RangeFits R.eq R.where_greater R.greater_fits R.trend R.substituted R.one_more R.subst_fits R.add_one_fits
        place range.now (plan_of tree.now)) }
    ensures rows { OnOk result (TrimFits R.eq []
        (ranged R.eq R.where_greater R.greater_fits R.trend R.substituted R.one_more place range.now (plan_of tree.now))) }
    ensures full { (count : ℕ) → result ≡ Err (TooFull count) → (65536 < count)
        × (AreSmall R.eq R.where_greater R.greater_fits R.trend R.substituted R.one_more 65536 place range.now (plan_of tree.now) → ⊥) }
    ensures wide { (w : Wide) → result ≡ Err (TooWide w)
        → RangeFits R.eq R.where_greater R.greater_fits R.trend R.substituted R.one_more R.subst_fits R.add_one_fits place range.now
        (plan_of tree.now)
        → TrimFits R.eq []
        (ranged R.eq R.where_greater R.greater_fits R.trend R.substituted R.one_more place range.now (plan_of tree.now)) → ⊥ }
    ensures operands { (w : Wide) → result ≡ Err (TooWide w) → IsOutside w }
{
    let mut walk = Walk::new(alloc);
    match spread_over(alloc, &mut walk, tree, place, range) {
        Ok(moved) => trim(alloc, &moved, &[]),
        Err(_) => Err(walk.fault),
    }
}

/// The tree before the assignment, before it is trimmed; the walk knows the size.
fn spread_over<R: Rank>(
    alloc: Global,
    walk: &mut Walk,
    tree: &Tree<R>,
    place: u8,
    range: &Linear,
) -> Result<Box<Tree<R>>, Stopped>
    requires { place < 16 }
    ensures { Builds (ranging R.eq R.Rank.own place range.now (plan_of tree.now)) walk.old walk.new result }
{
    match tree {
        Tree::Bottom => walk.copied(alloc, tree),
        Tree::Top(_) => walk.copied(alloc, tree),
        Tree::Leaf { why: _, rank } => spread_leaf(alloc, walk, rank, place, range),
        Tree::Node { row, yes, no } => {
            let holds = holds_throughout(alloc, walk, row, place, range)?;
            if is_always(&holds) {
                return spread_over(alloc, walk, yes, place, range);
            }
            let fails = fails_throughout(alloc, walk, row, place, range)?;
            if is_never(&holds) && is_always(&fails) {
                return spread_over(alloc, walk, no, place, range);
            }
            let first = spread_over(alloc, walk, yes, place, range)?;
            let size = walk.size;
            match spread_over(alloc, walk, no, place, range) {
                Ok(other) => ask(alloc, walk, &holds, &fails, first, other, size),
                Err(stopped) => {
                    Tree::discard(first);
                    Err(stopped)
                }
            }
        }
    }
}

/// The yes side where the first constraint is met, the no side where the second is, else the later of both.
/// The no side was made last.
#[inline(never)]
fn ask<R: Rank>(
    alloc: Global,
    walk: &mut Walk,
    holds: &RowKind,
    fails: &RowKind,
    yes: Box<Tree<R>>,
    no: Box<Tree<R>>,
    yes_size: u64,
) -> Result<Box<Tree<R>>, Stopped>
    requires holds { holds.now ≡ Always → ⊥ }
    requires fails { holds.now ≡ Never → fails.now ≡ Always → ⊥ }
    requires yes { (yes_size ≡ size_of (plan_of yes.value)) × (yes_size ≤ 65536) }
    requires no { (walk.old.size ≡ size_of (plan_of no.value)) × (walk.old.size ≤ 65536) }
    ensures { Builds (asking_both R.eq R.Rank.own holds.now fails.now (plan_of yes.value) (plan_of no.value)) walk.old walk.new result }
{
    let no_size = walk.size;
    let rest = ask_second(alloc, walk, fails, &yes, no)?;
    match holds {
        RowKind::Row(row) => walk.join_by(alloc, row, yes, rest, yes_size),
        RowKind::Always => Ok(yes),
        RowKind::Never => Ok(rest),
    }
}

/// The no side where the constraint is met, else the later of both. The no side was made last.
#[inline(never)]
fn ask_second<R: Rank>(
    alloc: Global,
    walk: &mut Walk,
    fails: &RowKind,
    yes: &Tree<R>,
    no: Box<Tree<R>>,
) -> Result<Box<Tree<R>>, Stopped>
    requires no { (walk.old.size ≡ size_of (plan_of no.value)) × (walk.old.size ≤ 65536) }
    ensures { Builds (asking_second R.eq R.Rank.own fails.now (plan_of yes.now) (plan_of no.value)) walk.old walk.new result }
{
    let no_size = walk.size;
    match fails {
        RowKind::Always => Ok(no),
        RowKind::Never => join_later(alloc, walk, yes, &no),
        RowKind::Row(row) => {
            let both = join_later(alloc, walk, yes, &no)?;
            walk.join_by(alloc, row, no, both, no_size)
        }
    }
}

/// The later of two trees; its size is known.
#[inline(never)]
pub(crate) fn join_later<R: Rank>(
    alloc: Global,
    walk: &mut Walk,
    yes: &Tree<R>,
    no: &Tree<R>,
) -> Result<Box<Tree<R>>, Stopped>
    ensures { Builds (joining R.eq R.Rank.own Later (plan_of yes.now) (plan_of no.now)) walk.old walk.new result }
{
    match later(alloc, yes, no) {
        Ok(tree) => match Box::new(alloc, tree) {
            Ok(tree) => walk.measured(tree),
            Err(error) => Err(walk.stop(TreeFault::Memory(error.into()))),
        },
        Err(fault) => Err(walk.stop(fault)),
    }
}

/// A leaf of the greatest rank over the range and one more, for every next state, or none; its size is known.
#[inline(never)]
fn spread_leaf<R: Rank>(
    alloc: Global,
    walk: &mut Walk,
    rank: &Shared<R>,
    place: u8,
    range: &Linear,
) -> Result<Box<Tree<R>>, Stopped>
    requires { place < 16 }
    ensures { Builds (spreading R.Rank.own place range.now rank.now) walk.old walk.new result }
{
    match rank.greatest(place, range) {
        Ok(Some(greatest)) => step_leaf(alloc, walk, &Pick::All, &greatest),
        Ok(None) => none(alloc, walk),
        Err(wide) => Err(walk.stop(TreeFault::Wide(wide))),
    }
}

/// Whether the constraint holds everywhere.
fn is_always(kind: &RowKind) -> bool
    ensures { IsTrue result ↔ (kind.now ≡ Always) }
{
    match kind {
        RowKind::Always => true,
        RowKind::Never | RowKind::Row(_) => false,
    }
}

/// Whether the constraint holds nowhere.
fn is_never(kind: &RowKind) -> bool
    ensures { IsTrue result ↔ (kind.now ≡ Never) }
{
    match kind {
        RowKind::Never => true,
        RowKind::Always | RowKind::Row(_) => false,
    }
}

/// That the row holds for every value of the range, in a box of its own.
#[inline(never)]
fn holds_throughout(
    alloc: Global,
    walk: &mut Walk,
    row: &Shared<Row>,
    place: u8,
    range: &Linear,
) -> Result<Box<RowKind>, Stopped>
    requires { place < 16 }
    ensures kind { IfOk result (λ kind. kind.value ≡ holds_throughout (trend_of row.now.affine place) row.now place range.now) }
    ensures trail { OnOk result (walk.new.trail ≡ walk.old.trail) }
    ensures fits { OnOk result (HoldsFits (trend_of row.now.affine place) row.now place range.now) }
    ensures full { OnErr result ((count : ℕ) → walk.new.fault ≡ TooFull count → ⊥) }
    ensures wide { OnErr result ((w : Wide) → walk.new.fault ≡ TooWide w
        → HoldsFits (trend_of row.now.affine place) row.now place range.now → ⊥) }
    ensures operands { OnErr result ((w : Wide) → walk.new.fault ≡ TooWide w → IsOutside w) }
{
    keep(alloc, walk, holds(row, place, range))
}

/// That the row fails for every value of the range, in a box of its own.
#[inline(never)]
fn fails_throughout(
    alloc: Global,
    walk: &mut Walk,
    row: &Shared<Row>,
    place: u8,
    range: &Linear,
) -> Result<Box<RowKind>, Stopped>
    requires { place < 16 }
    ensures kind { IfOk result (λ kind. kind.value ≡ fails_throughout (trend_of row.now.affine place) row.now place range.now) }
    ensures trail { OnOk result (walk.new.trail ≡ walk.old.trail) }
    ensures fits { OnOk result (FailsFits (trend_of row.now.affine place) row.now place range.now) }
    ensures full { OnErr result ((count : ℕ) → walk.new.fault ≡ TooFull count → ⊥) }
    ensures wide { OnErr result ((w : Wide) → walk.new.fault ≡ TooWide w
        → FailsFits (trend_of row.now.affine place) row.now place range.now → ⊥) }
    ensures operands { OnErr result ((w : Wide) → walk.new.fault ≡ TooWide w → IsOutside w) }
{
    keep(alloc, walk, fails(row, place, range))
}

/// The constraint in a box of its own; or the walk stops.
fn keep(
    alloc: Global,
    walk: &mut Walk,
    formed: Result<RowKind, Wide>,
) -> Result<Box<RowKind>, Stopped>
    ensures kind { IfOk result (λ kind. formed ≡ Ok kind.value) }
    ensures trail { OnOk result (walk.new.trail ≡ walk.old.trail) }
    ensures full { OnErr result ((count : ℕ) → walk.new.fault ≡ TooFull count → ⊥) }
    ensures wide { OnErr result ((w : Wide) → walk.new.fault ≡ TooWide w → formed ≡ Err w) }
{
    match formed {
        Ok(kind) => match Box::new(alloc, kind) {
            Ok(kind) => Ok(kind),
            Err(error) => Err(walk.stop(TreeFault::Memory(error.into()))),
        },
        Err(wide) => Err(walk.stop(TreeFault::Wide(wide))),
    }
}

/// That the row holds for every value of the range.
fn holds(row: &Row, place: u8, range: &Linear) -> Result<RowKind, Wide>
    requires { place < 16 }
    ensures exact { OkIff result (HoldsFits (trend_of row.now.affine place) row.now place range.now)
        (holds_throughout (trend_of row.now.affine place) row.now place range.now) }
    ensures wide { IfErr result IsOutside }
{
    let coefficient = row.affine.coef[place as usize];
    if coefficient > 0 {
        holds_at(row, place, range, range.lo)
    } else if coefficient < 0 {
        holds_at(row, place, range, range.hi)
    } else {
        Ok(RowKind::Row(*row))
    }
}

/// That the row fails for every value of the range, where it doesn't hold for every one.
fn fails(row: &Row, place: u8, range: &Linear) -> Result<RowKind, Wide>
    requires { place < 16 }
    ensures exact { OkIff result (FailsFits (trend_of row.now.affine place) row.now place range.now)
        (fails_throughout (trend_of row.now.affine place) row.now place range.now) }
    ensures wide { IfErr result IsOutside }
{
    let coefficient = row.affine.coef[place as usize];
    if coefficient > 0 {
        fails_at(row, place, range, range.hi)
    } else if coefficient < 0 {
        fails_at(row, place, range, range.lo)
    } else {
        Ok(RowKind::Always)
    }
}

/// That the row holds at the end of the range, where that is known.
fn holds_at(row: &Row, place: u8, range: &Linear, end: Option<i128>) -> Result<RowKind, Wide>
    requires { place < 16 }
    ensures exact { OkIff result (HoldsAtFits row.now place range.now end) (holds_at row.now place range.now end) }
    ensures wide { IfErr result IsOutside }
{
    match end {
        None => Ok(RowKind::Never),
        Some(number) => row_at(row, place, range, number),
    }
}

/// That the row fails at the end of the range, where that is known.
fn fails_at(row: &Row, place: u8, range: &Linear, end: Option<i128>) -> Result<RowKind, Wide>
    requires { place < 16 }
    ensures exact { OkIff result (FailsAtFits row.now place range.now end) (fails_at row.now place range.now end) }
    ensures wide { IfErr result IsOutside }
{
    match end {
        None => Ok(RowKind::Never),
        Some(number) => {
            let kind = row_at(row, place, range, number)?;
            negated(&kind)
        }
    }
}

/// What the row says of the store before, where the value that is put is the range's function plus a number.
fn row_at(row: &Row, place: u8, range: &Linear, number: i128) -> Result<RowKind, Wide>
    requires { place < 16 }
    ensures exact { OkIff result (RowAtFits row.now place range.now number) (row_at row.now place range.now number) }
    ensures wide { IfErr result IsOutside }
{
    let by = range.affine.plus(number)?;
    let moved = row.affine.subst(place, &by)?;
    Ok(Row::of(moved))
}

/// The constraint that is met where the other isn't.
fn negated(kind: &RowKind) -> Result<RowKind, Wide>
    ensures exact { OkIff result (NegationFits kind.now) (negated kind.now) }
    ensures wide { IfErr result IsOutside }
{
    match kind {
        RowKind::Always => Ok(RowKind::Never),
        RowKind::Never => Ok(RowKind::Always),
        RowKind::Row(row) => {
            let complement = row.not()?;
            Ok(RowKind::Row(complement))
        }
    }
}
