//! Trees moved back over the assignment of a value of a range that is picked.
ghost use Rattle.std.specs.Prelude.{◌≡◌, ℕ, ◌<◌, ◌≤◌, [], Err, IfOk, OnErr, OnOk, Option};
ghost use Rattle.linear_cons.specs.Exact.{IsOutside};
ghost use Rattle.linear_cons.specs.declared.exact.Wide.{Wide};
ghost use Rattle.decision_tree.specs.Nodes.{node};
ghost use Rattle.decision_tree.specs.Plans.{bottom, plan_of, size_of};
ghost use Rattle.decision_tree.specs.declared.reason.Pick.TheVariants.{Value};
ghost use Rattle.tree_unify.specs.Builds.{Builds, given};
ghost use Rattle.tree_unify.specs.Shapes.{TrimFits, trimmed};
ghost use Rattle.tree_unify.specs.declared.fault.TreeFault.TheVariants.{Full as TooFull, Wide as TooWide};
ghost use Rattle.backward_transfer.specs.Chosen.{FromFits, IsSomeSmall, SomeFits, ToFits};
ghost use Rattle.backward_transfer.specs.Chosen.{adding, choosing, from_end, putting, putting_up_to, to_end, with_some};
ghost use Rattle.backward_transfer.specs.Values.{RootsFit, tried_values};

use crate::assigning::put;
use crate::picking::join_either;
use crate::stepping::none;
use crate::values::{add_end, add_roots};
use decision_tree::{Pick, Rank, Tree};
use linear_cons::{Affine, Row, RowKind};
use std::alloc::Global;
use tree_unify::{Stopped, TreeFault, Walk, trim};

/// The place that is assigned, below 16, and the ends of the range that are known.
#[derive(Clone, Copy)]
pub(crate) struct Range {
    pub(crate) place: u8,
    pub(crate) lo: Option<i64>,
    pub(crate) hi: Option<i64>,
    ghost low: { place < 16 },
}

/// The tree before a value of the range is assigned to the variable at the place, of which one is picked, with the tree behind it given: the
/// known ends and the values at which rows of the tree with the place are 0 are tried, at most eight, and the first that lies in the range
/// and leads to a claim is picked, with one more step; and trimmed. `Full` comes exactly where a tree that this forms before the trimming
/// would have more than 65,536 nodes, `Wide` exactly where a function, a rank or a complement that it forms has a number outside `i128`;
/// where both stand, either may come. `Memory` says nothing.
pub fn back_some<R: Rank>(
    alloc: Global,
    tree: &Tree<R>,
    place: u8,
    lo: Option<i64>,
    hi: Option<i64>,
) -> Result<Tree<R>, TreeFault>
    requires { place < 16 }
    ensures tree { IfOk result (λ made. plan_of made ≡ trimmed R.eq [] (with_some R.eq R.where_greater R.greater_fits R.substituted R.one_more
        lo hi place (plan_of tree.now) (tried_values lo hi place (plan_of tree.now)))) }
    ensures small { OnOk result (IsSomeSmall R.eq R.where_greater R.greater_fits R.substituted R.one_more 65536
        lo hi place (plan_of tree.now) (tried_values lo hi place (plan_of tree.now))) }
    ensures roots { OnOk result (RootsFit place (plan_of tree.now)) }
    ensures moved { OnOk result (SomeFits R.eq R.where_greater R.greater_fits R.substituted R.one_more R.subst_fits R.add_one_fits
        lo hi place (plan_of tree.now) (tried_values lo hi place (plan_of tree.now))) }
    ensures rows { OnOk result (TrimFits R.eq [] (with_some R.eq R.where_greater R.greater_fits R.substituted R.one_more
        lo hi place (plan_of tree.now) (tried_values lo hi place (plan_of tree.now)))) }
    ensures full { (count : ℕ) → result ≡ Err (TooFull count) → (65536 < count)
        × (IsSomeSmall R.eq R.where_greater R.greater_fits R.substituted R.one_more 65536
        lo hi place (plan_of tree.now) (tried_values lo hi place (plan_of tree.now)) → ⊥) }
    ensures wide { (w : Wide) → result ≡ Err (TooWide w) → RootsFit place (plan_of tree.now)
        → SomeFits R.eq R.where_greater R.greater_fits R.substituted R.one_more R.subst_fits R.add_one_fits
        lo hi place (plan_of tree.now) (tried_values lo hi place (plan_of tree.now))
        → TrimFits R.eq [] (with_some R.eq R.where_greater R.greater_fits R.substituted R.one_more
        lo hi place (plan_of tree.now) (tried_values lo hi place (plan_of tree.now))) → ⊥ }
    ensures operands { (w : Wide) → result ≡ Err (TooWide w) → IsOutside w }
{
    let mut values = Vec::new(alloc);
    add_end(&mut values, lo)?;
    add_end(&mut values, hi)?;
    let mut walk = Walk::new(alloc);
    if let Err(_) = add_roots(alloc, &mut walk, tree, place, &mut values) {
        return Err(walk.fault);
    }
    let range = Range { place, lo, hi };
    match put_some(alloc, &mut walk, tree, &range, &values) {
        Ok(moved) => trim(alloc, &moved, &[]),
        Err(_) => Err(walk.fault),
    }
}

/// The tree where the constraint is met, and no claim elsewhere; the tree was made last.
#[inline(never)]
fn only_where<R: Rank>(
    alloc: Global,
    walk: &mut Walk,
    row: &Row,
    tree: Box<Tree<R>>,
) -> Result<Box<Tree<R>>, Stopped>
    requires { (walk.old.size ≡ size_of (plan_of tree.value)) × (walk.old.size ≤ 65536) }
    ensures { Builds (given (node R.eq row.now (plan_of tree.value) bottom)) walk.old walk.new result }
{
    match Tree::boxed_bottom(alloc) {
        Ok(none) => {
            let size = walk.size;
            walk.size = 1;
            walk.join_by(alloc, row, tree, none, size)
        }
        Err(error) => Err(walk.stop(TreeFault::Memory(error))),
    }
}

/// The tree with this value, where it isn't above the range; its size is known.
fn put_up_to<R: Rank>(
    alloc: Global,
    walk: &mut Walk,
    tree: &Tree<R>,
    place: u8,
    hi: Option<i64>,
    a: &Affine,
) -> Result<Box<Tree<R>>, Stopped>
    requires { place < 16 }
    ensures { Builds (putting_up_to R.eq R.Rank.own hi place (plan_of tree.now) a.now) walk.old walk.new result }
{
    let kind = end_above(walk, hi, a)?;
    match kind {
        RowKind::Always => put(alloc, walk, &Pick::Value(*a), tree, place, a),
        RowKind::Never => none(alloc, walk),
        RowKind::Row(row) => {
            let made = put(alloc, walk, &Pick::Value(*a), tree, place, a)?;
            only_where(alloc, walk, &row, made)
        }
    }
}

/// What is asked of the value by the upper end.
#[inline(never)]
fn end_above(walk: &mut Walk, hi: Option<i64>, a: &Affine) -> Result<RowKind, Stopped>
    ensures kind { IfOk result (λ kind. kind ≡ to_end hi a.now) }
    ensures trail { OnOk result (walk.new.trail ≡ walk.old.trail) }
    ensures fits { OnOk result (ToFits hi a.now) }
    ensures full { OnErr result ((count : ℕ) → walk.new.fault ≡ TooFull count → ⊥) }
    ensures wide { OnErr result ((w : Wide) → walk.new.fault ≡ TooWide w → ToFits hi a.now → ⊥) }
    ensures operands { OnErr result ((w : Wide) → walk.new.fault ≡ TooWide w → IsOutside w) }
{
    let Some(n) = hi else {
        return Ok(RowKind::Always);
    };
    match Affine::constant(n as i128).sub(a) {
        Ok(apart) => Ok(Row::of(apart)),
        Err(wide) => Err(walk.stop(TreeFault::Wide(wide))),
    }
}

/// What is asked of the value by the lower end.
#[inline(never)]
fn end_below(walk: &mut Walk, lo: Option<i64>, a: &Affine) -> Result<RowKind, Stopped>
    ensures kind { IfOk result (λ kind. kind ≡ from_end lo a.now) }
    ensures trail { OnOk result (walk.new.trail ≡ walk.old.trail) }
    ensures fits { OnOk result (FromFits lo a.now) }
    ensures full { OnErr result ((count : ℕ) → walk.new.fault ≡ TooFull count → ⊥) }
    ensures wide { OnErr result ((w : Wide) → walk.new.fault ≡ TooWide w → FromFits lo a.now → ⊥) }
    ensures operands { OnErr result ((w : Wide) → walk.new.fault ≡ TooWide w → IsOutside w) }
{
    let Some(n) = lo else {
        return Ok(RowKind::Always);
    };
    match a.sub(&Affine::constant(n as i128)) {
        Ok(apart) => Ok(Row::of(apart)),
        Err(wide) => Err(walk.stop(TreeFault::Wide(wide))),
    }
}

/// The tree with this value, where it lies in the range; its size is known.
#[inline(never)]
fn put_value<R: Rank>(
    alloc: Global,
    walk: &mut Walk,
    tree: &Tree<R>,
    range: &Range,
    a: &Affine,
) -> Result<Box<Tree<R>>, Stopped>
    ensures { Builds (putting R.eq R.Rank.own range.now.lo range.now.hi range.now.place (plan_of tree.now) a.now) walk.old walk.new result }
{
    let kind = end_below(walk, range.lo, a)?;
    match kind {
        RowKind::Always => put_up_to(alloc, walk, tree, range.place, range.hi, a),
        RowKind::Never => none(alloc, walk),
        RowKind::Row(row) => {
            let made = put_up_to(alloc, walk, tree, range.place, range.hi, a)?;
            only_where(alloc, walk, &row, made)
        }
    }
}

/// The tree, with the claims of the values that are left where it has none; its size is known.
fn put_more<R: Rank>(
    alloc: Global,
    walk: &mut Walk,
    tree: &Tree<R>,
    range: &Range,
    made: Box<Tree<R>>,
    values: &[Affine],
) -> Result<Box<Tree<R>>, Stopped>
    requires { (walk.old.size ≡ size_of (plan_of made.value)) × (walk.old.size ≤ 65536) }
    ensures { Builds (adding R.eq R.Rank.own range.now.lo range.now.hi range.now.place (plan_of tree.now) (plan_of made.value) values.now)
        walk.old walk.new result }
{
    let Some((a, rest)) = values.split_first() else {
        return Ok(made);
    };
    match put_value(alloc, walk, tree, range, a) {
        Ok(next) => {
            let both = join_either(alloc, walk, &made, &next)?;
            put_more(alloc, walk, tree, range, both, rest)
        }
        Err(stopped) => {
            Tree::discard(made);
            Err(stopped)
        }
    }
}

/// The tree before the assignment, before it is trimmed; its size is known.
fn put_some<R: Rank>(
    alloc: Global,
    walk: &mut Walk,
    tree: &Tree<R>,
    range: &Range,
    values: &[Affine],
) -> Result<Box<Tree<R>>, Stopped>
    ensures { Builds (choosing R.eq R.Rank.own range.now.lo range.now.hi range.now.place (plan_of tree.now) values.now) walk.old walk.new result }
{
    let Some((a, rest)) = values.split_first() else {
        return none(alloc, walk);
    };
    let first = put_value(alloc, walk, tree, range, a)?;
    put_more(alloc, walk, tree, range, first, rest)
}
