//! Trees of an arena moved back over an assignment.
ghost use Rattle.std.specs.Prelude.{◌≡◌, ℕ, ◌<◌, ◌≤◌, [], Err, IfOk, OnErr, OnOk, length};
ghost use Rattle.linear_cons.specs.Exact.{IsOutside};
ghost use Rattle.linear_cons.specs.Functions.{SubstitutionFits, substituted};
ghost use Rattle.linear_cons.specs.Rows.{row_kind_of};
ghost use Rattle.linear_cons.specs.declared.exact.Wide.{Wide};
ghost use Rattle.linear_cons.specs.declared.row.Row.{Row};
ghost use Rattle.decision_tree.specs.Plans.{IsEnd, size_of};
ghost use Rattle.decision_tree.specs.declared.reason.Pick.TheVariants.{All as EveryState};
ghost use Rattle.tree_unify.specs.Shapes.{TrimFits, trimmed};
ghost use Rattle.tree_unify.specs.declared.fault.TreeFault.TheVariants.{Full as TooFull, Wide as TooWide};
ghost use Rattle.tree_arena.specs.Trees.{Extends, IsAt, tree_at};
ghost use Rattle.arena_builders.specs.BuildsIn.{BuildsIn};
ghost use Rattle.arena_builders.specs.Nodes.{HasRow};
ghost use Rattle.backward_transfer.specs.Steps.{AssignFits, assigned, assigning};

use crate::nodes::{join_sides, sides};
use crate::stepping::step_leaf;
use crate::trimming::trim_in;
use decision_tree::Rank;
use linear_cons::{Affine, Row, RowKind};
use std::alloc::Global;
use tree_arena::{Arena, NodeView, TreeRef};
use tree_unify::{Stopped, TreeFault, Walk};

/// The tree before the value is assigned to the variable at the place, with the tree behind it given: what `back_assign` makes of an equal tree in boxes. The
/// refusals are those of `back_assign`.
pub fn back_assign_in<R: Rank>(
    alloc: Global,
    arena: &mut Arena<R>,
    tree: TreeRef,
    place: u8,
    value: &Affine,
) -> Result<TreeRef, TreeFault>
    requires tree { tree.place < length arena.old }
    requires place { place < 16 }
    ensures kept { Extends arena.old arena.new }
    ensures tree { IfOk result (λ made. IsAt arena.new made
        (trimmed R.eq [] (assigned R.eq R.substituted R.one_more place value.now (tree_at arena.old tree.place)))) }
    ensures small { OnOk result (size_of (assigned R.eq R.substituted R.one_more place value.now (tree_at arena.old tree.place)) ≤ 65536) }
    ensures moved { OnOk result (AssignFits R.substituted R.subst_fits R.add_one_fits place value.now (tree_at arena.old tree.place)) }
    ensures rows { OnOk result (TrimFits R.eq [] (assigned R.eq R.substituted R.one_more place value.now (tree_at arena.old tree.place))) }
    ensures full { (count : ℕ) → result ≡ Err (TooFull count)
        → (65536 < count) × (65536 < size_of (assigned R.eq R.substituted R.one_more place value.now (tree_at arena.old tree.place))) }
    ensures wide { (w : Wide) → result ≡ Err (TooWide w)
        → AssignFits R.substituted R.subst_fits R.add_one_fits place value.now (tree_at arena.old tree.place)
        → TrimFits R.eq [] (assigned R.eq R.substituted R.one_more place value.now (tree_at arena.old tree.place)) → ⊥ }
    ensures operands { (w : Wide) → result ≡ Err (TooWide w) → IsOutside w }
{
    let mut walk = Walk::new(alloc);
    match put_in(alloc, arena, &mut walk, tree, place, value) {
        Ok(moved) => trim_in(alloc, arena, moved, &[]),
        Err(_) => Err(walk.fault),
    }
}

/// The tree with the function put in for the variable, and one more step at each defined leaf, for every next state.
fn put_in<R: Rank>(
    alloc: Global,
    arena: &mut Arena<R>,
    walk: &mut Walk,
    tree: TreeRef,
    place: u8,
    by: &Affine,
) -> Result<TreeRef, Stopped>
    requires tree { tree.place < length arena.old }
    requires place { place < 16 }
    ensures { BuildsIn (assigning R.eq R.Rank.own EveryState place by.now (tree_at arena.old tree.place))
        arena.old arena.new walk.old.trail walk.new result }
{
    let Some((yes, no)) = sides(arena, tree) else {
        return put_end(alloc, arena, walk, tree, place, by);
    };
    let kind = put_row(alloc, arena, walk, tree, place, by)?;
    match &*kind {
        RowKind::Always => put_in(alloc, arena, walk, yes, place, by),
        RowKind::Never => put_in(alloc, arena, walk, no, place, by),
        RowKind::Row(row) => {
            let this = put_in(alloc, arena, walk, yes, place, by)?;
            let that = put_in(alloc, arena, walk, no, place, by)?;
            join_sides(arena, walk, row, this, that)
        }
    }
}

/// What the row of the node becomes with the function put in, in a box of its own.
#[inline(never)]
fn put_row<R: Rank>(
    alloc: Global,
    arena: &Arena<R>,
    walk: &mut Walk,
    tree: TreeRef,
    place: u8,
    by: &Affine,
) -> Result<Box<RowKind>, Stopped>
    requires tree { (tree.place < length arena.now) × (IsEnd (tree_at arena.now tree.place) → ⊥) }
    requires place { place < 16 }
    ensures kind { (row : Row) → HasRow arena.now tree row → IfOk result (λ kind. kind.value ≡ row_kind_of (substituted row.affine place by.now)) }
    ensures trail { OnOk result (walk.new.trail ≡ walk.old.trail) }
    ensures fits { (row : Row) → HasRow arena.now tree row → OnOk result (SubstitutionFits row.affine place by.now) }
    ensures full { OnErr result ((count : ℕ) → walk.new.fault ≡ TooFull count → ⊥) }
    ensures wide { (row : Row) → HasRow arena.now tree row
        → OnErr result ((w : Wide) → walk.new.fault ≡ TooWide w → SubstitutionFits row.affine place by.now → ⊥) }
    ensures operands { OnErr result ((w : Wide) → walk.new.fault ≡ TooWide w → IsOutside w) }
{
    match arena.view(tree) {
        NodeView::Node { row, .. } => put_into(alloc, walk, row, place, by),
        NodeView::Bottom | NodeView::Top(_) => unreachable!(),
        NodeView::Leaf { .. } => unreachable!(),
    }
}

/// What the row becomes with the function put in, in a box of its own.
fn put_into(
    alloc: Global,
    walk: &mut Walk,
    row: &Row,
    place: u8,
    by: &Affine,
) -> Result<Box<RowKind>, Stopped>
    requires { place < 16 }
    ensures kind { IfOk result (λ kind. kind.value ≡ row_kind_of (substituted row.now.affine place by.now)) }
    ensures trail { OnOk result (walk.new.trail ≡ walk.old.trail) }
    ensures fits { OnOk result (SubstitutionFits row.now.affine place by.now) }
    ensures full { OnErr result ((count : ℕ) → walk.new.fault ≡ TooFull count → ⊥) }
    ensures wide { OnErr result ((w : Wide) → walk.new.fault ≡ TooWide w → SubstitutionFits row.now.affine place by.now → ⊥) }
    ensures operands { OnErr result ((w : Wide) → walk.new.fault ≡ TooWide w → IsOutside w) }
{
    let moved = match row.affine.subst(place, by) {
        Ok(moved) => moved,
        Err(wide) => return Err(walk.stop(TreeFault::Wide(wide))),
    };
    match Box::new(alloc, Row::of(moved)) {
        Ok(kind) => Ok(kind),
        Err(error) => Err(walk.stop(TreeFault::Memory(error.into()))),
    }
}

/// The leaf with the function put in and one more step, where it is defined.
#[inline(never)]
fn put_end<R: Rank>(
    alloc: Global,
    arena: &mut Arena<R>,
    walk: &mut Walk,
    leaf: TreeRef,
    place: u8,
    by: &Affine,
) -> Result<TreeRef, Stopped>
    requires leaf { (leaf.place < length arena.old) × IsEnd (tree_at arena.old leaf.place) }
    requires place { place < 16 }
    ensures { BuildsIn (assigning R.eq R.Rank.own EveryState place by.now (tree_at arena.old leaf.place))
        arena.old arena.new walk.old.trail walk.new result }
{
    match arena.view(leaf) {
        NodeView::Leaf { why: _, rank } => match rank.subst(place, by) {
            Ok(moved) => step_leaf(alloc, arena, walk, &moved),
            Err(wide) => Err(walk.stop(TreeFault::Wide(wide))),
        },
        NodeView::Bottom | NodeView::Top(_) => Ok(leaf),
        NodeView::Node { .. } => unreachable!(),
    }
}
