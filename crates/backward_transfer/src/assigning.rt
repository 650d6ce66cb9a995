//! Trees moved back over an assignment.
ghost use Rattle.std.specs.Prelude.{◌≡◌, ℕ, ◌<◌, ◌≤◌, [], Err, IfOk, OnErr, OnOk};
ghost use Rattle.linear_cons.specs.Exact.{IsOutside};
ghost use Rattle.linear_cons.specs.Functions.{SubstitutionFits, substituted};
ghost use Rattle.linear_cons.specs.Rows.{row_kind_of};
ghost use Rattle.linear_cons.specs.declared.exact.Wide.{Wide};
ghost use Rattle.decision_tree.specs.Plans.{plan_of, size_of};
ghost use Rattle.tree_unify.specs.Builds.{Builds, formed};
ghost use Rattle.tree_unify.specs.Shapes.{TrimFits, trimmed};
ghost use Rattle.tree_unify.specs.declared.fault.TreeFault.TheVariants.{Full as TooFull, Wide as TooWide};
ghost use Rattle.backward_transfer.specs.Moved.{kind_of};
ghost use Rattle.backward_transfer.specs.Steps.{AssignFits, assigned, assigning, step_by};

use crate::stepping::step_leaf;
use decision_tree::laws::equality_is_identity;
use decision_tree::{AffineRank, Pick, Rank, Shared, Tree};
use linear_cons::{Affine, Row, RowKind};
use std::alloc::{AllocError, Global};
use tree_unify::{Stopped, TreeFault, Walk, trim};

/// The tree before the value is assigned to the variable at the place, with the tree behind it given: the
/// function is put in for the variable in rows and ranks, a row that becomes constant takes its side, each
/// defined leaf has one more step, for every next state, and the whole is trimmed. `Full` comes exactly
/// where it would have more than 65,536 nodes before it is trimmed, `Wide` exactly where a number of a row
/// or rank with the function put in, of a rank with one more, or of a complement of a row that trimming
/// asks, is outside `i128`; where both stand, either may come. `Memory` says nothing.
pub fn back_assign<R: Rank>(
    alloc: Global,
    tree: &Tree<R>,
    place: u8,
    value: &Affine,
) -> Result<Tree<R>, TreeFault>
    requires { place < 16 }
    ensures tree { IfOk result (λ made. plan_of made
        ≡ trimmed R.eq [] (assigned R.eq R.substituted R.one_more place value.now (plan_of tree.now))) }
    ensures small { OnOk result (size_of (assigned R.eq R.substituted R.one_more place value.now (plan_of tree.now)) ≤ 65536) }
    ensures moved { OnOk result (AssignFits R.substituted R.subst_fits R.add_one_fits place value.now (plan_of tree.now)) }
    ensures rows { OnOk result (TrimFits R.eq [] (assigned R.eq R.substituted R.one_more place value.now (plan_of tree.now))) }
    ensures full { (count : ℕ) → result ≡ Err (TooFull count)
        → (65536 < count) × (65536 < size_of (assigned R.eq R.substituted R.one_more place value.now (plan_of tree.now))) }
    ensures wide { (w : Wide) → result ≡ Err (TooWide w)
        → AssignFits R.substituted R.subst_fits R.add_one_fits place value.now (plan_of tree.now)
        → TrimFits R.eq [] (assigned R.eq R.substituted R.one_more place value.now (plan_of tree.now)) → ⊥ }
    ensures operands { (w : Wide) → result ≡ Err (TooWide w) → IsOutside w }
{
    let mut walk = Walk::new(alloc);
    match put(alloc, &mut walk, &Pick::All, tree, place, value) {
        Ok(moved) => trim(alloc, &moved, &[]),
        Err(_) => Err(walk.fault),
    }
}

/// The tree with the function put in for the variable, and one more step at each defined leaf, for the next
/// states that are picked; the walk knows the size.
pub(crate) fn put<R: Rank>(
    alloc: Global,
    walk: &mut Walk,
    pick: &Pick,
    tree: &Tree<R>,
    place: u8,
    by: &Affine,
) -> Result<Box<Tree<R>>, Stopped>
    requires { place < 16 }
    ensures { Builds (assigning R.eq R.Rank.own pick.now place by.now (plan_of tree.now)) walk.old walk.new result }
{
    match tree {
        Tree::Bottom => walk.copied(alloc, tree),
        Tree::Top(_) => walk.copied(alloc, tree),
        Tree::Leaf { why: _, rank } => put_leaf(alloc, walk, pick, rank, place, by),
        Tree::Node { row, yes, no } => {
            let kind = put_row(alloc, walk, row, place, by)?;
            match kind {
                MovedRow::Always => put(alloc, walk, pick, yes, place, by),
                MovedRow::Never => put(alloc, walk, pick, no, place, by),
                MovedRow::Row(moved) => {
                    let first = put(alloc, walk, pick, yes, place, by)?;
                    let size = walk.size;
                    match put(alloc, walk, pick, no, place, by) {
                        Ok(other) => walk.join_sides(alloc, &moved, first, other, size),
                        Err(stopped) => {
                            Tree::discard(first);
                            Err(stopped)
                        }
                    }
                }
            }
        }
    }
}

/// What a row becomes with a function put in, as a tree holds it.
#[derive(Drop)]
pub(crate) enum MovedRow {
    Always,
    Never,
    Row(Shared<Row>),
}

/// What the row becomes with the function put in. It is held once more where it stays as it is.
#[inline(never)]
fn put_row(
    alloc: Global,
    walk: &mut Walk,
    row: &Shared<Row>,
    place: u8,
    by: &Affine,
) -> Result<MovedRow, Stopped>
    requires { place < 16 }
    ensures kind { IfOk result (λ moved. kind_of moved ≡ row_kind_of (substituted row.now.affine place by.now)) }
    ensures trail { OnOk result (walk.new.trail ≡ walk.old.trail) }
    ensures fits { OnOk result (SubstitutionFits row.now.affine place by.now) }
    ensures full { OnErr result ((count : ℕ) → walk.new.fault ≡ TooFull count → ⊥) }
    ensures wide { OnErr result ((w : Wide) → walk.new.fault ≡ TooWide w → SubstitutionFits row.now.affine place by.now → ⊥) }
    ensures operands { OnErr result ((w : Wide) → walk.new.fault ≡ TooWide w → IsOutside w) }
{
    let moved = match row.affine.subst(place, by) {
        Ok(moved) => moved,
        Err(wide) => return Err(walk.stop(TreeFault::Wide(wide))),
    };
    match Row::of(moved) {
        RowKind::Always => Ok(MovedRow::Always),
        RowKind::Never => Ok(MovedRow::Never),
        RowKind::Row(moved) => match held(alloc, row, &moved) {
            Ok(held) => Ok(MovedRow::Row(held)),
            Err(error) => Err(walk.stop(TreeFault::Memory(error))),
        },
    }
}

/// The second row, as a tree holds it: the first one once more, where they are the same.
fn held(alloc: Global, row: &Shared<Row>, moved: &Row) -> Result<Shared<Row>, AllocError>
    ensures { IfOk result (λ held. held ≡ moved.now) }
{
    equality_is_identity::<AffineRank>();
    if **row == *moved {
        row.share()
    } else {
        Shared::new(alloc, *moved)
    }
}

/// A leaf of the rank with the function put in and one more, for the next states that are picked; its size
/// is known.
#[inline(never)]
fn put_leaf<R: Rank>(
    alloc: Global,
    walk: &mut Walk,
    pick: &Pick,
    rank: &Shared<R>,
    place: u8,
    by: &Affine,
) -> Result<Box<Tree<R>>, Stopped>
    requires { place < 16 }
    ensures { Builds (formed (step_by pick.now (R.one_more (R.substituted rank.now place by.now)))
        (R.subst_fits rank.now place by.now × R.add_one_fits (R.substituted rank.now place by.now))) walk.old walk.new result }
{
    match rank.subst(place, by) {
        Ok(moved) => step_leaf(alloc, walk, pick, &moved),
        Err(wide) => Err(walk.stop(TreeFault::Wide(wide))),
    }
}
