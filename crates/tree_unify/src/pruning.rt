//! A tree without the sides at which a numerical domain has no member.
ghost use Rattle.std.specs.Prelude.{◌≡◌, ℕ, ◌<◌, ◌≤◌, ℤ, List, IsTrue, Err, IfOk, OnErr, OnOk};
ghost use Rattle.linear_cons.specs.Exact.{IsOutside};
ghost use Rattle.linear_cons.specs.Functions.{NumbersFit, complement_of};
ghost use Rattle.linear_cons.specs.declared.exact.Wide.{Wide};
ghost use Rattle.num_domain.specs.Domain.{KeepsMeeting, NoneMeets, SameMembers};
ghost use Rattle.decision_tree.specs.declared.path.PathFault;
ghost use Rattle.decision_tree.specs.Plans.{plan_of, size_of};
ghost use Rattle.tree_unify.specs.Pruned.{AreSides, IsLeft, IsPartOf, SameLeaves};
ghost use Rattle.decision_tree.specs.Extent.{ComplementsFit};
ghost use Rattle.tree_unify.specs.declared.fault.TreeFault.TheVariants.{Full as TooFull, Wide as TooWide};

use crate::fault::TreeFault;
use crate::trimming::is_leaf;
use crate::walk::{Stopped, Walk};
use decision_tree::{PathFault, Rank, Shared, Tree};
use linear_cons::Row;
use num_domain::NumDomain;
use std::alloc::{AllocError, Global};

/// The tree without the sides at which the domain's value has no member, as far as the domain tells: at
/// a node the no side is taken where the value with the rows of the way and the node's row is empty, the
/// yes side where it is empty with the row's complement; equal sides make one. It has the tree's leaf at
/// each member. `Full` comes only where the tree has more than 65,536 nodes, `Wide` only where the
/// complement of one of its rows has a number outside `i128`. `Memory` says nothing.
pub fn prune<R: Rank, D: NumDomain>(
    alloc: Global,
    tree: &Tree<R>,
    at: &D,
) -> Result<Tree<R>, TreeFault>
    ensures leaves { IfOk result (λ made. SameLeaves (D.has at.now) (plan_of made) (plan_of tree.now)) }
    ensures part { IfOk result (λ made. IsPartOf (plan_of made) (plan_of tree.now)) }
    ensures small { IfOk result (λ made. size_of (plan_of made) ≤ 65536) }
    ensures full { (count : ℕ) → result ≡ Err (TooFull count) → (65536 < count) × (65536 < size_of (plan_of tree.now)) }
    ensures wide { (w : Wide) → result ≡ Err (TooWide w) → ComplementsFit (plan_of tree.now) → ⊥ }
    ensures operands { (w : Wide) → result ≡ Err (TooWide w) → IsOutside w }
{
    let state = copied_state(alloc, at)?;
    let mut walk = Walk::new(alloc);
    match cut(alloc, &mut walk, tree, Some(state)) {
        Ok(part) => Ok(Box::into_inner(part)),
        Err(_) => Err(walk.fault),
    }
}

/// What is left of a state at each side of a node, or the one side at which it has members. For a leaf no
/// state is kept.
enum Sides<D> {
    Yes(Option<Box<D>>),
    No(Option<Box<D>>),
    Both(Option<Box<D>>, Option<Box<D>>),
}

/// The tree without the sides at which the state has no member; a copy where no state was kept. The walk
/// knows the size.
fn cut<R: Rank, D: NumDomain>(
    alloc: Global,
    walk: &mut Walk,
    tree: &Tree<R>,
    at: Option<Box<D>>,
) -> Result<Box<Tree<R>>, Stopped>
    ensures leaves { IfOk result (λ made. SameLeaves (IsLeft D.has at) (plan_of made.value) (plan_of tree.now)) }
    ensures part { IfOk result (λ made. IsPartOf (plan_of made.value) (plan_of tree.now)) }
    ensures size { IfOk result (λ made. walk.new.size ≡ size_of (plan_of made.value)) }
    ensures small { OnOk result (walk.new.size ≤ 65536) }
    ensures full { OnErr result ((count : ℕ) → walk.new.fault ≡ TooFull count → (65536 < count) × (65536 < size_of (plan_of tree.now))) }
    ensures wide { OnErr result ((w : Wide) → walk.new.fault ≡ TooWide w → ComplementsFit (plan_of tree.now) → ⊥) }
    ensures operands { OnErr result ((w : Wide) → walk.new.fault ≡ TooWide w → IsOutside w) }
{
    let Some(at) = at else {
        return walk.copied(alloc, tree);
    };
    let Tree::Node { row, yes, no } = tree else {
        return copied_leaf(alloc, walk, tree, at);
    };
    let sides = divide(alloc, walk, row, is_leaf(yes), is_leaf(no), at)?;
    match sides {
        Sides::Yes(inside) => {
            let part = cut(alloc, walk, yes, inside)?;
            Ok(part)
        }
        Sides::No(below) => {
            let part = cut(alloc, walk, no, below)?;
            Ok(part)
        }
        Sides::Both(inside, below) => {
            let first = cut(alloc, walk, yes, inside)?;
            let size = walk.size;
            match cut(alloc, walk, no, below) {
                Ok(other) => {
                    let part = walk.join_sides(alloc, row, first, other, size)?;
                    Ok(part)
                }
                Err(stopped) => {
                    Tree::discard(first);
                    Err(stopped)
                }
            }
        }
    }
}

/// What is left of the state at each side of a node with the row. Only where both sides are nodes is the
/// state copied, as far as the domain can do without.
#[inline(never)]
fn divide<D: NumDomain>(
    alloc: Global,
    walk: &mut Walk,
    row: &Shared<Row>,
    yes_ends: bool,
    no_ends: bool,
    at: Box<D>,
) -> Result<Sides<D>, Stopped>
    ensures sides { IfOk result (AreSides D.has row.now (D.has at.value)) }
    ensures wide { OnErr result ((w : Wide) → walk.new.fault ≡ TooWide w → NumbersFit (complement_of row.now.affine) → ⊥) }
    ensures operands { OnErr result ((w : Wide) → walk.new.fault ≡ TooWide w → IsOutside w) }
    ensures full { OnErr result ((count : ℕ) → walk.new.fault ≡ TooFull count → ⊥) }
{
    match divided(alloc, row, yes_ends, no_ends, at) {
        Ok(sides) => Ok(sides),
        Err(PathFault::Wide(wide)) => Err(walk.stop(TreeFault::Wide(wide))),
        Err(PathFault::Memory(error)) => Err(walk.stop(TreeFault::Memory(error))),
    }
}

/// The same, with the fault.
fn divided<D: NumDomain>(
    alloc: Global,
    row: &Row,
    yes_ends: bool,
    no_ends: bool,
    at: Box<D>,
) -> Result<Sides<D>, PathFault>
    ensures sides { IfOk result (AreSides D.has row.now (D.has at.value)) }
    ensures wide { (w : Wide) → result ≡ Err (PathFault.Wide w) → NumbersFit (complement_of row.now.affine) → ⊥ }
    ensures operands { (w : Wide) → result ≡ Err (PathFault.Wide w) → IsOutside w }
{
    let opposite = row.not()?;
    if yes_ends && !no_ends {
        let yes = look(alloc, &*at, row, true)?;
        let below = met(alloc, at, &opposite)?;
        if yes.none {
            return Ok(Sides::No(Some(below)));
        }
        if has_no_member(&*below) {
            return Ok(Sides::Yes(None));
        }
        return Ok(Sides::Both(None, Some(below)));
    }
    let no = look(alloc, &*at, &opposite, no_ends)?;
    let inside = met(alloc, at, row)?;
    if has_no_member(&*inside) {
        return Ok(Sides::No(no.left));
    }
    if no.none {
        return Ok(Sides::Yes(Some(inside)));
    }
    Ok(Sides::Both(Some(inside), no.left))
}

/// What is left of a state at one side, and whether that has no member. For a leaf nothing is kept.
#[derive(Drop)]
struct Side<D> {
    left: Option<Box<D>>,
    none: bool,
}

/// Looks at the side of a node where the row is met, and leaves the state as it is.
fn look<D: NumDomain>(alloc: Global, at: &D, row: &Row, ends: bool) -> Result<Side<D>, AllocError>
    ensures keeps { IfOk result (λ side. KeepsMeeting row.now (D.has at.now) (IsLeft D.has side.left)) }
    ensures none { IfOk result (λ side. IsTrue side.none → NoneMeets row.now (D.has at.now)) }
{
    if ends {
        let none = at.rules_out(alloc, row)?;
        return Ok(Side { left: None, none });
    }
    let twin = copied_state(alloc, at)?;
    let state = met(alloc, twin, row)?;
    let none = has_no_member(&*state);
    Ok(Side {
        left: Some(state),
        none,
    })
}

/// The members of the state that meet the row.
fn met<D: NumDomain>(alloc: Global, at: Box<D>, row: &Row) -> Result<Box<D>, AllocError>
    ensures { IfOk result (λ state. KeepsMeeting row.now (D.has at.value) (D.has state.value)) }
{
    let mut at = at;
    (*at).meet_row(alloc, row)?;
    Ok(at)
}

/// A copy of the leaf, and the state is dropped.
#[inline(never)]
fn copied_leaf<R: Rank, D: NumDomain>(
    alloc: Global,
    walk: &mut Walk,
    leaf: &Tree<R>,
    _at: Box<D>,
) -> Result<Box<Tree<R>>, Stopped>
    ensures tree { IfOk result (λ made. plan_of made.value ≡ plan_of leaf.now) }
    ensures size { IfOk result (λ made. walk.new.size ≡ size_of (plan_of made.value)) }
    ensures small { OnOk result (walk.new.size ≤ 65536) }
    ensures full { OnErr result ((count : ℕ) → walk.new.fault ≡ TooFull count → (65536 < count) × (65536 < size_of (plan_of leaf.now))) }
    ensures wide { OnErr result ((w : Wide) → walk.new.fault ≡ TooWide w → ⊥) }
{
    walk.copied(alloc, leaf)
}

/// A state with the same members.
fn copied_state<D: NumDomain>(alloc: Global, at: &D) -> Result<Box<D>, AllocError>
    ensures { IfOk result (λ state. SameMembers (D.has at.now) (D.has state.value)) }
{
    let state = at.copy(alloc)?;
    let state = Box::new(alloc, state)?;
    Ok(state)
}

/// True only where the state has no member.
fn has_no_member<D: NumDomain>(state: &D) -> bool
    ensures { IsTrue result → (store : List ℤ) → D.has state.now store → ⊥ }
{
    state.is_empty()
}
