//! Which values of a range are tried.
ghost use Rattle.std.specs.Prelude.{◌≡◌, ℕ, ◌<◌, pos, negsuc, IfErr, OkIff, OnErr, OnOk};
ghost use Rattle.std.specs.Ordering.{int_eq};
ghost use Rattle.linear_cons.specs.Functions.{NumbersFit, coefficient, difference_of, multiple_of, variable_at};
ghost use Rattle.std.specs.List.{list_any};
ghost use Rattle.linear_cons.specs.Exact.{IsOutside};
ghost use Rattle.linear_cons.specs.declared.exact.Wide.{Wide};
ghost use Rattle.decision_tree.specs.Plans.{plan_of};
ghost use Rattle.tree_unify.specs.declared.fault.TreeFault.TheVariants.{Full as TooFull, Wide as TooWide};
ghost use Rattle.backward_transfer.specs.Values.{RootFits, RootsFit, same_function, with_end, with_one, with_root, with_roots};

use decision_tree::{Rank, Shared, Tree};
use linear_cons::{Affine, Row, Wide};
use std::alloc::{AllocError, Global};
use tree_unify::{Stopped, TreeFault, Walk};

/// The most values that are tried.
const MOST_VALUES: usize = 8;

/// Adds the value, unless it is there or there are eight.
#[inline(never)]
pub(crate) fn add_value(values: &mut Vec<Affine>, a: &Affine) -> Result<(), AllocError>
    ensures { OnOk result (values.new.items ≡ with_one values.old.items a.now) }
{
    if values.len() < MOST_VALUES && !has(values, a) {
        values.push(*a)?;
    }
    Ok(())
}

/// Whether the value is among them.
fn has(values: &[Affine], a: &Affine) -> bool
    ensures { result ≡ list_any (λ b. same_function b a.now) values.now }
{
    match values.split_first() {
        None => false,
        Some((value, rest)) => *value == *a || has(rest, a),
    }
}

/// Adds the known end.
pub(crate) fn add_end(values: &mut Vec<Affine>, end: Option<i64>) -> Result<(), AllocError>
    ensures { OnOk result (values.new.items ≡ with_end values.old.items end) }
{
    match end {
        Some(n) => add_value(values, &Affine::constant(n as i128)),
        None => Ok(()),
    }
}

/// Adds the values of the place at which rows of the tree are 0.
pub(crate) fn add_roots<R: Rank>(
    alloc: Global,
    walk: &mut Walk,
    tree: &Tree<R>,
    place: u8,
    values: &mut Vec<Affine>,
) -> Result<(), Stopped>
    requires { place < 16 }
    ensures values { OnOk result (values.new.items ≡ with_roots place (plan_of tree.now) values.old.items) }
    ensures fits { OnOk result (RootsFit place (plan_of tree.now)) }
    ensures full { OnErr result ((count : ℕ) → walk.new.fault ≡ TooFull count → ⊥) }
    ensures wide { OnErr result ((w : Wide) → walk.new.fault ≡ TooWide w → RootsFit place (plan_of tree.now) → ⊥) }
    ensures operands { OnErr result ((w : Wide) → walk.new.fault ≡ TooWide w → IsOutside w) }
{
    match tree {
        Tree::Node { row, yes, no } => {
            add_root_of(walk, row, place, values)?;
            add_roots(alloc, walk, yes, place, values)?;
            add_roots(alloc, walk, no, place, values)
        }
        Tree::Bottom => Ok(()),
        Tree::Top(_) => Ok(()),
        Tree::Leaf { .. } => Ok(()),
    }
}

/// Adds the value of the place at which the row is 0, where its coefficient there is 1 or -1.
#[inline(never)]
fn add_root_of(
    walk: &mut Walk,
    row: &Shared<Row>,
    place: u8,
    values: &mut Vec<Affine>,
) -> Result<(), Stopped>
    requires { place < 16 }
    ensures values { OnOk result (values.new.items ≡ with_root place row.now.affine values.old.items) }
    ensures fits { OnOk result (RootFits place row.now.affine) }
    ensures full { OnErr result ((count : ℕ) → walk.new.fault ≡ TooFull count → ⊥) }
    ensures wide { OnErr result ((w : Wide) → walk.new.fault ≡ TooWide w → RootFits place row.now.affine → ⊥) }
    ensures operands { OnErr result ((w : Wide) → walk.new.fault ≡ TooWide w → IsOutside w) }
{
    let row: &Row = row;
    add_root(walk, &row.affine, place, values)?;
    Ok(())
}

/// Adds the value of the place at which the function is 0, where its coefficient there is 1 or -1.
#[inline(never)]
fn add_root(walk: &mut Walk, a: &Affine, place: u8, values: &mut Vec<Affine>) -> Result<(), Stopped>
    requires { place < 16 }
    ensures values { OnOk result (values.new.items ≡ with_root place a.now values.old.items) }
    ensures fits { OnOk result (RootFits place a.now) }
    ensures full { OnErr result ((count : ℕ) → walk.new.fault ≡ TooFull count → ⊥) }
    ensures wide { OnErr result ((w : Wide) → walk.new.fault ≡ TooWide w → RootFits place a.now → ⊥) }
    ensures operands { OnErr result ((w : Wide) → walk.new.fault ≡ TooWide w → IsOutside w) }
{
    if is_rising(a, place) {
        return match rising_root(a, place) {
            Ok(value) => keep(walk, values, &value),
            Err(wide) => Err(walk.stop(TreeFault::Wide(wide))),
        };
    }
    if is_falling(a, place) {
        return match a.add(&Affine::var(place)) {
            Ok(value) => keep(walk, values, &value),
            Err(wide) => Err(walk.stop(TreeFault::Wide(wide))),
        };
    }
    Ok(())
}

/// Adds the value.
#[inline(never)]
fn keep(walk: &mut Walk, values: &mut Vec<Affine>, value: &Affine) -> Result<(), Stopped>
    ensures values { OnOk result (values.new.items ≡ with_one values.old.items value.now) }
    ensures full { OnErr result ((count : ℕ) → walk.new.fault ≡ TooFull count → ⊥) }
    ensures wide { OnErr result ((w : Wide) → walk.new.fault ≡ TooWide w → ⊥) }
{
    match add_value(values, value) {
        Ok(()) => Ok(()),
        Err(error) => Err(walk.stop(TreeFault::Memory(error))),
    }
}

/// Whether the coefficient at the place is 1.
fn is_rising(a: &Affine, place: u8) -> bool
    requires { place < 16 }
    ensures { result ≡ int_eq (coefficient a.now place) (pos 1) }
{
    a.coef[place as usize] == 1
}

/// Whether it is -1.
fn is_falling(a: &Affine, place: u8) -> bool
    requires { place < 16 }
    ensures { result ≡ int_eq (coefficient a.now place) (negsuc 0) }
{
    a.coef[place as usize] == -1
}

/// The value of the place at which the function is 0, where its coefficient there is 1.
fn rising_root(a: &Affine, place: u8) -> Result<Affine, Wide>
    requires { place < 16 }
    ensures exact { OkIff result
        (NumbersFit (difference_of a.now (variable_at place)) × NumbersFit (multiple_of (difference_of a.now (variable_at place)) (negsuc 0)))
        (multiple_of (difference_of a.now (variable_at place)) (negsuc 0)) }
    ensures wide { IfErr result IsOutside }
{
    let others = a.sub(&Affine::var(place))?;
    let value = others.scale(-1)?;
    Ok(value)
}
