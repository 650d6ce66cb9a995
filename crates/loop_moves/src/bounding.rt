//! Bounds of what is chosen, by the rows on the way.
ghost use Rattle.std.specs.Prelude.{◌<◌};

use backward_transfer::back_range;
use decision_tree::{AffineRank, Rank, Shared, Trail, Tree};
use linear_cons::{Affine, Linear, Row};
use std::alloc::{AllocError, Global};
use tree_unify::{Stopped, TreeFault, Walk};

/// The tree before a value of the range is assigned to the variable at the place, with the tree behind it given: as by `back_range`, but where a rank has no greatest
/// over the range, a row on the way to it bounds the value. So the rank `2*t` behind `t = ?;` is `2*q` where `q - t >= 0` was asked. Nothing is promised of it: the check
/// decides.
pub(crate) fn back_bounded(
    alloc: Global,
    tree: &Tree<AffineRank>,
    place: u8,
    range: &Linear,
) -> Result<Tree<AffineRank>, TreeFault>
    requires { place < 16 }
{
    let mut bounded = tree.copy(alloc)?;
    let mut walk = Walk::new(alloc);
    match bound_ranks(alloc, &mut walk, &mut bounded, place, range) {
        Ok(()) => back_range(alloc, &bounded, place, range),
        Err(Stopped) => Err(walk.fault),
    }
}

/// Bounds the ranks without a greatest over the range, where rows on the way do.
fn bound_ranks(
    alloc: Global,
    walk: &mut Walk,
    tree: &mut Tree<AffineRank>,
    place: u8,
    range: &Linear,
) -> Result<(), Stopped>
    requires { place < 16 }
{
    match tree {
        Tree::Bottom | Tree::Top(_) => Ok(()),
        Tree::Leaf { why: _, rank } => {
            match bound_rank(alloc, &walk.trail, rank, place, range) {
                Ok(()) => Ok(()),
                Err(error) => Err(walk.stop(TreeFault::Memory(error))),
            }
        }
        Tree::Node { row, yes, no } => {
            walk.down(row)?;
            bound_ranks(alloc, walk, yes, place, range)?;
            walk.turn()?;
            bound_ranks(alloc, walk, no, place, range)?;
            walk.trail.up();
            Ok(())
        }
    }
}

/// The same of the rank of a leaf. It stands apart, since `bound_ranks` recurs along a tree.
#[inline(never)]
fn bound_rank(
    alloc: Global,
    way: &Trail,
    rank: &mut Shared<AffineRank>,
    place: u8,
    range: &Linear,
) -> Result<(), AllocError>
    requires { place < 16 }
{
    if let Ok(None) = rank.greatest(place, range) {
        if let Some(value) = bounded(&rank.value, place, way.rows()) {
            *rank = Shared::new(alloc, AffineRank { value })?;
        }
    }
    Ok(())
}

/// A function without the place that is at least this one where the rows are met: by the last row that bounds it.
fn bounded(function: &Affine, place: u8, rows: &[Row]) -> Option<Affine>
    requires { place < 16 }
{
    for row in rows.iter().rev() {
        let above = bounded_by(function, place, row);
        if above.is_some() {
            return above;
        }
    }
    None
}

/// The function and the least multiple of the row with which the place is gone, where the one falls with the place and the other rises.
fn bounded_by(function: &Affine, place: u8, row: &Row) -> Option<Affine>
    requires { place < 16 }
{
    let own = function.coef[place as usize];
    let other = row.affine.coef[place as usize];
    if other == 0 || (own > 0) == (other > 0) {
        return None;
    }
    let times = own.checked_div(other)?;
    let part = row.affine.scale(times).ok()?;
    let above = function.sub(&part).ok()?;
    if above.coef[place as usize] != 0 {
        return None;
    }
    Some(above)
}
