//! Leaves that are split where points refute them.
ghost use Rattle.std.specs.Prelude.{◌<◌};
ghost use Rattle.decision_tree.specs.Plans.{leaves_of, plan_of};

use crate::refuting::{Point, Refuted};
use control_flow::Transition;
use decision_tree::{AffineRank, PathFault, Tree};
use linear_cons::{Row, Rows};
use std::alloc::{AllocError, Global};
use tree_unify::{TreeFault, trim};

/// The place that is no variable's, where a value is kept while it is chosen.
const CHOSEN_PLACE: usize = 15;

/// A leaf that a point refutes along an edge, by its number in the tree; the edge is 2 where no step is taken.
#[derive(Clone, Copy, PartialEq, Eq, Debug)]
pub struct Fallen {
    pub leaf: u64,
    pub edge: u32,
    pub point: Point,
}

/// The tree, which stands at the transition among the trees, with the fallen leaf split: nothing is claimed where all the rows hold by which the point
/// refutes it, and its claim stands elsewhere. Rows that the label's own rows or the leaf's path have are left out. Nothing where no such rows are seen, or one of
/// them mentions a chosen value. The fault is want of memory, a number past 128 bits, or too many nodes.
pub fn split(
    alloc: Global,
    trees: &[Tree<AffineRank>],
    tree: &Tree<AffineRank>,
    transition: &Transition,
    own: &[Row],
    fallen: &Fallen,
) -> Result<Option<Tree<AffineRank>>, TreeFault> {
    let mut left = fallen.leaf;
    let Some(leaf) = leaf_of(tree, &mut left) else {
        return Ok(None);
    };
    let Tree::Leaf { why: _, rank } = leaf else {
        return Ok(None);
    };
    if fallen.leaf >= tree.leaves() {
        return Ok(None);
    }
    let refuted = Refuted {
        transition,
        edge: fallen.edge,
        rank: **rank,
        point: fallen.point,
    };
    let Some(found) = refuted.rows(alloc, trees)? else {
        return Ok(None);
    };
    let path = path(alloc, tree, fallen.leaf)?;
    let Some(rows) = beyond(alloc, &found, path.items(), own)? else {
        return Ok(None);
    };
    let part = part(alloc, leaf, &rows, path.items())?;
    let whole = boxed(alloc, tree, &mut Some(fallen.leaf), &part)?;
    Ok(Some(Box::into_inner(whole)))
}

/// The rows of the leaf's path.
fn path(alloc: Global, tree: &Tree<AffineRank>, leaf: u64) -> Result<Rows, TreeFault>
    requires { leaf < leaves_of (plan_of tree.now) }
{
    match tree.path(alloc, leaf) {
        Ok(path) => Ok(path),
        Err(PathFault::Wide(wide)) => Err(TreeFault::Wide(wide)),
        Err(PathFault::Memory(error)) => Err(TreeFault::Memory(error)),
    }
}

/// The rows that are among neither of the others, if none mentions a chosen value.
fn beyond(
    alloc: Global,
    found: &[Row],
    path: &[Row],
    own: &[Row],
) -> Result<Option<Vec<Row>>, AllocError> {
    let mut rows: Vec<Row> = Vec::new(alloc);
    for row in found {
        if !path.contains(row) && !own.contains(row) {
            if row.affine.coef[CHOSEN_PLACE] != 0 {
                return Ok(None);
            }
            rows.push(*row)?;
        }
    }
    Ok(Some(rows))
}

/// Nodes of the rows: nothing is claimed where all of them hold, and the leaf stands elsewhere. They are trimmed by the path.
fn part(
    alloc: Global,
    leaf: &Tree<AffineRank>,
    rows: &[Row],
    path: &[Row],
) -> Result<Tree<AffineRank>, TreeFault> {
    let mut part = Tree::boxed_bottom(alloc)?;
    for row in rows.iter().rev() {
        let other = leaf.boxed(alloc)?;
        part = Tree::boxed_branch(alloc, row, part, other)?;
    }
    trim(alloc, &part, path)
}

/// The leaf that `left` others come before, and `left` counted down by each that is passed.
fn leaf_of<'t>(tree: &'t Tree<AffineRank>, left: &mut u64) -> Option<&'t Tree<AffineRank>> {
    match tree {
        Tree::Node { row: _, yes, no } => match leaf_of(yes, left) {
            Some(leaf) => Some(leaf),
            None => leaf_of(no, left),
        },
        Tree::Bottom | Tree::Top(_) | Tree::Leaf { .. } => {
            if *left == 0 {
                return Some(tree);
            }
            *left -= 1;
            None
        }
    }
}

/// The tree with the part in place of the leaf that `left` others come before; none are left once it is put.
fn boxed(
    alloc: Global,
    tree: &Tree<AffineRank>,
    left: &mut Option<u64>,
    part: &Tree<AffineRank>,
) -> Result<Box<Tree<AffineRank>>, AllocError> {
    match tree {
        Tree::Node { row, yes, no } => {
            let yes = boxed(alloc, yes, left, part)?;
            match boxed(alloc, no, left, part) {
                Ok(no) => Tree::shared_branch(alloc, row, yes, no),
                Err(error) => {
                    Tree::discard(yes);
                    Err(error)
                }
            }
        }
        Tree::Bottom | Tree::Top(_) | Tree::Leaf { .. } => boxed_leaf(alloc, tree, left, part),
    }
}

/// The same of a leaf. It stands apart, since `boxed` recurs along a tree.
#[inline(never)]
fn boxed_leaf(
    alloc: Global,
    tree: &Tree<AffineRank>,
    left: &mut Option<u64>,
    part: &Tree<AffineRank>,
) -> Result<Box<Tree<AffineRank>>, AllocError> {
    match *left {
        Some(0) => {
            *left = None;
            part.boxed(alloc)
        }
        Some(count) => {
            *left = Some(count - 1);
            tree.boxed(alloc)
        }
        None => tree.boxed(alloc),
    }
}
