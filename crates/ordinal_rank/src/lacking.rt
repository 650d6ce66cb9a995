//! Which inputs are left of which nothing is said.
use crate::ordinal::OrdinalRank;
use decision_tree::{AffineRank, Rank, Tree};
use std::alloc::{AllocError, Global};
use tree_unify::{Stopped, TreeFault, Walk};

/// Whether some input may be left of which neither the cover nor the tree says anything. The only error is want of memory.
pub(crate) fn lacks(
    alloc: Global,
    cover: &Tree<AffineRank>,
    ranked: &Tree<OrdinalRank>,
) -> Result<bool, AllocError> {
    let open = Beyond {
        tree: ranked,
        asked: Undefined,
    };
    leads_to_some(alloc, cover, &open)
}

/// Whether the proposal may claim something of an input of which neither the cover nor the tree says anything. The only error is want of memory.
pub(crate) fn adds(
    alloc: Global,
    cover: &Tree<AffineRank>,
    ranked: &Tree<OrdinalRank>,
    proposal: &Tree<OrdinalRank>,
) -> Result<bool, AllocError> {
    let open = Beyond {
        tree: ranked,
        asked: Beyond {
            tree: proposal,
            asked: Defined,
        },
    };
    leads_to_some(alloc, cover, &open)
}

/// What is asked at a leaf, behind the rows that lead there.
trait AtLeaf: Drop {
    /// Whether it is so at a leaf that is defined, or at one that isn't. The walk stands where it stood where it isn't so.
    fn holds(&self, walk: &mut Walk, is_defined: bool) -> Result<bool, Stopped>;
}

/// That the leaf is undefined.
#[derive(Drop)]
struct Undefined;

impl AtLeaf for Undefined {
    fn holds(&self, _walk: &mut Walk, is_defined: bool) -> Result<bool, Stopped> {
        Ok(!is_defined)
    }
}

/// That the leaf is defined.
#[derive(Drop)]
struct Defined;

impl AtLeaf for Defined {
    fn holds(&self, _walk: &mut Walk, is_defined: bool) -> Result<bool, Stopped> {
        Ok(is_defined)
    }
}

/// That the leaf is undefined, and what is asked holds at some leaf of the tree there.
#[derive(Drop)]
struct Beyond<'t, A: AtLeaf> {
    tree: &'t Tree<OrdinalRank>,
    asked: A,
}

impl<'t, A: AtLeaf> AtLeaf for Beyond<'t, A> {
    fn holds(&self, walk: &mut Walk, is_defined: bool) -> Result<bool, Stopped> {
        if is_defined {
            return Ok(false);
        }
        some_leaf(walk, self.tree, &self.asked)
    }
}

/// Whether it is so at a leaf of the tree that may be met behind the rows of the walk. The walk stands where it stood where it isn't so.
fn some_leaf<R: Rank, A: AtLeaf>(
    walk: &mut Walk,
    tree: &Tree<R>,
    asked: &A,
) -> Result<bool, Stopped> {
    match tree {
        Tree::Bottom | Tree::Top(_) => asked.holds(walk, false),
        Tree::Leaf { .. } => asked.holds(walk, true),
        Tree::Node { row, yes, no } => match walk.trail.settles(row) {
            Some(true) => some_leaf(walk, yes, asked),
            Some(false) => some_leaf(walk, no, asked),
            None => {
                walk.down(row)?;
                if some_leaf(walk, yes, asked)? {
                    return Ok(true);
                }
                walk.turn()?;
                let found = some_leaf(walk, no, asked)?;
                walk.trail.up();
                Ok(found)
            }
        },
    }
}

/// Whether it is so at a leaf of the cover, or may be, where a complement passes 128 bits. The only error is want of memory.
fn leads_to_some<A: AtLeaf>(
    alloc: Global,
    cover: &Tree<AffineRank>,
    asked: &A,
) -> Result<bool, AllocError> {
    let mut walk = Walk::new(alloc);
    match some_leaf(&mut walk, cover, asked) {
        Ok(answer) => Ok(answer),
        Err(Stopped) => match walk.fault {
            TreeFault::Memory(error) => Err(error),
            TreeFault::Full { .. } | TreeFault::Wide(_) => Ok(true),
        },
    }
}
