//! The rows that lead to a leaf.
ghost use Rattle.std.specs.Prelude.{◌≡◌, ◌<◌, [], ◌∷◌, ◌++◌, map, reverse, Err, IfOk, OnOk};
ghost use Rattle.linear_cons.specs.Exact.{IsOutside};
ghost use Rattle.linear_cons.specs.declared.exact.Wide.{Wide};
ghost use Rattle.linear_cons.specs.declared.row.Row.{Row};
ghost use Rattle.decision_tree.specs.Paths.{PathFits, path_of};
ghost use Rattle.decision_tree.specs.Plans.{leaves_of, plan_of};
ghost use Rattle.decision_tree.specs.Seeking.{AlongFits, IsSought, path_along};

use crate::rank::Rank;
use crate::tree::Tree;
use linear_cons::{Row, Rows, Wide};
use std::alloc::{AllocError, Global};

/// Why a leaf's path has no list of rows.
#[derive(Clone, Copy, PartialEq, Eq, Debug)]
pub enum PathFault {
    /// The complement of a row on the path has a number outside `i128`.
    Wide(Wide),
    /// Memory ran out. It says nothing of the path.
    Memory(AllocError),
}

impl From<AllocError> for PathFault {
    ghost use Rattle.decision_tree.specs.declared.path.PathFault.TheVariants.{Memory};

    ghost from_gives = { λ error fault. fault ≡ Memory error };

    fn from(error: AllocError) -> PathFault {
        PathFault::Memory(error)
    }
}

impl From<Wide> for PathFault {
    ghost use Rattle.decision_tree.specs.declared.path.PathFault.TheVariants.{Wide as TooWide};

    ghost from_gives = { λ wide fault. fault ≡ TooWide wide };

    fn from(wide: Wide) -> PathFault {
        PathFault::Wide(wide)
    }
}

/// A side of a node.
#[derive(Clone, Copy)]
pub(crate) enum Side {
    Yes,
    No,
}

impl<R: Rank> Tree<R> {
    /// The rows from the root to the leaf with the number: a node's own row on its yes side, the
    /// complement on its no side. A store stands at the leaf exactly where it meets them. Leaves are
    /// numbered from 0, yes sides first. `Wide` comes exactly where a complement on the path has a
    /// number outside `i128`; `Memory` where memory runs out.
    pub fn path(&self, alloc: Global, leaf: u64) -> Result<Rows, PathFault>
        requires { leaf < leaves_of (plan_of self.now) }
        ensures rows { IfOk result (λ rows. map (λ (row : Row). row.affine) rows ≡ path_of (plan_of self.now) leaf) }
        ensures fits { OnOk result (PathFits (plan_of self.now) leaf) }
        ensures wide { (w : Wide) → result ≡ Err (PathFault.Wide w) → PathFits (plan_of self.now) leaf → ⊥ }
        ensures operands { (w : Wide) → result ≡ Err (PathFault.Wide w) → IsOutside w }
    {
        let mut left = leaf;
        let mut sides = Vec::new(alloc);
        let _ = self.seek(&mut left, &mut sides)?;
        self.rows_along(alloc, sides)
    }

    /// Looks for the leaf that `left` others come before, and counts `left` down by each that it
    /// passes. True where it was found: then the sides that lead to it were appended, the last first.
    fn seek(&self, left: &mut u64, sides: &mut Vec<Side>) -> Result<bool, AllocError>
        ensures { IfOk result (λ found. IsSought (plan_of self.now) left.old left.new sides.old.items sides.new.items found) }
    {
        match self {
            Tree::Bottom | Tree::Top(_) | Tree::Leaf { .. } => {
                if *left == 0 {
                    return Ok(true);
                }
                *left -= 1;
                Ok(false)
            }
            Tree::Node { row: _, yes, no } => {
                if yes.seek(left, sides)? {
                    sides.push(Side::Yes)?;
                    return Ok(true);
                }
                if no.seek(left, sides)? {
                    sides.push(Side::No)?;
                    return Ok(true);
                }
                Ok(false)
            }
        }
    }

    /// The rows that are met by going to the sides, the last one first.
    fn rows_along(&self, alloc: Global, sides: Vec<Side>) -> Result<Rows, PathFault>
        ensures rows { IfOk result (λ rows. map (λ (row : Row). row.affine) rows ≡ path_along (plan_of self.now) (reverse sides.items)) }
        ensures fits { OnOk result (AlongFits (plan_of self.now) (reverse sides.items)) }
        ensures wide { (w : Wide) → result ≡ Err (PathFault.Wide w) → AlongFits (plan_of self.now) (reverse sides.items) → ⊥ }
        ensures operands { (w : Wide) → result ≡ Err (PathFault.Wide w) → IsOutside w }
    {
        let mut rows = Vec::new(alloc);
        let mut at = self;
        let mut sides = sides;
        while let Some(side) = sides.pop() {
            if let Tree::Node { row, yes, no } = at {
                match side {
                    Side::Yes => {
                        append(&mut rows, **row)?;
                        at = yes;
                    }
                    Side::No => {
                        let complement = row.not()?;
                        append(&mut rows, complement)?;
                        at = no;
                    }
                }
            }
        }
        Ok(Rows::of(rows))
    }
}

/// Appends the row.
fn append(rows: &mut Vec<Row>, row: Row) -> Result<(), AllocError>
    ensures { OnOk result (rows.new.items ≡ rows.old.items ++ row ∷ []) }
{
    rows.push(row)?;
    Ok(())
}
