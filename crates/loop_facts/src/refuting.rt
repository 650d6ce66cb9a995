//! Rows for which a point refutes a leaf.
use control_flow::{Place, Transition};
use decision_tree::{AffineRank, Comparison, Rank, Tree};
use linear_cons::{Affine, Linear, Op, PLACES, Row, RowKind, Rows, Wide};
use std::alloc::{AllocError, Global};

/// The place that is no variable's, where a value is kept while it is chosen.
const CHOSEN_PLACE: u8 = 15;

/// The number of the edge of a system that has none.
const NO_EDGE: u32 = 2;

/// The point `num / den`, where `den` is above 0.
#[derive(Clone, Copy, PartialEq, Eq, Debug)]
pub struct Point {
    pub num: [i128; 16],
    pub den: i128,
}

impl Point {
    /// Whether it is seen to meet the row: `false` too where a number passes 128 bits.
    fn meets(&self, row: &Row) -> bool {
        match self.value(&row.affine) {
            Ok(value) => value >= 0,
            Err(_) => false,
        }
    }

    /// The function's value at the point, times `den`.
    fn value(&self, function: &Affine) -> Result<i128, Wide> {
        let mut sum = 0;
        for place in 0..PLACES {
            let product = Op::Mul.exact(function.coef[place], self.num[place])?;
            sum = Op::Add.exact(sum, product)?;
        }
        let constant = Op::Mul.exact(function.constant, self.den)?;
        Op::Add.exact(sum, constant)
    }
}

/// A leaf of this rank that stands for a step along each edge of an `A[f U g]`, and the edge along which the point refutes it.
#[derive(Drop)]
pub(crate) struct Refuted<'a> {
    pub(crate) transition: &'a Transition,
    pub(crate) edge: u32,
    pub(crate) rank: AffineRank,
    pub(crate) point: Point,
}

/// What the step along an edge sets a place to, if it does.
type Setting = Option<(Place, Affine)>;

impl<'a> Refuted<'a> {
    /// The rows, but for those of the leaf's region, of the first system of the leaf along the edge that the point meets, over the trees. Nothing where
    /// none is seen, or a value is chosen between known ends.
    pub(crate) fn rows(
        &self,
        alloc: Global,
        trees: &[Tree<AffineRank>],
    ) -> Result<Option<Vec<Row>>, AllocError> {
        let mut rows = Vec::new(alloc);
        if self.is_met(trees, &mut rows)? {
            Ok(Some(rows))
        } else {
            Ok(None)
        }
    }

    /// Whether the point is seen to meet a system along the edge; then its rows were added.
    fn is_met(&self, trees: &[Tree<AffineRank>], rows: &mut Vec<Row>) -> Result<bool, AllocError> {
        if self.edge == NO_EDGE {
            return self.enters(&first_part(self.rank.negative(0)), rows);
        }
        match self.transition {
            Transition::Dead | Transition::End => Ok(false),
            Transition::Pass { to } => self.meets_at(trees, *to, &None, rows),
            Transition::Assign { place, value, to } => {
                self.meets_at(trees, *to, &Some((*place, *value)), rows)
            }
            Transition::Choose {
                place,
                range,
                cases,
                to,
                ..
            } => {
                if has_end(range) {
                    return Ok(false);
                }
                let chosen = Affine::var(CHOSEN_PLACE);
                self.meets_behind(cases, trees, *to, &Some((*place, chosen)), rows)
            }
            Transition::Test {
                holds,
                fails,
                yes,
                no,
                ..
            } => {
                if self.edge == 0 {
                    self.meets_behind(holds, trees, *yes, &None, rows)
                } else {
                    self.meets_behind(fails, trees, *no, &None, rows)
                }
            }
        }
    }

    /// The same of the systems behind one of the conjunctions.
    fn meets_behind(
        &self,
        conjunctions: &[Rows],
        trees: &[Tree<AffineRank>],
        label: u32,
        sets: &Setting,
        rows: &mut Vec<Row>,
    ) -> Result<bool, AllocError> {
        for conjunction in conjunctions {
            if self.meets_each(conjunction.items(), rows)?
                && self.meets_at(trees, label, sets, rows)?
            {
                return Ok(true);
            }
            rows.clear();
        }
        Ok(false)
    }

    /// Adds the rows up to the first that the point isn't seen to meet, and tells whether there is none.
    fn meets_each(&self, more: &[Row], rows: &mut Vec<Row>) -> Result<bool, AllocError> {
        for row in more {
            if !self.point.meets(row) {
                return Ok(false);
            }
            rows.push(*row)?;
        }
        Ok(true)
    }

    /// The same as of a system, of those of the tree at the label.
    fn meets_at(
        &self,
        trees: &[Tree<AffineRank>],
        label: u32,
        sets: &Setting,
        rows: &mut Vec<Row>,
    ) -> Result<bool, AllocError> {
        match trees.get(label as usize) {
            Some(tree) => self.meets_tree(tree, sets, rows),
            None => Ok(true),
        }
    }

    /// Goes to the leaf where the point lies once the place is set, and adds the rows on the way. No point meets a row and its complement, so that there
    /// is one way at most.
    fn meets_tree(
        &self,
        tree: &Tree<AffineRank>,
        sets: &Setting,
        rows: &mut Vec<Row>,
    ) -> Result<bool, AllocError> {
        match tree {
            Tree::Bottom | Tree::Top(_) => Ok(true),
            Tree::Leaf { why: _, rank } => self.meets_claim(rank, sets, rows),
            Tree::Node { row, yes, no } => match self.side(row, sets, rows)? {
                Some(true) => self.meets_tree(yes, sets, rows),
                Some(false) => self.meets_tree(no, sets, rows),
                None => Ok(false),
            },
        }
    }

    /// Whether the yes side of the row is the one where the point lies once the place is set, or the no side; its row was added. It stands apart, since
    /// `meets_tree` recurs along a tree.
    #[inline(never)]
    fn side(
        &self,
        row: &Row,
        sets: &Setting,
        rows: &mut Vec<Row>,
    ) -> Result<Option<bool>, AllocError> {
        if self.enters(&moved(row, sets), rows)? {
            return Ok(Some(true));
        }
        let complement = match row.not() {
            Ok(complement) => moved(&complement, sets),
            Err(wide) => Err(wide),
        };
        if self.enters(&complement, rows)? {
            return Ok(Some(false));
        }
        Ok(None)
    }

    /// Whether the point is seen to meet what a row comes to; a row was added.
    fn enters(
        &self,
        formed: &Result<RowKind, Wide>,
        rows: &mut Vec<Row>,
    ) -> Result<bool, AllocError> {
        match formed {
            Ok(RowKind::Always) => Ok(true),
            Ok(RowKind::Row(row)) => {
                if !self.point.meets(row) {
                    return Ok(false);
                }
                rows.push(*row)?;
                Ok(true)
            }
            Ok(RowKind::Never) | Err(_) => Ok(false),
        }
    }

    /// Whether the point is seen to be where the rank behind the edge, with a step more, is above the leaf's. It stands apart, as `side` does.
    #[inline(never)]
    fn meets_claim(
        &self,
        rank: &AffineRank,
        sets: &Setting,
        rows: &mut Vec<Row>,
    ) -> Result<bool, AllocError> {
        self.enters(&self.excess(rank, sets), rows)
    }

    /// Where the rank behind the edge, with a step more, is above the leaf's.
    fn excess(&self, rank: &AffineRank, sets: &Setting) -> Result<RowKind, Wide> {
        let moved = match sets {
            None => *rank,
            Some((place, by)) => rank.subst(place.number, by)?,
        };
        let more = moved.add_one()?;
        first_part(more.greater(&self.rank, 0))
    }
}

/// Where the one part of a rank decides.
fn first_part(told: Result<Comparison, Wide>) -> Result<RowKind, Wide> {
    match told {
        Ok(comparison) => Ok(comparison.more),
        Err(wide) => Err(wide),
    }
}

/// Whether the range has a known end.
fn has_end(range: &Linear) -> bool {
    range.lo.is_some() || range.hi.is_some()
}

/// What the row says before the place is set.
fn moved(row: &Row, sets: &Setting) -> Result<RowKind, Wide> {
    match sets {
        None => Ok(RowKind::Row(*row)),
        Some((place, by)) => {
            let moved = row.affine.subst(place.number, by)?;
            Ok(Row::of(moved))
        }
    }
}
