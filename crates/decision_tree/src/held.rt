//! Rows, found by their linear parts.
ghost use Rattle.std.specs.Prelude.{◌≡◌, ◌<◌, ◌++◌, ◌∷◌, ◌-◌, List, [], OnOk, OnErr, length, slice_index_or, take};
ghost use Rattle.linear_cons.specs.Functions.{complement_of};
ghost use Rattle.linear_cons.specs.declared.row.Row.{Row};
ghost use Rattle.linear_cons.specs.Settling.{functions_of_rows, settled, settles, tells};
ghost use Rattle.decision_tree.specs.Marks.{mark_of};
ghost use Rattle.decision_tree.specs.Trails.{IsPlaceOf, same_part, with_constant_at};

use linear_cons::Row;
use std::alloc::{AllocError, Global};
use std::marker::Model;

/// The factor of a mark: an odd number whose bits look like chance.
const FACTOR: u64 = 11_400_714_819_323_198_485;

/// How many numbers a mark may be.
const MARKS: u128 = 1 << 64;

/// Rows, each with a mark, so that a look-up by a linear part reads eight bytes of a row that has another. Contracts see it as the list of the rows.
#[derive(Drop)]
pub(crate) struct HeldRows {
    rows: Vec<Row>,
    marks: Vec<u64>,
}

impl Model for HeldRows {
    ghost use Rattle.std.specs.Prelude.{◌≡◌, List, map};
    ghost use Rattle.linear_cons.specs.declared.row.Row.{Row};
    ghost use Rattle.decision_tree.specs.Marks.{mark_of};

    ghost Value = { List Row };

    ghost view = { λ inside. inside.rows.items };

    ghost invariant = { λ inside. inside.marks.items ≡ map (λ (row : Row). mark_of row.affine) inside.rows.items };
}

impl HeldRows {
    /// No rows. It takes no memory.
    pub(crate) fn new(alloc: Global) -> HeldRows
        ensures { result ≡ [] }
    {
        HeldRows {
            rows: Vec::new(alloc),
            marks: Vec::new(alloc),
        }
    }

    /// The rows.
    pub(crate) fn rows(&self) -> &[Row]
        ensures { result.now ≡ self.now }
    {
        &self.rows
    }

    /// Adds the row, whose mark is told, behind the others. After want of memory they are as before.
    pub(crate) fn push(&mut self, mark: u64, row: &Row) -> Result<(), AllocError>
        requires { mark ≡ mark_of row.now.affine }
        ensures pushed { OnOk result (self.new ≡ self.old ++ row.now ∷ []) }
        ensures stays { OnErr result (self.new ≡ self.old) }
    {
        self.marks.push(mark)?;
        if let Err(error) = self.rows.push(*row) {
            let _ = self.marks.pop();
            return Err(error.into());
        }
        Ok(())
    }

    /// Takes the last row away, where there is one.
    pub(crate) fn pop(&mut self)
        ensures { self.new ≡ take (length self.old - 1) self.old }
    {
        let _ = self.marks.pop();
        let _ = self.rows.pop();
    }

    /// Gives the row at the place another constant, where there is one.
    pub(crate) fn set_constant(&mut self, place: usize, constant: i128)
        ensures { self.new ≡ with_constant_at self.old place constant }
    {
        if place < self.rows.len() {
            self.rows[place].affine.constant = constant;
        }
    }

    /// Where the row with the same coefficients as that with the mark stands, if there is one.
    pub(crate) fn place_of(&self, mark: u64, row: &Row) -> Option<usize>
        requires { mark ≡ mark_of row.now.affine }
        ensures { IsPlaceOf self.now row.now result }
    {
        for place in 0..self.rows().len() {
            if self.has_part(place, mark, row) {
                return Some(place);
            }
        }
        None
    }

    /// Whether the row at the place has the same coefficients.
    fn has_part(&self, place: usize, mark: u64, row: &Row) -> bool
        requires within { place < length self.now }
        requires mark { mark ≡ mark_of row.now.affine }
        ensures { (d : Row) → result ≡ same_part (slice_index_or self.now place d) row.now }
    {
        self.marks[place] == mark && self.rows[place].affine.coef == row.affine.coef
    }

    /// Whether the rows settle one more by their linear parts.
    pub(crate) fn settles(&self, row: &Row) -> Option<bool>
        ensures { result ≡ settles self.now row.now }
    {
        let mark = mark_of(row);
        if self.tell(mark, row) {
            Some(true)
        } else if self.oppose(mark, row) {
            Some(false)
        } else {
            None
        }
    }

    /// Whether one of the rows tells the row.
    fn tell(&self, mark: u64, row: &Row) -> bool
        requires mark { mark ≡ mark_of row.now.affine }
        ensures { result ≡ settled (functions_of_rows self.now) row.now.affine }
    {
        for place in 0..self.rows().len() {
            if self.tells_at(place, mark, row) {
                return true;
            }
        }
        false
    }

    /// Whether the row at the place tells the row.
    fn tells_at(&self, place: usize, mark: u64, row: &Row) -> bool
        requires within { place < length self.now }
        requires mark { mark ≡ mark_of row.now.affine }
        ensures { (d : Row) → result ≡ tells (slice_index_or self.now place d).affine row.now.affine }
    {
        self.marks[place] == mark && self.rows[place].tells(row)
    }

    /// Whether one of the rows is opposed to the row, and so tells its complement.
    fn oppose(&self, mark: u64, row: &Row) -> bool
        requires mark { mark ≡ mark_of row.now.affine }
        ensures { result ≡ settled (functions_of_rows self.now) (complement_of row.now.affine) }
    {
        for place in 0..self.rows().len() {
            if self.opposes_at(place, mark, row) {
                return true;
            }
        }
        false
    }

    /// Whether the row at the place is opposed to the row.
    fn opposes_at(&self, place: usize, mark: u64, row: &Row) -> bool
        requires within { place < length self.now }
        requires mark { mark ≡ mark_of row.now.affine }
        ensures { (d : Row) → result ≡ tells (slice_index_or self.now place d).affine (complement_of row.now.affine) }
    {
        self.marks[place] == mark && self.rows[place].refutes(row)
    }
}

/// The mark of a row. Those of the same coefficients and of their negatives have the same.
pub(crate) fn mark_of(row: &Row) -> u64
    ensures { result ≡ mark_of row.now.affine }
{
    let mut mark = 0u64;
    for place in 0..16 {
        let size = (row.affine.coef[place].unsigned_abs() % MARKS) as u64;
        mark = mark.wrapping_mul(FACTOR).wrapping_add(size);
    }
    mark
}
