//! Polyhedra of stores.
ghost use Rattle.std.specs.Prelude.{◌≤◌, length, IsTrue};
ghost use Rattle.linear_solve.specs.Answers.{HasNoStore};
ghost use Rattle.poly_dom.specs.Laws.OneProof.{AreBounds-prop};
ghost use Rattle.poly_dom.specs.Lists.{AreBounds};

use crate::adding::{MOST, with_row, with_rows};
use crate::carrying::assigned;
use crate::judging::{add_implied, common, ends_of, have_none, tell_all};
use linear_cons::{Bounds, Linear, Row, settles};
use num_domain::{NumDomain, ends_imply};
use std::alloc::{AllocError, Global};

/// The stores that meet at most 256 rows, the oldest row first.
#[derive(Drop)]
pub struct Poly {
    rows: Vec<Row>,
    empty: bool,
    bounds: Bounds,
    ghost few: { length rows.items ≤ 256 },
    ghost void: { IsTrue empty → HasNoStore rows.items },
    ghost around: { AreBounds rows.items bounds } by { AreBounds-prop rows.items bounds },
}

impl Poly {
    ghost use Rattle.std.specs.Prelude.{◌≡◌, ◌<◌, ◌≤◌, false, length, IsTrue, IfOk, Some};
    ghost use Rattle.linear_cons.specs.Settling.{settles};
    ghost use Rattle.linear_solve.specs.Answers.{HasNoStore};
    ghost use Rattle.poly_dom.specs.Lists.{IsAdded};

    /// The polyhedron of the rows. The solver is asked whether it has a member.
    fn of(alloc: Global, rows: Vec<Row>) -> Result<Poly, AllocError>
        requires { length rows.items ≤ 256 }
        ensures { IfOk result (λ set. set.rows.items ≡ rows.items) }
    {
        let empty = have_none(alloc, &rows)?;
        let bounds = ends_of(alloc, &rows)?;
        Ok(Poly {
            rows,
            empty,
            bounds,
        })
    }

    /// The polyhedron of rows that some store is taken to meet.
    fn filled(alloc: Global, rows: Vec<Row>) -> Result<Poly, AllocError>
        requires { length rows.items ≤ 256 }
        ensures { IfOk result (λ set. set.rows.items ≡ rows.items) }
    {
        let bounds = ends_of(alloc, &rows)?;
        Ok(Poly {
            rows,
            empty: false,
            bounds,
        })
    }

    /// True only where one of the rows is opposed to another one, and none has to be given up for it.
    fn excludes(&self, row: &Row) -> bool
        ensures opposed { IsTrue result → settles self.now.rows.items row.now ≡ Some false }
        ensures room { IsTrue result → length self.now.rows.items < 256 }
    {
        match settles(&self.rows, row) {
            Some(false) => self.rows.len() < MOST,
            _ => false,
        }
    }

    /// The polyhedron with one row more. The solver is asked whether it has a member where no row is
    /// opposed to that.
    fn met(&self, alloc: Global, row: &Row) -> Result<Poly, AllocError>
        ensures { IfOk result (λ set. IsAdded row.now self.now.rows.items set.rows.items) }
    {
        let rows = with_row(alloc, &self.rows, row)?;
        if self.excludes(row) {
            return Ok(Poly {
                rows,
                empty: true,
                bounds: self.bounds,
            });
        }
        Poly::of(alloc, rows)
    }

    /// The polyhedron of the same rows.
    fn twin(&self, alloc: Global) -> Result<Poly, AllocError>
        ensures { IfOk result (λ twin. twin.rows.items ≡ self.now.rows.items) }
    {
        let rows = Vec::from_slice(alloc, &self.rows)?;
        Ok(Poly {
            rows,
            empty: self.empty,
            bounds: self.bounds,
        })
    }
}

impl NumDomain for Poly {
    ghost use Rattle.std.specs.Prelude.{◌≡◌, ◌<◌, ◌≤◌, ◌+◌, ◌↔◌, ◌⊎◌, ℕ, ℤ, List, All, Contains, drop, length, true, false, IfOk, OnErr};
    ghost use Rattle.linear_cons.specs.declared.row.Row.{Row};
    ghost use Rattle.linear_cons.specs.Rows.{MeetsAll};
    ghost use Rattle.num_domain.specs.Domain.{AllMeet, IsMeet, IsMeetAll, IsPlain, IsStore, IsUnchanged, KeepsMeeting, KeepsMeetingAll};
    ghost use Rattle.num_domain.specs.Domain.{SameMembers, Within};
    ghost use Rattle.poly_dom.specs.Polyhedra.{Has, bounds_lie, bounds_of, empty_none, is_empty_poly, rows_met, rows_of};

    ghost has = { Has };

    ghost seen_empty = { is_empty_poly };

    ghost told_rows = { rows_of };

    ghost told_bounds = { bounds_of };

    fn top(alloc: Global) -> Result<Poly, AllocError> {
        Poly::filled(alloc, Vec::new(alloc))
    }

    /// Adds the row, and asks the solver whether a member is left, unless a row is opposed to it. Of rows
    /// with the same coefficients the tightest stays, and past 256 rows the oldest is given up. A polyhedron
    /// that is seen to be empty stays.
    fn meet_row(&mut self, alloc: Global, row: &Row) -> Result<(), AllocError>
        ensures keeps { IfOk result (λ _. KeepsMeeting row.now (Has self.old) (Has self.new)) }
        ensures plain { IfOk result (λ _. (place : ℕ) → IsPlain row.now place → AllMeet row.now (Has self.new)) }
        ensures met { IfOk result (λ _. AllMeet row.now (Has self.new)) }
        ensures exact { IfOk result (λ _. length (rows_of self.old) < 256 → IsMeet row.now (Has self.old) (Has self.new)) }
        ensures rest { IfOk result (λ _. length (rows_of self.old) ≡ 256 → All (λ row. AllMeet row (Has self.new)) (drop 1 (rows_of self.old))) }
        ensures err { OnErr result (IsUnchanged Has is_empty_poly rows_of bounds_of self.old self.new) }
    {
        if self.empty {
            return Ok(());
        }
        if let Some(true) = settles(&self.rows, row) {
            return Ok(());
        }
        *self = self.met(alloc, row)?;
        Ok(())
    }

    /// Adds all rows, and asks the solver once whether a member is left. That is exact where there are no
    /// more than 256 rows in all. A polyhedron that is seen to be empty stays.
    fn meet_rows(&mut self, alloc: Global, rows: &[Row]) -> Result<(), AllocError>
        ensures keeps { IfOk result (λ _. KeepsMeetingAll rows.now (Has self.old) (Has self.new)) }
        ensures exact { IfOk result (λ _. length (rows_of self.old) + length rows.now ≤ 256
            → IsMeetAll rows.now (Has self.old) (Has self.new)) }
        ensures err { OnErr result (IsUnchanged Has is_empty_poly rows_of bounds_of self.old self.new) }
    {
        if self.empty || tell_all(&self.rows, rows) {
            return Ok(());
        }
        let rows = with_rows(alloc, &self.rows, rows)?;
        *self = Poly::of(alloc, rows)?;
        Ok(())
    }

    /// The rows of each side that the other one implies. Where one side is seen to be empty it is the
    /// other one.
    fn join(&mut self, alloc: Global, other: &Poly) -> Result<(), AllocError>
        ensures own { IfOk result (λ _. Within (Has self.old) (Has self.new)) }
        ensures others { IfOk result (λ _. Within (Has other.now) (Has self.new)) }
        ensures among { IfOk result (λ _. (row : Row) → Contains (rows_of self.new) row
            → Contains (rows_of self.old) row ⊎ Contains (rows_of other.now) row) }
        ensures err { OnErr result (IsUnchanged Has is_empty_poly rows_of bounds_of self.old self.new) }
    {
        if other.empty {
            return Ok(());
        }
        if self.empty {
            *self = other.twin(alloc)?;
            return Ok(());
        }
        let rows = common(alloc, &self.rows, &other.rows)?;
        *self = Poly::filled(alloc, rows)?;
        Ok(())
    }

    /// The rows that the newer one implies, as in the first widening of Cousot and Halbwachs, so that each
    /// widening in a chain loses a row or changes nothing. Where one side is seen to be empty it is the
    /// other one.
    fn widen(&mut self, alloc: Global, newer: &Poly) -> Result<(), AllocError>
        ensures own { IfOk result (λ _. Within (Has self.old) (Has self.new)) }
        ensures newer { IfOk result (λ _. Within (Has newer.now) (Has self.new)) }
        ensures among { IfOk result (λ _. is_empty_poly self.old ≡ false → (row : Row) → Contains (rows_of self.new) row
            → Contains (rows_of self.old) row) }
        ensures err { OnErr result (IsUnchanged Has is_empty_poly rows_of bounds_of self.old self.new) }
    {
        if newer.empty {
            return Ok(());
        }
        if self.empty {
            *self = newer.twin(alloc)?;
            return Ok(());
        }
        let mut rows = Vec::new(alloc);
        add_implied(alloc, &mut rows, &self.rows, &newer.rows)?;
        *self = Poly::filled(alloc, rows)?;
        Ok(())
    }

    /// Turns the rows into those of the new number, as far as the old one is read, and else eliminates
    /// the place and adds the rows that bound the new number by the expression. A polyhedron that is seen
    /// to be empty stays.
    fn assign(&mut self, alloc: Global, place: u8, value: &Linear) -> Result<(), AllocError> {
        if self.empty {
            return Ok(());
        }
        let rows = assigned(alloc, &self.rows, place, value)?;
        *self = Poly::filled(alloc, rows)?;
        Ok(())
    }

    /// What the solver answered when the rows were put together.
    fn is_empty(&self) -> bool {
        self.empty
    }

    /// Where there is no member, where one of the rows tells the row, or where the ends say that it is met.
    fn implies(&self, row: &Row) -> bool {
        if self.empty {
            return true;
        }
        if let Some(true) = settles(&self.rows, row) {
            return true;
        }
        ends_imply(&self.bounds, row)
    }

    /// At most 256 rows, the oldest first: exactly the members meet them.
    fn rows(&self, alloc: Global) -> Result<Vec<Row>, AllocError>
        ensures answer { IfOk result (λ rows. rows.items ≡ rows_of self.now) }
        ensures exact { IfOk result (λ rows. (store : List ℤ) → IsStore store → Has self.now store ↔ MeetsAll store rows.items) }
        ensures few { IfOk result (λ rows. length rows.items ≤ 256) }
    {
        Vec::from_slice(alloc, &self.rows)
    }

    fn bounds(&self) -> Bounds {
        self.bounds
    }

    fn copy(&self, alloc: Global) -> Result<Poly, AllocError>
        ensures same { IfOk result (λ twin. SameMembers (Has self.now) (Has twin)) }
        ensures same_rows { IfOk result (λ twin. rows_of twin ≡ rows_of self.now) }
    {
        self.twin(alloc)
    }

    ghost empty_law = { empty_none };

    ghost rows_law = { rows_met };

    ghost bounds_law = { bounds_lie };
}
