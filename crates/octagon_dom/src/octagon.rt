//! Octagons of stores.
ghost use Rattle.std.specs.Prelude.{◌≡◌, true, length};
ghost use Rattle.octagon_dom.specs.Cells.{is_void};
ghost use Rattle.octagon_dom.specs.Closure.{IsClosedOrVoid};

use crate::cells::{CELLS, both, is_void};
use crate::closing::{close, meet};
use crate::ends::bounds_of;
use crate::listing::rows_of;
use crate::meeting::{exclude, imply, meet_all};
use crate::merging::{join, widen};
use crate::setting::set;
use linear_cons::{Bounds, Linear, Row};
use num_domain::{Bound, NumDomain};
use std::alloc::{AllocError, Global};

/// The stores that keep to an upper bound on each sum and difference of two places, and on twice each
/// place and its negative; every bound may be missing. The mark `closed` says that no way over a third
/// signed place is shorter than a bound, unless two bounds contradict each other, and `empty` whether two do.
#[derive(Drop)]
pub struct Octagon {
    cells: Vec<Bound<i128>>,
    closed: bool,
    empty: bool,
    ghost size: { length cells.items ≡ 1024 },
    ghost mark: { closed ≡ true → IsClosedOrVoid cells.items },
    ghost void: { empty ≡ is_void cells.items },
}

impl Octagon {
    ghost use Rattle.std.specs.Prelude.{◌≡◌, ◌<◌, All, IsTrue, true, IfOk};
    ghost use Rattle.octagon_dom.specs.Closure.{ArePassed};
    ghost use Rattle.num_domain.specs.Domain.{AllMeet, HasEvery, IsMeet, KeepsAssigned, KeepsMeeting, KeepsMeetingAll, NoneMeets, SameMembers, Within};
    ghost use Rattle.octagon_dom.specs.Assignments.{IsSimpleBeside, SetsValue};
    ghost use Rattle.octagon_dom.specs.Octagons.{AreSameBounds, Has, HasSameMark, HullsClosed, IsClosedOctagon, IsMarked, IsUnmarked, MeetsClosed};
    ghost use Rattle.octagon_dom.specs.Octagons.{MovesClosed, MovesMarked, PassesUnmarked, StatesBound, StaysMarked, UnmarksFilled, WidensFilled};
    ghost use Rattle.octagon_dom.specs.Octagons.{bounds_of, is_empty_octagon};

    /// No bound at all.
    fn whole(alloc: Global) -> Result<Octagon, AllocError>
        ensures every { IfOk result (λ all. HasEvery (Has all)) }
        ensures closed { IfOk result IsClosedOctagon }
        ensures marked { IfOk result IsMarked }
    {
        let cells = vec![in alloc; Bound::Without; CELLS]?;
        let empty = is_void(&cells);
        Ok(Octagon {
            cells,
            closed: true,
            empty,
        })
    }

    /// True where a bound contradicts its opposite.
    fn has_none(&self) -> bool
        ensures { result ≡ is_empty_octagon self.now }
    {
        self.empty
    }

    /// Closes the bounds if the mark is missing.
    fn close_up(&mut self)
        ensures same { SameMembers (Has self.old) (Has self.new) }
        ensures kept { self.old.closed ≡ true → self.new ≡ self.old }
        ensures stays { IsClosedOctagon self.old → AreSameBounds self.old self.new }
        ensures passes { IsUnmarked self.old → ArePassed self.old.cells.items 32 self.new.cells.items }
    {
        if !self.closed {
            let whole = close(self.cells.as_mut_slice());
            self.closed = whole;
            self.empty = is_void(&self.cells);
        }
    }

    /// Adds what the row states.
    fn add(&mut self, row: &Row)
        ensures keeps { KeepsMeeting row.now (Has self.old) (Has self.new) }
        ensures inside { Within (Has self.new) (Has self.old) }
        ensures exact { StatesBound row.now → IsMeet row.now (Has self.old) (Has self.new) }
        ensures closed { MeetsClosed row.now self.old self.new }
        ensures passes { PassesUnmarked row.now self.old self.new }
        ensures marked { StaysMarked row.now self.old self.new }
    {
        self.close_up();
        let whole = meet(self.cells.as_mut_slice(), row);
        self.closed = both(self.closed, whole);
        self.empty = is_void(&self.cells);
    }

    /// Adds what each row states.
    fn add_all(&mut self, rows: &[Row])
        ensures keeps { KeepsMeetingAll rows.now (Has self.old) (Has self.new) }
        ensures inside { Within (Has self.new) (Has self.old) }
        ensures stated { All (λ row. StatesBound row → AllMeet row (Has self.new)) rows.now }
    {
        self.close_up();
        let whole = meet_all(self.cells.as_mut_slice(), rows);
        self.closed = both(self.closed, whole);
        self.empty = is_void(&self.cells);
    }

    /// True only where each member meets the row.
    fn tells(&self, row: &Row) -> bool
        ensures { IsTrue result → AllMeet row.now (Has self.now) }
    {
        imply(&self.cells, row)
    }

    /// True only where no member meets the row. Takes memory only where no look at single bounds tells.
    fn denies(&self, alloc: Global, row: &Row) -> Result<bool, AllocError>
        ensures { IfOk result (λ out. IsTrue out → NoneMeets row.now (Has self.now)) }
    {
        if self.has_none() {
            return Ok(true);
        }
        if self.closed
            && let Some(out) = exclude(&self.cells, row)
        {
            return Ok(out);
        }
        let mut twin = self.twin(alloc)?;
        twin.add(row);
        Ok(twin.has_none())
    }

    /// Takes the bounds of another one.
    fn take_over(&mut self, other: &Octagon)
        ensures { self.new.cells.items ≡ other.now.cells.items }
    {
        self.cells.as_mut_slice().copy_from_slice(&other.cells);
        self.closed = other.closed;
        self.empty = other.empty;
    }

    /// The members of both, where the other one is closed.
    fn unite(&mut self, other: &Octagon)
        ensures own { Within (Has self.old) (Has self.new) }
        ensures others { Within (Has other.now) (Has self.new) }
        ensures hull { HullsClosed self.old other.now self.new }
        ensures closed { IsClosedOctagon self.old → IsClosedOctagon other.now → IsClosedOctagon self.new }
    {
        if other.has_none() {
            return;
        }
        self.close_up();
        if self.has_none() {
            self.take_over(other);
            return;
        }
        join(self.cells.as_mut_slice(), &other.cells);
        self.closed = both(self.closed, other.closed);
        self.empty = is_void(&self.cells);
    }

    /// The members of both, without each bound that the newer one passes.
    fn stretch(&mut self, newer: &Octagon)
        ensures own { Within (Has self.old) (Has self.new) }
        ensures others { Within (Has newer.now) (Has self.new) }
        ensures widening { WidensFilled self.old newer.now self.new }
        ensures unmarks { UnmarksFilled self.old newer.now self.new }
    {
        if newer.has_none() {
            return;
        }
        if self.has_none() {
            self.take_over(newer);
            return;
        }
        widen(self.cells.as_mut_slice(), &newer.cells);
        self.closed = false;
        self.empty = is_void(&self.cells);
    }

    /// The members with the number at the place replaced by those of the expression.
    fn replace(&mut self, place: u8, value: &Linear)
        requires { place < 16 }
        ensures keeps { KeepsAssigned place value.now (Has self.old) (Has self.new) }
        ensures sets { IsSimpleBeside place value.now → SetsValue value.now place (Has self.new) }
        ensures moves { MovesClosed place value.now self.old self.new }
        ensures marked { MovesMarked place value.now self.old self.new }
    {
        self.close_up();
        if self.has_none() {
            return;
        }
        let whole = set(self.cells.as_mut_slice(), place as usize, value);
        self.closed = both(self.closed, whole);
        self.empty = is_void(&self.cells);
    }

    /// The ends at each place.
    fn ends(&self) -> Bounds
        ensures { result ≡ bounds_of self.now }
    {
        bounds_of(&self.cells)
    }

    /// A value with the same bounds.
    fn twin(&self, alloc: Global) -> Result<Octagon, AllocError>
        ensures same { IfOk result (λ twin. twin.cells.items ≡ self.now.cells.items) }
        ensures marked { IfOk result (HasSameMark self.now) }
    {
        let cells = Vec::from_slice(alloc, &self.cells)?;
        Ok(Octagon {
            cells,
            closed: self.closed,
            empty: self.empty,
        })
    }
}

impl NumDomain for Octagon {
    ghost use Rattle.std.specs.Prelude.{◌≡◌, ◌≤◌, ◌<◌, ◌↔◌, ℕ, ℤ, List, All, length, true, IsOk, IfOk, OnErr};
    ghost use Rattle.linear_cons.specs.Bounds.{LiesIn};
    ghost use Rattle.linear_cons.specs.Rows.{MeetsAll};
    ghost use Rattle.num_domain.specs.Domain.{AllMeet, HasEvery, IsMeet, IsPlain, IsStore, IsUnchanged, KeepsAssigned, KeepsMeeting};
    ghost use Rattle.num_domain.specs.Domain.{KeepsMeetingAll, SameMembers, Within};
    ghost use Rattle.octagon_dom.specs.Assignments.{IsSimpleBeside, SetsValue};
    ghost use Rattle.octagon_dom.specs.Octagons.{AreSameBounds, Has, HasSameMark, HullsClosed, IsClosedOctagon, IsMarked, KeepsToEnds, MeetsClosed, MovesClosed};
    ghost use Rattle.octagon_dom.specs.Octagons.{MovesMarked, PassesUnmarked, StatesBound, StaysMarked, UnmarksFilled, WidensFilled, bounds_of};
    ghost use Rattle.octagon_dom.specs.Octagons.{is_empty_octagon, rows_of};
    ghost use Rattle.octagon_dom.specs.Laws.Rows.{bounds_lie, empty_none, rows_met};

    ghost has = { Has };

    ghost seen_empty = { is_empty_octagon };

    ghost told_rows = { rows_of };

    ghost told_bounds = { bounds_of };

    fn top(alloc: Global) -> Result<Octagon, AllocError>
        ensures every { IfOk result (λ all. HasEvery (Has all)) }
        ensures closed { IfOk result IsClosedOctagon }
        ensures marked { IfOk result IsMarked }
    {
        Octagon::whole(alloc)
    }

    /// Adds the bound that the row states, which is exact for a row of at most two variables with
    /// coefficients 1 and -1 and a constant from -2^126 to 2^126 - 1; and for any other row the bounds
    /// that it asks for where the terms of other places have their greatest value. Takes no memory.
    fn meet_row(&mut self, _alloc: Global, row: &Row) -> Result<(), AllocError>
        ensures keeps { IfOk result (λ _. KeepsMeeting row.now (Has self.old) (Has self.new)) }
        ensures plain { IfOk result (λ _. (place : ℕ) → IsPlain row.now place → AllMeet row.now (Has self.new)) }
        ensures exact { IfOk result (λ _. StatesBound row.now → IsMeet row.now (Has self.old) (Has self.new)) }
        ensures inside { IfOk result (λ _. Within (Has self.new) (Has self.old)) }
        ensures closed { IfOk result (λ _. MeetsClosed row.now self.old self.new) }
        ensures passes { IfOk result (λ _. PassesUnmarked row.now self.old self.new) }
        ensures marked { IfOk result (λ _. StaysMarked row.now self.old self.new) }
        ensures total { IsOk result }
        ensures err { OnErr result (IsUnchanged Has is_empty_octagon rows_of bounds_of self.old self.new) }
    {
        self.add(row);
        Ok(())
    }

    /// Adds the bounds that the rows state or ask for, as one row after the other does. Takes no memory.
    fn meet_rows(&mut self, _alloc: Global, rows: &[Row]) -> Result<(), AllocError>
        ensures keeps { IfOk result (λ _. KeepsMeetingAll rows.now (Has self.old) (Has self.new)) }
        ensures stated { IfOk result (λ _. All (λ row. StatesBound row → AllMeet row (Has self.new)) rows.now) }
        ensures inside { IfOk result (λ _. Within (Has self.new) (Has self.old)) }
        ensures total { IsOk result }
        ensures err { OnErr result (IsUnchanged Has is_empty_octagon rows_of bounds_of self.old self.new) }
    {
        self.add_all(rows);
        Ok(())
    }

    /// Of closed octagons with members the least one round both. Takes memory only where the other one
    /// is not closed, as after a widening.
    fn join(&mut self, alloc: Global, other: &Octagon) -> Result<(), AllocError>
        ensures own { IfOk result (λ _. Within (Has self.old) (Has self.new)) }
        ensures others { IfOk result (λ _. Within (Has other.now) (Has self.new)) }
        ensures hull { IfOk result (λ _. HullsClosed self.old other.now self.new) }
        ensures closed { IfOk result (λ _. IsClosedOctagon self.old → IsClosedOctagon other.now → IsClosedOctagon self.new) }
        ensures err { OnErr result (IsUnchanged Has is_empty_octagon rows_of bounds_of self.old self.new) }
    {
        if other.closed {
            self.unite(other);
            return Ok(());
        }
        let mut twin = other.twin(alloc)?;
        twin.close_up();
        self.unite(&twin);
        Ok(())
    }

    /// Of two octagons with members, drops each bound that the newer one passes and keeps every other.
    /// The answer isn't closed, so that a chain of widenings ends. Takes no memory.
    fn widen(&mut self, _alloc: Global, newer: &Octagon) -> Result<(), AllocError>
        ensures own { IfOk result (λ _. Within (Has self.old) (Has self.new)) }
        ensures newer { IfOk result (λ _. Within (Has newer.now) (Has self.new)) }
        ensures widening { IfOk result (λ _. WidensFilled self.old newer.now self.new) }
        ensures unmarks { IfOk result (λ _. UnmarksFilled self.old newer.now self.new) }
        ensures total { IsOk result }
        ensures err { OnErr result (IsUnchanged Has is_empty_octagon rows_of bounds_of self.old self.new) }
    {
        self.stretch(newer);
        Ok(())
    }

    /// Replaces the number at the place. Where the expression is at most one variable of another place,
    /// with the coefficient 1 or -1, plus a number between two ends, all that it says of the new number
    /// is kept; where the variable is that of the place the bounds move with it, which is exact for a step
    /// by one number in a closed octagon, all of them at most 2^125 in size. Of any other expression the
    /// least and the greatest value are kept. Takes no memory.
    fn assign(&mut self, _alloc: Global, place: u8, value: &Linear) -> Result<(), AllocError>
        requires { place < 16 }
        ensures keeps { IfOk result (λ _. KeepsAssigned place value.now (Has self.old) (Has self.new)) }
        ensures sets { IfOk result (λ _. IsSimpleBeside place value.now → SetsValue value.now place (Has self.new)) }
        ensures moves { IfOk result (λ _. MovesClosed place value.now self.old self.new) }
        ensures marked { IfOk result (λ _. MovesMarked place value.now self.old self.new) }
        ensures total { IsOk result }
        ensures err { OnErr result (IsUnchanged Has is_empty_octagon rows_of bounds_of self.old self.new) }
    {
        self.replace(place, value);
        Ok(())
    }

    fn is_empty(&self) -> bool {
        self.has_none()
    }

    /// By one bound where the row states one, and else by the ends.
    fn implies(&self, row: &Row) -> bool {
        self.tells(row)
    }

    /// By a few bounds where the row states one, and else by a copy that meets the row.
    fn rules_out(&self, alloc: Global, row: &Row) -> Result<bool, AllocError> {
        self.denies(alloc, row)
    }

    /// At most 512 rows, one for each sum or difference that is bounded: exactly the members meet them.
    fn rows(&self, alloc: Global) -> Result<Vec<Row>, AllocError>
        ensures answer { IfOk result (λ rows. rows.items ≡ rows_of self.now) }
        ensures exact { IfOk result (λ rows. (store : List ℤ) → IsStore store → Has self.now store ↔ MeetsAll store rows.items) }
        ensures few { IfOk result (λ rows. length rows.items ≤ 512) }
    {
        rows_of(alloc, &self.cells)
    }

    /// The ends at the places: a store lies between them exactly where it keeps to the bounds of one place.
    fn bounds(&self) -> Bounds
        ensures answer { result ≡ bounds_of self.now }
        ensures exact { (store : List ℤ) → LiesIn result store ↔ KeepsToEnds self.now.cells.items store }
    {
        self.ends()
    }

    fn copy(&self, alloc: Global) -> Result<Octagon, AllocError>
        ensures answer { IfOk result (λ twin. SameMembers (Has self.now) (Has twin)) }
        ensures same { IfOk result (AreSameBounds self.now) }
        ensures marked { IfOk result (HasSameMark self.now) }
    {
        self.twin(alloc)
    }

    ghost empty_law = { empty_none };

    ghost rows_law = { rows_met };

    ghost bounds_law = { bounds_lie };
}
