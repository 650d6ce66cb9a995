//! Boxes of stores.
ghost use Rattle.std.specs.Prelude.{◌≡◌, ◌<◌, ◌++◌, ◌∷◌, [], Some, OnOk, IfOk};
ghost use Rattle.interval_dom.specs.Boxes.{IsPartFor, line, lower_line, upper_line};
ghost use Rattle.num_domain.specs.Ends.{some_end};
ghost use Rattle.num_domain.specs.Lines.{rows_of_lines};

use crate::interval::Interval;
use linear_cons::{Affine, Bounds, Linear, PLACES, Row, RowKind};
use num_domain::{Bound, NumDomain, ends_imply};
use std::alloc::{AllocError, Global};

/// The stores whose number at each place lies between two ends, either of which may be missing.
#[derive(Clone, Copy, PartialEq, Eq, Debug)]
pub struct Boxes {
    intervals: [Interval; 16],
}

impl Boxes {
    ghost use Rattle.std.specs.Prelude.{◌≡◌, ◌<◌, All, true, false};
    ghost use Rattle.num_domain.specs.Domain.{HasEvery, KeepsAssigned, KeepsMeeting, KeepsMeetingAll, Within};
    ghost use Rattle.interval_dom.specs.Boxes.{Has, IsLeastOf, KeepsOtherEnds, MeetsAlone, RefinesEnds, SetsHull, WidensFilled};
    ghost use Rattle.interval_dom.specs.Boxes.{bounds_of, is_empty_box, rows_of};

    /// No end at any place.
    fn whole() -> Boxes
        ensures { HasEvery (Has result) }
    {
        Boxes {
            intervals: [Interval {
                lower: Bound::Without,
                upper: Bound::Without,
            }; PLACES],
        }
    }

    /// True exactly where there is no member: some place's ends leave no number.
    fn has_none(&self) -> bool
        ensures { result ≡ is_empty_box self.now }
    {
        self.intervals.iter().any(|range| range.is_void())
    }

    /// The ends at each place.
    fn ends(&self) -> Bounds
        ensures { result ≡ bounds_of self.now }
    {
        let mut ends = [(None, None); PLACES];
        for place in 0..PLACES {
            let range = self.intervals[place];
            ends[place] = (range.lower.end(), range.upper.end());
        }
        Bounds { ends }
    }

    /// Refines at each place the end that the row asks for where its other terms have their greatest
    /// value. A row asks for the end at a place that its greatest values do not rest on, so that all of
    /// them may be taken over the ends as they were.
    fn refine(&mut self, row: &Row)
        ensures keeps { KeepsMeeting row.now (Has self.old) (Has self.new) }
        ensures inside { Within (Has self.new) (Has self.old) }
        ensures alone { MeetsAlone row.now (Has self.new) }
        ensures refined { RefinesEnds row.now (bounds_of self.old) (bounds_of self.new) }
    {
        let before = self.ends();
        for place in 0..PLACES {
            self.intervals[place] = part_for(row, &before, place, &self.intervals[place]);
        }
    }

    /// Refines the ends by each row, one after the other.
    fn refine_all(&mut self, rows: &[Row])
        ensures keeps { KeepsMeetingAll rows.now (Has self.old) (Has self.new) }
        ensures inside { Within (Has self.new) (Has self.old) }
        ensures alone { All (λ row. MeetsAlone row (Has self.new)) rows.now }
    {
        for row in rows {
            self.refine(row);
        }
    }

    /// The least box round the members of both.
    fn hull(&self, other: &Boxes) -> Boxes
        ensures own { Within (Has self.now) (Has result) }
        ensures others { Within (Has other.now) (Has result) }
        ensures least { IsLeastOf (Has self.now) (Has other.now) (Has result) }
        ensures empty { is_empty_box self.now ≡ true → result ≡ other.now }
        ensures empty_other { is_empty_box self.now ≡ false → is_empty_box other.now ≡ true → result ≡ self.now }
    {
        if self.has_none() {
            return *other;
        }
        if other.has_none() {
            return *self;
        }
        let mut hull = *self;
        for place in 0..PLACES {
            hull.intervals[place] = self.intervals[place].hull(&other.intervals[place]);
        }
        hull
    }

    /// The members of both, without each end that the newer box passes.
    fn widened(&self, newer: &Boxes) -> Boxes
        ensures own { Within (Has self.now) (Has result) }
        ensures others { Within (Has newer.now) (Has result) }
        ensures ends { WidensFilled self.now newer.now result }
        ensures empty { is_empty_box self.now ≡ true → result ≡ newer.now }
        ensures empty_newer { is_empty_box self.now ≡ false → is_empty_box newer.now ≡ true → result ≡ self.now }
    {
        if self.has_none() {
            return *newer;
        }
        if newer.has_none() {
            return *self;
        }
        let mut wide = *self;
        for place in 0..PLACES {
            wide.intervals[place] = self.intervals[place].widened(&newer.intervals[place]);
        }
        wide
    }

    /// The members with the number at the place replaced by those of the expression.
    fn set(&mut self, place: u8, value: &Linear)
        requires { place < 16 }
        ensures keeps { KeepsAssigned place value.now (Has self.old) (Has self.new) }
        ensures other_ends { KeepsOtherEnds place (bounds_of self.old) (bounds_of self.new) }
        ensures hull { SetsHull place value.now self.old self.new }
        ensures empty { is_empty_box self.old ≡ true → self.new ≡ self.old }
    {
        if self.has_none() {
            return;
        }
        let bounds = self.ends();
        self.intervals[place as usize] = Interval {
            lower: Bound::of(value.least(&bounds)),
            upper: Bound::of(value.greatest(&bounds)),
        };
    }

    /// A row for each end whose row fits.
    fn listed(&self, alloc: Global) -> Result<Vec<Row>, AllocError>
        ensures rows { IfOk result (λ rows. rows.items ≡ rows_of self.now) }
    {
        let mut rows = Vec::new(alloc);
        for place in 0..PLACES {
            let range = self.intervals[place];
            push_lower(&mut rows, place, range.lower)?;
            push_upper(&mut rows, place, range.upper)?;
        }
        Ok(rows)
    }
}

/// The part of the interval at the place that the row leaves, where the other places are in the bounds.
fn part_for(row: &Row, bounds: &Bounds, place: usize, range: &Interval) -> Interval
    requires { place < 16 }
    ensures { IsPartFor row.now bounds.now place range.now result }
{
    let factor = row.affine.coef[place];
    if factor == 0 {
        return *range;
    }
    let mut coef = row.affine.coef;
    coef[place] = 0;
    let constant = row.affine.constant;
    match Linear::exactly(Affine { coef, constant }).greatest(bounds) {
        Some(rest) => range.refined(factor, rest),
        None => *range,
    }
}

/// Adds the row `factor * x + constant >= 0` of the number at the place.
fn push_line(
    rows: &mut Vec<Row>,
    place: usize,
    factor: i128,
    constant: i128,
) -> Result<(), AllocError>
    requires { place < 16 }
    ensures { OnOk result (rows.new.items ≡ rows.old.items ++ rows_of_lines (line place factor constant ∷ [])) }
{
    let mut affine = Affine::constant(constant);
    affine.coef[place] = factor;
    if let RowKind::Row(row) = Row::of(affine) {
        rows.push(row)?;
    }
    Ok(())
}

/// Adds the row of a lower end, if there is one and its number fits.
fn push_lower(rows: &mut Vec<Row>, place: usize, lower: Bound<i128>) -> Result<(), AllocError>
    requires { place < 16 }
    ensures { OnOk result (rows.new.items ≡ rows.old.items ++ rows_of_lines (lower_line place (some_end lower))) }
{
    let Bound::At(lower) = lower else {
        return Ok(());
    };
    let Some(constant) = lower.checked_neg() else {
        return Ok(());
    };
    push_line(rows, place, 1, constant)?;
    Ok(())
}

/// Adds the row of an upper end, if there is one.
fn push_upper(rows: &mut Vec<Row>, place: usize, upper: Bound<i128>) -> Result<(), AllocError>
    requires { place < 16 }
    ensures { OnOk result (rows.new.items ≡ rows.old.items ++ rows_of_lines (upper_line place (some_end upper))) }
{
    let Bound::At(upper) = upper else {
        return Ok(());
    };
    push_line(rows, place, -1, upper)?;
    Ok(())
}

impl NumDomain for Boxes {
    ghost use Rattle.std.specs.Prelude.{◌≡◌, ◌<◌, ℕ, All, true, false, map, IsOk, IfOk, OnErr};
    ghost use Rattle.num_domain.specs.Domain.{AllMeet, HasEvery, IsMeet, IsPlain, IsUnchanged, KeepsAssigned, KeepsMeeting, KeepsMeetingAll};
    ghost use Rattle.num_domain.specs.Domain.{SameMembers, Within};
    ghost use Rattle.interval_dom.specs.Boxes.{Has, HasOneEnd, IsLeastOf, KeepsOtherEnds, MeetsAlone, RefinesEnds, SetsHull, TellsEmpty};
    ghost use Rattle.interval_dom.specs.Boxes.{WidensFilled};
    ghost use Rattle.interval_dom.specs.Boxes.{bounds_of, is_empty_box, lines_below, rows_of};
    ghost use Rattle.interval_dom.specs.Laws.BoxLaws.{empty_none, rows_met};

    ghost has = { Has };

    ghost seen_empty = { is_empty_box };

    ghost told_rows = { rows_of };

    ghost told_bounds = { bounds_of };

    fn top(_alloc: Global) -> Result<Boxes, AllocError>
        ensures every { IfOk result (λ all. HasEvery (Has all)) }
        ensures total { IsOk result }
    {
        Ok(Boxes::whole())
    }

    /// Refines at each place the end that the row asks for where its other terms have their greatest
    /// value. That is exact for a row of one variable whose constant is not -2^127.
    fn meet_row(&mut self, _alloc: Global, row: &Row) -> Result<(), AllocError>
        ensures keeps { IfOk result (λ _. KeepsMeeting row.now (Has self.old) (Has self.new)) }
        ensures plain { IfOk result (λ _. (place : ℕ) → IsPlain row.now place → AllMeet row.now (Has self.new)) }
        ensures exact { IfOk result (λ _. (place : ℕ) → HasOneEnd row.now place → IsMeet row.now (Has self.old) (Has self.new)) }
        ensures refined { IfOk result (λ _. RefinesEnds row.now (bounds_of self.old) (bounds_of self.new)) }
        ensures inside { IfOk result (λ _. Within (Has self.new) (Has self.old)) }
        ensures total { IsOk result }
        ensures err { OnErr result (IsUnchanged Has is_empty_box rows_of bounds_of self.old self.new) }
    {
        self.refine(row);
        Ok(())
    }

    /// Refines the ends by each row, one after the other: each member meets the rows of one variable whose
    /// constant is not -2^127.
    fn meet_rows(&mut self, _alloc: Global, rows: &[Row]) -> Result<(), AllocError>
        ensures keeps { IfOk result (λ _. KeepsMeetingAll rows.now (Has self.old) (Has self.new)) }
        ensures alone { IfOk result (λ _. All (λ row. MeetsAlone row (Has self.new)) rows.now) }
        ensures inside { IfOk result (λ _. Within (Has self.new) (Has self.old)) }
        ensures total { IsOk result }
        ensures err { OnErr result (IsUnchanged Has is_empty_box rows_of bounds_of self.old self.new) }
    {
        self.refine_all(rows);
        Ok(())
    }

    /// The least box round the members of both.
    fn join(&mut self, _alloc: Global, other: &Boxes) -> Result<(), AllocError>
        ensures own { IfOk result (λ _. Within (Has self.old) (Has self.new)) }
        ensures others { IfOk result (λ _. Within (Has other.now) (Has self.new)) }
        ensures least { IfOk result (λ _. IsLeastOf (Has self.old) (Has other.now) (Has self.new)) }
        ensures empty { IfOk result (λ _. is_empty_box self.old ≡ true → self.new ≡ other.now) }
        ensures empty_other { IfOk result (λ _. is_empty_box self.old ≡ false → is_empty_box other.now ≡ true → self.new ≡ self.old) }
        ensures total { IsOk result }
        ensures err { OnErr result (IsUnchanged Has is_empty_box rows_of bounds_of self.old self.new) }
    {
        *self = self.hull(other);
        Ok(())
    }

    /// Of two boxes with members, drops each end that the newer one passes and keeps every other.
    fn widen(&mut self, _alloc: Global, newer: &Boxes) -> Result<(), AllocError>
        ensures own { IfOk result (λ _. Within (Has self.old) (Has self.new)) }
        ensures newer { IfOk result (λ _. Within (Has newer.now) (Has self.new)) }
        ensures ends { IfOk result (λ _. WidensFilled self.old newer.now self.new) }
        ensures empty { IfOk result (λ _. is_empty_box self.old ≡ true → self.new ≡ newer.now) }
        ensures empty_newer { IfOk result (λ _. is_empty_box self.old ≡ false → is_empty_box newer.now ≡ true → self.new ≡ self.old) }
        ensures total { IsOk result }
        ensures err { OnErr result (IsUnchanged Has is_empty_box rows_of bounds_of self.old self.new) }
    {
        *self = self.widened(newer);
        Ok(())
    }

    /// The least box round what comes of the members, as far as its ends and the numbers on the way to
    /// them fit: the ends at the place are the least and the greatest value of the expression over the
    /// old ends, and those at every other place stay. A box without members stays.
    fn assign(&mut self, _alloc: Global, place: u8, value: &Linear) -> Result<(), AllocError>
        requires { place < 16 }
        ensures keeps { IfOk result (λ _. KeepsAssigned place value.now (Has self.old) (Has self.new)) }
        ensures other_ends { IfOk result (λ _. KeepsOtherEnds place (bounds_of self.old) (bounds_of self.new)) }
        ensures hull { IfOk result (λ _. SetsHull place value.now self.old self.new) }
        ensures empty { IfOk result (λ _. is_empty_box self.old ≡ true → self.new ≡ self.old) }
        ensures total { IsOk result }
        ensures err { OnErr result (IsUnchanged Has is_empty_box rows_of bounds_of self.old self.new) }
    {
        self.set(place, value);
        Ok(())
    }

    /// True exactly where there is no member.
    fn is_empty(&self) -> bool
        ensures answer { result ≡ is_empty_box self.now }
        ensures exact { TellsEmpty result (Has self.now) }
    {
        self.has_none()
    }

    /// Exactly where the least value of the row's function over the ends is known and not negative.
    fn implies(&self, row: &Row) -> bool {
        ends_imply(&self.ends(), row)
    }

    /// One row for each end whose row fits, and no other.
    fn rows(&self, alloc: Global) -> Result<Vec<Row>, AllocError>
        ensures answer { IfOk result (λ rows. rows.items ≡ rows_of self.now) }
        ensures each { IfOk result (λ rows. map (λ row. row.affine) rows.items ≡ lines_below 16 (bounds_of self.now)) }
    {
        self.listed(alloc)
    }

    fn bounds(&self) -> Bounds {
        self.ends()
    }

    fn copy(&self, _alloc: Global) -> Result<Boxes, AllocError>
        ensures same { IfOk result (λ twin. SameMembers (Has self.now) (Has twin)) }
        ensures total { IsOk result }
    {
        Ok(*self)
    }

    ghost empty_law = { empty_none };

    ghost rows_law = { rows_met };

    ghost bounds_law = { λ set store has. has };
}
