//! The rows of guesses that are kept, and the sets of those.
ghost use Rattle.std.specs.Prelude.{◌≡◌, IfOk, false, length, slice_index_or};
ghost use Rattle.forward_inv.specs.Sets.{HoldEach, kept_at, marked_below};

use linear_cons::Row;
use num_domain::NumDomain;
use std::alloc::{AllocError, Global};
use std::marker::Model;

/// Which rows of a guess are kept: a mark for each row. Rows without a mark aren't kept. The rows themselves are asked of the guess, for one
/// label at a time: those of all labels take far more memory. Contracts see the list of the marks.
#[derive(Drop)]
pub(crate) struct Marks {
    marks: Vec<bool>,
}

impl Model for Marks {
    ghost use Rattle.std.specs.Prelude.{Bool, List};

    ghost Value = { List Bool };

    ghost view = { λ inside. inside.marks.items };
}

impl Marks {
    /// A mark for each of so many rows.
    fn all(alloc: Global, count: usize) -> Result<Marks, AllocError> {
        let marks = vec![in alloc; true; count]?;
        Ok(Marks { marks })
    }

    /// The same marks once more.
    pub(crate) fn copy(&self, alloc: Global) -> Result<Marks, AllocError> {
        let marks = Vec::from_slice(alloc, &self.marks)?;
        Ok(Marks { marks })
    }

    /// True exactly where the row at the place has its mark.
    pub(crate) fn has(&self, place: usize) -> bool
        ensures { result ≡ slice_index_or self.now place false }
    {
        place < self.marks.len() && self.marks[place]
    }

    /// Takes the mark from the row at the place.
    pub(crate) fn give_up(&mut self, place: usize) {
        if let Some(mark) = self.marks.get_mut(place) {
            *mark = false;
        }
    }

    /// Of the rows those that have their mark.
    fn of(&self, alloc: Global, rows: &[Row]) -> Result<Vec<Row>, AllocError>
        ensures { IfOk result (λ kept. kept.items ≡ marked_below (length rows.now) rows.now self.now) }
    {
        let mut kept = Vec::with_capacity(alloc, rows.len())?;
        for place in 0..rows.len() {
            if self.has(place) {
                kept.push(rows[place])?;
            }
        }
        Ok(kept)
    }
}

/// Marks for all rows of each guess, and none at the entry, which any store may enter.
pub(crate) fn all_marked<D: NumDomain>(
    alloc: Global,
    guesses: &[D],
    entry: u32,
) -> Result<Vec<Marks>, AllocError> {
    let mut all = Vec::with_capacity(alloc, guesses.len())?;
    for label in 0..guesses.len() {
        let count = if label == entry as usize {
            0
        } else {
            guesses[label].rows(alloc)?.len()
        };
        all.push(Marks::all(alloc, count)?)?;
    }
    Ok(all)
}

/// The rows of the label's guess that are kept.
pub(crate) fn kept_rows<D: NumDomain>(
    alloc: Global,
    guesses: &[D],
    marks: &[Marks],
    label: u32,
) -> Result<Vec<Row>, AllocError>
    ensures { IfOk result (λ rows. rows.items ≡ kept_at D.told_rows guesses.now marks.now label) }
{
    let Some(guess) = guesses.get(label as usize) else {
        return Ok(Vec::new(alloc));
    };
    let Some(marks) = marks.get(label as usize) else {
        return Ok(Vec::new(alloc));
    };
    let told = guess.rows(alloc)?;
    let rows = marks.of(alloc, &told)?;
    Ok(rows)
}

/// For each label a set that has each store that meets all rows that are kept there.
pub(crate) fn sets_of<D: NumDomain>(
    alloc: Global,
    guesses: &[D],
    marks: &[Marks],
    labels: u32,
) -> Result<Vec<D>, AllocError>
    ensures holds { IfOk result (λ sets. HoldEach D.has (kept_at D.told_rows guesses.now marks.now) sets.items) }
    ensures count { IfOk result (λ sets. length sets.items ≡ labels) }
{
    let mut sets = Vec::new(alloc);
    for label in 0..labels {
        let rows = kept_rows(alloc, guesses, marks, label)?;
        let mut set = D::top(alloc)?;
        set.meet_rows(alloc, &rows)?;
        sets.push(set)?;
    }
    Ok(sets)
}
