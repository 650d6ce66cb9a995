//! Rows by their numbers.
ghost use Rattle.std.specs.Prelude.{◌<◌};

use decision_tree::Shared;
use indexmap::{IndexMap, IndexSet};
use linear_cons::{Affine, Row, RowKind, Wide};
use std::alloc::{AllocError, Global};

/// The coefficients of rows.
#[derive(Clone, Copy, PartialEq, Eq, Hash)]
struct Part {
    coef: [i128; 16],
}

/// What a way has to know of a row: its constant, and the numbers of its linear part and of the opposite one, where that has one in 128 bits.
#[derive(Clone, Copy)]
pub(crate) struct RowFacts {
    pub(crate) constant: i128,
    pub(crate) part: usize,
    pub(crate) opposed: Option<usize>,
    complement: Option<usize>,
}

/// An assignment: the place, below 16, the value, and the label, by which what it makes of rows is remembered.
#[derive(Clone, Copy)]
pub(crate) struct Assignment<'a> {
    pub(crate) place: u8,
    pub(crate) value: &'a Affine,
    pub(crate) label: u32,
    ghost low: { place < 16 },
}

/// What an assignment makes of a row.
#[derive(Clone, Copy)]
pub(crate) enum Moved {
    Always,
    Never,
    Row(usize),
}

/// A row and the label of an assignment, by their numbers.
#[derive(Clone, Copy, PartialEq, Eq, Hash)]
struct MoveKey {
    row: usize,
    label: u32,
}

/// Rows, each once, their linear parts, each once, and what assignments make of rows.
#[derive(Drop)]
pub(crate) struct RowTable {
    rows: IndexMap<Row, RowFacts>,
    /// The rows by their numbers, as trees hold them.
    held: Vec<Shared<Row>>,
    alloc: Global,
    parts: IndexSet<Part>,
    moved: IndexMap<MoveKey, Moved>,
}

/// Why no row is formed of another.
pub(crate) enum RowFault {
    Wide(Wide),
    Memory(AllocError),
}

impl RowTable {
    /// No rows.
    pub(crate) fn new(alloc: Global) -> RowTable {
        RowTable {
            rows: IndexMap::new(alloc),
            held: Vec::new(alloc),
            alloc,
            parts: IndexSet::new(alloc),
            moved: IndexMap::new(alloc),
        }
    }

    /// The row with the number, where there is one.
    pub(crate) fn row(&self, number: usize) -> Option<&Row> {
        match self.rows.get_index(number) {
            Some((row, _)) => Some(row),
            None => None,
        }
    }

    /// The row with the number, as trees hold it.
    pub(crate) fn held(&self, number: usize) -> Option<&Shared<Row>> {
        self.held.get(number)
    }

    /// What is known of it.
    #[inline(never)]
    pub(crate) fn facts(&self, number: usize) -> Option<RowFacts> {
        match self.rows.get_index(number) {
            Some((_, facts)) => Some(*facts),
            None => None,
        }
    }

    /// The number of the row, which is noted where it wasn't.
    #[inline(never)]
    pub(crate) fn number(&mut self, row: &Row) -> Result<usize, AllocError> {
        if let Some(number) = self.rows.get_index_of(row) {
            return Ok(number);
        }
        let part = self.part(&row.affine.coef)?;
        let opposed = self.opposed(&row.affine.coef)?;
        let facts = RowFacts {
            constant: row.affine.constant,
            part,
            opposed,
            complement: None,
        };
        let held = Shared::new(self.alloc, *row)?;
        self.held.push(held)?;
        match self.rows.insert_full(*row, facts) {
            Ok((number, _)) => Ok(number),
            Err(error) => {
                let _ = self.held.pop();
                Err(error.into())
            }
        }
    }

    /// The number of the linear part.
    fn part(&mut self, coef: &[i128; 16]) -> Result<usize, AllocError> {
        let part = Part { coef: *coef };
        if let Some(number) = self.parts.get_index_of(&part) {
            return Ok(number);
        }
        let (number, _) = self.parts.insert_full(part)?;
        Ok(number)
    }

    /// The number of the opposite linear part, where its coefficients are numbers of 128 bits.
    fn opposed(&mut self, coef: &[i128; 16]) -> Result<Option<usize>, AllocError> {
        match negated(coef) {
            Some(opposite) => {
                let number = self.part(&opposite)?;
                Ok(Some(number))
            }
            None => Ok(None),
        }
    }

    /// The number of the row's complement, which is formed once.
    #[inline(never)]
    pub(crate) fn complement(&mut self, number: usize) -> Result<usize, RowFault> {
        if let Some(known) = self.known_complement(number) {
            return Ok(known);
        }
        let complement = match self.row(number) {
            Some(row) => row.not(),
            None => return Ok(number),
        };
        match complement {
            Ok(row) => self.note_complement(number, &row),
            Err(wide) => Err(RowFault::Wide(wide)),
        }
    }

    /// The number of its complement, where that was formed already.
    fn known_complement(&self, number: usize) -> Option<usize> {
        let facts = self.facts(number)?;
        facts.complement
    }

    /// Notes the row's complement.
    fn note_complement(&mut self, number: usize, complement: &Row) -> Result<usize, RowFault> {
        match self.number(complement) {
            Ok(other) => {
                if let Some(facts) = self.rows.get_index_mut(number) {
                    facts.complement = Some(other);
                }
                Ok(other)
            }
            Err(error) => Err(RowFault::Memory(error)),
        }
    }

    /// What the row becomes with the value put in for the variable. It is formed once for a label.
    #[inline(never)]
    pub(crate) fn moved(
        &mut self,
        assignment: &Assignment<'_>,
        row: usize,
    ) -> Result<Moved, RowFault> {
        let key = MoveKey {
            row,
            label: assignment.label,
        };
        if let Some(moved) = self.moved.get(&key) {
            return Ok(*moved);
        }
        let moved = self.form_moved(assignment, row)?;
        match self.moved.insert_full(key, moved) {
            Ok(_) => Ok(moved),
            Err(error) => Err(RowFault::Memory(error.into())),
        }
    }

    /// The same, formed anew.
    #[inline(never)]
    fn form_moved(&mut self, assignment: &Assignment<'_>, row: usize) -> Result<Moved, RowFault> {
        let moved = match self.row(row) {
            Some(known) => known.affine.subst(assignment.place, assignment.value),
            None => return Ok(Moved::Row(row)),
        };
        match moved {
            Ok(moved) => self.kind_of(&moved),
            Err(wide) => Err(RowFault::Wide(wide)),
        }
    }

    /// The constraint that the function isn't negative.
    #[inline(never)]
    fn kind_of(&mut self, function: &Affine) -> Result<Moved, RowFault> {
        match Row::of(*function) {
            RowKind::Always => Ok(Moved::Always),
            RowKind::Never => Ok(Moved::Never),
            RowKind::Row(row) => match self.number(&row) {
                Ok(number) => Ok(Moved::Row(number)),
                Err(error) => Err(RowFault::Memory(error)),
            },
        }
    }
}

/// The coefficients with the opposite signs, where they have 128 bits.
fn negated(coef: &[i128; 16]) -> Option<[i128; 16]> {
    let mut opposite = *coef;
    for place in 0..16 {
        opposite[place] = opposite[place].checked_neg()?;
    }
    Some(opposite)
}
