//! The first table of a program.
use crate::line::Line;
use crate::program::{Equation, Program, Term};
use crate::table::Table;
use std::alloc::{AllocError, Global};

/// What is known of a column of the program before there is a table.
#[derive(Clone, Copy, PartialEq, Eq, Debug)]
struct Column {
    cost: i128,
    /// In how many terms it occurs.
    terms: usize,
    /// An equation is solved for it.
    is_own: bool,
    /// Its place among the columns that no equation is solved for.
    place: usize,
}

/// The table in which each equation is solved for a column that occurs nowhere else, or else for a variable that is to become 0. `None` where
/// a term has no column, or a number lies outside `i128`.
pub(crate) fn table_of(
    alloc: Global,
    program: &Program,
    costs: &[Term],
) -> Result<Option<Table>, AllocError> {
    let Some(mut known) = known_columns(alloc, program, costs)? else {
        return Ok(None);
    };
    let owns = own_terms(alloc, program, &mut known)?;
    let mut table = without_lines(alloc, program, &mut known)?;
    for index in 0..program.equations.len() {
        let own = owns.get(index).copied().flatten();
        let mut line = Line::of(zeros(alloc, table.columns.len())?);
        let written = write(&mut line, &known, &program.equations[index], own);
        if written.is_none() || note_fault(&mut table, &line).is_none() {
            return Ok(None);
        }
        table.lines.push(line)?;
    }
    Ok(Some(table))
}

/// The columns, with their costs and how often each occurs. `None` where a term has no column, or a cost lies outside `i128`.
fn known_columns(
    alloc: Global,
    program: &Program,
    costs: &[Term],
) -> Result<Option<Vec<Column>>, AllocError> {
    let free = Column {
        cost: 0,
        terms: 0,
        is_own: false,
        place: 0,
    };
    let mut known = vec![in alloc; free; program.columns]?;
    match count(&mut known, program, costs) {
        Some(()) => Ok(Some(known)),
        None => Ok(None),
    }
}

/// Counts the terms of each column, and notes the costs.
fn count(known: &mut [Column], program: &Program, costs: &[Term]) -> Option<()> {
    for cost in costs {
        let column = known.get_mut(cost.column)?;
        column.cost = column.cost.checked_add(cost.number)?;
    }
    for equation in &program.equations {
        for term in &equation.terms {
            let column = known.get_mut(term.column)?;
            column.terms = column.terms.saturating_add(1);
        }
    }
    Some(())
}

/// For each equation the term that it can be solved for at once, whose column is marked.
fn own_terms(
    alloc: Global,
    program: &Program,
    known: &mut [Column],
) -> Result<Vec<Option<Term>>, AllocError> {
    let mut owns = Vec::with_capacity(alloc, program.equations.len())?;
    for equation in &program.equations {
        let own = own_term(known, equation);
        if let Some(term) = own {
            if let Some(column) = known.get_mut(term.column) {
                column.is_own = true;
            }
        }
        owns.push(own)?;
    }
    Ok(owns)
}

/// The term that the equation can be solved for at once: its column costs nothing, has no other term, and gets a value that is not below 0.
fn own_term(known: &[Column], equation: &Equation) -> Option<Term> {
    for term in &equation.terms {
        if let Some(column) = known.get(term.column) {
            let fits = equation.right == 0 && term.number != 0
                || equation.right > 0 && term.number > 0
                || equation.right < 0 && term.number < 0;
            if column.terms == 1 && column.cost == 0 && fits {
                return Some(*term);
            }
        }
    }
    None
}

/// The table of the columns that no equation is solved for, which get their places.
fn without_lines(
    alloc: Global,
    program: &Program,
    known: &mut [Column],
) -> Result<Table, AllocError> {
    let mut columns = Vec::with_capacity(alloc, known.len())?;
    let mut costs = Vec::with_capacity(alloc, known.len())?;
    for index in 0..known.len() {
        if !known[index].is_own {
            known[index].place = columns.len();
            columns.push(Some(index))?;
            costs.push(known[index].cost)?;
        }
    }
    let faults = zeros(alloc, columns.len())?;
    Ok(Table {
        columns,
        lines: Vec::with_capacity(alloc, program.equations.len())?,
        costs: Line::of(costs),
        faults: Line::of(faults),
    })
}

/// Counts the line among the faults where its variable is to become 0.
fn note_fault(table: &mut Table, line: &Line) -> Option<()> {
    match line.own {
        Some(_) => Some(()),
        None => table.faults.mix(1, line, 1),
    }
}

/// Writes the equation into the line, solved for the term.
fn write(line: &mut Line, known: &[Column], equation: &Equation, own: Option<Term>) -> Option<()> {
    let mut is_turned = equation.right < 0;
    if let Some(term) = own {
        line.own = Some(term.column);
        line.size = term.number;
        is_turned = term.number < 0;
    }
    line.constant = equation.right;
    for term in &equation.terms {
        let column = known.get(term.column)?;
        if !column.is_own {
            let number = line.numbers.get_mut(column.place)?;
            *number = number.checked_add(term.number)?;
        }
    }
    if is_turned {
        line.turn()?;
        if line.size < 0 {
            line.size = line.size.checked_neg()?;
        }
    }
    line.reduce();
    Some(())
}

/// So many zeros.
pub(crate) fn zeros(alloc: Global, count: usize) -> Result<Vec<i128>, AllocError> {
    let numbers = vec![in alloc; 0i128; count]?;
    Ok(numbers)
}
