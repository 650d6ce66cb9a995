//! The search for a solution with small costs.
ghost use Rattle.std.specs.Prelude.{IfOk, IfSome};
ghost use Rattle.linear_program.specs.Meeting.{MeetsProgram};

use crate::checking::is_met;
use crate::line::Line;
use crate::program::{Program, Term};
use crate::solution::Solution;
use crate::table::{Rule, Table};
use crate::tabling::{table_of, zeros};
use linear_cons::common_divisor;
use std::alloc::{AllocError, Global};

/// After how many exchanges in a row that change no value the first variable is taken, so that the exchanges don't go in a circle.
const MOST_IDLE: u32 = 30;

/// A solution of the program with small costs: the least where the exchanges that are left are enough to find it, of which those that were
/// done are taken off. `None` where none is found: there may be none, or the exchanges or the numbers of 128 bits are too few. The only error
/// is want of memory.
pub fn minimised(
    alloc: Global,
    program: &Program,
    costs: &[Term],
    exchanges: &mut u32,
) -> Result<Option<Solution>, AllocError>
    ensures { IfOk result (λ found. IfSome found (λ solution. MeetsProgram program.now solution.numerators.items solution.den)) }
{
    let Some(mut table) = table_of(alloc, program, costs)? else {
        return Ok(None);
    };
    if meet_equations(alloc, &mut table, exchanges).is_none() {
        return Ok(None);
    }
    let first = read(alloc, &table, program)?;
    if lower_costs(alloc, &mut table, exchanges).is_none() {
        return Ok(first);
    }
    match read(alloc, &table, program)? {
        Some(solution) => Ok(Some(solution)),
        None => Ok(first),
    }
}

/// The table's values for the columns, where they meet the program.
fn read(alloc: Global, table: &Table, program: &Program) -> Result<Option<Solution>, AllocError>
    ensures { IfOk result (λ found. IfSome found (λ solution. MeetsProgram program.now solution.numerators.items solution.den)) }
{
    match values(alloc, table, program.columns)? {
        Some(solution) if is_met(program, &solution) => Ok(Some(solution)),
        _ => Ok(None),
    }
}

/// Exchanges until each variable that is to become 0 is 0. `None` where the exchanges are too few, no exchange lowers the faults, or a number
/// lies outside `i128`.
fn meet_equations(alloc: Global, table: &mut Table, exchanges: &mut u32) -> Option<()> {
    let mut idle = 0;
    for _ in 0..*exchanges {
        if !table.is_at_fault() {
            return table.settle(alloc);
        }
        let column = table.falling(&table.faults, rule(idle))?;
        idle = exchanged(alloc, table, column, idle, exchanges)?;
    }
    if table.is_at_fault() {
        return None;
    }
    table.settle(alloc)
}

/// Exchanges as long as the costs fall and exchanges are left. `None` where a number lies outside `i128`.
fn lower_costs(alloc: Global, table: &mut Table, exchanges: &mut u32) -> Option<()> {
    let mut idle = 0;
    for _ in 0..*exchanges {
        let Some(column) = table.falling(&table.costs, rule(idle)) else {
            return Some(());
        };
        idle = exchanged(alloc, table, column, idle, exchanges)?;
    }
    Some(())
}

/// Brings the variable of the column in, and answers how many exchanges in a row have changed no value. `None` where the variable may grow
/// without bound, or a number lies outside `i128`.
fn exchanged(
    alloc: Global,
    table: &mut Table,
    column: usize,
    idle: u32,
    exchanges: &mut u32,
) -> Option<u32> {
    let (at, is_idle) = table.bounding(column)?;
    table.exchange(alloc, at, column)?;
    *exchanges = exchanges.saturating_sub(1);
    Some(if is_idle { idle.saturating_add(1) } else { 0 })
}

/// The rule after so many exchanges that changed no value.
fn rule(idle: u32) -> Rule {
    if idle < MOST_IDLE {
        Rule::Least
    } else {
        Rule::First
    }
}

/// The columns' values over one denominator. `None` where that lies outside `i128`.
fn values(alloc: Global, table: &Table, columns: usize) -> Result<Option<Solution>, AllocError> {
    let mut numerators = zeros(alloc, columns)?;
    let Some(den) = common_size(table) else {
        return Ok(None);
    };
    match fill(&mut numerators, table, den) {
        Some(()) => Ok(Some(Solution { numerators, den })),
        None => Ok(None),
    }
}

/// The least common multiple of the denominators of all values.
fn common_size(table: &Table) -> Option<i128> {
    let mut den = 1i128;
    for line in &table.lines {
        if line.own.is_some() {
            let (_, own) = quotient(line)?;
            let divisor = common_divisor(den.unsigned_abs(), own.unsigned_abs());
            den = den.checked_mul(own.checked_div(i128::try_from(divisor).ok()?)?)?;
        }
    }
    Some(den)
}

/// The numerator and the denominator of the line's value in lowest terms.
fn quotient(line: &Line) -> Option<(i128, i128)> {
    let divisor = common_divisor(line.size.unsigned_abs(), line.constant.unsigned_abs());
    let divisor = i128::try_from(divisor).ok()?;
    let numerator = line.constant.checked_div(divisor)?;
    let own = line.size.checked_div(divisor)?;
    Some((numerator, own))
}

/// Writes the numerators of the lines' values over the denominator.
fn fill(numerators: &mut [i128], table: &Table, den: i128) -> Option<()> {
    for line in &table.lines {
        if let Some(column) = line.own {
            let (numerator, own) = quotient(line)?;
            *numerators.get_mut(column)? = numerator.checked_mul(den.checked_div(own)?)?;
        }
    }
    Some(())
}
