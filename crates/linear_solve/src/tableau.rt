//! Integer pivoting: a point that meets the rows, or multipliers under which they add up to what
//! nothing meets.
//!
//! The method is the simplex method without an objective, on a dictionary of whole numbers over one
//! denominator, so that each division is exact (Edmonds; Bareiss 1968), by the rule of the greatest
//! number and else by that of the least index, which never goes in a circle (Bland 1977). It gives up at
//! a number outside `i128` and past a bound on its exchanges. Nothing here is believed: what it finds is
//! checked.
ghost use Rattle.std.specs.Prelude.{◌≡◌, ◌<◌, IfSome};

use crate::certificate::Multiple;
use crate::point::Point;
use linear_cons::{Affine, PLACES, Row};
use std::alloc::{AllocError, Global};

/// How many numbers the exchanges by one rule may change in all.
const MOST_CHANGES: usize = 65_536;

/// The number at a place, or the value of a row of the list, which is not to be below 0.
#[derive(Clone, Copy, PartialEq, Eq, Debug)]
enum Variable {
    Place(u8),
    Row(usize),
}

/// A variable by those of the columns: `den * variable` is the function of them.
#[derive(Clone, Copy, PartialEq, Eq, Debug)]
struct Line {
    variable: Variable,
    numbers: Affine,
}

/// Lines over the variables of sixteen columns, with one denominator above 0.
#[derive(Drop)]
pub(crate) struct Tableau {
    lines: Vec<Line>,
    columns: [Variable; 16],
    den: i128,
}

/// What the pivoting says of the rows.
#[derive(Drop)]
pub(crate) enum Claim {
    Point(Point),
    Nothing(Vec<Multiple>),
}

/// Which line and which column are exchanged.
#[derive(Clone, Copy, PartialEq, Eq, Debug)]
enum Rule {
    /// Those with the greatest number, which mostly needs few exchanges but may go in a circle.
    Greatest,
    /// Those with the least row, which never goes in a circle.
    Least,
}

/// A line or a column by its index, and its place in the rule's order.
#[derive(Clone, Copy, PartialEq, Eq, Debug)]
struct Choice {
    order: u128,
    index: usize,
}

impl Choice {
    /// The choice of a row's line or column with the number.
    fn of(rule: Rule, row: usize, number: i128, index: usize) -> Choice {
        let order = match rule {
            Rule::Greatest => u128::MAX - number.unsigned_abs(),
            Rule::Least => row as u128,
        };
        Choice { order, index }
    }
}

/// The choice that comes first in the rule's order; the older where both come as one.
fn earlier(best: Option<Choice>, next: Choice) -> Choice {
    match best {
        Some(old) => { if next.order < old.order { next } else { old } }
        None => next,
    }
}

/// The line that an exchange solves for the variable of a column, with a positive number there.
#[derive(Clone, Copy, PartialEq, Eq, Debug)]
struct Pivot {
    numbers: Affine,
    column: usize,
    size: i128,
    den: i128,
    turned: bool,
}

impl Pivot {
    /// The pivot of a line at a column, over the old denominator.
    fn of(line: &Affine, column: usize, den: i128) -> Option<Pivot>
        requires { column < 16 }
        ensures { IfSome result (λ pivot. pivot.column ≡ column) }
    {
        let turned = line.coef[column] < 0;
        let numbers = if turned { line.scale(-1).ok()? } else { *line };
        Some(Pivot {
            numbers,
            column,
            size: numbers.coef[column],
            den,
            turned,
        })
    }

    /// The number of another line, whose number at the column is `own`, over the new denominator.
    fn number(&self, number: i128, own: i128, numerator: i128) -> Option<i128> {
        if number == 0 && numerator == 0 {
            return Some(0);
        }
        let product = number.checked_mul(self.size)?;
        let difference = product.checked_sub(own.checked_mul(numerator)?)?;
        if self.den == 1 {
            Some(difference)
        } else {
            difference.checked_div(self.den)
        }
    }

    /// Another line over the new denominator, with the pivot's variable in the column.
    fn through(&self, line: &Affine) -> Option<Affine>
        requires { self.now.column < 16 }
    {
        let own = line.coef[self.column];
        if own == 0 && self.size == self.den {
            return Some(*line);
        }
        let mut coef = [0; PLACES];
        for place in 0..PLACES {
            coef[place] = self.number(line.coef[place], own, self.numbers.coef[place])?;
        }
        coef[self.column] = if self.turned { own.checked_neg()? } else { own };
        let constant = self.number(line.constant, own, self.numbers.constant)?;
        Some(Affine { coef, constant })
    }

    /// The pivot's own line, solved for the variable of the column.
    fn solved(&self) -> Option<Affine>
        requires { self.now.column < 16 }
    {
        let mut numbers = self.numbers.scale(-1).ok()?;
        numbers.coef[self.column] = if self.turned {
            self.den.checked_neg()?
        } else {
            self.den
        };
        Some(numbers)
    }
}

impl Tableau {
    /// The rows as functions of the numbers at the places.
    fn of(alloc: Global, rows: &[Row]) -> Result<Tableau, AllocError> {
        let mut lines = Vec::with_capacity(alloc, rows.len())?;
        for index in 0..rows.len() {
            let variable = Variable::Row(index);
            lines.push(Line {
                variable,
                numbers: rows[index].affine,
            })?;
        }
        let mut columns = [Variable::Place(0); PLACES];
        for place in 0..PLACES as u8 {
            columns[place as usize] = Variable::Place(place);
        }
        Ok(Tableau {
            lines,
            columns,
            den: 1,
        })
    }

    /// Solves the line for the variable of the column, and puts it into the other lines. `None` where
    /// there is no such line or column, or a number lies outside `i128`.
    fn exchange(&mut self, at: usize, column: usize) -> Option<()> {
        let line = *self.lines.get(at)?;
        let variable = *self.columns.get(column)?;
        let pivot = Pivot::of(&line.numbers, column, self.den)?;
        for other in self.lines.iter_mut() {
            other.numbers = pivot.through(&other.numbers)?;
        }
        *self.lines.get_mut(at)? = Line {
            variable,
            numbers: pivot.solved()?,
        };
        self.columns[column] = line.variable;
        self.den = pivot.size;
        Some(())
    }

    /// Of the lines of rows that have the column, the one with the least number there.
    fn line_with(&self, column: usize) -> Option<usize>
        requires { column < 16 }
    {
        let mut best = None;
        for index in 0..self.lines.len() {
            let line = &self.lines[index];
            let size = line.numbers.coef[column].unsigned_abs();
            if is_row(line.variable) && size != 0 {
                best = match best {
                    Some((least, _)) if least <= size => best,
                    _ => Some((size, index)),
                };
            }
        }
        match best {
            Some((_, index)) => Some(index),
            None => None,
        }
    }

    /// Solves lines of rows for the numbers at the places, as far as they occur.
    fn solve_places(&mut self) -> Option<()> {
        for place in 0..PLACES {
            if let Some(at) = self.line_with(place) {
                self.exchange(at, place)?;
            }
        }
        Some(())
    }

    /// Of the lines of rows with a value below 0 the one that the rule names.
    fn violated(&self, rule: Rule) -> Option<usize> {
        let mut best = None;
        for index in 0..self.lines.len() {
            let line = &self.lines[index];
            if let Variable::Row(row) = line.variable {
                if line.numbers.constant < 0 {
                    best = Some(earlier(best, Choice::of(rule, row, line.numbers.constant, index)));
                }
            }
        }
        match best {
            Some(choice) => Some(choice.index),
            None => None,
        }
    }

    /// Of the columns of rows that raise the line the one that the rule names.
    fn raising(&self, line: &Line, rule: Rule) -> Option<usize> {
        let mut best = None;
        for column in 0..PLACES {
            if let Variable::Row(row) = self.columns[column] {
                let number = line.numbers.coef[column];
                if number > 0 {
                    best = Some(earlier(best, Choice::of(rule, row, number, column)));
                }
            }
        }
        match best {
            Some(choice) => Some(choice.index),
            None => None,
        }
    }

    /// The point at which the columns' rows have the value 0.
    fn point(&self) -> Point {
        let mut num = [0; PLACES];
        for line in &self.lines {
            if let Variable::Place(place) = line.variable {
                if let Some(numerator) = num.get_mut(place as usize) {
                    *numerator = line.numbers.constant;
                }
            }
        }
        Point { num, den: self.den }
    }

    /// The multiples of a line that no column raises, and of the rows that it is made of.
    fn multiples(&self, alloc: Global, line: &Line) -> Result<Vec<Multiple>, AllocError> {
        let mut multiples = Vec::with_capacity(alloc, 17)?;
        if let Variable::Row(row) = line.variable {
            multiples.push(Multiple { row, by: self.den })?;
        }
        for column in 0..PLACES {
            if let Variable::Row(row) = self.columns[column] {
                let by = line.numbers.coef[column].checked_neg().unwrap_or(0);
                if by != 0 {
                    multiples.push(Multiple { row, by })?;
                }
            }
        }
        Ok(multiples)
    }
}

/// True exactly where the variable is the value of a row.
fn is_row(variable: Variable) -> bool {
    match variable {
        Variable::Row(_) => true,
        Variable::Place(_) => false,
    }
}

/// How many places occur in the rows.
fn occurring(rows: &[Row]) -> usize {
    let mut count = 0usize;
    for place in 0..PLACES {
        for row in rows {
            if row.affine.coef[place] != 0 {
                count = count.saturating_add(1);
                break;
            }
        }
    }
    count
}

/// How many exchanges by one rule are allowed once the places are solved for. `None` where the table is
/// so large that the places alone would take more than half of what all exchanges may change.
fn allowed(rows: &[Row]) -> Option<usize> {
    let places = occurring(rows);
    let changed = rows.len().saturating_mul(places).max(1);
    let all = MOST_CHANGES / changed;
    if places > all / 2 {
        None
    } else {
        Some(all - places)
    }
}

/// A point that is to meet the rows, or multiples of them that are to add up to what nothing meets, by
/// the one rule or else by the other. `None` where with both a number lies outside `i128` or the
/// exchanges are too many, and where the table is too large for them.
pub(crate) fn pivoted(alloc: Global, rows: &[Row]) -> Result<Option<Claim>, AllocError> {
    let exchanges = match allowed(rows) {
        Some(exchanges) => exchanges,
        None => return Ok(None),
    };
    match pivoted_by(alloc, rows, Rule::Greatest, exchanges)? {
        Some(claim) => Ok(Some(claim)),
        None => pivoted_by(alloc, rows, Rule::Least, exchanges),
    }
}

/// The claim by so many exchanges of the rule, once the places are solved for.
fn pivoted_by(
    alloc: Global,
    rows: &[Row],
    rule: Rule,
    exchanges: usize,
) -> Result<Option<Claim>, AllocError> {
    let mut tableau = Tableau::of(alloc, rows)?;
    if tableau.solve_places().is_none() {
        return Ok(None);
    }
    for _ in 0..exchanges {
        let at = match tableau.violated(rule) {
            Some(at) => at,
            None => return Ok(Some(Claim::Point(tableau.point()))),
        };
        let line = match tableau.lines.get(at) {
            Some(line) => *line,
            None => return Ok(None),
        };
        let column = match tableau.raising(&line, rule) {
            Some(column) => column,
            None => {
                let multiples = tableau.multiples(alloc, &line)?;
                return Ok(Some(Claim::Nothing(multiples)));
            }
        };
        if tableau.exchange(at, column).is_none() {
            return Ok(None);
        }
    }
    Ok(None)
}
