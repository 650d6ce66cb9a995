//! Tables: lines over the same columns, and how a variable comes into a line.
use crate::line::Line;
use std::alloc::Global;
use std::mem;

/// Lines whose constants are not below 0. `costs` says by how much a variable changes what is to become small, `faults` by how much it changes
/// the sum of the variables that are to become 0.
#[derive(Drop)]
pub(crate) struct Table {
    /// The variable of each column; none where it is gone.
    pub(crate) columns: Vec<Option<usize>>,
    pub(crate) lines: Vec<Line>,
    pub(crate) costs: Line,
    pub(crate) faults: Line,
}

/// Which column comes in.
#[derive(Clone, Copy, PartialEq, Eq, Debug)]
pub(crate) enum Rule {
    /// That with the least number, which mostly needs few exchanges but may go in a circle.
    Least,
    /// That of the first variable, which never goes in a circle.
    First,
}

/// A column by its index, and its place in the rule's order.
#[derive(Clone, Copy, PartialEq, Eq, Debug)]
struct Choice {
    order: i128,
    index: usize,
}

/// A line by its index, its number in the column that comes in, its constant, and the place of its variable: 0 where it is to become 0, else
/// above.
#[derive(Clone, Copy, PartialEq, Eq, Debug)]
struct Bound {
    index: usize,
    number: i128,
    constant: i128,
    place: usize,
}

impl Bound {
    /// The bound that comes first: the one with the lesser quotient of constant and number, and then that of the first variable. `None` where a
    /// product lies outside `i128`.
    fn first(self, next: Bound) -> Option<Bound> {
        let old = self.constant.checked_mul(next.number)?;
        let new = next.constant.checked_mul(self.number)?;
        if new < old || new == old && next.place < self.place {
            Some(next)
        } else {
            Some(self)
        }
    }
}

impl Table {
    /// Of the columns by which the line falls the one that the rule names.
    pub(crate) fn falling(&self, line: &Line, rule: Rule) -> Option<usize> {
        let mut best: Option<Choice> = None;
        for index in 0..self.columns.len() {
            if let Some(variable) = self.columns[index] {
                let number = line.number(index);
                if number < 0 {
                    let order = match rule {
                        Rule::Least => number,
                        Rule::First => variable as i128,
                    };
                    best = match best {
                        Some(old) if old.order <= order => best,
                        _ => Some(Choice { order, index }),
                    };
                }
            }
        }
        let choice = best?;
        Some(choice.index)
    }

    /// The line that first comes to 0 as the column's variable grows, and whether it is there already. `None` where there is none, or a number
    /// lies outside `i128`.
    pub(crate) fn bounding(&self, column: usize) -> Option<(usize, bool)> {
        let mut best: Option<Bound> = None;
        for index in 0..self.lines.len() {
            let line = &self.lines[index];
            let number = line.number(column);
            if number > 0 {
                let next = Bound {
                    index,
                    number,
                    constant: line.constant,
                    place: line.own.map_or(0, |variable| variable.saturating_add(1)),
                };
                best = match best {
                    Some(old) => Some(old.first(next)?),
                    None => Some(next),
                };
            }
        }
        let bound = best?;
        Some((bound.index, bound.constant == 0))
    }

    /// Solves the line for the variable of the column, and takes it out of the other lines. `None` where there is no such line or column, or a
    /// number lies outside `i128`.
    pub(crate) fn exchange(&mut self, alloc: Global, at: usize, column: usize) -> Option<()> {
        let coming = *self.columns.get(column)?;
        let mut pivot = mem::replace(self.lines.get_mut(at)?, Line::empty(alloc));
        let size = pivot.number(column);
        let going = pivot.own;
        *pivot.numbers.get_mut(column)? = match going {
            Some(_) => pivot.size,
            None => 0,
        };
        pivot.size = size;
        pivot.own = coming;
        for other in self.lines.iter_mut() {
            other.eliminate(&pivot, column)?;
        }
        self.costs.eliminate(&pivot, column)?;
        self.faults.eliminate(&pivot, column)?;
        *self.columns.get_mut(column)? = going;
        *self.lines.get_mut(at)? = pivot;
        Some(())
    }

    /// True exactly where a variable that is to become 0 is above it.
    pub(crate) fn is_at_fault(&self) -> bool {
        for line in &self.lines {
            if line.own.is_none() && line.constant != 0 {
                return true;
            }
        }
        false
    }

    /// Solves the lines of variables that are 0 and belong to no column of the program for others.
    pub(crate) fn settle(&mut self, alloc: Global) -> Option<()> {
        for at in 0..self.lines.len() {
            let line = self.lines.get(at)?;
            if line.own.is_none() {
                if let Some(column) = self.some_column(line) {
                    if line.number(column) < 0 {
                        self.lines.get_mut(at)?.turn()?;
                    }
                    self.exchange(alloc, at, column)?;
                }
            }
        }
        Some(())
    }

    /// The first column of a variable that the line has.
    fn some_column(&self, line: &Line) -> Option<usize> {
        for index in 0..self.columns.len() {
            if self.columns[index].is_some() && line.number(index) != 0 {
                return Some(index);
            }
        }
        None
    }
}
