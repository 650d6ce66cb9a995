//! Ranks of cells by a linear program: a function is at least 0 wherever rows are met, if it is a sum of multiples of them and of 1, none of them
//! negative.
ghost use Rattle.std.specs.Prelude.{◌<◌};

use crate::cells::{Cell, Link};
use crate::synthesis::Synthesis;
use linear_cons::{Affine, PLACES, Row, common_divisor, floor_quotient};
use linear_program::{Program, Solution, Term, minimised};
use loop_moves::{Head, Loops, Move, Search, Stop, through, unchanged};
use std::alloc::{AllocError, Global};

/// The most links of a component.
const MOST_LINKS: usize = 48;

/// The most exchanges of one linear program for ranks of one part or two, so that one alone doesn't take long.
pub(crate) const FEW_EXCHANGES: u32 = 500;

/// The most exchanges of one linear program for ranks of more parts.
pub(crate) const MANY_EXCHANGES: u32 = 6_000;

/// What 1 in a coefficient costs: so ranks speak of few variables.
const COEFFICIENT_COST: i128 = 50;

/// What 1 in a constant costs where it is above 0, and where it is below: so bounds are low.
const CONSTANT_COSTS: [i128; 2] = [4, 1];

/// What 1 of a fall costs of a link along which a rank may fall: so ranks fall along as many as can be.
const FALL_COST: i128 = -100_000;

/// The rank behind a link.
#[derive(Clone, Copy)]
pub(crate) enum Behind {
    /// That of the cell with the index, of the same component.
    Cell(usize),
    /// One that is known.
    Fixed(Affine),
    /// 0.
    Nothing,
}

/// How a rank changes along a link.
#[derive(Clone, Copy)]
pub(crate) enum Change {
    /// It falls by the number at least.
    Falls(i128),
    /// It doesn't rise, and falls by up to 1.
    MayFall,
}

/// What is asked of ranks along a link of the cell with the index.
#[derive(Clone, Copy)]
pub(crate) struct Along<'a> {
    pub(crate) cell: usize,
    pub(crate) link: &'a Link,
    pub(crate) one: &'a Move,
    pub(crate) behind: Behind,
    pub(crate) change: Change,
}

/// Ranks of a component's cells, in order; the number by which the solution was divided for them; and for each link along which they may fall, in
/// order, by how much they do, times that number.
#[derive(Drop)]
pub(crate) struct Solved {
    pub(crate) ranks: Vec<Affine>,
    pub(crate) divisor: u128,
    pub(crate) falls: Vec<i128>,
}

/// The ranks of a component as columns: for each variable of each cell, and for its constant, two columns whose difference it is.
#[derive(Drop)]
struct Ranks {
    alloc: Global,
    program: Program,
    costs: Vec<Term>,
    variables: u32,
    /// For each variable the number by which its coefficients are divided.
    factors: Vec<i128>,
    /// The first column of each cell that is of the component.
    first: Vec<Option<usize>>,
    /// The columns of the falls along links that need not be.
    falls: Vec<usize>,
}

impl Synthesis {
    /// Ranks of the component's cells that change along the links as is asked, where there are such and they are found by so many exchanges; none where
    /// the links are too many.
    pub(crate) fn solved(
        &self,
        search: &mut Search,
        cells: &[Cell],
        component: &[usize],
        asked: &[Along<'_>],
        exchanges: u32,
    ) -> Result<Option<Solved>, Stop> {
        if asked.len() > MOST_LINKS {
            return Ok(None);
        }
        let ranks = self.columns(search.alloc, cells, component, asked)?;
        match ranks.solution(search, exchanges)? {
            Some(solution) => {
                let solved = ranks.read(component, &solution)?;
                Ok(Some(solved))
            }
            None => Ok(None),
        }
    }

    /// Columns for the ranks of the component's cells, with what is asked of them.
    fn columns(
        &self,
        alloc: Global,
        cells: &[Cell],
        component: &[usize],
        asked: &[Along<'_>],
    ) -> Result<Ranks, Stop> {
        let mut ranks = Ranks::none(alloc, &self.loops, cells.len())?;
        ranks.add_functions(component)?;
        for index in component {
            if let Some(cell) = cells.get(*index) {
                if let Some(head) = self.loops.heads.get(cell.head) {
                    ranks.add_cell(*index, cell, head)?;
                }
            }
            ranks.add_asked(*index, asked)?;
        }
        Ok(ranks)
    }
}

impl Ranks {
    /// Those of so many cells, without columns.
    fn none(alloc: Global, loops: &Loops, cells: usize) -> Result<Ranks, AllocError> {
        let factors = loops.factors.to_vec(alloc)?;
        let first = vec![in alloc; None; cells]?;
        Ok(Ranks {
            alloc,
            program: Program::new(alloc),
            costs: Vec::new(alloc),
            variables: loops.variables,
            factors,
            first,
            falls: Vec::new(alloc),
        })
    }

    /// Adds the columns of a function for each cell of the component.
    fn add_functions(&mut self, component: &[usize]) -> Result<(), AllocError> {
        for index in component {
            let first = self.add_function()?;
            if let Some(place) = self.first.get_mut(*index) {
                *place = Some(first);
            }
        }
        Ok(())
    }

    /// Adds what is asked along links of the cell with the index.
    fn add_asked(&mut self, index: usize, asked: &[Along<'_>]) -> Result<(), Stop> {
        for along in asked {
            if along.cell == index {
                self.add_along(along)?;
            }
        }
        Ok(())
    }

    /// The first column of a function more.
    fn add_function(&mut self) -> Result<usize, AllocError> {
        let first = self.program.columns();
        for _ in 0..self.variables {
            self.add_number([COEFFICIENT_COST; 2])?;
        }
        self.add_number(CONSTANT_COSTS)?;
        Ok(first)
    }

    /// Adds the columns of a number more, with what 1 costs above and below 0.
    fn add_number(&mut self, costs: [i128; 2]) -> Result<(), AllocError> {
        for number in costs {
            let column = self.program.add_column();
            self.costs.push(Term { column, number })?;
        }
        Ok(())
    }

    /// Adds that the rank of the cell is at least 0 in it.
    fn add_cell(&mut self, index: usize, cell: &Cell, head: &Head) -> Result<(), Stop> {
        let mut known = head.known.to_vec(self.alloc)?;
        known.extend_from_slice(&cell.rows)?;
        let still = unchanged(self.alloc, self.variables)?;
        self.add_fall(index, Behind::Nothing, &still, &known, 0, None)
    }

    /// Adds what is asked along a link.
    fn add_along(&mut self, along: &Along<'_>) -> Result<(), Stop> {
        let (after, rows) = (&along.one.after, &along.link.rows);
        match along.change {
            Change::Falls(least) => {
                self.add_fall(along.cell, along.behind, after, rows, least, None)
            }
            Change::MayFall => {
                let fall = self.add_free_fall()?;
                self.add_fall(along.cell, along.behind, after, rows, 0, Some(fall))
            }
        }
    }

    /// The column of a fall of up to 1.
    fn add_free_fall(&mut self) -> Result<usize, AllocError> {
        let fall = self.program.add_column();
        let rest = self.program.add_column();
        let mut terms = Vec::with_capacity(self.alloc, 2)?;
        for column in [fall, rest] {
            terms.push(Term { column, number: 1 })?;
        }
        self.program.add_equation(terms, 1)?;
        self.costs.push(Term {
            column: fall,
            number: FALL_COST,
        })?;
        self.falls.push(fall)?;
        Ok(fall)
    }

    /// The first column of the cell's rank. Given up where it isn't of the component.
    fn first_of(&self, cell: usize) -> Result<usize, Stop> {
        self.first.get(cell).copied().flatten().ok_or(Stop::GivenUp)
    }

    /// Adds that the cell's rank is above the one behind by at least the number, and what the column has if one is given, wherever the rows are met:
    /// an equation for the numbers at each place.
    fn add_fall(
        &mut self,
        cell: usize,
        behind: Behind,
        after: &[Affine],
        rows: &[Row],
        least: i128,
        fall: Option<usize>,
    ) -> Result<(), Stop> {
        let own = self.first_of(cell)?;
        let multiples = self.program.columns();
        for _ in 0..=rows.len() {
            self.program.add_column();
        }
        let fixed = match behind {
            Behind::Fixed(rank) => through(&rank, after)?,
            Behind::Cell(_) | Behind::Nothing => Affine::constant(0),
        };
        for index in 0..=PLACES {
            let mut terms = Vec::new(self.alloc);
            let mut right = number(&fixed, index);
            if index == PLACES {
                self.put(&mut terms, own, self.variables as usize, 1)?;
                let column = multiples.saturating_add(rows.len());
                terms.push(Term { column, number: -1 })?;
                if let Some(column) = fall {
                    terms.push(Term { column, number: -1 })?;
                }
                right = right.checked_add(least).ok_or(Stop::GivenUp)?;
            } else if index < self.variables as usize {
                self.put(&mut terms, own, index, 1)?;
            }
            if let Behind::Cell(next) = behind {
                let first = self.first_of(next)?;
                self.put_behind(&mut terms, first, after, index)?;
            }
            put_multiples(&mut terms, multiples, rows, index)?;
            if !terms.is_empty() || right != 0 {
                self.program.add_equation(terms, right)?;
            }
        }
        Ok(())
    }

    /// Takes off what the rank with the first column behind the values has at the index.
    fn put_behind(
        &self,
        terms: &mut Vec<Term>,
        first: usize,
        after: &[Affine],
        index: usize,
    ) -> Result<(), Stop> {
        for (place, value) in after.iter().enumerate() {
            let times = number(value, index).checked_neg().ok_or(Stop::GivenUp)?;
            self.put(terms, first, place, times)?;
        }
        if index == PLACES {
            self.put(terms, first, self.variables as usize, -1)?;
        }
        Ok(())
    }

    /// Adds so many times a number of the function with the first column.
    fn put(
        &self,
        terms: &mut Vec<Term>,
        first: usize,
        place: usize,
        times: i128,
    ) -> Result<(), Stop> {
        let times = times.checked_mul(self.factor(place)).ok_or(Stop::GivenUp)?;
        if times != 0 {
            let column = first.saturating_add(place.saturating_mul(2));
            terms.push(Term {
                column,
                number: times,
            })?;
            terms.push(Term {
                column: column.saturating_add(1),
                number: times.checked_neg().ok_or(Stop::GivenUp)?,
            })?;
        }
        Ok(())
    }

    /// The number by which the coefficients of the variable at the place are divided.
    fn factor(&self, place: usize) -> i128 {
        self.factors.get(place).copied().unwrap_or(1)
    }

    /// A solution with small costs, by no more than so many exchanges, which are left to the search.
    fn solution(&self, search: &mut Search, exchanges: u32) -> Result<Option<Solution>, Stop> {
        let given = search.exchanges.min(exchanges);
        let mut left = given;
        let found = minimised(self.alloc, &self.program, &self.costs, &mut left)?;
        let done = given.saturating_sub(left);
        search.exchanges = search.exchanges.saturating_sub(done);
        Ok(found)
    }

    /// The functions of the component's cells, times what makes all their numbers whole, and no more.
    fn read(&self, component: &[usize], solution: &Solution) -> Result<Solved, Stop> {
        let mut divisor = solution.den.unsigned_abs();
        for index in component {
            for place in 0..=self.variables as usize {
                let number = self.value(*index, place, solution)?;
                divisor = common_divisor(number.unsigned_abs(), divisor);
            }
        }
        if divisor == 0 {
            return Err(Stop::GivenUp);
        }
        let mut ranks = Vec::with_capacity(self.alloc, component.len())?;
        for index in component {
            ranks.push(self.function(*index, solution, divisor)?)?;
        }
        let mut falls = Vec::with_capacity(self.alloc, self.falls.len())?;
        for column in &self.falls {
            falls.push(numerator(solution, *column))?;
        }
        Ok(Solved {
            ranks,
            divisor,
            falls,
        })
    }

    /// The cell's function, divided by the number, which divides all its numerators.
    fn function(&self, index: usize, solution: &Solution, divisor: u128) -> Result<Affine, Stop>
        requires { 0 < divisor }
    {
        let constant = self.value(index, self.variables as usize, solution)?;
        let mut rank = Affine::constant(floor_quotient(constant, divisor));
        for place in 0..self.variables as usize {
            let number = self.value(index, place, solution)?;
            if let Some(own) = rank.coef.get_mut(place) {
                *own = floor_quotient(number, divisor)
                    .checked_mul(self.factor(place))
                    .ok_or(Stop::GivenUp)?;
            }
        }
        Ok(rank)
    }

    /// The numerator of a number of a cell's function.
    fn value(&self, index: usize, place: usize, solution: &Solution) -> Result<i128, Stop> {
        let first = self.first_of(index)?;
        let column = first.saturating_add(place.saturating_mul(2));
        let above = numerator(solution, column);
        let below = numerator(solution, column.saturating_add(1));
        above.checked_sub(below).ok_or(Stop::GivenUp)
    }
}

/// The numerator of the column's value.
fn numerator(solution: &Solution, column: usize) -> i128 {
    solution.numerators.get(column).copied().unwrap_or(0)
}

/// Takes off the multiples of the rows at the index, whose columns begin at the first.
fn put_multiples(
    terms: &mut Vec<Term>,
    first: usize,
    rows: &[Row],
    index: usize,
) -> Result<(), Stop> {
    for (place, row) in rows.iter().enumerate() {
        let times = number(&row.affine, index)
            .checked_neg()
            .ok_or(Stop::GivenUp)?;
        if times != 0 {
            terms.push(Term {
                column: first.saturating_add(place),
                number: times,
            })?;
        }
    }
    Ok(())
}

/// The number of the function at the index, the constant behind the coefficients.
fn number(function: &Affine, index: usize) -> i128 {
    function
        .coef
        .get(index)
        .copied()
        .unwrap_or(function.constant)
}
