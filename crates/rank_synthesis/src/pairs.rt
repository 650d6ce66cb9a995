//! Ranks of two parts for cells: the higher part never rises, and falls where a number is chosen without a bound; where it stays, the lower part falls by the steps.
use crate::cells::{Cell, End, Link};
use crate::components::components;
use crate::farkas::{Along, Behind, Change, FEW_EXCHANGES, Solved};
use crate::lists::{RankedCell, of_two, put_ranks};
use crate::synthesis::{Kept, Synthesis};
use linear_cons::{Affine, floor_quotient};
use loop_moves::{Move, Parting, Search, Stop, unless_given_up};
use std::alloc::{AllocError, Global};

/// A rank of two parts.
#[derive(Clone, Copy)]
pub(crate) struct Pair {
    high: Affine,
    low: Affine,
}

/// Where a link of a component leads.
#[derive(Clone, Copy)]
enum To {
    /// To the cell with the index, of the same component.
    Inner(usize),
    /// To a cell with this rank.
    Outer(Pair),
    Goal,
}

/// A link of the cell with the index, and where it leads.
#[derive(Clone, Copy)]
struct Lead<'a> {
    cell: usize,
    link: &'a Link,
    one: &'a Move,
    to: To,
}

impl<'a> Lead<'a> {
    fn is_inner(&self) -> bool {
        matches!(self.to, To::Inner(_))
    }

    /// Whether a higher part that is the same for the whole component does: a link within it chooses nothing without a bound, and behind any other
    /// the higher part is a number.
    fn is_level(&self) -> bool {
        match &self.to {
            To::Inner(_) => self.one.jumps == 0,
            To::Outer(pair) => pair.high.coef.iter().all(|number| *number == 0),
            To::Goal => true,
        }
    }

    /// The least higher part of a component which the link leaves, where that behind it is a number.
    fn level(&self) -> i128 {
        let behind = match &self.to {
            To::Outer(pair) => pair.high.constant,
            To::Inner(_) | To::Goal => 0,
        };
        behind.saturating_add(i128::from(self.one.jumps))
    }

    /// That the lower part falls by the steps.
    fn low(&self) -> Along<'a> {
        let behind = match &self.to {
            To::Inner(next) => Behind::Cell(*next),
            To::Outer(pair) if self.one.jumps == 0 => Behind::Fixed(pair.low),
            To::Outer(_) | To::Goal => Behind::Nothing,
        };
        self.along(behind, Change::Falls(i128::from(self.one.steps)))
    }

    /// That the higher part doesn't rise, and falls below that of another component and with each choice without a bound; nothing is asked on the
    /// way to the goal without such choices.
    fn high(&self) -> Option<Along<'a>> {
        let jumps = i128::from(self.one.jumps);
        match &self.to {
            To::Inner(next) => Some(self.along(Behind::Cell(*next), Change::MayFall)),
            To::Outer(pair) => {
                let least = jumps.saturating_add(1);
                Some(self.along(Behind::Fixed(pair.high), Change::Falls(least)))
            }
            To::Goal if jumps == 0 => None,
            To::Goal => {
                let least = jumps.saturating_add(1);
                Some(self.along(Behind::Nothing, Change::Falls(least)))
            }
        }
    }

    fn along(&self, behind: Behind, change: Change) -> Along<'a> {
        Along {
            cell: self.cell,
            link: self.link,
            one: self.one,
            behind,
            change,
        }
    }
}

impl Synthesis {
    /// The cells of the parting that have ranks of two parts: along each move from such a cell the higher part falls, or it stays and the lower one falls by the steps; and the higher part falls by one more than the
    /// choices without a bound. None where there is no loop, the parting's rows are those of one that was tried, a number lies outside `i128`, or no work is left to the search. The cells are kept for ranks
    /// of more parts. Nothing of it is proved. The only error is want of memory.
    pub fn paired(
        &mut self,
        search: &mut Search,
        parting: Parting,
    ) -> Result<Option<Vec<RankedCell>>, AllocError> {
        let Some(cells) = unless_given_up(self.parted(search, parting))?.flatten() else {
            return Ok(None);
        };
        let ranks = self.paired_cells(search, &cells)?;
        let claimed = if self.jumps { 0 } else { ranks.len() };
        self.kept.push(Kept {
            parting,
            cells,
            claimed,
            is_settled: false,
        })?;
        Ok(Some(ranks))
    }

    /// Those of the cells that have ranks of two parts, component after component.
    fn paired_cells(
        &self,
        search: &mut Search,
        cells: &[Cell],
    ) -> Result<Vec<RankedCell>, AllocError> {
        let mut pairs: Vec<Option<Pair>> = vec![in search.alloc; None; cells.len()]?;
        for component in components(search.alloc, cells)? {
            let found = unless_given_up(self.pairs(search, cells, &component, &pairs))?;
            if let Some(found) = found.flatten() {
                put_ranks(&mut pairs, &component, &found);
            }
        }
        self.with_parts(search.alloc, cells, &pairs)
    }

    /// The cells with their ranks, where they have one.
    fn with_parts(
        &self,
        alloc: Global,
        cells: &[Cell],
        pairs: &[Option<Pair>],
    ) -> Result<Vec<RankedCell>, AllocError> {
        let mut ranks = Vec::with_capacity(alloc, pairs.len())?;
        for pair in pairs {
            ranks.push(pair.map(|pair| of_two(&pair.high, &pair.low)))?;
        }
        self.ranked_cells(alloc, cells, &ranks)
    }

    /// Ranks of the component's cells, in order, where there are such.
    fn pairs(
        &self,
        search: &mut Search,
        cells: &[Cell],
        component: &[usize],
        found: &[Option<Pair>],
    ) -> Result<Option<Vec<Pair>>, Stop> {
        let Some(leads) = self.leads(search.alloc, cells, component, found)? else {
            return Ok(None);
        };
        if leads.iter().all(|lead| lead.is_level()) {
            if let Some(pairs) = self.on_a_level(search, cells, component, &leads)? {
                return Ok(Some(pairs));
            }
        }
        self.falling(search, cells, component, &leads)
    }

    /// The links of the component. None where one leads to where no rank is.
    fn leads<'a>(
        &'a self,
        alloc: Global,
        cells: &'a [Cell],
        component: &[usize],
        found: &[Option<Pair>],
    ) -> Result<Option<Vec<Lead<'a>>>, AllocError> {
        let mut leads = Vec::new(alloc);
        for index in component {
            if let Some(cell) = cells.get(*index) {
                for link in &cell.links {
                    let (Some(to), Some(one)) = (
                        end_of(component, found, link.to),
                        self.move_of(cell, link.one),
                    ) else {
                        return Ok(None);
                    };
                    leads.push(Lead {
                        cell: *index,
                        link,
                        one,
                        to,
                    })?;
                }
            }
        }
        Ok(Some(leads))
    }

    /// Ranks with one number as the higher part of all cells: the greatest that links out of the component ask for, where the lower part falls along those
    /// that ask for it too; or else one more.
    fn on_a_level(
        &self,
        search: &mut Search,
        cells: &[Cell],
        component: &[usize],
        leads: &[Lead<'_>],
    ) -> Result<Option<Vec<Pair>>, Stop> {
        let level = level_of(leads);
        for (high, leaving) in [(level, Some(level)), (level.saturating_add(1), None)] {
            let asked = low_ones(search.alloc, leads, leaving)?;
            if let Some(solved) = self.solved(search, cells, component, &asked, FEW_EXCHANGES)? {
                let pairs = with_high(search.alloc, Affine::constant(high), &solved.ranks)?;
                return Ok(Some(pairs));
            }
        }
        Ok(None)
    }

    /// Ranks whose higher part falls along as many links as can be, and whose lower one does along the others.
    fn falling(
        &self,
        search: &mut Search,
        cells: &[Cell],
        component: &[usize],
        leads: &[Lead<'_>],
    ) -> Result<Option<Vec<Pair>>, Stop> {
        let asked = high_ones(search.alloc, leads)?;
        match self.solved(search, cells, component, &asked, FEW_EXCHANGES)? {
            Some(highs) => self.with_lows(search, cells, component, leads, &highs),
            None => Ok(None),
        }
    }

    /// Ranks with these higher parts, whose lower one falls along the links where they stay.
    fn with_lows(
        &self,
        search: &mut Search,
        cells: &[Cell],
        component: &[usize],
        leads: &[Lead<'_>],
        highs: &Solved,
    ) -> Result<Option<Vec<Pair>>, Stop> {
        let Some((times, staying)) = staying(search.alloc, leads, highs)? else {
            return Ok(None);
        };
        match self.solved(search, cells, component, &staying, FEW_EXCHANGES)? {
            Some(lows) => {
                let pairs = multiplied(search.alloc, times, &highs.ranks, &lows.ranks)?;
                Ok(Some(pairs))
            }
            None => Ok(None),
        }
    }
}

/// The greatest higher part for which a link out of the component asks.
fn level_of(leads: &[Lead<'_>]) -> i128 {
    let mut level = 0i128;
    for lead in leads {
        if !lead.is_inner() {
            level = level.max(lead.level());
        }
    }
    level
}

/// That the lower part falls along the links within the component, and along those out of it that ask for this higher part, where one is given.
fn low_ones<'a>(
    alloc: Global,
    leads: &[Lead<'a>],
    level: Option<i128>,
) -> Result<Vec<Along<'a>>, AllocError> {
    let mut asked = Vec::new(alloc);
    for lead in leads {
        if lead.is_inner() || level == Some(lead.level()) {
            asked.push(lead.low())?;
        }
    }
    Ok(asked)
}

/// What is asked of the higher part.
fn high_ones<'a>(alloc: Global, leads: &[Lead<'a>]) -> Result<Vec<Along<'a>>, AllocError> {
    let mut asked = Vec::new(alloc);
    for lead in leads {
        if let Some(along) = lead.high() {
            asked.push(along)?;
        }
    }
    Ok(asked)
}

/// Ranks of this higher part.
fn with_high(alloc: Global, high: Affine, lows: &[Affine]) -> Result<Vec<Pair>, AllocError> {
    let mut pairs = Vec::with_capacity(alloc, lows.len())?;
    for low in lows {
        pairs.push(Pair { high, low: *low })?;
    }
    Ok(pairs)
}

/// Ranks of the higher parts, so many times each, and the lower ones.
fn multiplied(
    alloc: Global,
    times: i128,
    highs: &[Affine],
    lows: &[Affine],
) -> Result<Vec<Pair>, Stop> {
    let mut pairs = Vec::with_capacity(alloc, highs.len())?;
    for (high, low) in highs.iter().zip(lows) {
        let high = high.scale(times)?;
        pairs.push(Pair { high, low: *low })?;
    }
    Ok(pairs)
}

/// By what the higher parts are to be multiplied, so that each fall is greater than the number of choices without a bound; and that the lower part falls along the links where
/// the higher one stays. None where it stays along all of the component, or along one with such a choice.
fn staying<'a>(
    alloc: Global,
    leads: &[Lead<'a>],
    highs: &Solved,
) -> Result<Option<(i128, Vec<Along<'a>>)>, Stop> {
    let mut times = 1i128;
    let mut staying = Vec::new(alloc);
    let mut falls = highs.falls.iter();
    let mut inner = 0usize;
    for lead in leads {
        if lead.is_inner() {
            inner = inner.saturating_add(1);
            let fall = falls.next().copied().unwrap_or(0);
            if fall > 0 {
                times = times.max(least_multiple(lead.one.jumps, fall, highs.divisor)?);
            } else if lead.one.jumps > 0 {
                return Ok(None);
            } else {
                staying.push(lead.low())?;
            }
        }
    }
    if inner > 0 && staying.len() == inner {
        return Ok(None);
    }
    Ok(Some((times, staying)))
}

/// The least number by which the fall, divided by the divisor, is to be multiplied so that it is greater than the jumps. Given up where it doesn't fall.
pub(crate) fn least_multiple(jumps: u32, fall: i128, divisor: u128) -> Result<i128, Stop> {
    let by = fall.unsigned_abs();
    if by == 0 {
        return Err(Stop::GivenUp);
    }
    let divisor = i128::try_from(divisor).map_err(|_| Stop::GivenUp)?;
    let wanted = i128::from(jumps)
        .saturating_add(1)
        .checked_mul(divisor)
        .ok_or(Stop::GivenUp)?;
    let above = wanted
        .checked_add(fall)
        .ok_or(Stop::GivenUp)?
        .saturating_sub(1);
    Ok(floor_quotient(above, by))
}

/// Where a link leads, if there is a rank.
fn end_of(component: &[usize], found: &[Option<Pair>], to: End) -> Option<To> {
    match to {
        End::Goal => Some(To::Goal),
        End::Fault => None,
        End::Cell(next) if component.contains(&next) => Some(To::Inner(next)),
        End::Cell(next) => found.get(next).copied().flatten().map(To::Outer),
    }
}
