//! Ranks of up to five parts for cells: along each move the first part that changes falls. The highest part falls along as many moves as can be, and the cells
//! that the others lead between are parted anew for the next parts.
use crate::cells::{Cell, End, Link};
use crate::components::{components, components_of};
use crate::farkas::{Along, Behind, Change, MANY_EXCHANGES, Solved};
use crate::pairs::least_multiple;
use crate::synthesis::Synthesis;
use linear_cons::{Affine, Row};
use loop_moves::{Arrows, Move, Parting, Search, Stop, unless_given_up};
use std::alloc::{AllocError, Global};

/// The most parts.
const MOST_PARTS: usize = 5;

/// The numbers of parts above two and the partings, in the order in which they are to be tried.
pub const ORDER: [(usize, Parting); 15] = [
    (3, Parting::Guards),
    (3, Parting::Falls),
    (4, Parting::Guards),
    (4, Parting::Falls),
    (5, Parting::Guards),
    (5, Parting::Falls),
    (3, Parting::Targets),
    (3, Parting::Deep),
    (3, Parting::Kept),
    (4, Parting::Targets),
    (4, Parting::Deep),
    (4, Parting::Kept),
    (5, Parting::Targets),
    (5, Parting::Deep),
    (5, Parting::Kept),
];

/// A part of the stores at the head with the label, and its rank: the functions of its parts, the highest first. A rank of fewer than five has the function 0 in front.
#[derive(Drop)]
pub struct RankedCell {
    pub label: u32,
    pub rows: Vec<Row>,
    pub parts: [Affine; 5],
}

/// The functions of a rank's parts, the last ones of those that are looked for.
type Parts = [Affine; MOST_PARTS];

/// Where a link leads.
#[derive(Clone, Copy)]
enum To {
    /// To the cell with the index, whose rank is looked for.
    Inner(usize),
    /// To where this rank is known.
    Outer(Parts),
}

/// A link of the cell with the index, along which a rank is to fall.
#[derive(Clone, Copy)]
struct Way<'a> {
    cell: usize,
    link: &'a Link,
    one: &'a Move,
    to: To,
}

impl<'a> Way<'a> {
    fn along(&self, behind: Behind, change: Change) -> Along<'a> {
        Along {
            cell: self.cell,
            link: self.link,
            one: self.one,
            behind,
            change,
        }
    }

    /// That the last part falls by the steps.
    fn last(&self) -> Along<'a> {
        self.along(self.behind(1), Change::Falls(i128::from(self.one.steps)))
    }

    /// That the first of so many parts doesn't rise, and falls if it can.
    fn first(&self, parts: usize) -> Along<'a> {
        self.along(self.behind(parts), Change::MayFall)
    }

    /// The first of so many last parts of what is behind.
    fn behind(&self, parts: usize) -> Behind {
        match &self.to {
            To::Inner(next) => Behind::Cell(*next),
            To::Outer(known) => Behind::Fixed(part_of(known, parts)),
        }
    }

    /// By more than what a fall of the part must be: the number of choices without a bound on the way to a cell whose rank is looked for.
    fn jumps(&self) -> u32 {
        match &self.to {
            To::Inner(_) => self.one.jumps,
            To::Outer(_) => 0,
        }
    }

    /// The parts behind that are known.
    fn known(&self) -> Option<&Parts> {
        match &self.to {
            To::Inner(_) => None,
            To::Outer(known) => Some(known),
        }
    }
}

/// Ranks of some cells, by their indices.
type Ranks = Vec<Option<Parts>>;

/// What is found for the cells of a component.
#[derive(Drop)]
enum Listed {
    /// Ranks, in the cells' order.
    Found(Vec<Parts>),
    /// No function falls along a way and rises along none, so more parts don't help.
    Never,
    Nothing,
}

impl Synthesis {
    /// The cells of the parting, as `paired` kept them, that have ranks of so many parts: along each move from such a cell the first part that changes
    /// falls. None where there is no such cell, and where no more cells have ranks than have ones of fewer parts, by which as much is claimed. Nothing of it is proved.
    /// The only error is want of memory.
    pub fn listed(
        &mut self,
        search: &mut Search,
        parting: Parting,
        parts: usize,
    ) -> Result<Option<Vec<RankedCell>>, AllocError> {
        for place in 0..self.kept.len() {
            let kept = &self.kept[place];
            if kept.parting == parting && !kept.is_settled {
                let (ranks, is_settled) = self.ranks_of(search, &kept.cells, parts)?;
                let ranked = self.ranked_cells(search.alloc, &kept.cells, &ranks)?;
                let is_more = ranked.len() > kept.claimed;
                self.kept[place].is_settled = is_settled && !self.jumps;
                return Ok(if is_more { Some(ranked) } else { None });
            }
        }
        Ok(None)
    }

    /// The cells with their ranks, where they have one.
    pub(crate) fn ranked_cells(
        &self,
        alloc: Global,
        cells: &[Cell],
        ranks: &[Option<Parts>],
    ) -> Result<Vec<RankedCell>, AllocError> {
        let mut ranked = Vec::new(alloc);
        for (cell, rank) in cells.iter().zip(ranks) {
            if let (Some(head), Some(parts)) = (self.loops.heads.get(cell.head), rank) {
                ranked.push(RankedCell {
                    label: head.label,
                    rows: cell.rows.to_vec(alloc)?,
                    parts: *parts,
                })?;
            }
        }
        Ok(ranked)
    }

    /// The ranks of the cells, component after component; and whether more parts wouldn't help the others.
    fn ranks_of(
        &self,
        search: &mut Search,
        cells: &[Cell],
        parts: usize,
    ) -> Result<(Ranks, bool), AllocError> {
        let mut ranks: Ranks = vec![in search.alloc; None; cells.len()]?;
        let mut is_settled = true;
        for component in components(search.alloc, cells)? {
            let Some(ways) = self.ways(search.alloc, cells, &component, &ranks)? else {
                continue;
            };
            match unless_given_up(self.list(search, cells, &component, &ways, parts))? {
                Some(Listed::Found(found)) => put_ranks(&mut ranks, &component, &found),
                Some(Listed::Never) => {}
                Some(Listed::Nothing) | None => is_settled = false,
            }
        }
        Ok((ranks, is_settled))
    }

    /// The links of the component. None where one leads to where no rank is.
    fn ways<'a>(
        &'a self,
        alloc: Global,
        cells: &'a [Cell],
        component: &[usize],
        ranks: &[Option<Parts>],
    ) -> Result<Option<Vec<Way<'a>>>, AllocError> {
        let mut ways = Vec::new(alloc);
        for index in component {
            if let Some(cell) = cells.get(*index) {
                for link in &cell.links {
                    let Some(one) = self.move_of(cell, link.one) else {
                        return Ok(None);
                    };
                    let Some(to) = end_of(component, ranks, link.to, one) else {
                        return Ok(None);
                    };
                    ways.push(Way {
                        cell: *index,
                        link,
                        one,
                        to,
                    })?;
                }
            }
        }
        Ok(Some(ways))
    }

    /// Ranks of so many parts for the cells along the ways: numbers in front as long as that goes, where those behind are numbers too.
    #[cycle(peeling)]
    fn list(
        &self,
        search: &mut Search,
        cells: &[Cell],
        among: &[usize],
        ways: &[Way<'_>],
        parts: usize,
    ) -> Result<Listed, Stop> {
        for last in 1..=parts {
            if let Some(front) = front_of(ways, parts, last) {
                let kept = reaching(search.alloc, ways, &front, parts, last)?;
                match self.peeled(search, cells, among, &kept, last)? {
                    Listed::Found(found) => {
                        let ranks = behind_front(search.alloc, &front, parts, last, &found)?;
                        return Ok(Listed::Found(ranks));
                    }
                    Listed::Never if are_plain(ways) => return Ok(Listed::Never),
                    Listed::Never | Listed::Nothing => {}
                }
            }
        }
        Ok(Listed::Nothing)
    }

    /// Ranks of so many parts of which the first falls along as many ways as can be, and the next ones along the others.
    #[cycle(peeling)]
    fn peeled(
        &self,
        search: &mut Search,
        cells: &[Cell],
        among: &[usize],
        ways: &[Way<'_>],
        parts: usize,
    ) -> Result<Listed, Stop> {
        if parts <= 1 {
            return self.one_part(search, cells, among, ways);
        }
        let asked = first_ones(search.alloc, ways, parts)?;
        let Some(firsts) = self.solved(search, cells, among, &asked, MANY_EXCHANGES)? else {
            return Ok(Listed::Never);
        };
        let Some((times, staying)) = staying(search.alloc, ways, &firsts)? else {
            return Ok(Listed::Never);
        };
        let Some(rest) = self.parted_anew(search, cells, among, &staying, parts - 1)? else {
            return Ok(Listed::Nothing);
        };
        let found = multiplied(search.alloc, times, &firsts.ranks, &rest, parts)?;
        Ok(Listed::Found(found))
    }

    /// Ranks of so many parts for the cells along the ways, of which those that lead between them part them anew.
    #[cycle(peeling)]
    fn parted_anew(
        &self,
        search: &mut Search,
        cells: &[Cell],
        among: &[usize],
        ways: &[Way<'_>],
        parts: usize,
    ) -> Result<Option<Vec<Parts>>, Stop> {
        let mut ranks: Ranks = vec![in search.alloc; None; cells.len()]?;
        for component in joined_by(search.alloc, cells.len(), ways)? {
            if component.iter().all(|index| among.contains(index)) {
                let own = ways_of(search.alloc, ways, &component, &ranks)?;
                match self.list(search, cells, &component, &own, parts)? {
                    Listed::Found(found) => put_ranks(&mut ranks, &component, &found),
                    Listed::Never | Listed::Nothing => return Ok(None),
                }
            }
        }
        let found = all_of(search.alloc, &ranks, among)?;
        Ok(found)
    }

    /// Ranks of one part, which falls along all ways by the steps. Nothing where a number is chosen without a bound on a way between the cells.
    fn one_part(
        &self,
        search: &mut Search,
        cells: &[Cell],
        among: &[usize],
        ways: &[Way<'_>],
    ) -> Result<Listed, Stop> {
        if ways.iter().any(|way| way.jumps() > 0) {
            return Ok(Listed::Nothing);
        }
        let mut asked = Vec::with_capacity(search.alloc, ways.len())?;
        for way in ways {
            asked.push(way.last())?;
        }
        let Some(solved) = self.solved(search, cells, among, &asked, MANY_EXCHANGES)? else {
            return Ok(Listed::Nothing);
        };
        let mut found = Vec::with_capacity(search.alloc, among.len())?;
        for rank in &solved.ranks {
            found.push(with_part(noughts(), 1, *rank))?;
        }
        Ok(Listed::Found(found))
    }
}

/// What is asked of the first of so many parts.
fn first_ones<'a>(
    alloc: Global,
    ways: &[Way<'a>],
    parts: usize,
) -> Result<Vec<Along<'a>>, AllocError> {
    let mut asked = Vec::with_capacity(alloc, ways.len())?;
    for way in ways {
        asked.push(way.first(parts))?;
    }
    Ok(asked)
}

/// Ranks of so many parts, whose first is so many times one of these.
fn multiplied(
    alloc: Global,
    times: i128,
    firsts: &[Affine],
    rest: &[Parts],
    parts: usize,
) -> Result<Vec<Parts>, Stop> {
    let mut found = Vec::with_capacity(alloc, rest.len())?;
    for (first, rest) in firsts.iter().zip(rest) {
        let first = first.scale(times)?;
        found.push(with_part(*rest, parts, first))?;
    }
    Ok(found)
}

/// The components into which the ways between cells join so many cells.
fn joined_by(alloc: Global, cells: usize, ways: &[Way<'_>]) -> Result<Vec<Vec<usize>>, AllocError> {
    let mut arrows = Arrows::none(alloc, cells)?;
    for way in ways {
        if let To::Inner(to) = way.to {
            arrows.add(way.cell, to)?;
        }
    }
    let joined = components_of(alloc, cells, &arrows)?;
    Ok(joined)
}

/// The ranks of the cells with the indices. None where one has none.
fn all_of(
    alloc: Global,
    ranks: &[Option<Parts>],
    indices: &[usize],
) -> Result<Option<Vec<Parts>>, AllocError> {
    let mut found = Vec::with_capacity(alloc, indices.len())?;
    for index in indices {
        match ranks.get(*index).copied().flatten() {
            Some(rank) => found.push(rank)?,
            None => return Ok(None),
        }
    }
    Ok(Some(found))
}

/// Notes the ranks of the cells with the indices.
pub(crate) fn put_ranks<T: Copy>(ranks: &mut [Option<T>], indices: &[usize], found: &[T]) {
    for (index, rank) in indices.iter().zip(found) {
        if let Some(place) = ranks.get_mut(*index) {
            *place = Some(*rank);
        }
    }
}

/// Whether of the ranks behind no part but the last is other than 0: so what is asked of a first part is the same for any number of parts.
fn are_plain(ways: &[Way<'_>]) -> bool {
    ways.iter().all(|way| match way.known() {
        Some(known) => front_in(known, MOST_PARTS, 1) == noughts(),
        None => true,
    })
}

/// By what the first parts are to be multiplied, so that each fall is greater than the number of choices without a bound; and the ways along which the first part stays. None where it stays along all.
fn staying<'a>(
    alloc: Global,
    ways: &[Way<'a>],
    firsts: &Solved,
) -> Result<Option<(i128, Vec<Way<'a>>)>, Stop> {
    let mut times = 1i128;
    let mut staying = Vec::new(alloc);
    let mut falls = firsts.falls.iter();
    for way in ways {
        let fall = falls.next().copied().unwrap_or(0);
        if fall > 0 {
            times = times.max(least_multiple(way.jumps(), fall, firsts.divisor)?);
        } else {
            staying.push(*way)?;
        }
    }
    if staying.len() == ways.len() {
        return Ok(None);
    }
    Ok(Some((times, staying)))
}

/// The ways from the cells of the component, of which those to other cells lead to their ranks.
fn ways_of<'a>(
    alloc: Global,
    ways: &[Way<'a>],
    component: &[usize],
    ranks: &[Option<Parts>],
) -> Result<Vec<Way<'a>>, AllocError> {
    let mut own = Vec::new(alloc);
    for way in ways {
        if component.contains(&way.cell) {
            let mut next = *way;
            if let To::Inner(index) = way.to {
                if let Some(Some(rank)) = ranks.get(index) {
                    next.to = To::Outer(*rank);
                }
            }
            own.push(next)?;
        }
    }
    Ok(own)
}

/// Of the parts in front of the last ones the greatest numbers to which the ways out of the component lead, 0 where none does. None where there is a function that isn't a number.
fn front_of(ways: &[Way<'_>], parts: usize, last: usize) -> Option<Parts> {
    let mut front = noughts();
    for way in ways {
        if let Some(known) = way.known() {
            let own = front_in(known, parts, last);
            if own
                .iter()
                .any(|part| part.coef.iter().any(|number| *number != 0))
            {
                return None;
            }
            if is_above(&own, &front) {
                front = own;
            }
        }
    }
    Some(front)
}

/// The ways between the cells and those that lead to where these numbers stand in front.
fn reaching<'a>(
    alloc: Global,
    ways: &[Way<'a>],
    front: &Parts,
    parts: usize,
    last: usize,
) -> Result<Vec<Way<'a>>, AllocError> {
    let mut kept = Vec::new(alloc);
    for way in ways {
        let reaches = match way.known() {
            Some(known) => front_in(known, parts, last) == *front,
            None => true,
        };
        if reaches {
            kept.push(*way)?;
        }
    }
    Ok(kept)
}

/// Of so many parts those in front of the last ones, and else 0.
fn front_in(known: &Parts, parts: usize, last: usize) -> Parts {
    let mut front = noughts();
    for (index, part) in front.iter_mut().enumerate() {
        let left = MOST_PARTS.saturating_sub(index);
        if left <= parts && left > last {
            *part = part_of(known, left);
        }
    }
    front
}

/// Whether numbers are above others: in the first part that differs.
fn is_above(own: &Parts, other: &Parts) -> bool {
    for (a, b) in own.iter().zip(other) {
        if a.constant != b.constant {
            return a.constant > b.constant;
        }
    }
    false
}

/// The ranks with the numbers in front of their last parts.
fn behind_front(
    alloc: Global,
    front: &Parts,
    parts: usize,
    last: usize,
    found: &[Parts],
) -> Result<Vec<Parts>, AllocError> {
    let mut ranks = Vec::with_capacity(alloc, found.len())?;
    for rank in found {
        let mut whole = *rank;
        for (index, part) in whole.iter_mut().enumerate() {
            let left = MOST_PARTS.saturating_sub(index);
            if left <= parts && left > last {
                *part = part_of(front, left);
            }
        }
        ranks.push(whole)?;
    }
    Ok(ranks)
}

/// Where a link leads, if there is a rank. Behind choices without a bound the last part begins anew, at the price of as many of that before it.
fn end_of(component: &[usize], ranks: &[Option<Parts>], to: End, one: &Move) -> Option<To> {
    let known = match to {
        End::Goal => noughts(),
        End::Fault => return None,
        End::Cell(next) if component.contains(&next) => return Some(To::Inner(next)),
        End::Cell(next) => ranks.get(next).copied().flatten()?,
    };
    if one.jumps == 0 {
        return Some(To::Outer(known));
    }
    let [fourth, third, second, first, _] = known;
    let first = first.plus(i128::from(one.jumps)).ok()?;
    Some(To::Outer([fourth, third, second, first, Affine::constant(0)]))
}

/// The rank of two parts.
pub(crate) fn of_two(high: &Affine, low: &Affine) -> Parts {
    let nought = Affine::constant(0);
    [nought, nought, nought, *high, *low]
}

/// The functions 0.
fn noughts() -> Parts {
    [Affine::constant(0); MOST_PARTS]
}

/// The first of so many last parts.
fn part_of(known: &Parts, parts: usize) -> Affine {
    match known.get(MOST_PARTS.saturating_sub(parts)) {
        Some(part) => *part,
        None => Affine::constant(0),
    }
}

/// The rank with the function as the first of so many last parts.
fn with_part(rank: Parts, parts: usize, function: Affine) -> Parts {
    let mut made = rank;
    if let Some(part) = made.get_mut(MOST_PARTS.saturating_sub(parts)) {
        *part = function;
    }
    made
}
