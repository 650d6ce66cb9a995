//! Cells of the stores at the heads of loops, and the links between them.
use crate::meeting::met;
use crate::synthesis::Synthesis;
use linear_cons::{Affine, Row};
use loop_moves::{Head, Move, Search, Stop, Target, add_through, unless_given_up};
use std::alloc::AllocError;

/// The most cells at one head.
const MOST_CELLS: usize = 24;

/// With how many links from the cells of one head no further cell gets its own.
const MOST_LINKS: usize = 300;

/// Where a link leads.
#[derive(Clone, Copy, PartialEq, Eq, Debug)]
pub(crate) enum End {
    /// To the cell with the index.
    Cell(usize),
    Goal,
    Fault,
}

/// A move of a cell's head as far as it leads from the cell to one end: the move's index, and where it is taken.
#[derive(Drop)]
pub(crate) struct Link {
    pub(crate) one: usize,
    pub(crate) to: End,
    pub(crate) rows: Vec<Row>,
}

/// What is known of the rank of a cell.
#[derive(Clone, Copy, PartialEq, Eq, Debug)]
pub(crate) enum Found {
    /// It isn't looked for yet.
    Open,
    Rank(Affine),
    /// There is none.
    Nothing,
}

/// A part of the stores at a head.
#[derive(Drop)]
pub(crate) struct Cell {
    /// The head's index.
    pub(crate) head: usize,
    pub(crate) rows: Vec<Row>,
    pub(crate) links: Vec<Link>,
    pub(crate) found: Found,
}

impl Cell {
    /// Whether a link leads to where nothing is claimed.
    pub(crate) fn leads_astray(&self) -> bool {
        self.links.iter().any(|link| link.to == End::Fault)
    }
}

impl Synthesis {
    /// The cells that the rows part the stores at the heads into, with their links. A cell whose links would be too many leads astray.
    pub(crate) fn cells(&self, search: &mut Search, rows: &[Vec<Row>]) -> Result<Vec<Cell>, Stop> {
        let mut cells = Vec::new(search.alloc);
        for (index, head) in self.loops.heads.iter().enumerate() {
            if let Some(splits) = rows.get(index) {
                for part in parted(search, head, splits)? {
                    cells.push(Cell {
                        head: index,
                        rows: part,
                        links: Vec::new(search.alloc),
                        found: Found::Open,
                    })?;
                }
            }
        }
        for index in 0..self.loops.heads.len() {
            self.link(search, &mut cells, index)?;
        }
        Ok(cells)
    }

    /// Gives the cells of the head their links.
    fn link(
        &self,
        search: &mut Search,
        cells: &mut Vec<Cell>,
        head: usize,
    ) -> Result<(), AllocError> {
        let ahead = self.ahead(search, cells, head)?;
        let mut count = 0usize;
        for index in 0..cells.len() {
            if cells[index].head == head {
                let links = if count < MOST_LINKS {
                    unless_given_up(self.links(search, cells, index, &ahead))?
                } else {
                    None
                };
                let links = match links {
                    Some(links) => links,
                    None => astray(search)?,
                };
                count = count.saturating_add(links.len());
                cells[index].links = links;
            }
        }
        Ok(())
    }

    /// For each move of the head the cells to which it may lead.
    fn ahead(
        &self,
        search: &Search,
        cells: &[Cell],
        head: usize,
    ) -> Result<Vec<Vec<Ahead>>, AllocError> {
        let mut all = Vec::new(search.alloc);
        if let Some(head) = self.loops.heads.get(head) {
            for way in &head.moves {
                let ahead = self.ahead_of(search, cells, way)?;
                all.push(ahead)?;
            }
        }
        Ok(all)
    }

    /// The cells to which the move may lead.
    fn ahead_of(
        &self,
        search: &Search,
        cells: &[Cell],
        way: &Move,
    ) -> Result<Vec<Ahead>, AllocError> {
        let mut ahead = Vec::new(search.alloc);
        let Target::Head(label) = way.to else {
            return Ok(ahead);
        };
        let Some(next) = self.loops.index(label) else {
            return Ok(ahead);
        };
        let Some(head) = self.loops.heads.get(next) else {
            return Ok(ahead);
        };
        for (index, cell) in cells.iter().enumerate() {
            if cell.head == next {
                match unless_given_up(rows_before(search, cell, head, way))? {
                    Some(None) => {}
                    Some(rows) => ahead.push(Ahead { cell: index, rows })?,
                    None => ahead.push(Ahead {
                        cell: index,
                        rows: None,
                    })?,
                }
            }
        }
        Ok(ahead)
    }

    /// The links of the cell, whose head's moves may lead to those cells.
    fn links(
        &self,
        search: &mut Search,
        cells: &[Cell],
        index: usize,
        ahead: &[Vec<Ahead>],
    ) -> Result<Vec<Link>, Stop> {
        let mut links = Vec::new(search.alloc);
        let Some(cell) = cells.get(index) else {
            return Ok(links);
        };
        let Some(head) = self.loops.heads.get(cell.head) else {
            return Ok(links);
        };
        for (one, way) in head.moves.iter().enumerate() {
            let mut rows = way.rows.to_vec(search.alloc)?;
            rows.extend_from_slice(&cell.rows)?;
            if let Some(rows) = met(search, rows)? {
                let to = match way.to {
                    Target::Goal => End::Goal,
                    Target::Fault => End::Fault,
                    Target::Head(_) => {
                        if let Some(ahead) = ahead.get(one) {
                            lead(search, one, &rows, ahead, &mut links)?;
                        }
                        continue;
                    }
                };
                links.push(Link { one, to, rows })?;
            }
        }
        Ok(links)
    }
}

/// A cell to which a move may lead, and what the stores meet before the move that come to it, if that is known.
#[derive(Drop)]
struct Ahead {
    cell: usize,
    rows: Option<Vec<Row>>,
}

/// What the stores meet from which the move leads to the cell of the head, or none where there are none.
fn rows_before(
    search: &Search,
    cell: &Cell,
    head: &Head,
    way: &Move,
) -> Result<Option<Vec<Row>>, Stop> {
    let mut rows = Vec::new(search.alloc);
    if add_through(&mut rows, &cell.rows, &way.after)?
        && add_through(&mut rows, &head.known, &way.after)?
    {
        Ok(Some(rows))
    } else {
        Ok(None)
    }
}

/// Adds the links by the move with the index, which is taken where the rows are met, to cells to which it may lead.
fn lead(
    search: &mut Search,
    one: usize,
    rows: &[Row],
    ahead: &[Ahead],
    links: &mut Vec<Link>,
) -> Result<(), Stop> {
    for target in ahead {
        let Some(before) = &target.rows else {
            return Err(Stop::GivenUp);
        };
        let mut more = rows.to_vec(search.alloc)?;
        more.extend_from_slice(before)?;
        if let Some(rows) = met(search, more)? {
            let to = End::Cell(target.cell);
            links.push(Link { one, to, rows })?;
        }
    }
    Ok(())
}

/// The links of a cell of which they aren't known.
fn astray(search: &Search) -> Result<Vec<Link>, AllocError> {
    let mut links = Vec::with_capacity(search.alloc, 1)?;
    links.push(Link {
        one: 0,
        to: End::Fault,
        rows: Vec::new(search.alloc),
    })?;
    Ok(links)
}

/// The parts of the head's stores by the rows, as far as there are not too many.
fn parted(search: &mut Search, head: &Head, rows: &[Row]) -> Result<Vec<Vec<Row>>, Stop> {
    let mut parts = Vec::new(search.alloc);
    parts.push(Vec::new(search.alloc))?;
    for row in rows {
        let other = row.not()?;
        let mut next = Vec::new(search.alloc);
        let mut left = parts.len();
        for part in parts {
            left = left.saturating_sub(1);
            if next.len().saturating_add(left).saturating_add(2) > MOST_CELLS {
                next.push(part)?;
            } else {
                split(search, head, part, row, &other, &mut next)?;
            }
        }
        parts = next;
    }
    Ok(parts)
}

/// Adds the two sides of the part, where both have stores, and else the part.
fn split(
    search: &mut Search,
    head: &Head,
    part: Vec<Row>,
    row: &Row,
    other: &Row,
    next: &mut Vec<Vec<Row>>,
) -> Result<(), Stop> {
    if has_stores(search, head, &part, row)? && has_stores(search, head, &part, other)? {
        let mut yes = part.to_vec(search.alloc)?;
        yes.push(*row)?;
        let mut no = part;
        no.push(*other)?;
        next.push(yes)?;
        next.push(no)?;
    } else {
        next.push(part)?;
    }
    Ok(())
}

/// Whether stores of the part may meet the row.
fn has_stores(search: &mut Search, head: &Head, part: &[Row], row: &Row) -> Result<bool, Stop> {
    let mut rows = head.known.to_vec(search.alloc)?;
    rows.extend_from_slice(part)?;
    rows.push(*row)?;
    Ok(met(search, rows)?.is_some())
}
