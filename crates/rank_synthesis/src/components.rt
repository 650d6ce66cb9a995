//! Cells that lead to one another.
use crate::cells::{Cell, End};
use loop_moves::Arrows;
use std::alloc::{AllocError, Global};

/// For each cell the cells to which arrows lead from it, itself among them, and how many.
#[derive(Drop)]
struct Reached {
    cells: Vec<Vec<bool>>,
    counts: Vec<usize>,
}

/// The components of the cells, each behind those that it leads to, and in each the cells in their order.
pub(crate) fn components(alloc: Global, cells: &[Cell]) -> Result<Vec<Vec<usize>>, AllocError> {
    let mut arrows = Arrows::none(alloc, cells.len())?;
    for (from, cell) in cells.iter().enumerate() {
        for link in &cell.links {
            if let End::Cell(to) = link.to {
                arrows.add(from, to)?;
            }
        }
    }
    components_of(alloc, cells.len(), &arrows)
}

/// The components of so many cells between which the arrows lead, each behind those that it leads to, and in each the cells in their order.
pub(crate) fn components_of(
    alloc: Global,
    count: usize,
    arrows: &Arrows,
) -> Result<Vec<Vec<usize>>, AllocError> {
    let reached = Reached::of(alloc, count, arrows)?;
    let mut done = vec![in alloc; false; count]?;
    let mut found = Vec::new(alloc);
    // A cell reaches more cells than one that it leads to and that doesn't lead back.
    for reach in 0..=count {
        for first in 0..count {
            if reached.counts.get(first) == Some(&reach) && done.get(first) == Some(&false) {
                let component = reached.component(alloc, first)?;
                for cell in &component {
                    if let Some(is_done) = done.get_mut(*cell) {
                        *is_done = true;
                    }
                }
                found.push(component)?;
            }
        }
    }
    Ok(found)
}

impl Reached {
    fn of(alloc: Global, count: usize, arrows: &Arrows) -> Result<Reached, AllocError> {
        let mut reached = Reached {
            cells: Vec::with_capacity(alloc, count)?,
            counts: Vec::with_capacity(alloc, count)?,
        };
        for first in 0..count {
            let own = arrows.reached(alloc, first, 0)?;
            let count = own.iter().filter(|is_reached| **is_reached).count();
            reached.cells.push(own)?;
            reached.counts.push(count)?;
        }
        Ok(reached)
    }

    /// The cells that the first leads to and that lead back, itself among them.
    fn component(&self, alloc: Global, first: usize) -> Result<Vec<usize>, AllocError> {
        let mut component = Vec::new(alloc);
        for cell in 0..self.cells.len() {
            if self.leads(first, cell) && self.leads(cell, first) {
                component.push(cell)?;
            }
        }
        Ok(component)
    }

    fn leads(&self, from: usize, to: usize) -> bool {
        match self.cells.get(from) {
            Some(own) => own.get(to) == Some(&true),
            None => false,
        }
    }
}
