//! The cells that runs need not leave.
use crate::cells::{Cell, End, Found};
use linear_cons::Affine;

/// Gives the rank 0 to the cells of which each link leads to the goal or to such a cell, and none to the others.
pub(crate) fn close(cells: &mut Vec<Cell>) {
    for index in 0..cells.len() {
        cells[index].found = if cells[index].leads_astray() {
            Found::Nothing
        } else {
            Found::Rank(Affine::constant(0))
        };
    }
    // Each turn but the last leaves a cell out.
    for _ in 0..cells.len() {
        if !leave_out(cells) {
            return;
        }
    }
}

/// Leaves out the cells that lead to one that is left out; true where there was one.
fn leave_out(cells: &mut Vec<Cell>) -> bool {
    let mut left_out = false;
    for index in 0..cells.len() {
        if cells[index].found != Found::Nothing && leads_out(cells, index) {
            cells[index].found = Found::Nothing;
            left_out = true;
        }
    }
    left_out
}

/// Whether a link leads from the cell to one that is left out.
fn leads_out(cells: &[Cell], index: usize) -> bool {
    let Some(cell) = cells.get(index) else {
        return false;
    };
    cell.links.iter().any(|link| match link.to {
        End::Cell(next) => match cells.get(next) {
            Some(other) => other.found == Found::Nothing,
            None => true,
        },
        End::Goal | End::Fault => false,
    })
}
