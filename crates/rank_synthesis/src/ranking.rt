//! Ranks of cells, component after component.
use crate::cells::{Cell, End, Found};
use crate::farkas::{Along, Behind, Change, FEW_EXCHANGES};
use crate::synthesis::Synthesis;
use linear_cons::Affine;
use loop_moves::{Search, Stop, unless_given_up};
use std::alloc::{AllocError, Global};

impl Synthesis {
    /// Gives the component's cells ranks over those that are known, or says of all of them that there are none.
    pub(crate) fn rank(
        &self,
        search: &mut Search,
        cells: &mut Vec<Cell>,
        component: &[usize],
    ) -> Result<(), AllocError> {
        let ranks = unless_given_up(self.ranks(search, cells, component))?.flatten();
        for (place, index) in component.iter().enumerate() {
            let rank = match &ranks {
                Some(ranks) => ranks.get(place).copied(),
                None => None,
            };
            if let Some(cell) = cells.get_mut(*index) {
                cell.found = match rank {
                    Some(rank) => Found::Rank(rank),
                    None => Found::Nothing,
                };
            }
        }
        Ok(())
    }

    /// Ranks of the component's cells, in order, where there are such.
    fn ranks(
        &self,
        search: &mut Search,
        cells: &[Cell],
        component: &[usize],
    ) -> Result<Option<Vec<Affine>>, Stop> {
        let Some(asked) = self.falls(search.alloc, cells, component)? else {
            return Ok(None);
        };
        let solved = self.solved(search, cells, component, &asked, FEW_EXCHANGES)?;
        Ok(solved.map(|solved| solved.ranks))
    }

    /// That ranks fall by the steps along each link of the component. None where a link leads to where no rank is.
    fn falls<'a>(
        &'a self,
        alloc: Global,
        cells: &'a [Cell],
        component: &[usize],
    ) -> Result<Option<Vec<Along<'a>>>, AllocError> {
        let mut asked = Vec::new(alloc);
        for index in component {
            if let Some(cell) = cells.get(*index) {
                for link in &cell.links {
                    let Some(behind) = behind(cells, component, link.to) else {
                        return Ok(None);
                    };
                    let Some(one) = self.move_of(cell, link.one) else {
                        return Ok(None);
                    };
                    asked.push(Along {
                        cell: *index,
                        link,
                        one,
                        behind,
                        change: Change::Falls(i128::from(one.steps)),
                    })?;
                }
            }
        }
        Ok(Some(asked))
    }
}

/// The rank at the end of a link, if there is one.
fn behind(cells: &[Cell], component: &[usize], to: End) -> Option<Behind> {
    match to {
        End::Goal => Some(Behind::Nothing),
        End::Fault => None,
        End::Cell(next) if component.contains(&next) => Some(Behind::Cell(next)),
        End::Cell(next) => match cells.get(next) {
            Some(
                Cell {
                    found: Found::Rank(rank),
                    ..
                },
            ) => Some(Behind::Fixed(*rank)),
            _ => None,
        },
    }
}
