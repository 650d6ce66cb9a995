//! Lists of at most 256 rows, of which none tells another.
ghost use Rattle.std.specs.Prelude.{◌≤◌, length, OnOk, IfOk};
ghost use Rattle.poly_dom.specs.Lists.{AddsAll, HasRoom, IsAdded};

use linear_cons::{Row, settles};
use std::alloc::{AllocError, Global};

/// The most rows that are kept.
pub(crate) const MOST: usize = 256;

/// Adds a row, unless one of the list tells it. The rows that it tells go: they have its coefficients
/// and constants that are not less.
pub(crate) fn add(rows: &mut Vec<Row>, row: &Row) -> Result<(), AllocError>
    requires { length rows.old.items ≤ 256 }
    ensures { OnOk result (IsAdded row.now rows.old.items rows.new.items) }
{
    if let Some(true) = settles(rows, row) {
        return Ok(());
    }
    rows.retain(|given| !row.tells(given));
    make_room(rows);
    rows.push(*row)?;
    Ok(())
}

/// Gives up the oldest row where there are `MOST`.
#[tactic(auto, using(crate::proofs::AddedRows::without_oldest))]
fn make_room(rows: &mut Vec<Row>)
    requires { length rows.old.items ≤ 256 }
    ensures { HasRoom rows.old.items rows.new.items }
{
    if rows.len() < MOST {
        return;
    }
    rows.remove(0);
}

/// Adds each row of a list.
pub(crate) fn add_all(rows: &mut Vec<Row>, more: &[Row]) -> Result<(), AllocError>
    requires { length rows.old.items ≤ 256 }
    ensures { OnOk result (AddsAll more.now rows.old.items rows.new.items) }
{
    for row in more {
        add(rows, row)?;
    }
    Ok(())
}

/// The rows and one more.
pub(crate) fn with_row(alloc: Global, rows: &[Row], row: &Row) -> Result<Vec<Row>, AllocError>
    requires { length rows.now ≤ 256 }
    ensures { IfOk result (λ list. IsAdded row.now rows.now list.items) }
{
    let mut list = Vec::from_slice(alloc, rows)?;
    add(&mut list, row)?;
    Ok(list)
}

/// The rows and several more.
pub(crate) fn with_rows(alloc: Global, rows: &[Row], more: &[Row]) -> Result<Vec<Row>, AllocError>
    requires { length rows.now ≤ 256 }
    ensures { IfOk result (λ list. AddsAll more.now rows.now list.items) }
{
    let mut list = Vec::from_slice(alloc, rows)?;
    add_all(&mut list, more)?;
    Ok(list)
}
