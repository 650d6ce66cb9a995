//! What the solver finds of rows: whether they have a store, and which rows hold of them.
ghost use Rattle.std.specs.Prelude.{◌≤◌, ℤ, List, length, IsTrue, OnOk, IfOk};
ghost use Rattle.interval_dom.specs.Boxes.{Has};
ghost use Rattle.linear_cons.specs.Rows.{MeetsAll};
ghost use Rattle.linear_solve.specs.Answers.{HasNoStore};
ghost use Rattle.num_domain.specs.Domain.{IsStore};
ghost use Rattle.poly_dom.specs.Lists.{AddsImplied, AreBounds, AreCommon, Imply, ImplyAll};

use crate::adding::add;
use interval_dom::Boxes;
use linear_cons::{Bounds, Row, settles};
use linear_solve::{Answer, decide};
use num_domain::NumDomain;
use std::alloc::{AllocError, Global};

/// True only where no store meets the rows.
pub(crate) fn have_none(alloc: Global, rows: &[Row]) -> Result<bool, AllocError>
    requires { length rows.now ≤ 4096 }
    ensures { IfOk result (λ none. IsTrue none → HasNoStore rows.now) }
{
    match decide(alloc, rows)? {
        Answer::Empty => Ok(true),
        _ => Ok(false),
    }
}

/// True only where each store that meets the rows meets one more: where none of them meets its
/// complement.
pub(crate) fn imply(alloc: Global, rows: &[Row], row: &Row) -> Result<bool, AllocError>
    requires { length rows.now ≤ 256 }
    ensures { IfOk result (λ holds. IsTrue holds → Imply rows.now row.now) }
{
    if let Some(holds) = settles(rows, row) {
        return Ok(holds);
    }
    let Ok(complement) = row.not() else {
        return Ok(false);
    };
    let mut both = Vec::from_slice(alloc, rows)?;
    both.push(complement)?;
    have_none(alloc, &both)
}

/// True only where one of the rows tells each of some more.
pub(crate) fn tell_all(rows: &[Row], more: &[Row]) -> bool
    ensures { IsTrue result → ImplyAll rows.now more.now }
{
    for row in more {
        let Some(true) = settles(rows, row) else {
            return false;
        };
    }
    true
}

/// Adds those of the rows that the given ones imply.
pub(crate) fn add_implied(
    alloc: Global,
    list: &mut Vec<Row>,
    rows: &[Row],
    given: &[Row],
) -> Result<(), AllocError>
    requires few { length list.old.items ≤ 256 }
    requires few_given { length given.now ≤ 256 }
    ensures { OnOk result (AddsImplied rows.now given.now list.old.items list.new.items) }
{
    for row in rows {
        if imply(alloc, given, row)? {
            add(list, row)?;
        }
    }
    Ok(())
}

/// The rows of each list that the other one implies.
pub(crate) fn common(alloc: Global, rows: &[Row], other: &[Row]) -> Result<Vec<Row>, AllocError>
    requires few { length rows.now ≤ 256 }
    requires few_others { length other.now ≤ 256 }
    ensures { IfOk result (λ list. AreCommon rows.now other.now list.items) }
{
    let mut list = Vec::new(alloc);
    add_implied(alloc, &mut list, rows, other)?;
    add_implied(alloc, &mut list, other, rows)?;
    Ok(list)
}

/// The ends of a box round the stores that meet the rows. The box is refined by each row twice, so that
/// the ends that the later ones set serve the earlier ones too.
pub(crate) fn ends_of(alloc: Global, rows: &[Row]) -> Result<Bounds, AllocError>
    ensures { IfOk result (AreBounds rows.now) }
{
    let mut around = Boxes::top(alloc)?;
    refine(alloc, &mut around, rows)?;
    refine(alloc, &mut around, rows)?;
    Ok(around.bounds())
}

/// Refines the box by each row.
fn refine(alloc: Global, around: &mut Boxes, rows: &[Row]) -> Result<(), AllocError>
    ensures { OnOk result ((store : List ℤ) → IsStore store → MeetsAll store rows.now → Has around.old store → Has around.new store) }
{
    for row in rows {
        around.meet_row(alloc, row)?;
    }
    Ok(())
}
