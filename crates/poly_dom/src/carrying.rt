//! Rows after an assignment.
ghost use Rattle.std.specs.Prelude.{◌≡◌, ◌<◌, ◌≤◌, pos, [], length, IfSome, IfOk, OnOk};
ghost use Rattle.linear_cons.specs.Functions.{coefficient, without};
ghost use Rattle.linear_solve.specs.Answers.{KeepsStores};
ghost use Rattle.poly_dom.specs.Assignments.{AddsAfter, HoldAfter, HoldsAfter, IsBounding, IsCarried};

use crate::adding::{add, add_all};
use linear_cons::{Affine, Linear, Row, RowKind};
use linear_solve::{Projected, project};
use std::alloc::{AllocError, Global};

/// The rows after the number at the place is replaced by those of the expression.
///
/// Where the old number is read, each row that mentions the place is turned into one of the new number.
/// Else the place is eliminated, and the rows that bound the new number by the expression are added
/// (Bagnara, Hill and Zaffanella, "The Parma Polyhedra Library", 2008, on affine images).
pub(crate) fn assigned(
    alloc: Global,
    rows: &[Row],
    place: u8,
    value: &Linear,
) -> Result<Vec<Row>, AllocError>
    requires { place < 16 }
    ensures after { IfOk result (λ list. HoldAfter place value.now rows.now list.items) }
    ensures few { IfOk result (λ list. length list.items ≤ 256) }
{
    let mut list = others(alloc, rows, place, value)?;
    if value.affine.coef[place as usize] != 0 {
        add_turned(&mut list, rows, place, value)?;
        return Ok(list);
    }
    add_end(&mut list, place, value, 1)?;
    add_end(&mut list, place, value, -1)?;
    Ok(list)
}

/// What is kept of the other places. Where the old number is read and the expression has both ends, every
/// row that mentions the place can be turned, and nothing is to be gained by eliminating it.
fn others(alloc: Global, rows: &[Row], place: u8, value: &Linear) -> Result<Vec<Row>, AllocError>
    requires { place < 16 }
    ensures keeps { IfOk result (λ list. KeepsStores rows.now place list.items) }
    ensures few { IfOk result (λ list. length list.items ≤ 256) }
{
    if value.affine.coef[place as usize] != 0 && value.lo.is_some() && value.hi.is_some() {
        return unmentioned(alloc, rows, place);
    }
    eliminated(alloc, rows, place)
}

/// What the rows say of the other places: by elimination, or else the rows that don't mention the place.
fn eliminated(alloc: Global, rows: &[Row], place: u8) -> Result<Vec<Row>, AllocError>
    requires { place < 16 }
    ensures keeps { IfOk result (λ list. KeepsStores rows.now place list.items) }
    ensures few { IfOk result (λ list. length list.items ≤ 256) }
{
    match project(alloc, rows, place)? {
        Projected::Rows(left) => {
            let mut list = Vec::new(alloc);
            add_all(&mut list, &left)?;
            Ok(list)
        }
        _ => unmentioned(alloc, rows, place),
    }
}

/// The rows that don't mention the place.
fn unmentioned(alloc: Global, rows: &[Row], place: u8) -> Result<Vec<Row>, AllocError>
    requires { place < 16 }
    ensures keeps { IfOk result (λ list. KeepsStores rows.now place list.items) }
    ensures few { IfOk result (λ list. length list.items ≤ 256) }
{
    let mut list = Vec::new(alloc);
    for row in rows {
        if row.affine.coef[place as usize] == 0 {
            add(&mut list, row)?;
        }
    }
    Ok(list)
}

/// Adds the row that bounds `times`, which is 1 or -1, times the new number from below, by an expression
/// that doesn't read the old one.
fn add_end(list: &mut Vec<Row>, place: u8, value: &Linear, times: i128) -> Result<(), AllocError>
    requires within { place < 16 }
    requires unread { coefficient value.now.affine place ≡ pos 0 }
    requires few { length list.old.items ≤ 256 }
    ensures { OnOk result (AddsAfter place value.now [] list.old.items list.new.items) }
{
    if let Some(row) = carried(&Affine::constant(0), 0, place, value, times) {
        add(list, &row)?;
    }
    Ok(())
}

/// Adds what each row that mentions the place says of the new number.
fn add_turned(
    list: &mut Vec<Row>,
    rows: &[Row],
    place: u8,
    value: &Linear,
) -> Result<(), AllocError>
    requires within { place < 16 }
    requires few { length list.old.items ≤ 256 }
    ensures { OnOk result (AddsAfter place value.now rows.now list.old.items list.new.items) }
{
    for row in rows {
        if row.affine.coef[place as usize] != 0 {
            if let Some(turned) = turned(row, place, value) {
                add(list, &turned)?;
            }
        }
    }
    Ok(())
}

/// What a row `rest + a * x >= 0` says of the new number, where c is the factor with which the old one is
/// read: the row is multiplied by the size of c, so that c * x occurs in it. None where that can't be said
/// in numbers that fit.
fn turned(row: &Row, place: u8, value: &Linear) -> Option<Row>
    requires { place < 16 }
    ensures { IfSome result (HoldsAfter place value.now row.now) }
{
    let factor = value.affine.coef[place as usize];
    let own = row.affine.coef[place as usize];
    let rest = without(&row.affine, place);
    if factor < 0 {
        let by = factor.checked_neg()?;
        let times = own.checked_neg()?;
        carried(&rest, by, place, value, times)
    } else {
        carried(&rest, factor, place, value, own)
    }
}

/// The row `by * rest + times * c * x >= 0` after the assignment, where c * x is what the
/// expression reads of the old number: the new number less the expression's other terms is c * x + d, for
/// a d between the ends. None where the end is missing that bounds `times * d` from below, or where a
/// number doesn't fit, or where no variable is left.
fn carried(rest: &Affine, by: i128, place: u8, value: &Linear, times: i128) -> Option<Row>
    requires within { place < 16 }
    requires unmentioned { coefficient rest.now place ≡ pos 0 }
    ensures { IfSome result (IsCarried rest.now by place value.now times) }
{
    let ended = bounding(value, times)?;
    let Ok(read) = Affine::var(place).sub(&without(&ended, place)) else {
        return None;
    };
    let Ok(mixed) = rest.mixed(by, &read, times) else {
        return None;
    };
    match Row::of(mixed) {
        RowKind::Row(row) => Some(row),
        _ => None,
    }
}

/// The expression's function with the end that it lies on the far side of, seen in the direction of
/// `times`: the lower end, or the upper one where `times` is negative.
fn bounding(value: &Linear, times: i128) -> Option<Affine>
    ensures { IfSome result (IsBounding value.now times) }
{
    if times < 0 {
        return value.with_upper().unwrap_or(None);
    }
    value.with_lower().unwrap_or(None)
}

/// The function without its product at the place.
fn without(function: &Affine, place: u8) -> Affine
    requires { place < 16 }
    ensures { result ≡ without function.now place }
{
    let mut rest = *function;
    rest.coef[place as usize] = 0;
    rest
}
