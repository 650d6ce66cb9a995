//! A system without one of its places.
ghost use Rattle.std.specs.Prelude.{◌≡◌, ◌<◌, ◌≤◌, ◌+◌, length, pos, negsuc, ℤ, List, ◌-ℤ◌, ◌<ℤ◌, ◌≤ℤ◌, IfOk, OnOk};
ghost use Rattle.linear_cons.specs.Functions.{IsConstant, coefficient, form_at};
ghost use Rattle.linear_cons.specs.Numbers.{number_at};
ghost use Rattle.linear_cons.specs.Rows.{PointMeetsAll};
ghost use Rattle.linear_solve.specs.Answers.{IsProjected};
ghost use Rattle.linear_solve.specs.Elimination.{IsNothing};

use crate::answer::{Projected, Stop};
use crate::eliminate::eliminate;
use crate::tighten::tightest_of;
use linear_cons::{Affine, Row, RowKind};
use std::alloc::{AllocError, Global};

/// The rows on the other places: a store that meets the rows meets them with any number at the
/// place, and a point that meets them extends to one of the rows. Where no store meets the rows,
/// two opposed rows at another place may stand for them.
pub fn project(alloc: Global, rows: &[Row], place: u8) -> Result<Projected, AllocError>
    requires { place < 16 }
    ensures { IfOk result (IsProjected rows.now place) }
{
    let kept = tightest_of(alloc, rows)?;
    match eliminate(alloc, &kept, place) {
        Ok(Some(left)) => Ok(Projected::Rows(left)),
        Ok(None) => {
            let other = if place == 0 { 1 } else { 0 };
            let nothing = opposed_pair(alloc, other)?;
            Ok(Projected::Rows(nothing))
        }
        Err(Stop::Wide(wide)) => Ok(Projected::Wide(wide)),
        Err(Stop::Rows { count }) => Ok(Projected::TooMany { count }),
        Err(Stop::Memory(fault)) => Err(fault),
    }
}

/// The rows `x - 1 >= 0` and `-x >= 0` of the place, which no point meets.
fn opposed_pair(alloc: Global, place: u8) -> Result<Vec<Row>, AllocError>
    requires { place < 16 }
    ensures nothing { IfOk result (λ rows. IsNothing rows.items) }
    ensures short { IfOk result (λ rows. length rows.items ≤ 2) }
{
    let mut rows = Vec::new(alloc);
    add_row(&mut rows, less_one(place))?;
    add_row(&mut rows, negative(place))?;
    Ok(rows)
}

/// Adds the row of a function in which a variable occurs.
fn add_row(rows: &mut Vec<Row>, a: Affine) -> Result<(), AllocError>
    requires { IsConstant a → ⊥ }
    ensures meets { OnOk result ((num : List ℤ) (den : ℤ) → pos 0 <ℤ den → PointMeetsAll num den rows.new.items
        → PointMeetsAll num den rows.old.items × (pos 0 ≤ℤ form_at a num den)) }
    ensures short { OnOk result (length rows.new.items ≤ length rows.old.items + 1) }
{
    if let RowKind::Row(row) = Row::of(a) {
        rows.push(row)?;
    }
    Ok(())
}

/// The function `x - 1` of the number at the place.
fn less_one(place: u8) -> Affine
    requires { place < 16 }
    ensures form { (num : List ℤ) (den : ℤ) → form_at result num den ≡ number_at num place -ℤ den }
    ensures occurs { coefficient result place ≡ pos 1 }
{
    let mut function = Affine::var(place);
    function.constant = -1;
    function
}

/// The function `-x` of the number at the place.
fn negative(place: u8) -> Affine
    requires { place < 16 }
    ensures form { (num : List ℤ) (den : ℤ) → form_at result num den ≡ pos 0 -ℤ number_at num place }
    ensures occurs { coefficient result place ≡ negsuc 0 }
{
    let mut function = Affine::constant(0);
    function.coef[place as usize] = -1;
    function
}
