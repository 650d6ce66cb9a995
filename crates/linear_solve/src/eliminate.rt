//! The elimination of a place.
ghost use Rattle.std.specs.Prelude.{◌≡◌, ◌<◌, ◌≤◌, ◌+◌, ◌++◌, ◌∷◌, ℕ, List, [], OnOk, IfOk, IfErr, MatchOption, Contains, length, Err, Ok, false};
ghost use Rattle.std.specs.Prelude.{true, ⊤};
ghost use Rattle.linear_cons.specs.Exact.{IsOutside};
ghost use Rattle.linear_cons.specs.declared.row.Row.{Row};
ghost use Rattle.linear_solve.specs.Elimination.{AreMany, Grows, HasNeverPair, HasUnfitPair, ImpliesMixtures, ImpliesRest};
ghost use Rattle.linear_solve.specs.Elimination.{IsEliminated, IsLower, IsMade, made_of, others_of, uppers_of};
ghost use Rattle.linear_solve.specs.Solving.{IfStopRows, IfStopWide};

use crate::answer::Stop;
use crate::mixture::mixture;
use crate::tighten::tightest;
use linear_cons::{MOST_ROWS, Row, RowKind};
use std::alloc::{AllocError, Global};

/// The tightest of the rows without the place and of the combinations of each row that bounds it from
/// below with each that bounds it from above. `None` where such a combination is met nowhere. `Rows` comes
/// where more than `MOST_ROWS` of the tightest are left; what is made on the way is never twice as many.
pub(crate) fn eliminate(alloc: Global, rows: &[Row], place: u8) -> Result<Option<Vec<Row>>, Stop>
    requires { place < 16 }
    ensures left { IfOk result (λ found. MatchOption found (HasNeverPair rows.now place) (λ left. IsEliminated rows.now place left.items)) }
    ensures few { IfOk result (λ found. MatchOption found ⊤ (λ left. length left.items ≤ 4096)) }
    ensures wide { IfErr result (λ stop. IfStopWide stop IsOutside) }
    ensures unfit { IfErr result (λ stop. IfStopWide stop (λ _. HasUnfitPair rows.now place)) }
    ensures many { IfErr result (λ stop. IfStopRows stop (λ count. 4096 < count)) }
    ensures counted { IfErr result (λ stop. IfStopRows stop (λ _. 4096 < made_of place rows.now)) }
    ensures distinct { IfErr result (λ stop. IfStopRows stop (λ _. AreMany (IsMade rows.now place))) }
{
    let mut made = rows_without(alloc, rows, place)?;
    for lower in rows {
        if lower.affine.coef[place as usize] > 0 {
            if !add_mixtures(&mut made, lower, rows, place)? {
                return Ok(None);
            }
            let kept = limited(made)?;
            made = kept;
        }
    }
    let few = limited(made)?;
    Ok(Some(tightest(few)))
}

/// The rows, or the tightest of them where they are more than `MOST_ROWS`. `Rows` where these still are.
fn limited(rows: Vec<Row>) -> Result<Vec<Row>, Stop>
    ensures grows { IfOk result (λ left. (given : List Row) (place : ℕ) → Grows given place rows.items left.items) }
    ensures short { IfOk result (λ left. length left.items ≤ length rows.items) }
    ensures few { IfOk result (λ left. length left.items ≤ 4096) }
    ensures fits { IfErr result (λ stop. IfStopWide stop (λ _. ⊥)) }
    ensures many { IfErr result (λ stop. IfStopRows stop (λ count. 4096 < count)) }
    ensures counted { IfErr result (λ stop. IfStopRows stop (λ _. 4096 < length rows.items)) }
    ensures distinct { IfErr result (λ stop. IfStopRows stop (λ _. AreMany (Contains rows.items))) }
{
    if rows.len() <= MOST_ROWS {
        return Ok(rows);
    }
    let left = tightest(rows);
    if left.len() <= MOST_ROWS {
        return Ok(left);
    }
    let count = u32::try_from(left.len()).unwrap_or(u32::MAX);
    Err(Stop::Rows { count })
}

/// The rows in which the place does not occur, with room for what an elimination mostly adds.
fn rows_without(alloc: Global, rows: &[Row], place: u8) -> Result<Vec<Row>, AllocError>
    requires { place < 16 }
    ensures grows { IfOk result (λ made. Grows rows.now place [] made.items) }
    ensures rest { IfOk result (λ made. ImpliesRest rows.now place made.items) }
    ensures short { IfOk result (λ made. length made.items ≤ others_of place rows.now) }
{
    let mut made = Vec::with_capacity(alloc, rows.len())?;
    for row in rows {
        if row.affine.coef[place as usize] == 0 {
            made.push(*row)?;
        }
    }
    Ok(made)
}

/// Adds the combinations of a row from below with each row from above. False where one is met
/// nowhere.
fn add_mixtures(made: &mut Vec<Row>, lower: &Row, rows: &[Row], place: u8) -> Result<bool, Stop>
    requires within { place < 16 }
    requires lower_in { Contains rows.now lower.now }
    requires below { IsLower place lower.now }
    ensures grows { result ≡ Ok true → Grows rows.now place made.old.items made.new.items }
    ensures mixtures { result ≡ Ok true → ImpliesMixtures lower.now rows.now place made.new.items }
    ensures short { result ≡ Ok true → length made.new.items ≤ length made.old.items + uppers_of place rows.now }
    ensures never { result ≡ Ok false → HasNeverPair rows.now place }
    ensures wide { IfErr result (λ stop. IfStopWide stop IsOutside) }
    ensures unfit { IfErr result (λ stop. IfStopWide stop (λ _. HasUnfitPair rows.now place)) }
    ensures enough { IfErr result (λ stop. IfStopRows stop (λ _. ⊥)) }
{
    for upper in rows {
        if upper.affine.coef[place as usize] < 0 {
            match mixture(lower, upper, place)? {
                RowKind::Always => {}
                RowKind::Never => return Ok(false),
                RowKind::Row(row) => add(made, row)?,
            }
        }
    }
    Ok(true)
}

/// Appends the row.
fn add(rows: &mut Vec<Row>, row: Row) -> Result<(), AllocError>
    ensures { OnOk result (rows.new.items ≡ rows.old.items ++ row ∷ []) }
{
    rows.push(row)?;
    Ok(())
}
