//! Whether a system has a store or a point.
ghost use Rattle.std.specs.Prelude.{◌<◌, ◌≤◌, ℕ, List, IfOk, IfErr, IfSome, MatchOption, length};
ghost use Rattle.linear_cons.specs.Exact.{IsOutside};
ghost use Rattle.linear_cons.specs.Tightest.{AreDistinct};
ghost use Rattle.linear_cons.specs.declared.row.Row.{Row};
ghost use Rattle.linear_solve.specs.Answers.{HasNoStore, IsAnswerTo, IsPointOf, Outgrown};
ghost use Rattle.linear_solve.specs.Findings.{IsFinding};
ghost use Rattle.linear_solve.specs.Solving.{IfStopRows, IfStopWide, IsMemory, IsModest, IsModestPoint, IsTame, IsTamePoint};
ghost use Rattle.linear_solve.specs.Systems.{occurring, rows_after};

use crate::answer::{Answer, Stop};
use crate::attempt::{Finding, attempt, glance, simplest};
use crate::eliminate::eliminate;
use crate::opposed::has_opposed;
use crate::order::next_place;
use crate::point::Point;
use crate::tighten::tightest_of;
use linear_cons::Row;
use std::alloc::{AllocError, Global};

/// Looks for a point that meets all rows.
///
/// A search that is checked comes first: places are eliminated while that makes no longer list, and
/// what is left is pivoted. Where it finds nothing, all places that occur are eliminated, the one with
/// the fewest combinations first (ties: the least), and values are put back in the other order.
pub fn decide(alloc: Global, rows: &[Row]) -> Result<Answer, AllocError>
    requires { length rows.now ≤ 4096 }
    ensures { IfOk result (IsAnswerTo rows.now) }
{
    if let Some(finding) = glance(rows) {
        return Ok(answer_of(&finding));
    }
    let kept = tightest_of(alloc, rows)?;
    let answer = decide_tightest(alloc, &kept)?;
    Ok(answer)
}

/// What `decide` does, of rows that are the tightest already: of which no two have the same coefficients. It
/// goes fastest where they come in the order of `tightest`.
pub fn decide_tightest(alloc: Global, rows: &[Row]) -> Result<Answer, AllocError>
    requires few { length rows.now ≤ 4096 }
    requires distinct { AreDistinct rows.now }
    ensures { IfOk result (IsAnswerTo rows.now) }
{
    if let Some(finding) = attempt(alloc, rows)? {
        return Ok(answer_of(&finding));
    }
    if has_opposed(rows) {
        return Ok(Answer::Empty);
    }
    match solve(alloc, rows) {
        Ok(None) => Ok(Answer::Empty),
        Ok(Some(point)) => {
            let simplest = simplest(rows, &point);
            let num = simplest.num;
            let den = simplest.den;
            Ok(Answer::Point { num, den })
        }
        Err(Stop::Wide(wide)) => Ok(Answer::Wide(wide)),
        Err(Stop::Rows { count }) => Ok(Answer::Rows { count }),
        Err(Stop::Memory(fault)) => Err(fault),
    }
}

/// The finding as an answer.
fn answer_of(finding: &Finding) -> Answer
    ensures { (rows : List Row) → IsFinding rows finding.now → IsAnswerTo rows result }
{
    match finding {
        Finding::Nothing => Answer::Empty,
        Finding::Point(point) => Answer::Point {
            num: point.num,
            den: point.den,
        },
    }
}

/// A point that meets all rows, or `None` where no store does.
fn solve(alloc: Global, rows: &[Row]) -> Result<Option<Point>, Stop>
    ensures found { IfOk result (λ found. MatchOption found (HasNoStore rows.now) (λ point. IsPointOf rows.now point.num point.den)) }
    ensures modest_point { IfOk result (λ found. IfSome found
        (λ point. (size c root : ℕ) → IsModest size c root rows.now → IsModestPoint c root point)) }
    ensures tame_point { IfOk result (λ found. IfSome found (λ point. (bound : ℕ) → IsTame bound rows.now
        → IsTamePoint (occurring rows.now) point)) }
    ensures wide { IfErr result (λ stop. IfStopWide stop IsOutside) }
    ensures immodest { IfErr result (λ stop. IfStopWide stop (λ _. (size c root : ℕ) → IsModest size c root rows.now → ⊥)) }
    ensures many { IfErr result (λ stop. IfStopRows stop (λ count. 4096 < count)) }
    ensures counted { IfErr result (λ stop. IfStopRows stop (λ _. 4096 < rows_after (occurring rows.now) (length rows.now))) }
    ensures outgrown { IfErr result (λ stop. IfStopRows stop (λ _. Outgrown rows.now)) }
    ensures wild { IfErr result (λ stop. (bound : ℕ) → IsTame bound rows.now → IsMemory stop) }
{
    let place = match next_place(rows) {
        Some(place) => place,
        None => return Ok(Some(Point::origin())),
    };
    let left = match eliminate(alloc, rows, place)? {
        Some(left) => left,
        None => return Ok(None),
    };
    match solve(alloc, &left)? {
        Some(point) => {
            let point = point.put_back(rows, place)?;
            Ok(Some(point))
        }
        None => Ok(None),
    }
}
