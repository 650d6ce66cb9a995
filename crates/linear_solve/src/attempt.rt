//! A first attempt to decide rows, of which nothing is believed but what is checked.
ghost use Rattle.std.specs.Prelude.{◌≡◌, ◌<◌, IfOk, MatchOption, IsTrue, true, ⊤};
ghost use Rattle.linear_solve.specs.Answers.{IsPointOf};
ghost use Rattle.linear_solve.specs.Findings.{IsFinding, IsProposal};
ghost use Rattle.linear_solve.specs.Systems.{occurs};

use crate::answer::Stop;
use crate::certificate::{adds_up, meets_all};
use crate::eliminate::eliminate;
use crate::opposed::{meets_opposed, opposes_one};
use crate::order::{next_exact_place, next_place, sides};
use crate::point::Point;
use crate::tableau::{Claim, pivoted};
use linear_cons::Row;
use std::alloc::{AllocError, Global};

/// For how many rows an opposed one is sought before the rows are sorted. Once they are, one walk seeks for
/// all of them.
const MOST_SOUGHT: usize = 8;

/// How many rows an elimination may make that looks for emptiness behind a fraction.
const MOST_BEHIND_FRACTION: usize = 256;

/// What is found of rows: that no store meets them, or a point that meets them all.
#[derive(Clone, Copy, PartialEq, Eq, Debug)]
pub(crate) enum Finding {
    Nothing,
    Point(Point),
}

/// What is done where an elimination would make the list longer.
#[derive(Clone, Copy, PartialEq, Eq, Debug)]
enum Way {
    /// The list is pivoted.
    Pivots,
    /// It is eliminated as long as it stays short.
    Eliminations,
}

impl Way {
    /// The place that is eliminated next. Eliminations take first those that lose no whole number.
    fn next(self, rows: &[Row]) -> Option<u8>
        ensures { MatchOption result ⊤ (λ place. (place < 16) × (occurs place rows.now ≡ true)) }
    {
        match self {
            Way::Pivots => next_place(rows),
            Way::Eliminations => match next_exact_place(rows) {
                Some(place) => Some(place),
                None => next_place(rows),
            },
        }
    }
}

/// What a look at the rows finds, which may come in any order: the origin, where no row has a constant below
/// 0; or two opposed rows, of which one is among the first few with such a constant.
pub(crate) fn glance(rows: &[Row]) -> Option<Finding>
    ensures { MatchOption result ⊤ (IsFinding rows.now) }
{
    let mut sought = 0;
    for row in rows {
        if row.affine.constant < 0 {
            if sought == MOST_SOUGHT {
                return None;
            }
            if opposes_one(row, rows) {
                return Some(Finding::Nothing);
            }
            sought += 1;
        }
    }
    if sought == 0 {
        point_met(rows, &Point::origin())
    } else {
        None
    }
}

/// What is found of the tightest rows, by a search whose point is given only where it meets them. `None`
/// where nothing is found.
pub(crate) fn attempt(alloc: Global, rows: &[Row]) -> Result<Option<Finding>, AllocError>
    ensures { IfOk result (λ found. MatchOption found ⊤ (IsFinding rows.now)) }
{
    match search(alloc, rows, Way::Pivots)? {
        Some(Finding::Nothing) => Ok(Some(Finding::Nothing)),
        Some(Finding::Point(point)) => {
            if point.den == 1 {
                Ok(point_met(rows, &point))
            } else {
                behind_fraction(alloc, rows, &point)
            }
        }
        None => Ok(None),
    }
}

/// What eliminations find, which round to whole numbers: that no store meets the rows, or a point
/// over no greater denominator than this one. Else this one.
fn behind_fraction(
    alloc: Global,
    rows: &[Row],
    point: &Point,
) -> Result<Option<Finding>, AllocError>
    ensures { IfOk result (λ found. MatchOption found ⊤ (IsFinding rows.now)) }
{
    match search(alloc, rows, Way::Eliminations)? {
        Some(Finding::Nothing) => Ok(Some(Finding::Nothing)),
        Some(Finding::Point(other)) => {
            if other.den <= point.den {
                Ok(point_met(rows, &other))
            } else {
                Ok(point_met(rows, point))
            }
        }
        None => Ok(point_met(rows, point)),
    }
}

/// The point, where it meets the rows.
fn point_met(rows: &[Row], point: &Point) -> Option<Finding>
    ensures { MatchOption result ⊤ (IsFinding rows.now) }
{
    if is_met(rows, point) {
        Some(Finding::Point(*point))
    } else {
        None
    }
}

/// The point in lowest terms and with whole numbers where the rows leave room for them, as far as that
/// is seen to meet the rows; else the point itself.
pub(crate) fn simplest(rows: &[Row], point: &Point) -> Point
    ensures { IsPointOf rows.now point.now.num point.now.den → IsPointOf rows.now result.num result.den }
{
    let whole = point.rounded(rows);
    if is_met(rows, &whole) { whole } else { *point }
}

/// True only where the point meets the rows.
fn is_met(rows: &[Row], point: &Point) -> bool
    ensures { IsTrue result → IsPointOf rows.now point.now.num point.now.den }
{
    match meets_all(rows, point) {
        Ok(told) => told,
        Err(_) => false,
    }
}

/// Eliminates places while that does not make the list longer, and then goes on as the way says. That
/// no store meets the rows is certain; the point is a proposal.
fn search(alloc: Global, rows: &[Row], way: Way) -> Result<Option<Finding>, AllocError>
    ensures { IfOk result (λ found. MatchOption found ⊤ (IsProposal rows.now)) }
{
    if meets_opposed(rows) {
        return Ok(Some(Finding::Nothing));
    }
    if has_origin(rows) {
        return Ok(Some(Finding::Point(Point::origin())));
    }
    let place = match way.next(rows) {
        Some(place) => place,
        None => return Ok(None),
    };
    let made = made(rows, place);
    if made > rows.len().saturating_add(2) {
        match way {
            Way::Pivots => return by_pivots(alloc, rows),
            Way::Eliminations => {
                if made > MOST_BEHIND_FRACTION {
                    return Ok(None);
                }
            }
        }
    }
    match eliminate(alloc, rows, place) {
        Ok(Some(left)) => {
            match search(alloc, &left, way)? {
                Some(Finding::Nothing) => Ok(Some(Finding::Nothing)),
                Some(Finding::Point(point)) => Ok(put_back(rows, place, &point)),
                None => Ok(None),
            }
        }
        Ok(None) => Ok(Some(Finding::Nothing)),
        Err(Stop::Memory(fault)) => Err(fault),
        Err(_) => {
            match way {
                Way::Pivots => by_pivots(alloc, rows),
                Way::Eliminations => Ok(None),
            }
        }
    }
}

/// True exactly where the origin meets the rows.
fn has_origin(rows: &[Row]) -> bool {
    for row in rows {
        if row.affine.constant < 0 {
            return false;
        }
    }
    true
}

/// How many rows the elimination of the place makes.
fn made(rows: &[Row], place: u8) -> usize
    requires { place < 16 }
{
    let (lowers, uppers) = sides(rows, place);
    lowers
        .saturating_mul(uppers)
        .saturating_add(rows.len() - lowers - uppers)
}

/// The point with the eliminated place put back, at a whole number where the rows leave room for one.
fn put_back(rows: &[Row], place: u8, point: &Point) -> Option<Finding>
    requires { place < 16 }
    ensures { MatchOption result ⊤ (IsProposal rows.now) }
{
    match point.at_whole(rows, place) {
        Ok(Some(whole)) => Some(Finding::Point(whole)),
        _ => {
            match point.put_back(rows, place) {
                Ok(moved) => Some(Finding::Point(moved.reduced())),
                Err(_) => None,
            }
        }
    }
}

/// What the pivoting says, its multiples once they are checked.
fn by_pivots(alloc: Global, rows: &[Row]) -> Result<Option<Finding>, AllocError>
    ensures { IfOk result (λ found. MatchOption found ⊤ (IsProposal rows.now)) }
{
    match pivoted(alloc, rows)? {
        Some(Claim::Point(point)) => Ok(Some(Finding::Point(point.rounded(rows)))),
        Some(Claim::Nothing(multiples)) => {
            match adds_up(rows, &multiples) {
                Ok(true) => Ok(Some(Finding::Nothing)),
                _ => Ok(None),
            }
        }
        None => Ok(None),
    }
}
