//! Cases of a value, and what becomes of them.
ghost use Rattle.std.specs.Prelude.{◌≡◌, ◌-ℤ◌, IfOk, pos, unsigned_abs};
ghost use Rattle.linear_forms.specs.Linearising as forms;
ghost use Rattle.quotient_cases.specs.Cases as ways;

use crate::ends::{added, product, raised, scaled};
use crate::guards::{copied, joined};
use linear_cons::{Affine, Linear, Rows};
use std::alloc::{AllocError, Global};

/// One of the ways in which a value comes about: where a store meets the rows, so many times the value is at least the one function and at most the
/// other, as far as they are known.
#[derive(Drop)]
pub struct Case {
    pub rows: Rows,
    pub times: i128,
    pub least: Option<Affine>,
    pub most: Option<Affine>,
}

/// The case of a value between two functions where the rows are met.
pub(crate) fn plainly(rows: Rows, least: Option<Affine>, most: Option<Affine>) -> Case
    ensures { result ≡ ways.plainly rows least most }
{
    Case {
        rows,
        times: 1,
        least,
        most,
    }
}

/// The case of a value of the form where the rows are met.
pub(crate) fn of_form(rows: Rows, form: &Linear) -> Case
    ensures { result ≡ ways.of_form form.now rows }
{
    let least = raised(form.lo, Some(form.affine));
    let most = raised(form.hi, Some(form.affine));
    plainly(rows, least, most)
}

/// The case of a value that times both numbers lies between the functions; nothing is known where their product doesn't fit.
pub(crate) fn timed(
    rows: Rows,
    times: i128,
    more: i128,
    least: Option<Affine>,
    most: Option<Affine>,
) -> Case
    ensures { result ≡ ways.timed rows times more least most }
{
    match product(times, more) {
        Some(times) => Case {
            rows,
            times,
            least,
            most,
        },
        None => plainly(rows, None, None),
    }
}

/// The case of the value times the factor.
pub(crate) fn multiple(alloc: Global, case: &Case, factor: i128) -> Result<Case, AllocError>
    ensures { IfOk result (λ made. made ≡ ways.multiple factor case.now) }
{
    let rows = copied(alloc, &case.rows)?;
    Ok(with_factor(rows, case, factor))
}

/// The same where the rows are met.
fn with_factor(rows: Rows, case: &Case, factor: i128) -> Case
    ensures { result ≡ ways.with_factor rows case.now factor }
{
    if factor < 0 {
        Case {
            rows,
            times: case.times,
            least: scaled(factor, case.most),
            most: scaled(factor, case.least),
        }
    } else {
        Case {
            rows,
            times: case.times,
            least: scaled(factor, case.least),
            most: scaled(factor, case.most),
        }
    }
}

/// The case of the sum of two values.
pub(crate) fn sum(alloc: Global, case: &Case, other: &Case) -> Result<Case, AllocError>
    ensures { IfOk result (λ made. made ≡ ways.sum case.now other.now) }
{
    let rows = joined(alloc, &case.rows, &other.rows)?;
    let least = added(
        scaled(other.times, case.least),
        scaled(case.times, other.least),
    );
    let most = added(
        scaled(other.times, case.most),
        scaled(case.times, other.most),
    );
    Ok(timed(rows, case.times, other.times, least, most))
}

/// The case of a quotient where what is divided is a natural.
pub(crate) fn natural_quotient(case: &Case, by: i64, rows: Rows) -> Case
    ensures { result ≡ ways.natural_quotient case.now by rows }
{
    let least = raised(product(case.times, least_left(by)), case.least);
    with_sign(by, timed(rows, case.times, size_of(by), least, case.most))
}

/// The case of a quotient where what is divided is below 0.
pub(crate) fn negative_quotient(case: &Case, by: i64, rows: Rows) -> Case
    ensures { result ≡ ways.negative_quotient case.now by rows }
{
    let most = raised(product(case.times, most_left(by)), case.most);
    with_sign(by, timed(rows, case.times, size_of(by), case.least, most))
}

/// The size of a divisor.
fn size_of(by: i64) -> i128
    ensures { result ≡ pos (unsigned_abs by) }
{
    by.unsigned_abs() as i128
}

/// The most that a division leaves of a natural.
pub(crate) fn most_left(by: i64) -> i128
    ensures { result ≡ pos (unsigned_abs by) -ℤ pos 1 }
{
    size_of(by) - 1
}

/// The least that it leaves of a negative number.
pub(crate) fn least_left(by: i64) -> i128
    ensures { result ≡ pos 1 -ℤ pos (unsigned_abs by) }
{
    1 - size_of(by)
}

/// The negative of the divisor's size.
pub(crate) fn less_size(by: i64) -> i128
    ensures { result ≡ pos 0 -ℤ pos (unsigned_abs by) }
{
    0 - size_of(by)
}

/// The case of the value, or of its negative where the divisor is one.
fn with_sign(by: i64, case: Case) -> Case
    ensures { result ≡ ways.with_sign by case }
{
    if by < 0 {
        Case {
            rows: case.rows,
            times: case.times,
            least: scaled(-1, case.most),
            most: scaled(-1, case.least),
        }
    } else {
        case
    }
}

/// Whether the value is that of a function.
pub(crate) fn is_exact(case: &Case) -> bool
    ensures { result ≡ ways.is_exact case.now }
{
    match (case.least, case.most) {
        (Some(least), Some(most)) => case.times == 1 && least == most,
        _ => false,
    }
}

/// Whether the form is exactly a number.
pub(crate) fn is_number(form: &Linear) -> bool
    ensures { result ≡ forms.is_number form.now }
{
    form.lo == Some(0)
        && form.hi == Some(0)
        && form.affine == Affine::constant(form.affine.constant)
}
