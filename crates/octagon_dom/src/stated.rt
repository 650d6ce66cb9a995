//! Bounds that rows state or imply.
ghost use Rattle.std.specs.Prelude.{◌≡◌, ◌≢◌, ◌<◌, pos, MatchOption, IfSome};
ghost use Rattle.octagon_dom.specs.Stated.{IsImpliedBy, IsRefining, IsStatedBy, signed_place};
ghost use Rattle.octagon_dom.specs.Terms.{IsOctagonal};

use crate::cells::{sum, turned};
use crate::terms::{Terms, terms_of};
use linear_cons::{Affine, Bounds, Linear, Row, floor_quotient};
use num_domain::Bound;

/// A bound on the signed place `high` less another one, `low`.
#[derive(Clone, Copy, PartialEq, Eq, Debug)]
pub(crate) struct Stated {
    pub(crate) high: usize,
    pub(crate) low: usize,
    pub(crate) step: Bound<i128>,
}

/// The bound that a row of one or two variables with coefficients 1 and -1 states.
pub(crate) fn stated_by(row: &Row) -> Option<Stated>
    ensures { MatchOption result (IsOctagonal row.now.affine → ⊥) (λ stated. IsStatedBy row.now stated) }
{
    let constant = Bound::At(row.affine.constant);
    match terms_of(&row.affine) {
        Terms::One(term) => Some(Stated {
            high: turned(term),
            low: term,
            step: sum(constant, constant),
        }),
        Terms::Two(first, second) => Some(Stated {
            high: turned(second),
            low: first,
            step: constant,
        }),
        Terms::Nothing | Terms::Other => None,
    }
}

/// The signed place that has the sign of the factor.
fn signed_place(factor: i128, place: usize) -> usize
    requires { place < 16 }
    ensures { result ≡ signed_place factor place }
{
    if factor < 0 { 2 * place + 1 } else { 2 * place }
}

/// The bound on one place that `factor * x + rest >= 0` asks for.
fn refining(factor: i128, rest: i128, place: usize) -> Stated
    requires some { factor ≢ pos 0 }
    requires inside { place < 16 }
    ensures { IsRefining factor rest place result }
{
    let most = Bound::At(floor_quotient(rest, factor.unsigned_abs()));
    let low = signed_place(factor, place);
    Stated {
        high: turned(low),
        low,
        step: sum(most, most),
    }
}

/// The bound that a row asks for at a place, where its other terms have their greatest value over the
/// bounds.
pub(crate) fn implied(row: &Row, bounds: &Bounds, place: usize) -> Option<Stated>
    requires { place < 16 }
    ensures { IfSome result (λ stated. IsImpliedBy row.now bounds.now stated) }
{
    let factor = row.affine.coef[place];
    if factor == 0 {
        return None;
    }
    let mut coef = row.affine.coef;
    coef[place] = 0;
    let constant = row.affine.constant;
    match Linear::exactly(Affine { coef, constant }).greatest(bounds) {
        Some(rest) => Some(refining(factor, rest, place)),
        None => None,
    }
}
