//! The signed places that a function adds up.
ghost use Rattle.std.specs.Prelude.{◌≢◌, ◌<◌, ◌+◌, pos, negsuc, MatchOption};
ghost use Rattle.octagon_dom.specs.Terms.{AreTermsBelow, IsUnitTerm};

use linear_cons::{Affine, PLACES};

/// What the terms of a function add up to.
#[derive(Clone, Copy, PartialEq, Eq, Debug)]
pub(crate) enum Terms {
    /// No variable occurs.
    Nothing,
    /// A signed place.
    One(usize),
    /// Two signed places of different places, the lower one first.
    Two(usize, usize),
    /// More variables, or another coefficient than 1 and -1.
    Other,
}

/// The signed place that the factor makes of the place, if it is 1 or -1.
fn unit_term(factor: i128, place: usize) -> Option<usize>
    requires { place < 16 }
    ensures { MatchOption result ((factor ≢ pos 1) × (factor ≢ negsuc 0)) (λ term. IsUnitTerm factor place term) }
{
    match factor {
        1 => Some(2 * place),
        -1 => Some(2 * place + 1),
        _ => None,
    }
}

/// The terms with that of one more place.
fn with_place(terms: Terms, a: &Affine, place: usize) -> Terms
    requires inside { place < 16 }
    requires before { AreTermsBelow place a.now terms }
    ensures { AreTermsBelow (place + 1) a.now result }
{
    let factor = a.coef[place];
    if factor == 0 {
        return terms;
    }
    let Some(term) = unit_term(factor, place) else {
        return Terms::Other;
    };
    match terms {
        Terms::Nothing => Terms::One(term),
        Terms::One(first) => Terms::Two(first, term),
        Terms::Two(_, _) | Terms::Other => Terms::Other,
    }
}

/// The terms of a function.
pub(crate) fn terms_of(a: &Affine) -> Terms
    ensures { AreTermsBelow 16 a.now result }
{
    let mut terms = Terms::Nothing;
    for place in 0..PLACES {
        terms = with_place(terms, a, place);
    }
    terms
}
