//! Comparisons of sums, as formulas.

ghost use Rattle.std.specs.Prelude.{◌≡◌, ◌≤◌, length, IfOk, IfErr};
ghost use Rattle.step_meaning.specs.Countdown.{form_of};
ghost use Rattle.ctl_formula.specs.Mirror.{ctl};
ghost use Rattle.formula_syntax.specs.Mirror.{sum as sum_of};
ghost use Rattle.formula_parse.specs.Comparing.{comparing};
ghost use Rattle.formula_parse.specs.Meanings.{sum_meaning};
ghost use Rattle.formula_parse.specs.Faults.{AtomFits, first_token};
ghost use Rattle.formula_parse.specs.Refusing.{OnAtom};

use crate::compare::compared;
use crate::refusal::Refusal;
use crate::sums::side;
use ctl_formula::Formula;
use formula_syntax::{Comparison, Sum};
use std::alloc::Global;
use step_meaning::{Names, function_of};

/// The formula that a comparison of two sums is.
///
/// `NotAffine`, with the number of its first token, exactly where a side isn't affine or a number that the sides, their differences or the
/// complements of their rows form doesn't fit 128 bits. `Memory` where the formula finds no room.
pub fn atom(
    alloc: Global,
    names: &Names,
    left: &Sum,
    comparison: Comparison,
    right: &Sum,
) -> Result<Formula, Refusal>
    requires { length names.now ≤ 15 }
    ensures meaning { IfOk result (λ made. AtomFits comparison (sum_meaning names.now (sum_of left.now)) (sum_meaning names.now (sum_of right.now))
        × (ctl made ≡ comparing comparison (form_of (sum_meaning names.now (sum_of left.now))) (form_of (sum_meaning names.now (sum_of right.now))))) }
    ensures refused { IfErr result (λ refusal. OnAtom refusal (λ at. (at ≡ first_token (sum_of left.now))
        × ¬ AtomFits comparison (sum_meaning names.now (sum_of left.now)) (sum_meaning names.now (sum_of right.now)))) }
{
    let first = side(alloc, names, left)?;
    let second = side(alloc, names, right)?;
    let Some(one) = function_of(&first) else {
        return Err(Refusal::NotAffine(left.factor.at));
    };
    let Some(other) = function_of(&second) else {
        return Err(Refusal::NotAffine(left.factor.at));
    };
    let made = compared(alloc, comparison, &one, &other)?;
    match made {
        Some(formula) => Ok(formula),
        None => Err(Refusal::NotAffine(left.factor.at)),
    }
}
