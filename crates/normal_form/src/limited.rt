//! The normal form within its limit.

ghost use Rattle.std.specs.Prelude.{◌≡◌, ◌<◌, ◌≤◌, IfOk, MatchOption};
ghost use Rattle.ctl_formula.specs.Formulas.{normal};
ghost use Rattle.ctl_formula.specs.Mirror.{ctl};
ghost use Rattle.normal_form.specs.Operators.{operators};
ghost use Rattle.normal_form.specs.Rows.{ComplementsFit};

use crate::count::operators_of_normal;
use crate::negate::made_normal;
use ctl_formula::Formula;
use std::alloc::{AllocError, Global};

/// How many operators a normal form may have.
const MOST_OPERATORS: u32 = 256;

/// The normal form of a formula: negation stands at atoms only, as `NotExit` and as the complement of a row. `None` comes exactly where it
/// has more than 256 operators, which is counted before anything is made. `AllocError` where it finds no room.
///
/// The complement of each row has to fit 128 bits, as it does in each formula that was read.
pub fn normal_form(alloc: Global, formula: &Formula) -> Result<Option<Formula>, AllocError>
    requires { ComplementsFit (ctl formula.now) }
    ensures { IfOk result (λ found. MatchOption found (256 < operators (normal (ctl formula.now)))
        (λ made. (operators (normal (ctl formula.now)) ≤ 256) × (ctl made ≡ normal (ctl formula.now)))) }
{
    if operators_of_normal(formula) > MOST_OPERATORS {
        return Ok(None);
    }
    let made = made_normal(alloc, formula)?;
    Ok(Some(Box::into_inner(made)))
}
