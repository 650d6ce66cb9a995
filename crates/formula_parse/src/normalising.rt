//! The normal form of a formula, or the fault that it is too long.

ghost use Rattle.std.specs.Prelude.{◌≡◌, ◌≤◌, ℕ, IfOk, IfErr};
ghost use Rattle.ctl_formula.specs.Formulas.{normal as normal_of};
ghost use Rattle.ctl_formula.specs.Mirror.{ctl};
ghost use Rattle.normal_form.specs.Operators.{operators};
ghost use Rattle.normal_form.specs.Rows.{ComplementsFit, RowsAreOver};
ghost use Rattle.formula_parse.specs.FaultOf.{IsNormalFault};

use crate::fault::{FormulaFault, FormulaLimit};
use ctl_formula::Formula;
use normal_form::{normal_form, normal_forms_keep_variables};
use std::alloc::Global;

/// The normal form of a formula, in which negation stands at atoms only. It means the same and speaks of no other variables.
///
/// The complement of each row has to fit 128 bits, as in each formula that `read_formula` gives. `Limit` of `Operators` at offset 0 comes exactly
/// where the normal form has more than 256 operators, `Memory` where memory runs out.
pub fn normal(alloc: Global, formula: &Formula) -> Result<Formula, FormulaFault>
    requires { ComplementsFit (ctl formula.now) }
    ensures normal { IfOk result (λ made. ctl made ≡ normal_of (ctl formula.now)) }
    ensures few { IfOk result (λ _. operators (normal_of (ctl formula.now)) ≤ 256) }
    ensures variables { IfOk result (λ made. (vars : ℕ) → RowsAreOver vars (ctl formula.now) → RowsAreOver vars (ctl made)) }
    ensures fault { IfErr result (IsNormalFault (ctl formula.now)) }
{
    normal_forms_keep_variables();
    let found = normal_form(alloc, formula)?;
    match found {
        Some(made) => Ok(made),
        None => Err(FormulaFault::Limit {
            which: FormulaLimit::Operators,
            at: 0,
            count: 257,
        }),
    }
}
