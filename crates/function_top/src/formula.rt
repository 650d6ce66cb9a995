//! The formula that is asked about.

ghost use Rattle.std.specs.Prelude.{◌≤◌, IfErr, IfOk, length, option_map};
ghost use Rattle.ctl_formula.specs.Mirror.{ctl};
ghost use Rattle.normal_form.specs.Rows.{RowsAreOver};
ghost use Rattle.function_top.specs.Asking.{IsFaultAsked, IsFaultRead, IsNormalAsked, IsNormalRead};

use ctl_formula::Formula;
use formula_parse::{FormulaFault, normal, read_formula};
use std::alloc::Global;
use step_meaning::Names;

/// The normal form of the formula that the text is over these names, of which there are at most 15, or of `AF exit` where there is no text.
///
/// Faults: the first of the text, else `Limit` of `Operators` at offset 0 where the normal form has more than 256; `Memory` where memory runs out.
pub(crate) fn formula_asked(
    alloc: Global,
    text: Option<&[u8]>,
    names: &Names,
) -> Result<Formula, FormulaFault>
    requires { length names.now ≤ 15 }
    ensures formula { IfOk result (λ formula. IsNormalAsked names.now (option_map (λ bytes. bytes.now) text.entry) (ctl formula)) }
    ensures variables { IfOk result (λ formula. RowsAreOver (length names.now) (ctl formula)) }
    ensures fault { IfErr result (IsFaultAsked names.now (option_map (λ bytes. bytes.now) text.entry)) }
{
    match text {
        Some(text) => Ok(normal_read(alloc, text, names)?),
        None => Ok(Formula::af_exit(alloc)?),
    }
}

// The normal form of the formula that a text is.
fn normal_read(alloc: Global, text: &[u8], names: &Names) -> Result<Formula, FormulaFault>
    requires { length names.now ≤ 15 }
    ensures formula { IfOk result (λ formula. IsNormalRead names.now text.now (ctl formula)) }
    ensures variables { IfOk result (λ formula. RowsAreOver (length names.now) (ctl formula)) }
    ensures fault { IfErr result (IsFaultRead names.now text.now) }
{
    let formula = read_formula(alloc, text, names)?;
    let made = normal(alloc, &formula)?;
    Ok(made)
}
