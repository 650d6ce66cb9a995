//! Texts that are formulas or have a fault.
use case_text::Answer;
use formula_parse::{FormulaFault, normal, read_formula};
use formula_text::print;
use std::alloc::{AllocError, Global};
use step_meaning::Names;

/// Makes the call of that name on the text and writes its answer; false where none has the name.
pub fn answers(
    alloc: Global,
    name: &str,
    text: &[u8],
    answer: &mut Answer,
) -> Result<bool, AllocError> {
    let fault = match name {
        "reads" => read(alloc, text).err(),
        "normalises" => normalised(alloc, text).err(),
        _ => return Ok(false),
    };
    let Some(fault) = fault else {
        answer.push("a formula");
        return Ok(true);
    };
    let Some((number, at)) = fault.numbered() else {
        return Err(AllocError);
    };
    answer.push_number(i128::from(number));
    answer.push(" at ");
    answer.push_number(i128::from(at));
    Ok(true)
}

/// Reads the text over no names.
fn read(alloc: Global, text: &[u8]) -> Result<(), FormulaFault> {
    let names = Names::of(Vec::new(alloc));
    read_formula(alloc, text, &names)?;
    Ok(())
}

/// Reads the text over no names, and prints its normal form.
fn normalised(alloc: Global, text: &[u8]) -> Result<(), FormulaFault> {
    let names = Names::of(Vec::new(alloc));
    let formula = read_formula(alloc, text, &names)?;
    let normal = normal(alloc, &formula)?;
    print(alloc, &normal, &names)?;
    Ok(())
}
