//! Calls on formulas, as lines say them: `formula NAMES "TEXT"` reads the text over these names and prints the formula, and `normal NAMES "TEXT"`
//! prints its normal form. A fault is answered as its number and its offset, as `4 at 8`. Of a text that is made of pieces `reads` says whether it is a formula
//! over no names or has a fault, and `normalises` whether it has a normal form.
//!
//! It is for programs that are told in lines what to do. The front door: `answer` for the first two calls, and `answers` for the others.
#![tactic(auto)]

ghost use Rattle.std.specs.Prelude.{◌≤◌, length};

mod limits;

use formula_parse::{FormulaFault, normal, read_formula};
use formula_text::print;
pub use limits::answers;
use std::alloc::{AllocError, Global};
use step_meaning::Names;

/// How many names a formula is read over.
const MOST_NAMES: usize = 15;

/// What a line asks for.
#[derive(Clone, Copy)]
enum Call {
    Formula,
    Normal,
}

/// The answer of the call of a line; `None` where the line says no call on formulas. `AllocError` where memory runs out.
pub fn answer(alloc: Global, line: &str) -> Result<Option<Vec<u8>>, AllocError> {
    let Some((front, quoted)) = line.split_once(" \"") else {
        return Ok(None);
    };
    let Some(text) = quoted.strip_suffix("\"") else {
        return Ok(None);
    };
    let mut words = front.split_whitespace();
    let call = match words.next() {
        Some("formula") => Call::Formula,
        Some("normal") => Call::Normal,
        _ => return Ok(None),
    };
    let mut list = Vec::new(alloc);
    for name in words {
        list.push(name.as_bytes().to_vec(alloc)?)?;
    }
    let names = Names::of(list);
    if names.items().len() > MOST_NAMES {
        return Ok(None);
    }
    let shown = match call {
        Call::Formula => formula_shown(alloc, text.as_bytes(), &names),
        Call::Normal => normal_shown(alloc, text.as_bytes(), &names),
    };
    match shown {
        Ok(shown) => Ok(Some(shown)),
        Err(fault) => told(alloc, &fault),
    }
}

/// The text of the formula that a text is.
fn formula_shown(alloc: Global, text: &[u8], names: &Names) -> Result<Vec<u8>, FormulaFault>
    requires { length names.now ≤ 15 }
{
    let formula = read_formula(alloc, text, names)?;
    Ok(print(alloc, &formula, names)?)
}

/// The text of its normal form.
fn normal_shown(alloc: Global, text: &[u8], names: &Names) -> Result<Vec<u8>, FormulaFault>
    requires { length names.now ≤ 15 }
{
    let formula = read_formula(alloc, text, names)?;
    let normal = normal(alloc, &formula)?;
    Ok(print(alloc, &normal, names)?)
}

/// The fault as its number and its offset.
fn told(alloc: Global, fault: &FormulaFault) -> Result<Option<Vec<u8>>, AllocError> {
    let Some((number, at)) = fault.numbered() else {
        return Err(AllocError);
    };
    let told = format!(in alloc; "{number} at {at}")?;
    Ok(Some(told.as_str().as_bytes().to_vec(alloc)?))
}
