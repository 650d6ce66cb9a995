//! The text of affine functions.
ghost use Rattle.std.specs.Prelude.{◌≡◌, ◌++◌, List, IfOk, OnOk};
ghost use Rattle.line_text.specs.AffineText.{Term, affine_text, product_text, term_of};
ghost use Rattle.line_text.specs.Buffer.{BeginsWith};
ghost use Rattle.line_text.specs.Names.{IsOver};
ghost use Rattle.line_text.specs.Parts.{rest_text, sign_text};

use crate::number::push_numeral;
use linear_cons::Affine;
use std::alloc::AllocError;
use step_meaning::Names;

/// Appends the text of an affine function, as `-3*x + y - 7`: the terms that aren't 0 in the order of the names, then the constant where
/// it isn't 0 or nothing else stands. After want of memory a part of the text may stand.
pub fn push_affine(text: &mut Vec<u8>, affine: &Affine, names: &Names) -> Result<(), AllocError>
    requires { IsOver names.now affine.now }
    ensures text { OnOk result (text.new.items ≡ text.old.items ++ affine_text names.now affine.now) }
    ensures kept { BeginsWith text.new.items text.old.items }
{
    let mut begun = false;
    for (number, name) in affine.coef.iter().zip(names.items()) {
        begun = push_term(text, begun, *number, name)?;
    }
    push_constant(text, begun, affine.constant)
}

/// Appends a term with a variable, or nothing where its number is 0, and answers whether some term stands now.
fn push_term(text: &mut Vec<u8>, begun: bool, number: i128, name: &[u8]) -> Result<bool, AllocError>
    ensures text { IfOk result (λ stands. (more : List Term) →
        text.new.items ++ rest_text stands more ≡ text.old.items ++ rest_text begun (term_of number (Some name.now) ++ more)) }
    ensures kept { BeginsWith text.new.items text.old.items }
{
    if number == 0 {
        return Ok(begun);
    }
    push_sign(text, begun, number)?;
    push_product(text, number.unsigned_abs(), name)?;
    Ok(true)
}

/// Appends the constant behind the other terms: nothing where it is 0 and another term stands.
fn push_constant(text: &mut Vec<u8>, begun: bool, constant: i128) -> Result<(), AllocError>
    ensures text { OnOk result (text.new.items ≡ text.old.items ++ rest_text begun (term_of constant None)) }
    ensures kept { BeginsWith text.new.items text.old.items }
{
    if constant == 0 {
        return text.extend_from_slice(if begun { b"" } else { b"0" });
    }
    push_sign(text, begun, constant)?;
    push_numeral(text, constant.unsigned_abs())
}

/// Appends the sign before a term: nothing or `-` before the first, ` + ` or ` - ` before a later one.
fn push_sign(text: &mut Vec<u8>, begun: bool, number: i128) -> Result<(), AllocError>
    ensures text { OnOk result (text.new.items ≡ text.old.items ++ sign_text begun number) }
    ensures kept { BeginsWith text.new.items text.old.items }
{
    let sign: &[u8] = match (begun, number < 0) {
        (false, false) => b"",
        (false, true) => b"-",
        (true, false) => b" + ",
        (true, true) => b" - ",
    };
    text.extend_from_slice(sign)
}

/// Appends the name of a variable, behind its number and `*` where the number isn't 1.
fn push_product(text: &mut Vec<u8>, size: u128, name: &[u8]) -> Result<(), AllocError>
    ensures text { OnOk result (text.new.items ≡ text.old.items ++ product_text size (Some name.now)) }
    ensures kept { BeginsWith text.new.items text.old.items }
{
    if size == 1 {
        return text.extend_from_slice(name);
    }
    push_numeral(text, size)?;
    text.push(b'*')?;
    text.extend_from_slice(name)
}
