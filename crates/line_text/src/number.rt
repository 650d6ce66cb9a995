//! The text of numbers.
ghost use Rattle.std.specs.Prelude.{◌≡◌, ◌++◌, OnOk};
ghost use Rattle.line_text.specs.AffineText.{number_text};
ghost use Rattle.line_text.specs.Buffer.{BeginsWith};
ghost use Rattle.line_text.specs.Numeral.{numeral};

use std::alloc::AllocError;

/// Appends the decimal numeral of a number. After want of memory a part of it may stand.
pub fn push_numeral(text: &mut Vec<u8>, number: u128) -> Result<(), AllocError>
    ensures text { OnOk result (text.new.items ≡ text.old.items ++ numeral number) }
    ensures kept { BeginsWith text.new.items text.old.items }
{
    if number >= 10 {
        push_numeral(text, number / 10)?;
    }
    text.push(b'0' + (number % 10) as u8)?;
    Ok(())
}

/// Appends a whole number, behind `-` where it is negative. After want of memory a part of it may stand.
pub fn push_number(text: &mut Vec<u8>, number: i128) -> Result<(), AllocError>
    ensures text { OnOk result (text.new.items ≡ text.old.items ++ number_text number) }
    ensures kept { BeginsWith text.new.items text.old.items }
{
    if number < 0 {
        text.push(b'-')?;
    }
    push_numeral(text, number.unsigned_abs())
}
