//! The classes of bytes, and the signs.

ghost use Rattle.std.specs.Prelude.{◌≡◌};
ghost use Rattle.source_lex.specs.Bytes;
ghost use Rattle.source_lex.specs.Signs;

/// Whether the byte is a blank: space, tab, line feed, vertical tab, form feed or carriage return.
#[tactic(auto, unfolding(crate::specs::Bytes::is_blank))]
pub fn is_blank(byte: u8) -> bool
    ensures { result ≡ Bytes.is_blank byte }
{
    matches!(byte, b' ' | b'\t'..=b'\r')
}

/// Whether the byte begins a name: a letter or `_`.
#[tactic(auto, unfolding(crate::specs::Bytes::is_letter))]
pub fn is_letter(byte: u8) -> bool
    ensures { result ≡ Bytes.is_letter byte }
{
    byte.is_ascii_alphabetic() || byte == b'_'
}

/// Whether the byte is a decimal digit.
#[tactic(auto, unfolding(crate::specs::Bytes::is_digit))]
pub fn is_digit(byte: u8) -> bool
    ensures { result ≡ Bytes.is_digit byte }
{
    byte.is_ascii_digit()
}

/// Whether a name goes on with the byte: a letter, `_` or a digit.
#[tactic(auto, unfolding(crate::specs::Bytes::is_name_byte))]
pub fn is_name_byte(byte: u8) -> bool
    ensures { result ≡ Bytes.is_name_byte byte }
{
    is_letter(byte) || is_digit(byte)
}

/// Whether the byte is a sign by itself.
#[tactic(auto, unfolding(crate::specs::Signs::is_single_sign))]
pub fn is_single_sign(byte: u8) -> bool
    ensures { result ≡ Signs.is_single_sign byte }
{
    b"<>=+-*/%!(){}[];,?".contains(&byte)
}

/// Whether the two bytes are a sign together.
#[tactic(auto, unfolding(crate::specs::Signs::is_double_sign))]
pub fn is_double_sign(byte: u8, next: u8) -> bool
    ensures { result ≡ Signs.is_double_sign byte next }
{
    (next == byte && b"+-&|".contains(&byte)) || (next == b'=' && b"+-*=!<>".contains(&byte))
}
