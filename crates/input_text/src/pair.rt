//! A name and its number.
ghost use Rattle.std.specs.Prelude.{◌≡◌, ◌↔◌, ℤ, Some};
ghost use Rattle.input_text.specs.Input.{IsPairText};

use number_parse::signed_of;

/// The number below 2^63 in size that the piece gives the name; `None` where it gives it none.
pub(crate) fn pair_of(piece: &[u8], name: &[u8]) -> Option<i128>
    ensures { (number : ℤ) → result ≡ Some number ↔ IsPairText name.now number piece.now }
{
    if !piece.starts_with(name) {
        return None;
    }
    let Some((first, digits)) = piece[name.len()..].split_first() else {
        return None;
    };
    if *first != b'=' {
        return None;
    }
    signed_of(digits)
}
