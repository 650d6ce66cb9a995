//! Numbers that may stand behind a hyphen.
ghost use Rattle.std.specs.Prelude.{◌≡◌, ℤ, ◌<◌, ◌^◌, ◌↔◌, unsigned_abs, Some};
ghost use Rattle.number_parse.specs.Signed.{IsNumberText};

use crate::reading::number_of;

/// The number below 2^63 in size whose text the bytes are, its numeral behind a hyphen or not. `None` where they are none.
pub fn signed_of(bytes: &[u8]) -> Option<i128>
    ensures { (z : ℤ) → result ≡ Some z ↔ (IsNumberText bytes.now z × (unsigned_abs z < 2 ^ 63)) }
{
    if let Some((first, rest)) = bytes.split_first() {
        if *first == b'-' {
            let Some(size) = number_of(rest) else {
                return None;
            };
            return Some(-i128::from(size));
        }
    }
    let Some(size) = number_of(bytes) else {
        return None;
    };
    Some(i128::from(size))
}
