//! Numerals read back.
ghost use Rattle.std.specs.Prelude.{◌≡◌, ℕ, ◌<◌, ◌≤◌, ◌+◌, ◌*◌, ◌^◌, ◌↔◌, Some};
ghost use Rattle.line_text.specs.Numeral.{numeral};

/// The number below 2^63 whose numeral the bytes are: decimal digits, with no zero before others. `None` where they are none.
pub fn number_of(bytes: &[u8]) -> Option<u64>
    ensures { (n : ℕ) → result ≡ Some n ↔ ((bytes.now ≡ numeral n) × (n < 2 ^ 63)) }
{
    if bytes.len() > 19 {
        return None;
    }
    read(bytes)
}

/// The same, by the last digit and those before it.
fn read(bytes: &[u8]) -> Option<u64>
    ensures { (n : ℕ) → result ≡ Some n ↔ ((bytes.now ≡ numeral n) × (n < 2 ^ 63)) }
{
    let Some((last, front)) = bytes.split_last() else {
        return None;
    };
    if *last < b'0' || *last > b'9' {
        return None;
    }
    let digit = u64::from(*last - b'0');
    if front.is_empty() {
        return Some(digit);
    }
    let Some(high) = read(front) else {
        return None;
    };
    extended(high, digit)
}

/// The number with a digit more; `None` where 0 would stand before it, or where it is past the limit.
fn extended(high: u64, digit: u64) -> Option<u64>
    requires { (high < 2 ^ 63) × (digit < 10) }
    ensures { (n : ℕ) → result ≡ Some n ↔ ((1 ≤ high) × (n ≡ high * 10 + digit) × (n < 2 ^ 63)) }
{
    if high == 0 || high > 922_337_203_685_477_580 {
        return None;
    }
    let number = high * 10 + digit;
    if number > 9_223_372_036_854_775_807 {
        return None;
    }
    Some(number)
}
