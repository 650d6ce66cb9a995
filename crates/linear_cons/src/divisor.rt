//! Greatest common divisors, and division that rounds down.
ghost use Rattle.std.specs.Prelude.{◌<◌, pos, ◌+ℤ◌, ◌*ℤ◌, ◌≤ℤ◌, ◌<ℤ◌};
ghost use Rattle.std.specs.Int.{IsGcd};
ghost use Rattle.linear_cons.specs.Divisor.{IsDivisorOf};

/// The greatest number of 64 bits.
const MOST_64: u128 = u64::MAX as u128;

/// The greatest common divisor by Euclid's algorithm; that of 0 and `b` is `b`. It goes over to 64 bits
/// once both numbers have no more.
pub fn common_divisor(a: u128, b: u128) -> u128
    ensures { IsGcd a b result }
{
    let mut x = a;
    let mut y = b;
    while y != 0 {
        if x <= MOST_64 && y <= MOST_64 {
            return small_divisor(x as u64, y as u64) as u128;
        }
        let rest = x % y;
        x = y;
        y = rest;
    }
    x
}

/// The greatest common divisor of numbers of 64 bits.
fn small_divisor(a: u64, b: u64) -> u64
    ensures { IsGcd a b result }
{
    let mut x = a;
    let mut y = b;
    while y != 0 {
        let rest = x % y;
        x = y;
        y = rest;
    }
    x
}

/// The greatest common divisor of sixteen numbers, 0 where all are 0.
pub(crate) fn divisor_of(numbers: &[i128; 16]) -> u128
    ensures { IsDivisorOf numbers.now result }
{
    let mut divisor = 0;
    for number in numbers {
        divisor = common_divisor(number.unsigned_abs(), divisor);
        if divisor == 1 {
            return 1;
        }
    }
    divisor
}

/// The greatest number whose product with `by` is at most `number`.
pub fn floor_quotient(number: i128, by: u128) -> i128
    requires { 0 < by }
    ensures at_most { (pos by *ℤ result) ≤ℤ number }
    ensures below_next { number <ℤ (pos by *ℤ (result +ℤ pos 1)) }
{
    if number < 0 {
        !((!number as u128 / by) as i128)
    } else {
        (number as u128 / by) as i128
    }
}
