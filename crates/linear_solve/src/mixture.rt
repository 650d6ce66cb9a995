//! The combination of two rows in which a place cancels out.
ghost use Rattle.std.specs.Prelude.{◌≡◌, ◌<◌, ◌*ℤ◌, pos, max, unsigned_abs, IfOk, IfErr, OnErr};
ghost use Rattle.std.specs.Int.{◌∣◌};
ghost use Rattle.linear_cons.specs.Exact.{IsOutside};
ghost use Rattle.linear_cons.specs.Rows.{IsRowOf};
ghost use Rattle.linear_solve.specs.Elimination.{MixtureFits, mixture as mixture_of};

use linear_cons::{Op, Row, RowKind, Wide, common_divisor, floor_quotient};

/// The sum of the two rows, each times the size of the other's coefficient at the place, as a row. The
/// two factors are divided by their greatest common divisor first, which leaves the same row.
pub(crate) fn mixture(lower: &Row, upper: &Row, place: u8) -> Result<RowKind, Wide>
    requires { place < 16 }
    ensures normal { IfOk result (λ kind. IsRowOf (mixture_of lower.now upper.now place) kind) }
    ensures unfit { OnErr result (¬ MixtureFits lower.now upper.now place) }
    ensures wide { IfErr result IsOutside }
{
    let by_lower = lower.affine.coef[place as usize];
    let by_upper = Op::Sub.exact(0, upper.affine.coef[place as usize])?;
    let divisor = common_divisor(by_lower.unsigned_abs(), by_upper.unsigned_abs());
    let first = divided(by_upper, divisor);
    let second = divided(by_lower, divisor);
    let sum = lower.affine.mixed(first, &upper.affine, second)?;
    Ok(Row::of(sum))
}

/// The number divided by its divisor, and the number itself where that is 0.
fn divided(number: i128, divisor: u128) -> i128
    requires { divisor ∣ unsigned_abs number }
    ensures { number ≡ pos (max divisor 1) *ℤ result }
{
    if divisor <= 1 {
        number
    } else {
        floor_quotient(number, divisor)
    }
}
