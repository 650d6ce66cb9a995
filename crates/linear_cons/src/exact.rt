//! Sums, differences and products that never wrap.
ghost use Rattle.std.specs.Prelude.{◌≡◌, OkIff, IfErr};
ghost use Rattle.linear_cons.specs.Numbers.{Fits128};
ghost use Rattle.linear_cons.specs.Exact.{exact_result};

/// An operation on two whole numbers.
#[derive(Clone, Copy, PartialEq, Eq, Hash, Debug)]
pub enum Op {
    Add,
    Sub,
    Mul,
}

/// Two numbers whose exact sum, difference (`left - right`) or product lies outside `i128`.
#[derive(Clone, Copy, PartialEq, Eq, Hash, Debug)]
pub struct Wide {
    pub left: i128,
    pub right: i128,
    pub op: Op,
}

impl Op {
    /// The exact result, or the operands exactly where it lies outside `i128`.
    #[inline(always)]
    pub fn exact(self, left: i128, right: i128) -> Result<i128, Wide>
        ensures value { OkIff result (Fits128 (exact_result self left right)) (exact_result self left right) }
        ensures operands { IfErr result (λ wide. wide ≡ record { left = left; right = right; op = self }) }
    {
        let checked = match self {
            Op::Add => left.checked_add(right),
            Op::Sub => left.checked_sub(right),
            Op::Mul => left.checked_mul(right),
        };
        match checked {
            Some(number) => Ok(number),
            None => Err(Wide {
                left,
                right,
                op: self,
            }),
        }
    }
}
