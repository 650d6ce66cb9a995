//! The number of conjunctions that a test spreads to.

ghost use Rattle.std.specs.Prelude.{◌≡◌, ◌-◌, ◌^◌, min};
ghost use Rattle.step_meaning.specs.Syntax.{expression};
ghost use Rattle.linear_forms.specs.Counting as counting;

use step_meaning::{Expr, Op2};

/// How many conjunctions `spread` makes of the test for the outcome, counted before any is dropped, or the type's last value where that
/// is less. None is built.
#[tactic(auto, using(crate::proofs::Counts::some_conjunction))]
pub fn conjunctions(test: &Expr, holds: bool) -> u32
    ensures { result ≡ min (counting.conjunctions (expression test.now) holds) (2 ^ 32 - 1) }
{
    match test {
        Expr::Not(operand) => conjunctions(operand, !holds),
        Expr::Pair { op, left, right } => match (op, holds) {
            (Op2::And, true) | (Op2::Or, false) => {
                conjunctions(left, holds).saturating_mul(conjunctions(right, holds))
            }
            (Op2::And, false) | (Op2::Or, true) => {
                conjunctions(left, holds).saturating_add(conjunctions(right, holds))
            }
            (Op2::Equal, false) | (Op2::NotEqual, true) => 2,
            _ => 1,
        },
        _ => 1,
    }
}
