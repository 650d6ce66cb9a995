//! How many operators a normal form has, without making it.

ghost use Rattle.std.specs.Prelude.{◌≡◌, ◌+◌, min};
ghost use Rattle.ctl_formula.specs.Formulas.{normal, opposite};
ghost use Rattle.ctl_formula.specs.Mirror.{ctl};
ghost use Rattle.normal_form.specs.Operators.{operators};

use ctl_formula::Formula;

/// More operators than a normal form may have. Counts stop here, so that they take time in the formula's length alone.
const TOO_MANY: u32 = 257;

/// The number of operators of the normal form, or 257 where it is greater. Time is linear in the formula.
#[cycle(counting)]
pub fn operators_of_normal(formula: &Formula) -> u32
    ensures { result ≡ min 257 (operators (normal (ctl formula.now))) }
{
    match formula {
        Formula::True | Formula::False | Formula::Exit => 0,
        Formula::NotExit | Formula::Holds(_) => 1,
        Formula::Not(part) => operators_of_opposite(part),
        Formula::And(left, right) | Formula::Or(left, right) => {
            above(operators_of_normal(left), operators_of_normal(right))
        }
        Formula::Next { all: _, part } => above(operators_of_normal(part), 0),
        Formula::Until { all: _, keep, goal } | Formula::Weak { all: _, keep, goal } => {
            above(operators_of_normal(keep), operators_of_normal(goal))
        }
    }
}

// The same for the normal form of the negation.
#[cycle(counting)]
fn operators_of_opposite(formula: &Formula) -> u32
    ensures { result ≡ min 257 (operators (opposite (ctl formula.now))) }
{
    match formula {
        Formula::True | Formula::False | Formula::NotExit => 0,
        Formula::Exit | Formula::Holds(_) => 1,
        Formula::Not(part) => operators_of_normal(part),
        Formula::And(left, right) | Formula::Or(left, right) => {
            above(operators_of_opposite(left), operators_of_opposite(right))
        }
        Formula::Next { all: _, part } => above(operators_of_opposite(part), 0),
        Formula::Until { all: _, keep, goal } | Formula::Weak { all: _, keep, goal } => {
            let missed = operators_of_opposite(goal);
            above(missed, above(operators_of_opposite(keep), missed))
        }
    }
}

// An operator above two operands with so many, or with at least 257.
fn above(left: u32, right: u32) -> u32
    ensures { result ≡ min 257 (1 + left + right) }
{
    let (left, right) = (left.min(TOO_MANY), right.min(TOO_MANY));
    (1 + left + right).min(TOO_MANY)
}
