//! The normal form of a formula and that of its negation, each made of the other.

ghost use Rattle.std.specs.Prelude.{◌≡◌, IfOk};
ghost use Rattle.ctl_formula.specs.Formulas.{normal, opposite, both};
ghost use Rattle.ctl_formula.specs.Mirror.{ctl};
ghost use Rattle.normal_form.specs.Rows.{ComplementsFit};

use ctl_formula::Formula;
use linear_cons::RowKind;
use std::alloc::{AllocError, Global};

/// The normal form. `AllocError` where it finds no room.
#[cycle(normal_forms)]
pub fn made_normal(alloc: Global, formula: &Formula) -> Result<Box<Formula>, AllocError>
    requires { ComplementsFit (ctl formula.now) }
    ensures { IfOk result (λ made. ctl made.value ≡ normal (ctl formula.now)) }
{
    let made = match formula {
        Formula::True => Formula::True,
        Formula::False => Formula::False,
        Formula::Exit => Formula::Exit,
        Formula::NotExit => Formula::NotExit,
        Formula::Holds(kind) => Formula::Holds(*kind),
        Formula::Not(part) => return made_opposite(alloc, part),
        Formula::And(left, right) => Formula::And(
            made_normal(alloc, left)?,
            made_normal(alloc, right)?,
        ),
        Formula::Or(left, right) => Formula::Or(
            made_normal(alloc, left)?,
            made_normal(alloc, right)?,
        ),
        Formula::Next { all, part } => Formula::Next {
            all: *all,
            part: made_normal(alloc, part)?,
        },
        Formula::Until { all, keep, goal } => Formula::Until {
            all: *all,
            keep: made_normal(alloc, keep)?,
            goal: made_normal(alloc, goal)?,
        },
        Formula::Weak { all, keep, goal } => Formula::Weak {
            all: *all,
            keep: made_normal(alloc, keep)?,
            goal: made_normal(alloc, goal)?,
        },
    };
    let boxed = Box::new(alloc, made)?;
    Ok(boxed)
}

// The normal form of the negation. What refutes an until keeps missing its goal, forever or until what is to be kept fails too.
#[cycle(normal_forms)]
fn made_opposite(alloc: Global, formula: &Formula) -> Result<Box<Formula>, AllocError>
    requires { ComplementsFit (ctl formula.now) }
    ensures { IfOk result (λ made. ctl made.value ≡ opposite (ctl formula.now)) }
{
    let made = match formula {
        Formula::True => Formula::False,
        Formula::False => Formula::True,
        Formula::Exit => Formula::NotExit,
        Formula::NotExit => Formula::Exit,
        Formula::Holds(RowKind::Always) => Formula::Holds(RowKind::Never),
        Formula::Holds(RowKind::Never) => Formula::Holds(RowKind::Always),
        Formula::Holds(RowKind::Row(row)) => Formula::Holds(RowKind::Row(row.not().unwrap())),
        Formula::Not(part) => return made_normal(alloc, part),
        Formula::And(left, right) => Formula::Or(
            made_opposite(alloc, left)?,
            made_opposite(alloc, right)?,
        ),
        Formula::Or(left, right) => Formula::And(
            made_opposite(alloc, left)?,
            made_opposite(alloc, right)?,
        ),
        Formula::Next { all, part } => {
            let all = !*all;
            let part = made_opposite(alloc, part)?;
            Formula::Next { all, part }
        }
        Formula::Until { all, keep, goal } => {
            let unmet = made_opposite(alloc, goal)?;
            let unkept = made_opposite(alloc, keep)?;
            let missed = made_opposite(alloc, goal)?;
            Formula::Weak {
                all: !*all,
                keep: unmet,
                goal: joined(alloc, unkept, missed)?,
            }
        }
        Formula::Weak { all, keep, goal } => {
            let unmet = made_opposite(alloc, goal)?;
            let unkept = made_opposite(alloc, keep)?;
            let missed = made_opposite(alloc, goal)?;
            Formula::Until {
                all: !*all,
                keep: unmet,
                goal: joined(alloc, unkept, missed)?,
            }
        }
    };
    let boxed = Box::new(alloc, made)?;
    Ok(boxed)
}

// Both of two formulas.
fn joined(
    alloc: Global,
    left: Box<Formula>,
    right: Box<Formula>,
) -> Result<Box<Formula>, AllocError>
    ensures { IfOk result (λ made. ctl made.value ≡ both (ctl left.value) (ctl right.value)) }
{
    let boxed = Box::new(alloc, Formula::And(left, right))?;
    Ok(boxed)
}
