//! Formulas written as text.

ghost use Rattle.std.specs.Prelude.{◌≡◌, ◌≤◌, ◌++◌, IfOk, OnOk, length};
ghost use Rattle.ctl_formula.specs.Mirror.{ctl};
ghost use Rattle.normal_form.specs.Rows.{RowsAreOver};
ghost use Rattle.formula_text.specs.FormulaText.{RowsAreNamed, formula_text, bracket_text};

use ctl_formula::Formula;
use line_text::push_row;
use linear_cons::RowKind;
use std::alloc::{AllocError, Global};
use step_meaning::Names;

/// The text of a formula whose rows speak of these variables alone, as `E[!exit W (-x >= 0 && !exit)]`. `AllocError` where it finds no room.
pub fn print(alloc: Global, formula: &Formula, names: &Names) -> Result<Vec<u8>, AllocError>
    requires few { length names.now ≤ 16 }
    requires over { RowsAreOver (length names.now) (ctl formula.now) }
    ensures { IfOk result (λ text. text.items ≡ formula_text names.now (ctl formula.now)) }
{
    let mut text = Vec::new(alloc);
    push_formula(&mut text, formula, names)?;
    Ok(text)
}

// Appends the text of a formula. After want of memory a part of it may stand.
#[cycle(printing)]
fn push_formula(text: &mut Vec<u8>, formula: &Formula, names: &Names) -> Result<(), AllocError>
    requires { RowsAreNamed names.now (ctl formula.now) }
    ensures { OnOk result (text.new.items ≡ text.old.items ++ formula_text names.now (ctl formula.now)) }
{
    match formula {
        Formula::True | Formula::Holds(RowKind::Always) => text.extend_from_slice(b"true"),
        Formula::False | Formula::Holds(RowKind::Never) => text.extend_from_slice(b"false"),
        Formula::Exit => text.extend_from_slice(b"exit"),
        Formula::NotExit => text.extend_from_slice(b"!exit"),
        Formula::Holds(RowKind::Row(row)) => push_row(text, row, names),
        Formula::Not(part) => {
            text.extend_from_slice(b"!")?;
            push_formula(text, part, names)
        }
        Formula::And(left, right) => {
            text.extend_from_slice(b"(")?;
            push_formula(text, left, names)?;
            text.extend_from_slice(b" && ")?;
            push_formula(text, right, names)?;
            text.extend_from_slice(b")")
        }
        Formula::Or(left, right) => {
            text.extend_from_slice(b"(")?;
            push_formula(text, left, names)?;
            text.extend_from_slice(b" || ")?;
            push_formula(text, right, names)?;
            text.extend_from_slice(b")")
        }
        Formula::Next { all, part } => {
            text.extend_from_slice(if *all { b"AX " } else { b"EX " })?;
            push_formula(text, part, names)
        }
        Formula::Until { all, keep, goal } => {
            push_bracket(text, *all)?;
            push_formula(text, keep, names)?;
            text.extend_from_slice(b" U ")?;
            push_formula(text, goal, names)?;
            text.extend_from_slice(b"]")
        }
        Formula::Weak { all, keep, goal } => {
            push_bracket(text, *all)?;
            push_formula(text, keep, names)?;
            text.extend_from_slice(b" W ")?;
            push_formula(text, goal, names)?;
            text.extend_from_slice(b"]")
        }
    }
}

// Appends `A[` or `E[`.
fn push_bracket(text: &mut Vec<u8>, all: bool) -> Result<(), AllocError>
    ensures { OnOk result (text.new.items ≡ text.old.items ++ bracket_text all) }
{
    text.extend_from_slice(if all { b"A[" } else { b"E[" })
}
