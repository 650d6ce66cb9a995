//! The text of lines, rows and claims.
ghost use Rattle.std.specs.Prelude.{◌≡◌, ◌<◌, ◌++◌, All, OnOk, codes};
ghost use Rattle.line_text.specs.Buffer.{BeginsWith, bytes_in};
ghost use Rattle.line_text.specs.LineText.{claim_text, is_nought, is_one, joined, power_text, rank_text, row_text, shown, steps_word};
ghost use Rattle.line_text.specs.Names.{IsOver};
ghost use Rattle.line_text.specs.Spells.{IsClaimOver};

use crate::affine::push_affine;
use crate::claim::Claim;
use crate::number::push_number;
use linear_cons::{Affine, Row};
use std::alloc::AllocError;
use step_meaning::Names;

/// Appends a line, without the newline byte that ends it: the texts of its rows joined by ` and `, or `always` where there are none, and its
/// claim, as `x - 1 >= 0 and y >= 0: within 3*x + 1 steps`. After want of memory a part of it may stand.
pub fn push_line(
    text: &mut Vec<u8>,
    rows: &[Vec<u8>],
    claim: &Claim,
    names: &Names,
) -> Result<(), AllocError>
    requires { IsClaimOver names.now claim.now }
    ensures text { OnOk result (text.new.items ≡ text.old.items
        ++ (joined (bytes_in rows.now) ++ (codes ": " ++ claim_text names.now claim.now))) }
    ensures kept { BeginsWith text.new.items text.old.items }
{
    push_joined(text, rows)?;
    text.extend_from_slice(b": ")?;
    push_claim(text, claim, names)
}

/// Appends the texts of rows joined by ` and `, or `always` where there are none.
fn push_joined(text: &mut Vec<u8>, rows: &[Vec<u8>]) -> Result<(), AllocError>
    ensures text { OnOk result (text.new.items ≡ text.old.items ++ joined (bytes_in rows.now)) }
    ensures kept { BeginsWith text.new.items text.old.items }
{
    let Some((first, more)) = rows.split_first() else {
        return text.extend_from_slice(b"always");
    };
    text.extend_from_slice(first)?;
    for row in more {
        text.extend_from_slice(b" and ")?;
        text.extend_from_slice(row)?;
    }
    Ok(())
}

/// Appends the text of a row, as `x - 1 >= 0`. After want of memory a part of it may stand.
pub fn push_row(text: &mut Vec<u8>, row: &Row, names: &Names) -> Result<(), AllocError>
    requires { IsOver names.now row.now.affine }
    ensures text { OnOk result (text.new.items ≡ text.old.items ++ row_text names.now row.now.affine) }
    ensures kept { BeginsWith text.new.items text.old.items }
{
    push_affine(text, &row.affine, names)?;
    text.extend_from_slice(b" >= 0")
}

/// Appends the text of a claim, as `within 3*x + 1 steps`. After want of memory a part of it may stand.
pub fn push_claim(text: &mut Vec<u8>, claim: &Claim, names: &Names) -> Result<(), AllocError>
    requires { IsClaimOver names.now claim.now }
    ensures text { OnOk result (text.new.items ≡ text.old.items ++ claim_text names.now claim.now) }
    ensures kept { BeginsWith text.new.items text.old.items }
{
    match claim {
        Claim::Exactly(number) => {
            text.extend_from_slice(b"exactly ")?;
            push_number(text, *number)?;
            push_steps(text, *number == 1)
        }
        Claim::Within(bound) => {
            text.extend_from_slice(b"within ")?;
            push_affine(text, bound, names)?;
            push_steps(text, is_one(bound))
        }
        Claim::Holds => text.extend_from_slice(b"holds"),
        Claim::Ranked(functions) => {
            text.extend_from_slice(b"ends, rank ")?;
            push_rank(text, shown(functions), names)
        }
        Claim::Fits => text.extend_from_slice(b"fits"),
        Claim::Unknown => text.extend_from_slice(b"unknown"),
    }
}

/// Appends functions of a rank, the highest first, as `w^2*(x) + w*(y) + 3`.
fn push_rank(text: &mut Vec<u8>, functions: &[Affine], names: &Names) -> Result<(), AllocError>
    requires { All (IsOver names.now) functions.now }
    ensures text { OnOk result (text.new.items ≡ text.old.items ++ rank_text names.now functions.now) }
    ensures kept { BeginsWith text.new.items text.old.items }
{
    let Some((first, rest)) = functions.split_first() else {
        return Ok(());
    };
    if rest.is_empty() {
        return push_affine(text, first, names);
    }
    push_power(text, rest.len())?;
    push_affine(text, first, names)?;
    text.extend_from_slice(b") + ")?;
    push_rank(text, rest, names)
}

/// Appends the power of `w` before a function that so many stand behind, as `w^2*(`.
fn push_power(text: &mut Vec<u8>, power: usize) -> Result<(), AllocError>
    requires { 0 < power }
    ensures text { OnOk result (text.new.items ≡ text.old.items ++ power_text power) }
    ensures kept { BeginsWith text.new.items text.old.items }
{
    if power == 1 {
        return text.extend_from_slice(b"w*(");
    }
    text.extend_from_slice(b"w^")?;
    push_number(text, power as i128)?;
    text.extend_from_slice(b"*(")
}

/// The functions of a rank that are written: of more than two those in front that are the constant 0 are left out.
fn shown(functions: &[Affine]) -> &[Affine]
    ensures { result.now ≡ shown functions.now }
{
    match functions.split_first() {
        Some((first, rest)) if rest.len() > 1 && is_nought(first) => shown(rest),
        _ => functions,
    }
}

/// True exactly where the function is the constant 0.
fn is_nought(affine: &Affine) -> bool
    ensures { result ≡ is_nought affine.now }
{
    affine.constant == 0 && affine.coef.iter().all(|number| *number == 0)
}

/// True exactly where the function is the constant 1.
fn is_one(affine: &Affine) -> bool
    ensures { result ≡ is_one affine.now }
{
    affine.constant == 1 && affine.coef.iter().all(|number| *number == 0)
}

/// Appends ` step` or ` steps`.
fn push_steps(text: &mut Vec<u8>, one: bool) -> Result<(), AllocError>
    ensures text { OnOk result (text.new.items ≡ text.old.items ++ steps_word one) }
    ensures kept { BeginsWith text.new.items text.old.items }
{
    text.extend_from_slice(if one { b" step" } else { b" steps" })
}
