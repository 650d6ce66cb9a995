//! Rows that stand before a case.
ghost use Rattle.std.specs.Prelude.{◌≡◌, ◌++◌, IfOk, Some};
ghost use Rattle.linear_forms.specs.Spreading as spreading;

use linear_cons::{Affine, Rows};
use linear_forms::with_constraint;
use std::alloc::{AllocError, Global};

/// The same rows once more.
pub(crate) fn copied(alloc: Global, rows: &Rows) -> Result<Rows, AllocError>
    ensures { IfOk result (λ copy. copy ≡ rows.now) }
{
    let mut copy = Vec::new(alloc);
    copy.extend_from_slice(rows.items())?;
    Ok(Rows::of(copy))
}

/// The rows of both.
pub(crate) fn joined(alloc: Global, first: &Rows, second: &Rows) -> Result<Rows, AllocError>
    ensures { IfOk result (λ rows. rows ≡ first.now ++ second.now) }
{
    let mut rows = Vec::new(alloc);
    rows.extend_from_slice(first.items())?;
    rows.extend_from_slice(second.items())?;
    Ok(Rows::of(rows))
}

/// The rows, with the constraint before them; none where it never holds.
pub(crate) fn guarded(
    alloc: Global,
    rows: &Rows,
    constraint: Option<Affine>,
) -> Result<Option<Rows>, AllocError>
    ensures { IfOk result (λ all. all ≡ spreading.with_constraint constraint (Some rows.now)) }
{
    let rows = copied(alloc, rows)?;
    let all = with_constraint(alloc, constraint, Some(rows))?;
    Ok(all)
}
