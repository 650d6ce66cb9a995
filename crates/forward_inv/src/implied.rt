//! Rows that a set implies.
ghost use Rattle.std.specs.Prelude.{IfOk, IsTrue, All};
ghost use Rattle.num_domain.specs.Domain.{AllMeet};
ghost use Rattle.forward_inv.specs.Sets.{IsMemberOf};

use crate::guess::Marks;
use linear_cons::Row;
use num_domain::NumDomain;
use std::alloc::{AllocError, Global};

/// True only where each member meets the row: where the set says so at once, or else has no member that meets the complement.
pub(crate) fn implies<D: NumDomain>(alloc: Global, set: &D, row: &Row) -> Result<bool, AllocError>
    ensures { IfOk result (λ implied. IsTrue implied → AllMeet row.now (D.has set.now)) }
{
    if set.implies(row) {
        return Ok(true);
    }
    let Ok(complement) = row.not() else {
        return Ok(false);
    };
    let mut rest = set.copy(alloc)?;
    rest.meet_row(alloc, &complement)?;
    Ok(rest.is_empty())
}

/// True only where each member, if there is a set, meets all rows.
pub(crate) fn implies_all<D: NumDomain>(
    alloc: Global,
    set: &Option<D>,
    rows: &[Row],
) -> Result<bool, AllocError>
    ensures { IfOk result (λ implied. IsTrue implied → All (λ row. AllMeet row (IsMemberOf D.has set.now)) rows.now) }
{
    let Some(members) = set else {
        return Ok(true);
    };
    for row in rows {
        if !implies(alloc, members, row)? {
            return Ok(false);
        }
    }
    Ok(true)
}

/// Gives up each of the rows that has its mark and that some member, if there is a set, isn't seen to meet.
pub(crate) fn give_up<D: NumDomain>(
    alloc: Global,
    marks: &mut Marks,
    set: &Option<D>,
    rows: &[Row],
) -> Result<(), AllocError> {
    let Some(set) = set else {
        return Ok(());
    };
    for place in 0..rows.len() {
        if marks.has(place) && !implies(alloc, set, &rows[place])? {
            marks.give_up(place);
        }
    }
    Ok(())
}
