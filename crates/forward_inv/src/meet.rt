//! Sets met with the rows of conjunctions.
ghost use Rattle.std.specs.Prelude.{IfOk};
ghost use Rattle.forward_inv.specs.Sets.{IsMemberOf, KeepsMeetingOne, KeepsMembers};

use linear_cons::Rows;
use num_domain::NumDomain;
use std::alloc::{AllocError, Global};

/// The members that meet all rows of some conjunction; no set where there is no conjunction.
pub(crate) fn meet_some<D: NumDomain>(
    alloc: Global,
    set: &D,
    conjunctions: &[Rows],
) -> Result<Option<D>, AllocError>
    ensures { IfOk result (λ met. KeepsMeetingOne conjunctions.now (D.has set.now) (IsMemberOf D.has met)) }
{
    let mut all = None;
    for rows in conjunctions {
        let mut met = set.copy(alloc)?;
        met.meet_rows(alloc, rows.items())?;
        let more = joined(alloc, all, met)?;
        all = Some(more);
    }
    Ok(all)
}

/// The members of both.
fn joined<D: NumDomain>(alloc: Global, all: Option<D>, met: D) -> Result<D, AllocError>
    ensures own { IfOk result (λ both. KeepsMembers (IsMemberOf D.has all) (D.has both)) }
    ensures others { IfOk result (λ both. KeepsMembers (D.has met) (D.has both)) }
{
    match all {
        Some(mut both) => {
            both.join(alloc, &met)?;
            Ok(both)
        }
        None => Ok(met),
    }
}
