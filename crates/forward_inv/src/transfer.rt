//! What a set becomes over an edge.
ghost use Rattle.std.specs.Prelude.{IfOk};
ghost use Rattle.num_domain.specs.Domain.{KeepsAssigned};
ghost use Rattle.control_flow.specs.declared.edge.EdgeKind.TheVariants.{Assign, Test};
ghost use Rattle.forward_inv.specs.Sets.{IsMemberOf, LeadsBy};

use crate::meet::meet_some;
use control_flow::{EdgeKind, Place, Transition};
use linear_cons::Linear;
use linear_forms::laws::{linear_forms_cover, spreadings_cover};
use num_domain::NumDomain;
use std::alloc::{AllocError, Global};

/// A set that has each store to which an edge of the kind leads with a member of the set, by the transition over the set's bounds; `None`
/// where it leads nowhere, as where there is no edge of the kind. The only error is want of memory.
pub fn flow<D: NumDomain>(
    alloc: Global,
    transition: &Transition,
    kind: EdgeKind,
    set: &D,
) -> Result<Option<D>, AllocError>
    ensures { IfOk result (λ moved. LeadsBy (D.told_bounds set.now) transition.now kind (D.has set.now) (IsMemberOf D.has moved)) }
{
    match kind {
        EdgeKind::Skip => {
            let moved = set.copy(alloc)?;
            Ok(Some(moved))
        }
        EdgeKind::Assign => assigned(alloc, transition, set),
        EdgeKind::Test { holds } => tested(alloc, transition, holds, set),
    }
}

/// The set behind an assignment.
fn assigned<D: NumDomain>(
    alloc: Global,
    transition: &Transition,
    set: &D,
) -> Result<Option<D>, AllocError>
    ensures { IfOk result (λ moved. LeadsBy (D.told_bounds set.now) transition.now Assign (D.has set.now) (IsMemberOf D.has moved)) }
{
    linear_forms_cover();
    match transition {
        Transition::Assign { place, value, .. } => {
            let moved = put(alloc, *place, &Linear::exactly(*value), set)?;
            Ok(Some(moved))
        }
        Transition::Choose { place, range, .. } => {
            let moved = put(alloc, *place, range, set)?;
            Ok(Some(moved))
        }
        _ => Ok(None),
    }
}

/// The set with the values of the linear form at the place.
fn put<D: NumDomain>(alloc: Global, place: Place, value: &Linear, set: &D) -> Result<D, AllocError>
    ensures { IfOk result (λ moved. KeepsAssigned place.number value.now (D.has set.now) (D.has moved)) }
{
    let mut moved = set.copy(alloc)?;
    moved.assign(alloc, place.number, value)?;
    Ok(moved)
}

/// The set behind an outcome of a test.
fn tested<D: NumDomain>(
    alloc: Global,
    transition: &Transition,
    holds: bool,
    set: &D,
) -> Result<Option<D>, AllocError>
    ensures { IfOk result (λ moved. LeadsBy (D.told_bounds set.now) transition.now (Test holds) (D.has set.now) (IsMemberOf D.has moved)) }
{
    spreadings_cover();
    let moved = meet_some(alloc, set, transition.outcome(holds))?;
    Ok(moved)
}
