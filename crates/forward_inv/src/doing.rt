//! What is done at each label, over the sets of stores there.
ghost use Rattle.std.specs.Prelude.{◌≡◌, ◌<◌, ◌≤◌, IfOk, length};
ghost use Rattle.step_meaning.specs.Syntax.{statements};
ghost use Rattle.control_flow.specs.Labels.{action_at, all_labels};
ghost use Rattle.control_flow.specs.Told.{told_by};
ghost use Rattle.control_flow.specs.Transitions.{AreOnward, AreTold, IsTold};

use crate::sets::Inv;
use control_flow::laws::transitions_lead_on;
use control_flow::{Graph, Transition};
use num_domain::NumDomain;
use std::alloc::{AllocError, Global};

/// The transitions of the labels over the bounds of their sets; at a label whose set is seen to be empty no run comes. The only error is
/// want of memory.
pub fn transitions_of<D: NumDomain>(
    alloc: Global,
    graph: &Graph,
    inv: &Inv<D>,
) -> Result<Vec<Transition>, AllocError>
    requires { length inv.now ≡ length (all_labels (statements graph.now.body)) }
    ensures labels { IfOk result (λ made. length made.items ≡ length (all_labels (statements graph.now.body))) }
    ensures few { IfOk result (λ made. length made.items ≤ 1024) }
    ensures told { IfOk result (λ made. AreTold (statements graph.now.body) (told_by D.told_bounds D.told_rows D.seen_empty inv.now) made.items) }
    ensures onward { IfOk result (λ made. AreOnward made.items) }
{
    transitions_lead_on();
    let mut made = Vec::with_capacity(alloc, graph.labels() as usize)?;
    for label in 0..graph.labels() {
        let transition = done_at(alloc, graph, label, inv.at(label))?;
        made.push(transition)?;
    }
    Ok(made)
}

/// The transition of a label over the set.
fn done_at<D: NumDomain>(
    alloc: Global,
    graph: &Graph,
    label: u32,
    set: &D,
) -> Result<Transition, AllocError>
    requires { label < length (all_labels (statements graph.now.body)) }
    ensures { IfOk result (λ made. IsTold (D.told_bounds set.now) (D.seen_empty set.now) (action_at (statements graph.now.body) label) made) }
{
    if set.is_empty() {
        return Ok(Transition::Dead);
    }
    Transition::of(alloc, graph.action(label), &set.bounds())
}
