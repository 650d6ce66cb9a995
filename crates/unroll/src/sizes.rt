//! The sizes of the trees of a level, in lists.

ghost use Rattle.std.specs.Prelude.{◌≡◌, ℕ, suc, IfOk, length};
ghost use Rattle.step_meaning.specs.Syntax.{statements};
ghost use Rattle.control_flow.specs.Labels.{all_labels};
ghost use Rattle.control_flow.specs.Sizing.{HasSizes};

use control_flow::Graph;
use std::alloc::{AllocError, Global};

/// The sizes of level 0.
pub(crate) fn first_sizes(alloc: Global, graph: &Graph) -> Result<Vec<u128>, AllocError>
    ensures sizes { IfOk result (λ list. HasSizes (statements graph.now.body) 0 list.items) }
    ensures count { IfOk result (λ list. length list.items ≡ length (all_labels (statements graph.now.body))) }
{
    let mut sizes = room(alloc, graph)?;
    graph.first_sizes(&mut sizes);
    Ok(sizes)
}

/// The sizes of the level behind the last one.
pub(crate) fn next_sizes(
    alloc: Global,
    graph: &Graph,
    last: &[u128],
) -> Result<Vec<u128>, AllocError>
    requires { length last.now ≡ length (all_labels (statements graph.now.body)) }
    ensures sizes { (level : ℕ) → HasSizes (statements graph.now.body) level last.now
        → IfOk result (λ list. HasSizes (statements graph.now.body) (suc level) list.items) }
    ensures count { IfOk result (λ list. length list.items ≡ length (all_labels (statements graph.now.body))) }
{
    let mut sizes = room(alloc, graph)?;
    graph.next_sizes(last, &mut sizes);
    Ok(sizes)
}

/// A number for each label.
fn room(alloc: Global, graph: &Graph) -> Result<Vec<u128>, AllocError>
    ensures { IfOk result (λ list. length list.items ≡ length (all_labels (statements graph.now.body))) }
{
    let mut sizes = Vec::with_capacity(alloc, graph.labels() as usize)?;
    for _ in 0..graph.labels() {
        sizes.push(0)?;
    }
    Ok(sizes)
}
