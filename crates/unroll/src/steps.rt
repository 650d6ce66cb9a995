//! What is done at the labels of a plain program, made once for all levels.
ghost use Rattle.std.specs.Prelude.{IfOk};
ghost use Rattle.step_meaning.specs.Syntax.{statements};
ghost use Rattle.control_flow.specs.Fitting.{IsFitting};
ghost use Rattle.unroll.specs.Doing.{AreDone};

use control_flow::{Graph, Transition, anywhere};
use std::alloc::{AllocError, Global};

/// What is done at each label, whatever is known of the stores there. The only error is want of memory.
pub(crate) fn steps_of(alloc: Global, graph: &Graph) -> Result<Vec<Transition>, AllocError>
    requires { IsFitting (statements graph.now.body) }
    ensures { IfOk result (λ steps. AreDone (statements graph.now.body) steps.items) }
{
    let mut steps = Vec::with_capacity(alloc, graph.labels() as usize)?;
    for label in 0..graph.labels() {
        let step = Transition::of(alloc, graph.action(label), &anywhere())?;
        steps.push(step)?;
    }
    Ok(steps)
}
