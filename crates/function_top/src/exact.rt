//! What is known exactly: the levels that are worked out test by test.

ghost use Rattle.std.specs.Prelude.{◌≡◌, ◌<◌, IfOk, length};
ghost use Rattle.step_meaning.specs.Syntax.{statements};
ghost use Rattle.decision_tree.specs.Plans.{plan_of};
ghost use Rattle.backward_transfer.specs.AffineShapes.{tree_at};
ghost use Rattle.function_top.specs.Exact.{IsExact, stop_of};
ghost use Rattle.function_top.specs.Printable.{IsExactPrintable};

use crate::found::Exact;
use control_flow::Graph;
use decision_tree::{AffineRank, Cause, Family, Tree};
use report_text::Stop;
use std::alloc::{AllocError, Global};
use unroll::{Unrolled, unroll};

/// What is known exactly for so many tests of loops, of a program with its graph. The only error is want of memory.
pub(crate) fn exactly(alloc: Global, delay: u32, graph: &Graph) -> Result<Exact, AllocError>
    ensures exact { IfOk result (λ exact. IsExact (length graph.now.names) (statements graph.now.body) delay exact) }
    ensures printable { IfOk result (λ exact. IsExactPrintable (length graph.now.names) exact) }
{
    if !graph.program().is_plain() {
        return Ok(Exact::Unmade(Stop::NotPlain));
    }
    let Unrolled {
        family,
        tests,
        stopped,
    } = unroll(alloc, graph, delay)?;
    let stop = stop_of(&stopped);
    match family {
        Some(family) => Ok(Exact::Made {
            tests,
            stop,
            tree: tree_at(family, graph.entry()),
        }),
        None => Ok(Exact::Unmade(stop.unwrap_or(Stop::WideNumbers))),
    }
}

// The tree of a family at a label.
fn tree_at(family: Family<AffineRank>, label: u32) -> Tree<AffineRank>
    requires { label < length family.trees }
    ensures { plan_of result ≡ tree_at family.trees label }
{
    let mut trees = family.trees.into_vec();
    trees.swap_remove(label as usize)
}

// Why no further level was made, in the words of a report.
fn stop_of(cause: &Option<Cause>) -> Option<Stop>
    ensures { result ≡ stop_of cause.now }
{
    match cause {
        Some(Cause::Nodes { .. }) => Some(Stop::TooManyNodes),
        Some(_) => Some(Stop::WideNumbers),
        None => None,
    }
}
