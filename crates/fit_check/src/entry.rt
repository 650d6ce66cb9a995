//! The tree that tells from which inputs the runs of a program stay within the numbers of 32 bits.
ghost use Rattle.std.specs.Prelude.{IfOk, length};
ghost use Rattle.step_meaning.specs.Syntax.{statements};
ghost use Rattle.decision_tree.specs.Plans.{plan_of};
ghost use Rattle.int_fit.specs.Narrowing.{narrowed};
ghost use Rattle.fit_check.specs.Safety.{IsFitTree};

use crate::family::fit_family;
use control_flow::{FlowFault, Graph, LABELS};
use decision_tree::{AffineRank, Tree};
use forward_inv::{Inv, invariants};
use int_fit::{guard, narrow, what_fits_behind_the_guard_fits};
use num_domain::NumDomain;
use std::alloc::{AllocError, Global};
use step_meaning::Program;
use tree_support::tree_at_entry;

/// A tree: where it is defined at an input, the runs of the program from there stay within the numbers of 32 bits, where each `?` that is a number is one
/// of these. The program has so many labels; where there is room for one more, the invariants know that each variable is such a number, since the
/// statements are done behind that test. The only error is want of memory.
pub fn fit_tree<D: NumDomain>(
    alloc: Global,
    program: Program,
    labels: u32,
) -> Result<Tree<AffineRank>, AllocError>
    ensures { IfOk result (λ tree. IsFitTree (length program.names) (narrowed (statements program.body)) (plan_of tree)) }
{
    let program = narrow(program);
    if labels < LABELS {
        guarded::<D>(alloc, program)
    } else {
        unguarded::<D>(alloc, program)
    }
}

/// Such a tree for the program as it stands, by that of the guarded one.
fn guarded<D: NumDomain>(alloc: Global, program: Program) -> Result<Tree<AffineRank>, AllocError>
    ensures { IfOk result (λ tree. IsFitTree (length program.names) (statements program.body) (plan_of tree)) }
{
    what_fits_behind_the_guard_fits();
    let guarded = guard(alloc, program)?;
    let tree = unguarded::<D>(alloc, guarded)?;
    Ok(tree)
}

/// Such a tree for the program as it stands.
fn unguarded<D: NumDomain>(alloc: Global, program: Program) -> Result<Tree<AffineRank>, AllocError>
    ensures { IfOk result (λ tree. IsFitTree (length program.names) (statements program.body) (plan_of tree)) }
{
    match Graph::of(alloc, program) {
        Ok(graph) => at_entry::<D>(alloc, &graph),
        Err(FlowFault::Memory(error)) => Err(error),
        // It comes for no program that has a graph when it isn't narrowed: nothing is claimed then.
        Err(_) => Ok(Tree::Bottom),
    }
}

/// The tree of the entry, of the family for the program.
fn at_entry<D: NumDomain>(alloc: Global, graph: &Graph) -> Result<Tree<AffineRank>, AllocError>
    ensures { IfOk result (λ tree. IsFitTree (length graph.now.names) (statements graph.now.body) (plan_of tree)) }
{
    let inv: Inv<D> = invariants(alloc, graph)?;
    let family = fit_family(alloc, graph, &inv)?;
    let tree = tree_at_entry(graph, &family).copy(alloc)?;
    Ok(tree)
}
