//! Trees that are made of those of the parts at the same label.
ghost use Rattle.std.specs.Prelude.{◌≡◌, ◌≤◌, IfOk, length};
ghost use Rattle.decision_tree.specs.Plans.{plan_of};
ghost use Rattle.backward_transfer.specs.AffineShapes.{plans};
ghost use Rattle.part_trees.specs.Local.{AreLocal, IsLocal, IsReached};

use crate::atoms::of_kind;
use crate::joining::{conjunction, disjunction};
use backward_sweeps::{at_once, tree_at};
use control_flow::Transition;
use ctl_formula::Formula;
use decision_tree::{AffineRank, Tree, Why};
use std::alloc::{AllocError, Global};

/// The trees of an atom, the end, a conjunction or a disjunction of parts that have these; of other formulas there are no claims. One that
/// can't be made claims nothing. The only error is want of memory.
pub(crate) fn locals(
    alloc: Global,
    transitions: &[Transition],
    formula: &Formula,
    first: &[Tree<AffineRank>],
    second: &[Tree<AffineRank>],
) -> Result<Vec<Tree<AffineRank>>, AllocError>
    requires few { length transitions.now ≤ 1024 }
    ensures labels { IfOk result (λ trees. length trees.items ≡ length transitions.now) }
    ensures locals { IfOk result (λ trees. AreLocal formula.now transitions.now (plans first.now) (plans second.now) (plans trees.items)) }
{
    let none = Tree::Bottom;
    let mut trees = Vec::with_capacity(alloc, transitions.len())?;
    for label in 0..transitions.len() as u32 {
        let this = tree_at(first, label, &none);
        let that = tree_at(second, label, &none);
        let tree = local(alloc, &transitions[label as usize], formula, this, that)?;
        trees.push(tree)?;
    }
    Ok(trees)
}

/// The tree of a label at which this is done, by those of the parts there.
fn local(
    alloc: Global,
    transition: &Transition,
    formula: &Formula,
    first: &Tree<AffineRank>,
    second: &Tree<AffineRank>,
) -> Result<Tree<AffineRank>, AllocError>
    ensures { IfOk result (λ tree. IsLocal formula.now transition.now (plan_of first.now) (plan_of second.now) (plan_of tree)) }
{
    match transition {
        Transition::Dead => at_once(alloc, Why::Dead),
        Transition::End => reached(alloc, true, formula, first, second),
        _ => reached(alloc, false, formula, first, second),
    }
}

/// The tree of a label to which runs come, by whether it is the end.
fn reached(
    alloc: Global,
    is_end: bool,
    formula: &Formula,
    first: &Tree<AffineRank>,
    second: &Tree<AffineRank>,
) -> Result<Tree<AffineRank>, AllocError>
    ensures { IfOk result (λ tree. IsReached formula.now is_end (plan_of first.now) (plan_of second.now) (plan_of tree)) }
{
    match formula {
        Formula::True => at_once(alloc, Why::Atom),
        Formula::Exit if is_end => at_once(alloc, Why::End),
        Formula::NotExit if !is_end => at_once(alloc, Why::Atom),
        Formula::Holds(kind) => of_kind(alloc, kind),
        Formula::And(..) => conjunction(alloc, first, second),
        Formula::Or(..) => disjunction(alloc, first, second),
        _ => Ok(Tree::Bottom),
    }
}
