//! The family that tells where runs stay within the numbers of 32 bits.
ghost use Rattle.std.specs.Prelude.{◌≡◌, ◌∷◌, [], IfOk, length, true};
ghost use Rattle.ctl_formula.specs.Formulas.{falsity, truth, weak};
ghost use Rattle.ctl_formula.specs.Mirror.{ctl};
ghost use Rattle.step_meaning.specs.Syntax.{statements};
ghost use Rattle.control_flow.specs.Invariants.{AreInvariants};
ghost use Rattle.control_flow.specs.Told.{told_by};
ghost use Rattle.part_families.specs.Families.{IsFamilyFor, trees_of};
ghost use Rattle.tree_support.specs.Setting.{trees_in};
ghost use Rattle.fit_check.specs.Safety.{AreSafe, TellsFit};

use crate::laws::checked_families_tell_what_fits;
use crate::ranging::safe_at;
use control_flow::Graph;
use ctl_formula::Formula;
use decision_tree::{AffineRank, Family, TreeList};
use forward_inv::{Inv, transitions_of};
use num_domain::NumDomain;
use part_families::{Premises, SmallerParts};
use std::alloc::{AllocError, Global};
use tree_support::laws::invariants_tell_the_truth;

/// After how many sweeps those that propose the family widen.
const SWEEPS: u32 = 3;

/// Trees for the labels of a graph: where one is defined at a state that is reached, and at the entry for an input, the runs from there stay within the numbers of 32 bits. The
/// graph is that of a program in which each chosen number is one of these, and the invariants have each state that is reached. The only error is want of memory.
pub fn fit_family<D: NumDomain>(
    alloc: Global,
    graph: &Graph,
    inv: &Inv<D>,
) -> Result<Family<AffineRank>, AllocError>
    requires invariants { AreInvariants D.has (length graph.now.names) (statements graph.now.body) inv.now }
    ensures fits { IfOk result (λ family. TellsFit (length graph.now.names) (statements graph.now.body) (trees_of family)) }
    ensures printable { IfOk result (IsFamilyFor (length graph.now.names) (statements graph.now.body)) }
{
    checked_families_tell_what_fits();
    invariants_tell_the_truth::<D>();
    let transitions = transitions_of(alloc, graph, inv)?;
    let premises = Premises {
        alloc,
        graph,
        inv,
        transitions: &transitions,
        labels: graph.labels(),
        delay: SWEEPS,
        synthesises: false,
    };
    let smaller = kept(alloc, graph, inv)?;
    let formula = always(alloc)?;
    let family = premises.found(&formula, &smaller)?;
    Ok(family)
}

/// The safe trees as the family of what is to be kept. Of the goal there is none, so that it is met nowhere.
fn kept<D: NumDomain>(
    alloc: Global,
    graph: &Graph,
    inv: &Inv<D>,
) -> Result<SmallerParts, AllocError>
    requires invariants { AreInvariants D.has (length graph.now.names) (statements graph.now.body) inv.now }
    ensures operands { IfOk result (λ smaller. (safe : Family AffineRank) × (smaller.operands.items ≡ safe ∷ [])
        × AreSafe (length graph.now.names) (statements graph.now.body) (told_by D.told_bounds D.told_rows D.seen_empty inv.now).bounds (trees_of safe)) }
{
    let trees = safe_trees(alloc, graph, inv)?;
    let mut operands = Vec::with_capacity(alloc, 1)?;
    operands.push(Family { part: 0, trees })?;
    Ok(SmallerParts {
        operands,
        of_first: Vec::new(alloc),
        of_second: Vec::new(alloc),
        number: 1,
    })
}

/// The safe tree of each label.
fn safe_trees<D: NumDomain>(
    alloc: Global,
    graph: &Graph,
    inv: &Inv<D>,
) -> Result<TreeList<AffineRank>, AllocError>
    requires invariants { AreInvariants D.has (length graph.now.names) (statements graph.now.body) inv.now }
    ensures safe { IfOk result (λ trees. AreSafe (length graph.now.names) (statements graph.now.body)
        (told_by D.told_bounds D.told_rows D.seen_empty inv.now).bounds (trees_in trees)) }
{
    let mut trees = Vec::with_capacity(alloc, graph.labels() as usize)?;
    for label in 0..graph.labels() {
        let tree = safe_at(alloc, graph, label, inv.at(label))?;
        trees.push(tree)?;
    }
    Ok(TreeList::of(trees))
}

/// What is to be kept is kept for ever, by each run.
fn always(alloc: Global) -> Result<Formula, AllocError>
    ensures { IfOk result (λ formula. ctl formula ≡ weak true truth falsity) }
{
    Ok(Formula::Weak {
        all: true,
        keep: Box::new(alloc, Formula::True)?,
        goal: Box::new(alloc, Formula::False)?,
    })
}
