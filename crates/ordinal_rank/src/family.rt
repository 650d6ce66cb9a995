//! Families of ordinal ranks of a program.
ghost use Rattle.std.specs.Prelude.{◌≡◌, IfOk, length};
ghost use Rattle.step_meaning.specs.Syntax.{statements};
ghost use Rattle.control_flow.specs.Invariants.{AreInvariants};
ghost use Rattle.control_flow.specs.Labels.{all_labels};
ghost use Rattle.control_flow.specs.Told.{told_by};
ghost use Rattle.control_flow.specs.Transitions.{AreTold};
ghost use Rattle.tree_support.specs.Setting.{trees_in};
ghost use Rattle.ordinal_rank.specs.Families.{IsBounded};

use crate::fitting::fitted;
use crate::laws::ranked_families_bound_ends;
use crate::operands::operands;
use crate::ordinal::OrdinalRank;
use crate::sweeps::swept;
use control_flow::{Graph, Transition};
use ctl_formula::Formula;
use decision_tree::{Family, Tree};
use forward_inv::{Inv, transitions_of};
use num_domain::NumDomain;
use std::alloc::{AllocError, Global};
use tree_check::check_over;
use tree_support::laws::invariants_tell_the_truth;

/// A family of ordinal ranks for `AF exit`, as the check leaves what sweeps over the labels propose: wherever it is defined every run ends,
/// bounded one after the other as the values of the rank's functions say. The only error is want of memory.
pub fn rank_family<D: NumDomain>(
    alloc: Global,
    graph: &Graph,
    inv: &Inv<D>,
    delay: u32,
) -> Result<Family<OrdinalRank>, AllocError>
    requires invariants { AreInvariants D.has (length graph.now.names) (statements graph.now.body) inv.now }
    ensures labels { IfOk result (λ family. length family.trees ≡ length (all_labels (statements graph.now.body))) }
    ensures bounded { IfOk result (λ family. IsBounded (length graph.now.names) (statements graph.now.body) (trees_in family.trees)) }
{
    let transitions = transitions_of(alloc, graph, inv)?;
    let proposed = swept(alloc, inv, &transitions, delay)?;
    left_of(alloc, graph, inv, &transitions, &proposed)
}

/// What the check leaves of the trees, as a family for `AF exit`. The only error is want of memory.
pub(crate) fn left_of<D: NumDomain>(
    alloc: Global,
    graph: &Graph,
    inv: &Inv<D>,
    transitions: &[Transition],
    proposed: &[Tree<OrdinalRank>],
) -> Result<Family<OrdinalRank>, AllocError>
    requires invariants { AreInvariants D.has (length graph.now.names) (statements graph.now.body) inv.now }
    requires transitions { length transitions.now ≡ length (all_labels (statements graph.now.body)) }
    requires told { AreTold (statements graph.now.body) (told_by D.told_bounds D.told_rows D.seen_empty inv.now) transitions.now }
    requires trees { length proposed.now ≡ length (all_labels (statements graph.now.body)) }
    ensures labels { IfOk result (λ family. length family.trees ≡ length (all_labels (statements graph.now.body))) }
    ensures bounded { IfOk result (λ family. IsBounded (length graph.now.names) (statements graph.now.body) (trees_in family.trees)) }
{
    invariants_tell_the_truth::<D>();
    ranked_families_bound_ends();
    let formula = Formula::af_exit(alloc)?;
    let parts = operands(alloc, graph.labels())?;
    let trees = fitted(alloc, proposed, &graph.program().names)?;
    let mut family = Family { part: 2, trees };
    let _dropped = check_over(
        alloc,
        graph,
        inv,
        transitions,
        &formula,
        &parts,
        &mut family,
    )?;
    Ok(family)
}
