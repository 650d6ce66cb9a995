//! The tree of ordinal ranks at the entry of a program.
ghost use Rattle.std.specs.Prelude.{◌≡◌, ◌⊎◌, ◌≤◌, ℤ, List, IfOk, length};
ghost use Rattle.step_meaning.specs.Syntax.{statements};
ghost use Rattle.control_flow.specs.Invariants.{AreInvariants};
ghost use Rattle.control_flow.specs.Labels.{all_labels};
ghost use Rattle.control_flow.specs.Told.{told_by};
ghost use Rattle.control_flow.specs.Transitions.{AreOnward, AreTold};
ghost use Rattle.decision_tree.specs.Evaluation.{eval};
ghost use Rattle.decision_tree.specs.Plans.{plan_of};
ghost use Rattle.ordinal_rank.specs.Families.{BoundsEnds, IsFit};

use crate::cells::{follow, given};
use crate::family::left_of;
use crate::fitting::fit_or_given_up;
use crate::jump::Power;
use crate::lacking::{adds, lacks};
use crate::ordinal::OrdinalRank;
use crate::sweeps::swept;
use backward_sweeps::{Operands, at_once};
use control_flow::{Graph, Transition};
use decision_tree::{AffineRank, Tree, Why};
use forward_inv::{Inv, transitions_of};
use loop_moves::{Parting, Question, Search, front};
use num_domain::NumDomain;
use rank_synthesis::{ORDER, RankedCell, Synthesis};
use std::alloc::{AllocError, Global};
use tree_support::tree_at_entry;
use tree_unify::laws::either_has_the_first_defined_leaf;
use tree_unify::{TreeFault, either};

/// The most nodes of the tree, leaves included.
const MOST_NODES: u64 = 4_096;

/// A tree of ordinal ranks at the entry of the program: with each input at which it makes a claim every run ends, bounded one after the other as
/// the values of the rank's functions say. It is meant for inputs of which the cover says nothing: beside what sweeps propose it has what
/// linear programs do, where these may propose some and as long as such an input is left. The only error is want of memory.
pub fn ranked<D: NumDomain>(
    alloc: Global,
    graph: &Graph,
    inv: &Inv<D>,
    cover: &Tree<AffineRank>,
    delay: u32,
    synthesises: bool,
) -> Result<Tree<OrdinalRank>, AllocError>
    requires invariants { AreInvariants D.has (length graph.now.names) (statements graph.now.body) inv.now }
    ensures fit { IfOk result (λ tree. IsFit (length graph.now.names) (plan_of tree)) }
    ensures ends { IfOk result (λ tree. BoundsEnds (length graph.now.names) (statements graph.now.body) (plan_of tree)) }
{
    let transitions = transitions_of(alloc, graph, inv)?;
    let proposed = swept(alloc, inv, &transitions, delay)?;
    let swept = if may_add(alloc, graph, cover, &Tree::Bottom, &proposed)? {
        at_entry(alloc, graph, inv, &transitions, &proposed)?
    } else {
        Tree::Bottom
    };
    let tree = with_synthesis(alloc, graph, inv, &transitions, cover, synthesises, swept)?;
    fit_or_given_up(alloc, &tree, &graph.program().names)
}

/// The tree at the entry of the family that the check leaves of the trees. The only error is want of memory.
fn at_entry<D: NumDomain>(
    alloc: Global,
    graph: &Graph,
    inv: &Inv<D>,
    transitions: &[Transition],
    proposed: &[Tree<OrdinalRank>],
) -> Result<Tree<OrdinalRank>, AllocError>
    requires invariants { AreInvariants D.has (length graph.now.names) (statements graph.now.body) inv.now }
    requires transitions { length transitions.now ≡ length (all_labels (statements graph.now.body)) }
    requires told { AreTold (statements graph.now.body) (told_by D.told_bounds D.told_rows D.seen_empty inv.now) transitions.now }
    requires trees { length proposed.now ≡ length (all_labels (statements graph.now.body)) }
    ensures { IfOk result (λ tree. BoundsEnds (length graph.now.names) (statements graph.now.body) (plan_of tree)) }
{
    let family = left_of(alloc, graph, inv, transitions, proposed)?;
    tree_at_entry(graph, &family).copy(alloc)
}

/// Whether the proposed tree at the entry may claim something of an input of which neither the cover nor the ranks so far say anything. The only error is
/// want of memory.
fn may_add(
    alloc: Global,
    graph: &Graph,
    cover: &Tree<AffineRank>,
    ranked: &Tree<OrdinalRank>,
    proposed: &[Tree<OrdinalRank>],
) -> Result<bool, AllocError> {
    match proposed.get(graph.entry() as usize) {
        Some(proposal) => adds(alloc, cover, ranked, proposal),
        None => Ok(true),
    }
}

/// The tree with what the check leaves of ranks by linear programs, where these may propose some and as long as some input has no claim. The only
/// error is want of memory.
fn with_synthesis<D: NumDomain>(
    alloc: Global,
    graph: &Graph,
    inv: &Inv<D>,
    transitions: &[Transition],
    cover: &Tree<AffineRank>,
    synthesises: bool,
    swept: Tree<OrdinalRank>,
) -> Result<Tree<OrdinalRank>, AllocError>
    requires invariants { AreInvariants D.has (length graph.now.names) (statements graph.now.body) inv.now }
    requires transitions { length transitions.now ≡ length (all_labels (statements graph.now.body)) }
    requires told { AreTold (statements graph.now.body) (told_by D.told_bounds D.told_rows D.seen_empty inv.now) transitions.now }
    requires few { length transitions.now ≤ 1024 }
    requires onward { AreOnward transitions.now }
    requires swept { BoundsEnds (length graph.now.names) (statements graph.now.body) (plan_of swept) }
    ensures { IfOk result (λ tree. BoundsEnds (length graph.now.names) (statements graph.now.body) (plan_of tree)) }
{
    if !synthesises {
        return Ok(swept);
    }
    let (keep, goal) = operands(alloc, transitions.len())?;
    let operands = Operands {
        all: true,
        goal: &goal,
        keep: &keep,
    };
    let question = Question {
        transitions,
        operands: &operands,
        is_weak: false,
        under: &[],
        plan: None,
        variables: graph.program().names.items().len() as u32,
    };
    let mut search = Search::new(alloc);
    let mut synthesis = Synthesis::of(&mut search, inv, &question)?;
    let tree = with_pairs(
        alloc,
        graph,
        inv,
        transitions,
        cover,
        &mut search,
        &mut synthesis,
        swept,
    )?;
    with_lists(
        alloc,
        graph,
        inv,
        transitions,
        cover,
        &mut search,
        &mut synthesis,
        tree,
    )
}

/// The tree with what the check leaves of ranks of two parts, as long as some input has no claim. The only error is want of memory.
fn with_pairs<D: NumDomain>(
    alloc: Global,
    graph: &Graph,
    inv: &Inv<D>,
    transitions: &[Transition],
    cover: &Tree<AffineRank>,
    search: &mut Search,
    synthesis: &mut Synthesis,
    tree: Tree<OrdinalRank>,
) -> Result<Tree<OrdinalRank>, AllocError>
    requires invariants { AreInvariants D.has (length graph.now.names) (statements graph.now.body) inv.now }
    requires transitions { length transitions.now ≡ length (all_labels (statements graph.now.body)) }
    requires told { AreTold (statements graph.now.body) (told_by D.told_bounds D.told_rows D.seen_empty inv.now) transitions.now }
    requires few { length transitions.now ≤ 1024 }
    requires onward { AreOnward transitions.now }
    requires tree { BoundsEnds (length graph.now.names) (statements graph.now.body) (plan_of tree) }
    ensures { IfOk result (λ tree. BoundsEnds (length graph.now.names) (statements graph.now.body) (plan_of tree)) }
{
    let mut tree = tree;
    for parting in Parting::ALL {
        if lacks(alloc, cover, &tree)? {
            if let Some(cells) = synthesis.paired(search, parting)? {
                tree = with_cells(
                    alloc,
                    graph,
                    inv,
                    transitions,
                    cover,
                    &cells,
                    Power::First,
                    tree,
                )?;
            }
        }
    }
    Ok(tree)
}

/// The tree with what the check leaves of ranks of more parts, as long as some input has no claim. The only error is want of memory.
fn with_lists<D: NumDomain>(
    alloc: Global,
    graph: &Graph,
    inv: &Inv<D>,
    transitions: &[Transition],
    cover: &Tree<AffineRank>,
    search: &mut Search,
    synthesis: &mut Synthesis,
    tree: Tree<OrdinalRank>,
) -> Result<Tree<OrdinalRank>, AllocError>
    requires invariants { AreInvariants D.has (length graph.now.names) (statements graph.now.body) inv.now }
    requires transitions { length transitions.now ≡ length (all_labels (statements graph.now.body)) }
    requires told { AreTold (statements graph.now.body) (told_by D.told_bounds D.told_rows D.seen_empty inv.now) transitions.now }
    requires few { length transitions.now ≤ 1024 }
    requires onward { AreOnward transitions.now }
    requires tree { BoundsEnds (length graph.now.names) (statements graph.now.body) (plan_of tree) }
    ensures { IfOk result (λ tree. BoundsEnds (length graph.now.names) (statements graph.now.body) (plan_of tree)) }
{
    let mut tree = tree;
    for (parts, parting) in ORDER {
        if lacks(alloc, cover, &tree)? {
            if let Some(cells) = synthesis.listed(search, parting, parts)? {
                tree = with_cells(
                    alloc,
                    graph,
                    inv,
                    transitions,
                    cover,
                    &cells,
                    highest_of(parts),
                    tree,
                )?;
            }
        }
    }
    Ok(tree)
}

/// The highest power in a rank of so many parts.
fn highest_of(parts: usize) -> Power {
    match parts {
        0..=2 => Power::First,
        3 => Power::Second,
        4 => Power::Third,
        _ => Power::Fourth,
    }
}

/// What is to be kept until the end, which is everything, and the end: claims for so many labels.
fn operands(
    alloc: Global,
    labels: usize,
) -> Result<(Vec<Tree<AffineRank>>, Vec<Tree<AffineRank>>), AllocError> {
    let mut keep = Vec::with_capacity(alloc, labels)?;
    for _ in 0..labels {
        let claim = at_once(alloc, Why::Atom)?;
        keep.push(claim)?;
    }
    let mut goal = Vec::with_capacity(alloc, 1)?;
    let claim = at_once(alloc, Why::Now)?;
    goal.push(claim)?;
    Ok((keep, goal))
}

/// The tree, with what the check leaves of the cells' ranks where it makes no claim. The only error is want of memory.
fn with_cells<D: NumDomain>(
    alloc: Global,
    graph: &Graph,
    inv: &Inv<D>,
    transitions: &[Transition],
    cover: &Tree<AffineRank>,
    cells: &[RankedCell],
    highest: Power,
    tree: Tree<OrdinalRank>,
) -> Result<Tree<OrdinalRank>, AllocError>
    requires invariants { AreInvariants D.has (length graph.now.names) (statements graph.now.body) inv.now }
    requires transitions { length transitions.now ≡ length (all_labels (statements graph.now.body)) }
    requires told { AreTold (statements graph.now.body) (told_by D.told_bounds D.told_rows D.seen_empty inv.now) transitions.now }
    requires few { length transitions.now ≤ 1024 }
    requires onward { AreOnward transitions.now }
    requires tree { BoundsEnds (length graph.now.names) (statements graph.now.body) (plan_of tree) }
    ensures { IfOk result (λ tree. BoundsEnds (length graph.now.names) (statements graph.now.body) (plan_of tree)) }
{
    let mut trees = given(alloc, transitions, cells)?;
    let front = front(alloc, transitions, graph.entry())?;
    follow(alloc, transitions, highest, &front, true, &mut trees)?;
    if !may_add(alloc, graph, cover, &tree, &trees)? {
        return Ok(tree);
    }
    follow(alloc, transitions, highest, &front, false, &mut trees)?;
    let more = at_entry(alloc, graph, inv, transitions, &trees)?;
    joined(alloc, tree, &more)
}

/// The first tree, with the second's claims where it makes none; the first alone where they can't be joined in 4,096 nodes or a number passes
/// 128 bits. The only error is want of memory.
fn joined(
    alloc: Global,
    first: Tree<OrdinalRank>,
    second: &Tree<OrdinalRank>,
) -> Result<Tree<OrdinalRank>, AllocError>
    ensures { IfOk result (λ made. (store : List ℤ) → (eval (plan_of made) store ≡ eval (plan_of first) store)
        ⊎ (eval (plan_of made) store ≡ eval (plan_of second.now) store)) }
{
    either_has_the_first_defined_leaf::<OrdinalRank>();
    match either(alloc, &first, second) {
        Ok(both) if both.size() <= MOST_NODES => Ok(both),
        Ok(_) | Err(TreeFault::Full { .. } | TreeFault::Wide(_)) => Ok(first),
        Err(TreeFault::Memory(error)) => Err(error),
    }
}
