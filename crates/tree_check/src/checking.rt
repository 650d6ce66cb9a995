//! The check.
ghost use Rattle.std.specs.Prelude.{◌≡◌, ℕ, ◌-◌, ◌^◌, ◌<◌, length, map, IfOk, OnOk, OnErr};
ghost use Rattle.step_meaning.specs.Syntax.{statements};
ghost use Rattle.control_flow.specs.Labels.{all_labels};
ghost use Rattle.ctl_formula.specs.Mirror.{ctl};
ghost use Rattle.decision_tree.specs.Plans.{leaves_of, plan_of};
ghost use Rattle.tree_support.specs.Elimination.{Eliminates};
ghost use Rattle.tree_support.specs.Setting.{setting_of, trees_in};
ghost use Rattle.tree_support.specs.Support.{IsSupported};
ghost use Rattle.control_flow.specs.Told.{told_by};
ghost use Rattle.control_flow.specs.Transitions.{AreTold};
ghost use Rattle.tree_check.specs.Checking.{WasCutShort, families_of};

use crate::rounds::Premises;
use control_flow::{Graph, Transition};
use ctl_formula::Formula;
use decision_tree::{Family, Rank, Tree, TreeList};
use forward_inv::{Inv, transitions_of};
use num_domain::NumDomain;
use std::alloc::{AllocError, Global};
use std::mem;
use tree_support::Dropped;

/// Of the leaves of the formula's family it leaves those that are supported, over the graph with its invariants and the families of the
/// formula's direct smaller parts, and lists the others in the order in which they were given up, each with the reason against it.
///
/// The error is want of memory. Then some leaves may be given up that aren't listed, each of them legally.
pub fn check<D: NumDomain, R: Rank>(
    alloc: Global,
    graph: &Graph,
    inv: &Inv<D>,
    formula: &Formula,
    parts: &[Family<R>],
    family: &mut Family<R>,
) -> Result<Vec<Dropped>, AllocError>
    requires states { length inv.now ≡ length (all_labels (statements graph.now.body)) }
    requires trees { length family.old.trees ≡ length (all_labels (statements graph.now.body)) }
    requires leaves { (label : ℕ) → leaves_of (trees_in family.old.trees label) < 2 ^ 64 - 1 }
    ensures legal { IfOk result (λ drops. Eliminates R.Rank.own (setting_of (statements graph.now.body)
        (told_by D.told_bounds D.told_rows D.seen_empty inv.now) (ctl formula.now) (families_of parts.now))
        (trees_in family.old.trees) drops.items (trees_in family.new.trees)) }
    ensures supported { OnOk result (IsSupported R.Rank.own (setting_of (statements graph.now.body)
        (told_by D.told_bounds D.told_rows D.seen_empty inv.now) (ctl formula.now) (families_of parts.now))
        (trees_in family.new.trees)) }
    ensures labels { length family.new.trees ≡ length family.old.trees }
    ensures part { family.new.part ≡ family.old.part }
    ensures begun { OnErr result (WasCutShort R.Rank.own (setting_of (statements graph.now.body)
        (told_by D.told_bounds D.told_rows D.seen_empty inv.now) (ctl formula.now) (families_of parts.now))
        (trees_in family.old.trees) (trees_in family.new.trees)) }
{
    let transitions = transitions_of(alloc, graph, inv)?;
    check_over(alloc, graph, inv, &transitions, formula, parts, family)
}

/// The same, over what is done at the labels, which is known already.
pub fn check_over<D: NumDomain, R: Rank>(
    alloc: Global,
    graph: &Graph,
    inv: &Inv<D>,
    transitions: &[Transition],
    formula: &Formula,
    parts: &[Family<R>],
    family: &mut Family<R>,
) -> Result<Vec<Dropped>, AllocError>
    requires states { length inv.now ≡ length (all_labels (statements graph.now.body)) }
    requires transitions { length transitions.now ≡ length (all_labels (statements graph.now.body)) }
    requires told { AreTold (statements graph.now.body) (told_by D.told_bounds D.told_rows D.seen_empty inv.now) transitions.now }
    requires trees { length family.old.trees ≡ length (all_labels (statements graph.now.body)) }
    requires leaves { (label : ℕ) → leaves_of (trees_in family.old.trees label) < 2 ^ 64 - 1 }
    ensures legal { IfOk result (λ drops. Eliminates R.Rank.own (setting_of (statements graph.now.body)
        (told_by D.told_bounds D.told_rows D.seen_empty inv.now) (ctl formula.now) (families_of parts.now))
        (trees_in family.old.trees) drops.items (trees_in family.new.trees)) }
    ensures supported { OnOk result (IsSupported R.Rank.own (setting_of (statements graph.now.body)
        (told_by D.told_bounds D.told_rows D.seen_empty inv.now) (ctl formula.now) (families_of parts.now))
        (trees_in family.new.trees)) }
    ensures labels { length family.new.trees ≡ length family.old.trees }
    ensures part { family.new.part ≡ family.old.part }
    ensures begun { OnErr result (WasCutShort R.Rank.own (setting_of (statements graph.now.body)
        (told_by D.told_bounds D.told_rows D.seen_empty inv.now) (ctl formula.now) (families_of parts.now))
        (trees_in family.old.trees) (trees_in family.new.trees)) }
{
    let premises = Premises {
        alloc,
        graph,
        inv,
        transitions,
        formula,
        parts,
    };
    let mut trees = mem::replace(&mut family.trees, TreeList::of(Vec::new(alloc))).into_vec();
    let mut drops = Vec::new(alloc);
    let settled = premises.settle(&mut trees, &mut drops);
    family.trees = TreeList::of(trees);
    settled?;
    Ok(drops)
}

/// The same beside other trees that are supported: where a label's own tree and those of its successors are the same as these, nothing is looked at before one of
/// them changes.
pub fn check_beside<D: NumDomain, R: Rank>(
    alloc: Global,
    graph: &Graph,
    inv: &Inv<D>,
    transitions: &[Transition],
    formula: &Formula,
    parts: &[Family<R>],
    known: &[Tree<R>],
    family: &mut Family<R>,
) -> Result<Vec<Dropped>, AllocError>
    requires states { length inv.now ≡ length (all_labels (statements graph.now.body)) }
    requires transitions { length transitions.now ≡ length (all_labels (statements graph.now.body)) }
    requires told { AreTold (statements graph.now.body) (told_by D.told_bounds D.told_rows D.seen_empty inv.now) transitions.now }
    requires trees { length family.old.trees ≡ length (all_labels (statements graph.now.body)) }
    requires labels { length known.now ≡ length family.old.trees }
    requires known { IsSupported R.Rank.own (setting_of (statements graph.now.body)
        (told_by D.told_bounds D.told_rows D.seen_empty inv.now) (ctl formula.now) (families_of parts.now))
        (trees_in (map plan_of known.now)) }
    requires leaves { (label : ℕ) → leaves_of (trees_in family.old.trees label) < 2 ^ 64 - 1 }
    ensures legal { IfOk result (λ drops. Eliminates R.Rank.own (setting_of (statements graph.now.body)
        (told_by D.told_bounds D.told_rows D.seen_empty inv.now) (ctl formula.now) (families_of parts.now))
        (trees_in family.old.trees) drops.items (trees_in family.new.trees)) }
    ensures supported { OnOk result (IsSupported R.Rank.own (setting_of (statements graph.now.body)
        (told_by D.told_bounds D.told_rows D.seen_empty inv.now) (ctl formula.now) (families_of parts.now))
        (trees_in family.new.trees)) }
    ensures labels { length family.new.trees ≡ length family.old.trees }
    ensures part { family.new.part ≡ family.old.part }
    ensures begun { OnErr result (WasCutShort R.Rank.own (setting_of (statements graph.now.body)
        (told_by D.told_bounds D.told_rows D.seen_empty inv.now) (ctl formula.now) (families_of parts.now))
        (trees_in family.old.trees) (trees_in family.new.trees)) }
{
    let premises = Premises {
        alloc,
        graph,
        inv,
        transitions,
        formula,
        parts,
    };
    let mut trees = mem::replace(&mut family.trees, TreeList::of(Vec::new(alloc))).into_vec();
    let mut drops = Vec::new(alloc);
    let settled = premises.settle_beside(known, &mut trees, &mut drops);
    family.trees = TreeList::of(trees);
    settled?;
    Ok(drops)
}
