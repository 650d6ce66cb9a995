//! Families that are added to a certificate of `AF exit`: guesses at what bounds loops, split where points refute them.
ghost use Rattle.std.specs.Prelude.{◌≡◌, ◌⊎◌, All, IfOk, IfSome, length};
ghost use Rattle.step_meaning.specs.Syntax.{statements};
ghost use Rattle.control_flow.specs.Invariants.{AreInvariants};
ghost use Rattle.control_flow.specs.Told.{told_by};
ghost use Rattle.ctl_formula.specs.Formulas.{af_exit};
ghost use Rattle.ctl_formula.specs.Mirror.{ctl};
ghost use Rattle.exact_families.specs.Completeness.{IsLoopless};
ghost use Rattle.ctl_rounds.specs.Certified.{Certifies};
ghost use Rattle.ctl_rounds.specs.Covers.{LeavesOpen};
ghost use Rattle.part_families.specs.Fitting.{IsFit};
ghost use Rattle.part_families.specs.Knowing.{ArePremises, told_on};
ghost use Rattle.split_rounds.specs.Refined.{Refines};
ghost use Rattle.part_families.specs.Showing.{Shows};

use advice::Hint;
use control_flow::Graph;
use ctl_formula::Formula;
use ctl_rounds::{Certificate, is_af_exit, is_open};
use decision_tree::{AffineRank, Family, Tree, TreeList};
use forward_inv::{Inv, transitions_of};
use loop_facts::{Fallen, Guess, Point, guesses, holds_under, proposal, split};
use num_domain::NumDomain;
use part_families::{Premises, fitted};
use part_trees::Claims;
use std::alloc::{AllocError, Global};
use tree_check::{Dropped, Reason};
use tree_unify::TreeFault;

/// The number of `AF exit` among its parts.
const NUMBER: u32 = 2;

/// The most rounds of a guess.
const MOST_ROUNDS: u32 = 8;

/// Adds families to a certificate of `AF exit` whose cover has an undefined leaf, as long as one is left: for a row of a loop's test the family that a hint with
/// it proposes, and where a point refutes a leaf of that, the family without the claim where all the rows hold by which it does, again and again. What is
/// added is what the check leaves, where it claims something under the row. A certificate of another formula stays as it is, and so does one of a
/// program without loops.
///
/// The families that were there stand in front of the new ones, so that their cover keeps each of its claims. The only error is want of memory; what was added by then
/// stays, and the certificate is one as before.
pub fn refine<D: NumDomain>(
    alloc: Global,
    graph: &Graph,
    inv: &Inv<D>,
    formula: &Formula,
    certificate: &mut Certificate,
) -> Result<(), AllocError>
    requires invariants { AreInvariants D.has (length graph.now.names) (statements graph.now.body) inv.now }
    requires certified { Certifies (length graph.now.names) (statements graph.now.body)
        (told_by D.told_bounds D.told_rows D.seen_empty inv.now) (ctl formula.now) certificate.old.parts certificate.old.tops }
    ensures refined { Refines (length graph.now.names) (statements graph.now.body)
        (told_by D.told_bounds D.told_rows D.seen_empty inv.now) (ctl formula.now) certificate.old certificate.new }
    ensures whole { (certificate.new.tops ≡ certificate.old.tops) ⊎ LeavesOpen (statements graph.now.body) certificate.old.tops }
    ensures loopless { IsLoopless (statements graph.now.body) → certificate.new.tops ≡ certificate.old.tops }
{
    if !is_af_exit(formula) {
        return Ok(());
    }
    if !is_open(alloc, certificate, graph)? {
        return Ok(());
    }
    let transitions = transitions_of(alloc, graph, inv)?;
    let premises = Premises {
        alloc,
        graph,
        inv,
        transitions: &transitions,
        labels: graph.labels(),
        delay: 1,
        synthesises: false,
    };
    if !premises.has_loop() {
        return Ok(());
    }
    by_guesses(&premises, formula, certificate)
}

/// The same of a certificate of `AF exit` whose cover has an undefined leaf.
fn by_guesses<D: NumDomain>(
    premises: &Premises<'_, D>,
    formula: &Formula,
    certificate: &mut Certificate,
) -> Result<(), AllocError>
    requires premises { ArePremises D.NumDomain.own premises.now }
    requires formula { ctl formula.now ≡ af_exit }
    requires certified { Certifies (length premises.now.graph.now.names) (statements premises.now.graph.now.body)
        (told_on D.NumDomain.own premises.now) (ctl formula.now) certificate.old.parts certificate.old.tops }
    ensures { Refines (length premises.now.graph.now.names) (statements premises.now.graph.now.body)
        (told_on D.NumDomain.own premises.now) (ctl formula.now) certificate.old certificate.new }
{
    let guesses = guesses(premises.alloc, premises.graph, premises.transitions)?;
    for guess in &guesses {
        if !try_guess(premises, formula, guess, certificate)? {
            return Ok(());
        }
    }
    Ok(())
}

/// Adds a family for the guess, if it comes to one, and answers whether the cover has an undefined leaf still.
fn try_guess<D: NumDomain>(
    premises: &Premises<'_, D>,
    formula: &Formula,
    guess: &Guess,
    certificate: &mut Certificate,
) -> Result<bool, AllocError>
    requires premises { ArePremises D.NumDomain.own premises.now }
    requires formula { ctl formula.now ≡ af_exit }
    requires certified { Certifies (length premises.now.graph.now.names) (statements premises.now.graph.now.body)
        (told_on D.NumDomain.own premises.now) (ctl formula.now) certificate.old.parts certificate.old.tops }
    ensures { Refines (length premises.now.graph.now.names) (statements premises.now.graph.now.body)
        (told_on D.NumDomain.own premises.now) (ctl formula.now) certificate.old certificate.new }
{
    let Some(family) = guessed(premises, formula, certificate, guess)? else {
        return Ok(true);
    };
    certificate.add(premises.alloc, family)?;
    is_open(premises.alloc, certificate, premises.graph)
}

/// The family that is added for the guess, if one is.
fn guessed<D: NumDomain>(
    premises: &Premises<'_, D>,
    formula: &Formula,
    certificate: &Certificate,
    guess: &Guess,
) -> Result<Option<Family<AffineRank>>, AllocError>
    requires premises { ArePremises D.NumDomain.own premises.now }
    ensures { IfOk result (λ found. IfSome found (Shows premises.now.graph.now (told_on D.NumDomain.own premises.now) (ctl formula.now) 2
        certificate.now.parts)) }
{
    let parts = certificate.parts.items();
    let (Some(hint), Some(last)) = (guess.hint(), certificate.tops.items().last()) else {
        return Ok(None);
    };
    let Some(trees) = proposed(premises, parts, last, &hint)? else {
        return Ok(None);
    };
    let found = rounds(premises, formula, parts, &hint, trees)?;
    Ok(found)
}

/// The trees that the hint proposes in place of the family at hand, over the families of the parts, if it proposes any.
fn proposed<D: NumDomain>(
    premises: &Premises<'_, D>,
    parts: &[Family<AffineRank>],
    current: &Family<AffineRank>,
    hint: &Hint,
) -> Result<Option<TreeList<AffineRank>>, AllocError>
    requires premises { ArePremises D.NumDomain.own premises.now }
    ensures { IfOk result (λ found. IfSome found (λ trees. length trees ≡ premises.now.labels)) }
{
    let (Some(keep), Some(goal)) = (parts.first(), parts.get(1)) else {
        return Ok(None);
    };
    let claims = Claims::of(premises.alloc, keep, goal)?;
    let operands = claims.operands(true);
    let variables = premises.graph.program().names.items().len() as u32;
    let trees = proposal(
        premises.alloc,
        premises.graph,
        premises.transitions,
        &operands,
        current.trees.items(),
        variables,
        hint,
    )?;
    Ok(trees)
}

/// What the check leaves of the trees, where it claims something under the hint's rows; and else, in at most eight rounds, of the trees with the leaf split
/// that fell first.
fn rounds<D: NumDomain>(
    premises: &Premises<'_, D>,
    formula: &Formula,
    parts: &[Family<AffineRank>],
    hint: &Hint,
    proposed: TreeList<AffineRank>,
) -> Result<Option<Family<AffineRank>>, AllocError>
    requires premises { ArePremises D.NumDomain.own premises.now }
    requires labels { length proposed ≡ premises.now.labels }
    ensures { IfOk result (λ found. IfSome found (Shows premises.now.graph.now (told_on D.NumDomain.own premises.now) (ctl formula.now) 2 parts.now)) }
{
    let mut trees = fitted(proposed, &premises.graph.program().names);
    let mut rounds = 0;
    while rounds < MOST_ROUNDS {
        let twins = copied(premises.alloc, &trees)?;
        let checked = premises.examined(formula, NUMBER, parts, twins)?;
        if claims_under(premises.alloc, &checked.family, hint)? {
            return Ok(Some(checked.family));
        }
        let Some(dropped) = checked.first else {
            return Ok(None);
        };
        let Some(next) = with_split(premises, trees, &dropped)? else {
            return Ok(None);
        };
        trees = next;
        rounds += 1;
    }
    Ok(None)
}

/// The trees with the leaf split that was dropped, where that was for a point whose rows are seen.
fn with_split<D: NumDomain>(
    premises: &Premises<'_, D>,
    trees: TreeList<AffineRank>,
    dropped: &Dropped,
) -> Result<Option<TreeList<AffineRank>>, AllocError>
    requires premises { ArePremises D.NumDomain.own premises.now }
    requires labels { length trees ≡ premises.now.labels }
    ensures fit { IfOk result (λ found. IfSome found (All (IsFit (length premises.now.graph.now.names)))) }
    ensures labels { IfOk result (λ found. IfSome found (λ split. length split ≡ premises.now.labels)) }
{
    let Some(tree) = split_at(premises, trees.items(), dropped)? else {
        return Ok(None);
    };
    let put = put(trees, dropped.label, tree);
    Ok(Some(fitted(put, &premises.graph.program().names)))
}

/// The tree of the dropped leaf with that split, where the reason is a point whose rows are seen and no number passes 128 bits.
fn split_at<D: NumDomain>(
    premises: &Premises<'_, D>,
    trees: &[Tree<AffineRank>],
    dropped: &Dropped,
) -> Result<Option<Tree<AffineRank>>, AllocError>
    requires premises { ArePremises D.NumDomain.own premises.now }
{
    let Reason::Point { num, den } = dropped.reason else {
        return Ok(None);
    };
    let (Some(tree), Some(transition)) = (
        trees.get(dropped.label as usize),
        premises.transitions.get(dropped.label as usize),
    ) else {
        return Ok(None);
    };
    let own = premises.inv.at(dropped.label).rows(premises.alloc)?;
    let fallen = Fallen {
        leaf: dropped.leaf,
        edge: dropped.edge,
        point: Point { num, den },
    };
    match split(premises.alloc, trees, tree, transition, &own, &fallen) {
        Ok(found) => Ok(found),
        Err(TreeFault::Memory(error)) => Err(error),
        Err(TreeFault::Full { .. } | TreeFault::Wide(_)) => Ok(None),
    }
}

/// Whether the family claims something at the hint's loop under its rows. The only error is want of memory.
fn claims_under(
    alloc: Global,
    family: &Family<AffineRank>,
    hint: &Hint,
) -> Result<bool, AllocError> {
    let Some(head) = family.trees.items().get(hint.label as usize) else {
        return Ok(false);
    };
    holds_under(alloc, head, &hint.split)
}

/// A copy of the trees. The only error is want of memory.
fn copied(alloc: Global, trees: &TreeList<AffineRank>) -> Result<TreeList<AffineRank>, AllocError>
    ensures { IfOk result (λ twins. twins ≡ trees.now) }
{
    let mut twins = Vec::new(alloc);
    for tree in trees.items() {
        let twin = tree.copy(alloc)?;
        twins.push(twin)?;
    }
    Ok(TreeList::of(twins))
}

/// The trees with this one at the label.
fn put(trees: TreeList<AffineRank>, label: u32, tree: Tree<AffineRank>) -> TreeList<AffineRank>
    ensures { length result ≡ length trees }
{
    let mut list = trees.into_vec();
    let at = label as usize;
    if at < list.len() {
        list[at] = tree;
    }
    TreeList::of(list)
}
