//! What sweeps claim, facts of loops, and what hints propose.
ghost use Rattle.std.specs.Prelude.{◌≡◌, ◌≤◌, length};
ghost use Rattle.control_flow.specs.Transitions.{AreOnward};

use crate::claims::push_claims;
use advice::{FactKind, Hint, LoopFact};
use backward_sweeps::{at_once, is_given, swept};
use case_text::{Answer, Words, read_function, read_rows};
use control_flow::{Graph, Transition};
use ctl_formula::Formula;
use decision_tree::{AffineRank, Tree, TreeList, Why};
use forward_inv::{Inv, invariants, transitions_of};
use interval_dom::Boxes;
use linear_cons::Row;
use loop_facts::{Facts, holds_under, proposal, proposal_beside};
use part_trees::{Claims, proposed};
use std::alloc::{AllocError, Global};

/// How many sweeps are made before trees are widened.
pub(crate) const DELAY: u32 = 2;

/// Adds what the trees of the sweeps claim at the entry.
pub fn push_swept(
    alloc: Global,
    graph: &Graph,
    words: &mut Words<'_>,
    answer: &mut Answer,
) -> Result<(), AllocError> {
    let inv: Inv<Boxes> = invariants(alloc, graph)?;
    let transitions = transitions_of(alloc, graph, &inv)?;
    let claims = claims_of_end(alloc, &inv, &transitions)?;
    let trees = swept(alloc, &inv, &transitions, &claims.operands(true), DELAY)?;
    match trees.items().get(graph.entry() as usize) {
        Some(tree) => push_claims(tree, words, answer),
        None => words.fail("no tree at the entry"),
    }
    Ok(())
}

/// What the claim that every run ends is made of.
fn claims_of_end(
    alloc: Global,
    inv: &Inv<Boxes>,
    transitions: &[Transition],
) -> Result<Claims, AllocError>
    requires states { length inv.now ≡ length transitions.now }
    requires few { length transitions.now ≤ 1024 }
    requires onward { AreOnward transitions.now }
{
    let keep = proposed(alloc, inv, transitions, &Formula::True, &[], DELAY)?;
    let goal = proposed(alloc, inv, transitions, &Formula::Exit, &[], DELAY)?;
    Claims::of_trees(alloc, keep.items(), goal.items())
}

/// Adds the facts about the tests of loops, each in a line.
pub fn push_facts(
    alloc: Global,
    variables: u8,
    graph: &Graph,
    answer: &mut Answer,
) -> Result<(), AllocError> {
    let inv: Inv<Boxes> = invariants(alloc, graph)?;
    let transitions = transitions_of(alloc, graph, &inv)?;
    let facts = Facts::of(alloc, graph, &inv, &transitions, u32::from(variables))?;
    if facts.guards.is_empty() {
        answer.push("none");
    }
    for fact in &facts.guards {
        answer.part("\n");
        push_fact(alloc, fact, answer)?;
    }
    Ok(())
}

/// Adds the fact's label, its measure and the rows where it falls.
fn push_fact(alloc: Global, fact: &LoopFact, answer: &mut Answer) -> Result<(), AllocError> {
    answer.push(match fact.kind {
        FactKind::Guard => "at ",
        FactKind::Range => "range at ",
    });
    answer.push_number(i128::from(fact.label));
    answer.push(" ");
    answer.push_function(&fact.measure);
    answer.push(" falls where ");
    let falls: Vec<Row> = fact.falls.iter().flatten().copied().collect(alloc)?;
    answer.push_rows(&falls);
    Ok(())
}

/// Reads a hint, and adds what the trees that it proposes claim at its label, or that it proposes none.
pub fn push_proposal(
    alloc: Global,
    variables: u8,
    graph: &Graph,
    words: &mut Words<'_>,
    answer: &mut Answer,
) -> Result<(), AllocError> {
    let hint = read_hint(alloc, words)?;
    let Some(trees) = hinted(alloc, variables, graph, &hint, None)? else {
        answer.push("none");
        return Ok(());
    };
    let Some(tree) = trees.items().get(hint.label as usize) else {
        words.fail("no tree at the label");
        return Ok(());
    };
    if !holds_under(alloc, tree, &hint.split)? {
        answer.push("nothing under the rows");
    }
    words.expect("claims");
    push_claims(tree, words, answer);
    Ok(())
}

/// Reads a hint, which labels are made anew and a label, and adds what the trees that the hint proposes beside some at hand claim there, or that it proposes none.
pub fn push_beside(
    alloc: Global,
    variables: u8,
    graph: &Graph,
    words: &mut Words<'_>,
    answer: &mut Answer,
) -> Result<(), AllocError> {
    let hint = read_hint(alloc, words)?;
    let anew = read_anew(alloc, graph, words)?;
    words.expect("at");
    let label = words.count();
    let Some(trees) = hinted(alloc, variables, graph, &hint, Some(&anew))? else {
        answer.push("none");
        return Ok(());
    };
    let Some(tree) = trees.items().get(label as usize) else {
        words.fail("no tree at the label");
        return Ok(());
    };
    words.expect("claims");
    push_claims(tree, words, answer);
    Ok(())
}

/// Reads labels, each behind `anew`, as marks.
fn read_anew(alloc: Global, graph: &Graph, words: &mut Words<'_>) -> Result<Vec<bool>, AllocError> {
    let mut anew = vec![in alloc; false; graph.labels() as usize]?;
    for _ in 0..words.len() {
        if !words.takes("anew") {
            break;
        }
        match anew.get_mut(words.count() as usize) {
            Some(mark) => *mark = true,
            None => words.fail("no such label"),
        }
    }
    Ok(anew)
}

/// The trees that the hint proposes in place of those of the sweeps; or, where marks are given, beside those of the sweeps at loops' tests and some that claim at once
/// at the other labels.
fn hinted(
    alloc: Global,
    variables: u8,
    graph: &Graph,
    hint: &Hint,
    anew: Option<&[bool]>,
) -> Result<Option<TreeList<AffineRank>>, AllocError> {
    let inv: Inv<Boxes> = invariants(alloc, graph)?;
    let transitions = transitions_of(alloc, graph, &inv)?;
    let claims = claims_of_end(alloc, &inv, &transitions)?;
    let operands = claims.operands(true);
    let swept = swept(alloc, &inv, &transitions, &operands, DELAY)?;
    let variables = u32::from(variables);
    match anew {
        None => proposal(
            alloc,
            graph,
            &transitions,
            &operands,
            swept.items(),
            variables,
            hint,
        ),
        Some(anew) => {
            let trees = at_hand(alloc, &transitions, swept)?;
            proposal_beside(
                alloc,
                graph,
                &transitions,
                &operands,
                &trees,
                anew,
                variables,
                hint,
            )
        }
    }
}

/// The trees with one that claims at once in place of each that is made of those that follow.
fn at_hand(
    alloc: Global,
    transitions: &[Transition],
    trees: TreeList<AffineRank>,
) -> Result<Vec<Tree<AffineRank>>, AllocError> {
    let mut trees = trees.into_vec();
    for (tree, transition) in trees.iter_mut().zip(transitions) {
        if !is_given(transition) {
            *tree = at_once(alloc, Why::Atom)?;
        }
    }
    Ok(trees)
}

/// Reads a label, `where` and at most four rows, `turns` and a function.
fn read_hint(alloc: Global, words: &mut Words<'_>) -> Result<Hint, AllocError> {
    let label = words.count();
    words.expect("where");
    let rows = read_rows(alloc, words)?;
    words.expect("turns");
    let turns = read_function(words);
    Ok(Hint {
        label,
        split: [
            rows.get(0).copied(),
            rows.get(1).copied(),
            rows.get(2).copied(),
            rows.get(3).copied(),
        ],
        turns,
    })
}
