//! The call `check F over ITEMS with TREES claims TREES`, the check of a family for the formula F over the program with these items in its `main`, with boxes
//! as its invariants. Behind each `with` stands the family of an operand, and behind `claims` the one that is checked. TREES is `at N T` for the tree of the
//! label N, and `all T` for that of each label; nothing is claimed where none stands. The answer is which leaves are given up, one after the other, and
//! behind `leaves` the trees that lost some. `first` in place of `check` answers the leaf that is given up first alone, and the kind of its reason.
ghost use Rattle.std.specs.Prelude.{ℕ, ◌-◌, ◌<◌, ◌^◌, IsTrue, map};
ghost use Rattle.decision_tree.specs.Plans.{leaves_of, plan_of};
ghost use Rattle.tree_support.specs.Setting.{trees_in};

use crate::families::{read_operands, read_trees};
use crate::graphs::read_graph;
use case_text::{Answer, Words, read_formula};
use constraint_stack::Reason;
use control_flow::Graph;
use ctl_formula::Formula;
use decision_tree::{AffineRank, Family, Tree, TreeList};
use forward_inv::{Inv, invariants};
use interval_dom::Boxes;
use std::alloc::{AllocError, Global};
use tree_check::check;
use tree_support::Dropped;

/// The number of the family that is checked, which the check doesn't read.
const CHECKED: u32 = 2;

/// The edge number of a system that has no edge.
const UNEDGED: u32 = 2;

/// Makes the call of that name and writes its answer; false where none has the name.
pub fn answers(
    alloc: Global,
    name: &str,
    words: &mut Words<'_>,
    answer: &mut Answer,
) -> Result<bool, AllocError> {
    let asks_first = name == "first";
    if name != "check" && !asks_first {
        return Ok(false);
    }
    let formula = read_formula(alloc, words)?;
    words.expect("over");
    if let Some(graph) = read_graph(alloc, words)? {
        push_check(alloc, &graph, &formula, asks_first, words, answer)?;
    }
    Ok(true)
}

/// Reads the families, and writes what the check does, or which leaf it gives up first.
fn push_check(
    alloc: Global,
    graph: &Graph,
    formula: &Formula,
    asks_first: bool,
    words: &mut Words<'_>,
    answer: &mut Answer,
) -> Result<(), AllocError> {
    let operands = read_operands(alloc, graph.labels(), words)?;
    words.expect("claims");
    let trees = read_trees(alloc, graph.labels(), words)?;
    if trees.len() != graph.labels() as usize || !are_countable(&trees) {
        words.fail("too many leaves");
        return Ok(());
    }
    let inv: Inv<Boxes> = invariants(alloc, graph)?;
    let mut family = Family {
        part: CHECKED,
        trees: TreeList::of(trees),
    };
    let drops = check(alloc, graph, &inv, formula, &operands, &mut family)?;
    if asks_first {
        push_first(&drops, answer);
    } else {
        push_drops(&drops, answer);
        push_changed(family.trees.items(), &drops, answer);
    }
    Ok(())
}

/// Each tree has fewer leaves than a number can count.
fn are_countable(trees: &[Tree<AffineRank>]) -> bool
    ensures { IsTrue result → (label : ℕ) → leaves_of (trees_in (map plan_of trees.now) label) < 2 ^ 64 - 1 }
{
    for tree in trees {
        if tree.leaves() == u64::MAX {
            return false;
        }
    }
    true
}

/// Writes which leaves are given up, each in a line.
fn push_drops(drops: &[Dropped], answer: &mut Answer) {
    if drops.is_empty() {
        answer.push("nothing is given up");
    }
    for drop in drops {
        answer.part("\n");
        push_place(drop, answer);
        push_reason(&drop.reason, answer);
    }
}

/// Writes which leaf is given up, before its reason.
fn push_place(drop: &Dropped, answer: &mut Answer) {
    answer.push("gives up ");
    answer.push_number(i128::from(drop.leaf));
    answer.push(" at ");
    answer.push_number(i128::from(drop.label));
    answer.push(if drop.edge == UNEDGED { "" } else { " over " });
    answer.push(word_of(drop.edge));
    answer.push(" for ");
}

/// Writes which leaf is given up first, and the kind of its reason.
fn push_first(drops: &[Dropped], answer: &mut Answer) {
    let Some(drop) = drops.first() else {
        return answer.push("nothing is given up");
    };
    push_place(drop, answer);
    answer.push(match drop.reason {
        Reason::Point { .. } => "a point",
        Reason::Wide(_) => "a wide number",
        Reason::Rows { .. } => "rows",
    });
}

/// The word of an edge: the first or the second of its label.
fn word_of(edge: u32) -> &'static str {
    match edge {
        0 => "the first edge",
        1 => "the second edge",
        _ => "",
    }
}

fn push_reason(reason: &Reason, answer: &mut Answer) {
    match reason {
        Reason::Point { .. } => answer.push("a point"),
        Reason::Wide(wide) => answer.push_wide(wide),
        Reason::Rows { count } => {
            answer.push("rows ");
            answer.push_number(i128::from(*count));
        }
    }
}

/// Writes the trees of the labels at which a leaf was given up.
fn push_changed(trees: &[Tree<AffineRank>], drops: &[Dropped], answer: &mut Answer) {
    for (label, tree) in trees.iter().enumerate() {
        if drops.iter().any(|drop| drop.label as usize == label) {
            answer.push("\nleaves at ");
            answer.push_number(label as i128);
            answer.push(" ");
            answer.push_tree(tree);
        }
    }
}
