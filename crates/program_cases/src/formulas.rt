//! Trees that are proposed for formulas.
ghost use Rattle.std.specs.Prelude.{◌≡◌, ◌≤◌, length};
ghost use Rattle.control_flow.specs.Transitions.{AreOnward};

use crate::claims::push_trees;
use crate::loops::DELAY;
use case_text::{Answer, Words, read_formula};
use control_flow::{Graph, Transition};
use ctl_formula::Formula;
use decision_tree::{AffineRank, Family, TreeList};
use forward_inv::{Inv, invariants, transitions_of};
use interval_dom::Boxes;
use part_trees::proposed;
use std::alloc::{AllocError, Global};

/// Reads a formula, and adds the trees that are proposed for it where nothing is checked on the way, of the labels that the line asks for.
pub fn push_proposed(
    alloc: Global,
    graph: &Graph,
    words: &mut Words<'_>,
    answer: &mut Answer,
) -> Result<(), AllocError> {
    let formula = read_formula(alloc, words)?;
    let inv: Inv<Boxes> = invariants(alloc, graph)?;
    let transitions = transitions_of(alloc, graph, &inv)?;
    let family = family_of(alloc, &inv, &transitions, &formula)?;
    push_trees(family.trees.items(), words, answer);
    Ok(())
}

/// The trees that are proposed for the formula, by those that are proposed for its parts.
fn family_of(
    alloc: Global,
    inv: &Inv<Boxes>,
    transitions: &[Transition],
    formula: &Formula,
) -> Result<Family<AffineRank>, AllocError>
    requires states { length inv.now ≡ length transitions.now }
    requires few { length transitions.now ≤ 1024 }
    requires onward { AreOnward transitions.now }
{
    let mut parts = Vec::new(alloc);
    match formula {
        Formula::True | Formula::False | Formula::Exit | Formula::NotExit | Formula::Holds(_) => {}
        Formula::Not(part) | Formula::Next { all: _, part } => {
            parts.push(family_of(alloc, inv, transitions, part)?)?;
        }
        Formula::And(first, second)
        | Formula::Or(first, second)
        | Formula::Until {
            all: _,
            keep: first,
            goal: second,
        }
        | Formula::Weak {
            all: _,
            keep: first,
            goal: second,
        } => {
            parts.push(family_of(alloc, inv, transitions, first)?)?;
            parts.push(family_of(alloc, inv, transitions, second)?)?;
        }
    }
    let trees: TreeList<AffineRank> = proposed(alloc, inv, transitions, formula, &parts, DELAY)?;
    Ok(Family { part: 0, trees })
}
