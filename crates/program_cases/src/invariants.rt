//! What is found at labels, and what edges keep of guesses.
use case_text::{Answer, Words, read_ends};
use control_flow::Graph;
use forward_inv::{Inv, inductive, invariants};
use interval_dom::Boxes;
use linear_cons::{Affine, Bounds, PLACES, Row, RowKind};
use num_domain::NumDomain;
use octagon_dom::Octagon;
use std::alloc::{AllocError, Global};

/// Reads labels, and adds for each, in a line, the ends of the first variables there, or `never` where boxes find that no store comes there.
pub fn push_boxes(
    alloc: Global,
    variables: u8,
    graph: &Graph,
    words: &mut Words<'_>,
    answer: &mut Answer,
) -> Result<(), AllocError> {
    let inv: Inv<Boxes> = invariants(alloc, graph)?;
    for _ in 0..words.len() {
        let label = words.count();
        if label >= graph.labels() {
            words.fail("no such label");
            return Ok(());
        }
        push_set(label, variables, inv.at(label), answer);
    }
    Ok(())
}

/// Adds a line with the ends of the first variables in the set of the label.
fn push_set(label: u32, variables: u8, set: &Boxes, answer: &mut Answer) {
    answer.part("\n");
    answer.push("at ");
    answer.push_number(i128::from(label));
    answer.push(" ");
    if set.is_empty() {
        answer.push("never");
    } else {
        answer.push_ends(&of_first(&set.bounds(), variables));
    }
}

/// The ends of the first variables alone.
fn of_first(bounds: &Bounds, variables: u8) -> Bounds {
    let mut ends = bounds.ends;
    for (place, both) in ends.iter_mut().enumerate() {
        if place >= variables as usize {
            *both = (None, None);
        }
    }
    Bounds { ends }
}

/// Adds the labels to which no store comes, as octagons find.
pub fn push_unreached(alloc: Global, graph: &Graph, answer: &mut Answer) -> Result<(), AllocError> {
    let inv: Inv<Octagon> = invariants(alloc, graph)?;
    for label in 0..graph.labels() {
        if inv.at(label).is_empty() {
            answer.part(" ");
            answer.push_number(i128::from(label));
        }
    }
    Ok(())
}

/// Reads the ends guessed at each label, and adds for each, in a line, those of the first variables that the edges keep.
pub fn push_kept(
    alloc: Global,
    variables: u8,
    graph: &Graph,
    words: &mut Words<'_>,
    answer: &mut Answer,
) -> Result<(), AllocError> {
    let mut guesses = Vec::new(alloc);
    for _ in 0..words.len() {
        if !words.takes("at") {
            break;
        }
        guesses.push(between(alloc, &read_ends(words))?)?;
    }
    let sets: Vec<Boxes> = inductive(alloc, graph, &guesses)?;
    for label in 0..graph.labels() {
        if let Some(set) = sets.get(label as usize) {
            push_set(label, variables, set, answer);
        }
    }
    Ok(())
}

/// The box between the ends.
fn between(alloc: Global, bounds: &Bounds) -> Result<Boxes, AllocError> {
    let mut set = Boxes::top(alloc)?;
    for place in 0..PLACES {
        let (low, high) = bounds.ends[place];
        if let Some(low) = low {
            meet_end(alloc, &mut set, place, (1, 0i128.saturating_sub(low)))?;
        }
        if let Some(high) = high {
            meet_end(alloc, &mut set, place, (-1, high))?;
        }
    }
    Ok(set)
}

/// Leaves the members at which the variable, times the first number, is at least 0 with the second added.
fn meet_end(
    alloc: Global,
    set: &mut Boxes,
    place: usize,
    (number, constant): (i128, i128),
) -> Result<(), AllocError> {
    let mut coef = [0; PLACES];
    if let Some(its) = coef.get_mut(place) {
        *its = number;
    }
    if let RowKind::Row(row) = Row::of(Affine { coef, constant }) {
        set.meet_row(alloc, &row)?;
    }
    Ok(())
}
