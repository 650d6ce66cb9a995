//! Sets that each edge keeps.
ghost use Rattle.std.specs.Prelude.{◌≡◌, ◌<◌, IfOk, IfSome, IsSomeAnd, IsTrue, length, slice_get, []};
ghost use Rattle.step_meaning.specs.Syntax.{statements};
ghost use Rattle.control_flow.specs.Edges.{EachEdge, edges_from};
ghost use Rattle.control_flow.specs.Labels.{action_at, all_labels};
ghost use Rattle.forward_inv.specs.Sets.{AreInductive, HoldEach, KeepsEdge, LeadsBy, kept_at};

use crate::guess::{Marks, all_marked, kept_rows, sets_of};
use crate::implied::{give_up, implies_all};
use crate::transfer::flow;
use control_flow::laws::edges_lead_to_labels;
use control_flow::{Edge, Graph, Transition};
use linear_cons::Row;
use num_domain::NumDomain;
use std::alloc::{AllocError, Global};

/// How often rows that aren't kept are given up, before every store is taken.
const TURNS: u32 = 32;

/// Sets for the labels of the program, of which that of the entry has every store, and into which each edge leads from that of its label.
/// They are met with those rows of the guesses that are seen to be kept: rows that an edge doesn't keep are given up, at most 32 times, and
/// then every store is taken. There is a guess for each label, of which nothing is asked. The only error is want of memory.
pub fn inductive<D: NumDomain>(
    alloc: Global,
    graph: &Graph,
    guesses: &[D],
) -> Result<Vec<D>, AllocError>
    ensures { IfOk result (λ sets. AreInductive D.has (statements graph.now.body) sets.items) }
{
    let mut marks = all_marked(alloc, guesses, graph.entry())?;
    for _ in 0..TURNS {
        let sets = sets_of(alloc, guesses, &marks, graph.labels())?;
        if are_inductive(alloc, graph, guesses, &marks, &sets)? {
            return Ok(sets);
        }
        let fewer = weaker(alloc, graph, guesses, &marks, &sets)?;
        marks = fewer;
    }
    let sets = tops(alloc, graph)?;
    Ok(sets)
}

/// Every store at each label.
fn tops<D: NumDomain>(alloc: Global, graph: &Graph) -> Result<Vec<D>, AllocError>
    ensures { IfOk result (λ sets. AreInductive D.has (statements graph.now.body) sets.items) }
{
    edges_lead_to_labels();
    let mut sets = Vec::new(alloc);
    for _ in 0..graph.labels() {
        sets.push(D::top(alloc)?)?;
    }
    Ok(sets)
}

/// True only where the sets of the rows that are kept are inductive.
fn are_inductive<D: NumDomain>(
    alloc: Global,
    graph: &Graph,
    guesses: &[D],
    marks: &[Marks],
    sets: &[D],
) -> Result<bool, AllocError>
    requires holds { HoldEach D.has (kept_at D.told_rows guesses.now marks.now) sets.now }
    requires count { length sets.now ≡ length (all_labels (statements graph.now.body)) }
    ensures { IfOk result (λ kept. IsTrue kept → AreInductive D.has (statements graph.now.body) sets.now) }
{
    edges_lead_to_labels();
    let free = kept_rows(alloc, guesses, marks, graph.entry())?;
    if !has_no_row(&free) {
        return Ok(false);
    }
    for label in 0..graph.labels() {
        if !are_kept(alloc, graph, label, guesses, marks, sets)? {
            return Ok(false);
        }
    }
    Ok(true)
}

/// True only where the list is empty.
fn has_no_row(rows: &[Row]) -> bool
    ensures { IsTrue result → rows.now ≡ [] }
{
    rows.is_empty()
}

/// True only where each edge of the label leads from its set into that of its target.
fn are_kept<D: NumDomain>(
    alloc: Global,
    graph: &Graph,
    label: u32,
    guesses: &[D],
    marks: &[Marks],
    sets: &[D],
) -> Result<bool, AllocError>
    requires within { label < length (all_labels (statements graph.now.body)) }
    requires holds { HoldEach D.has (kept_at D.told_rows guesses.now marks.now) sets.now }
    ensures { IfOk result (λ kept. IsTrue kept → EachEdge (KeepsEdge D.has (statements graph.now.body) sets.now label) (edges_from label (action_at (statements graph.now.body) label))) }
{
    let Some(set) = sets.get(label as usize) else {
        return Ok(false);
    };
    let transition = Transition::of(alloc, graph.action(label), &set.bounds())?;
    let [first, second] = graph.edges(label);
    if !is_kept(alloc, &transition, set, first, guesses, marks, sets)? {
        return Ok(false);
    }
    let kept = is_kept(alloc, &transition, set, second, guesses, marks, sets)?;
    Ok(kept)
}

/// The same of one edge, if there is one, by the transition over the bounds of its label's set.
fn is_kept<D: NumDomain>(
    alloc: Global,
    transition: &Transition,
    set: &D,
    edge: Option<Edge>,
    guesses: &[D],
    marks: &[Marks],
    sets: &[D],
) -> Result<bool, AllocError>
    requires holds { HoldEach D.has (kept_at D.told_rows guesses.now marks.now) sets.now }
    ensures { IfOk result (λ kept. IsTrue kept → IfSome edge (λ edge. IsSomeAnd (slice_get sets.now edge.to) (λ target.
        LeadsBy (D.told_bounds set.now) transition.now edge.kind (D.has set.now) (D.has target)))) }
{
    let Some(edge) = edge else {
        return Ok(true);
    };
    if edge.to as usize >= sets.len() {
        return Ok(false);
    }
    let moved = flow(alloc, transition, edge.kind, set)?;
    let rows = kept_rows(alloc, guesses, marks, edge.to)?;
    let kept = implies_all(alloc, &moved, &rows)?;
    Ok(kept)
}

/// Of the rows that are kept those that the edges lead into, as far as is seen.
fn weaker<D: NumDomain>(
    alloc: Global,
    graph: &Graph,
    guesses: &[D],
    marks: &[Marks],
    sets: &[D],
) -> Result<Vec<Marks>, AllocError> {
    let mut fewer = Vec::with_capacity(alloc, marks.len())?;
    for marks in marks {
        fewer.push(marks.copy(alloc)?)?;
    }
    for label in 0..graph.labels() {
        let Some(set) = sets.get(label as usize) else {
            continue;
        };
        let transition = Transition::of(alloc, graph.action(label), &set.bounds())?;
        for edge in graph.edges(label) {
            let Some(edge) = edge else {
                continue;
            };
            let (Some(guess), Some(marks)) = (
                guesses.get(edge.to as usize),
                fewer.get_mut(edge.to as usize),
            ) else {
                continue;
            };
            let moved = flow(alloc, &transition, edge.kind, set)?;
            give_up(alloc, marks, &moved, &guess.rows(alloc)?)?;
        }
    }
    Ok(fewer)
}
