//! Labels behind one row, and their sets met with it.
ghost use Rattle.std.specs.Prelude.{◌≡◌, ◌≢◌, ◌↔◌, ℕ, ◌<◌, [], ◌∷◌, IfOk, OnOk, IfSome, Some, length, slice_get};
ghost use Rattle.linear_cons.specs.declared.row.Row.{Row};
ghost use Rattle.step_meaning.specs.Syntax.{statements};
ghost use Rattle.control_flow.specs.Labels.{all_labels};
ghost use Rattle.forward_inv.specs.Behind.{AreEntering, AreUnentered, IsBehind, IsEdgeOf, IsEntering, IsMetOnArrival, MeetsBehind, entered_by, noted};
ghost use Rattle.control_flow.specs.Invariants.{AreInvariants};

use control_flow::laws::edges_lead_to_labels;
use control_flow::{Edge, EdgeKind, Graph, Transition};
use linear_cons::{Row, Rows};
use linear_forms::laws::spreadings_cover;
use num_domain::NumDomain;
use std::alloc::{AllocError, Global};

/// The edges that lead to a label.
#[derive(Clone, Copy)]
pub(crate) enum Entering {
    NoEdge,
    OneEdge(Edge),
    Several,
}

/// Meets the set of each label that lies behind one row with the row. The error is want of memory.
pub(crate) fn meet_rows<D: NumDomain>(
    alloc: Global,
    graph: &Graph,
    states: &mut [D],
) -> Result<(), AllocError>
    requires { AreInvariants D.has (length graph.now.names) (statements graph.now.body) states.old }
    ensures members { OnOk result (AreInvariants D.has (length graph.now.names) (statements graph.now.body) states.new) }
    ensures behind { OnOk result ((label : ℕ) → MeetsBehind D.has (statements graph.now.body) states.new label) }
{
    let entering = edges_into(alloc, graph)?;
    for label in 0..graph.labels() {
        meet_row(alloc, graph, label, entering[label as usize], states)?;
    }
    Ok(())
}

/// Meets the label's set with the row that it lies behind, if there is one.
fn meet_row<D: NumDomain>(
    alloc: Global,
    graph: &Graph,
    label: u32,
    entering: Entering,
    states: &mut [D],
) -> Result<(), AllocError>
    requires inside { label < length (all_labels (statements graph.now.body)) }
    requires entered { IsEntering (IsEdgeOf (statements graph.now.body)) label entering }
    requires members { AreInvariants D.has (length graph.now.names) (statements graph.now.body) states.old }
    ensures members { OnOk result (AreInvariants D.has (length graph.now.names) (statements graph.now.body) states.new) }
    ensures behind { OnOk result (MeetsBehind D.has (statements graph.now.body) states.new label) }
    ensures others { OnOk result ((other : ℕ) → other ≢ label → slice_get states.new other ≡ slice_get states.old other) }
{
    if let Some(row) = row_behind(alloc, graph, label, entering, states)? {
        states[label as usize].meet_row(alloc, &row)?;
    }
    Ok(())
}

/// A row that each store meets with which the label is reached: the one that it lies behind, where it lies behind one.
fn row_behind<D: NumDomain>(
    alloc: Global,
    graph: &Graph,
    label: u32,
    entering: Entering,
    states: &[D],
) -> Result<Option<Row>, AllocError>
    requires entered { IsEntering (IsEdgeOf (statements graph.now.body)) label entering }
    requires members { AreInvariants D.has (length graph.now.names) (statements graph.now.body) states.now }
    ensures met { IfOk result (λ found. IfSome found (IsMetOnArrival (length graph.now.names) (statements graph.now.body) label)) }
    ensures each { IfOk result (λ found. (row : Row) → IsBehind (statements graph.now.body) label row → found ≡ Some row) }
{
    spreadings_cover();
    let Entering::OneEdge(edge) = entering else {
        return Ok(None);
    };
    let EdgeKind::Test { holds } = edge.kind else {
        return Ok(None);
    };
    if label == graph.entry() {
        return Ok(None);
    }
    let bounds = states[edge.from as usize].bounds();
    let transition = Transition::of(alloc, graph.action(edge.from), &bounds)?;
    Ok(only_row(transition.outcome(holds)))
}

/// The row of a lone conjunction of one row.
fn only_row(conjunctions: &[Rows]) -> Option<Row>
    ensures { (row : Row) → result ≡ Some row ↔ conjunctions.now ≡ (row ∷ []) ∷ [] }
{
    if conjunctions.len() != 1 {
        return None;
    }
    let rows = conjunctions[0].items();
    if rows.len() != 1 {
        return None;
    }
    Some(rows[0])
}

/// For each label the edges that lead to it.
fn edges_into(alloc: Global, graph: &Graph) -> Result<Vec<Entering>, AllocError>
    ensures { IfOk result (λ all. AreEntering (IsEdgeOf (statements graph.now.body)) (length (all_labels (statements graph.now.body))) all.items) }
{
    let mut all = Vec::new(alloc);
    for _ in 0..graph.labels() {
        all.push(Entering::NoEdge)?;
    }
    note_all(graph, &mut all);
    Ok(all)
}

/// Takes down each edge of the graph, for labels of which none was taken down.
fn note_all(graph: &Graph, all: &mut [Entering])
    requires { AreUnentered (length (all_labels (statements graph.now.body))) all.old }
    ensures { AreEntering (IsEdgeOf (statements graph.now.body)) (length (all_labels (statements graph.now.body))) all.new }
{
    edges_lead_to_labels();
    for label in 0..graph.labels() {
        let edges = graph.edges(label);
        note(all, edges[0]);
        note(all, edges[1]);
    }
}

/// Takes down one edge more, if there is one.
fn note(all: &mut [Entering], edge: Option<Edge>)
    requires { IfSome edge (λ edge. edge.to < length all.old) }
    ensures { all.new ≡ noted all.old edge }
{
    if let Some(edge) = edge {
        let entering = all[edge.to as usize];
        all[edge.to as usize] = entering.with(edge);
    }
}

impl Entering {
    /// With one edge more, which is none of them.
    fn with(self, edge: Edge) -> Entering
        ensures { result ≡ entered_by self edge }
    {
        match self {
            Entering::NoEdge => Entering::OneEdge(edge),
            Entering::OneEdge(_) | Entering::Several => Entering::Several,
        }
    }
}
