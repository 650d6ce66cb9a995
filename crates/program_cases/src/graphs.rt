//! Labels and edges.
use case_text::Answer;
use control_flow::{Choice, Edge, EdgeKind, FlowFault, Graph};
use std::alloc::{AllocError, Global};
use step_meaning::Program;

/// Adds the number of labels, or why there is no graph, with the offset of the statement.
pub fn push_graph(alloc: Global, program: Program, answer: &mut Answer) -> Result<(), AllocError> {
    match Graph::of(alloc, program) {
        Ok(graph) => push_counted(graph.labels(), " labels", answer),
        Err(FlowFault::Labels { at, count }) => {
            push_counted(count, " labels at ", answer);
            answer.push_number(i128::from(at));
        }
        Err(FlowFault::Conjunctions { at, count }) => {
            push_counted(count, " conjunctions at ", answer);
            answer.push_number(i128::from(at));
        }
        Err(FlowFault::Memory(error)) => return Err(error),
    }
    Ok(())
}

fn push_counted(count: u32, of_what: &str, answer: &mut Answer) {
    answer.push_number(i128::from(count));
    answer.push(of_what);
}

/// Adds the edges from each label in a line, which begins with the label.
pub fn push_edges(graph: &Graph, answer: &mut Answer) {
    for label in 0..graph.labels() {
        answer.part("\n");
        answer.push_number(i128::from(label));
        answer.push(":");
        for edge in graph.edges(label).iter().flatten() {
            push_edge(edge, label, answer);
        }
    }
}

/// Adds what is done along the edge from the label, and where it leads.
fn push_edge(edge: &Edge, from: u32, answer: &mut Answer) {
    if edge.from != from {
        answer.push(" from another label");
    }
    answer.push(match edge.kind {
        EdgeKind::Assign => " assign ",
        EdgeKind::Test { holds: true } => " yes ",
        EdgeKind::Test { holds: false } => " no ",
        EdgeKind::Skip => " skip ",
    });
    answer.push_number(i128::from(edge.to));
}

/// Adds what each label is in a line, and which one is the entry.
pub fn push_labels(graph: &Graph, answer: &mut Answer) {
    for label in 0..graph.labels() {
        answer.part("\n");
        answer.push_number(i128::from(label));
        answer.push(":");
        push_if(label == graph.entry(), " entry", answer);
        push_if(graph.is_head(label), " head", answer);
        push_if(graph.test(label).is_some(), " test", answer);
        push_if(graph.assigned(label).is_some(), " assigned", answer);
        answer.push(match graph.choice(label) {
            Choice::None => "",
            Choice::Branch => " branch",
            Choice::Range { .. } => " range",
        });
    }
}

fn push_if(is_so: bool, word: &str, answer: &mut Answer) {
    answer.push(if is_so { word } else { "" });
}
