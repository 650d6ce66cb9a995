//! Candidates of countdown programs.
use crate::claims::push_trees;
use case_text::{Answer, Words};
use control_flow::Graph;
use count_down::candidate;
use std::alloc::{AllocError, Global};

/// Adds the trees of the candidate, or that there is none; and where there is one though the program is no countdown program, or none though it is, that too.
pub fn push_candidate(
    alloc: Global,
    graph: &Graph,
    words: &mut Words<'_>,
    answer: &mut Answer,
) -> Result<(), AllocError> {
    let found = candidate(alloc, graph)?;
    if found.is_some() != graph.program().is_countdown() {
        answer.push("against what the program is: ");
    }
    match &found {
        Some(family) => push_trees(family.trees.items(), words, answer),
        None => answer.push("none"),
    }
    Ok(())
}
