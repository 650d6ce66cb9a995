//! Measures of formulas.
use crate::levels::push_unsigned;
use case_text::{Answer, Words, read_formula};
use control_flow::Graph;
use ctl_formula::Formula;
use formula_measures::{greatest_size, growth, part_size};
use std::alloc::{AllocError, Global};

/// Reads a formula, and adds its sizes at the labels, the greatest of its parts', and its growth.
pub fn push_measures(
    alloc: Global,
    graph: &Graph,
    words: &mut Words<'_>,
    answer: &mut Answer,
) -> Result<(), AllocError> {
    let formula = read_formula(alloc, words)?;
    push_measured(alloc, graph, &formula, answer)
}

/// The same of the formula.
fn push_measured(
    alloc: Global,
    graph: &Graph,
    formula: &Formula,
    answer: &mut Answer,
) -> Result<(), AllocError> {
    if !graph.program().is_plain() {
        answer.push("not plain");
        return Ok(());
    }
    answer.push("sizes");
    push_sizes(alloc, graph, formula, answer)?;
    answer.push(" greatest ");
    push_unsigned(alloc, greatest_size(alloc, graph, formula)?, answer)?;
    answer.push(" growth ");
    push_unsigned(alloc, growth(graph, formula), answer)
}

/// Adds the formula's sizes at the labels.
fn push_sizes(
    alloc: Global,
    graph: &Graph,
    formula: &Formula,
    answer: &mut Answer,
) -> Result<(), AllocError> {
    for label in 0..graph.labels() {
        answer.push(" ");
        push_unsigned(alloc, part_size(alloc, graph, formula, label)?, answer)?;
    }
    Ok(())
}
