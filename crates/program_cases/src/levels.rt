//! Levels, their weights and their growths.
use crate::claims::push_trees;
use case_text::{Answer, Words};
use control_flow::Graph;
use decision_tree::Cause;
use std::alloc::{AllocError, Global};
use unroll::unroll;

/// Reads a number of tests, and adds the level that is made for it, why no further one is, and its trees.
pub fn push_level(
    alloc: Global,
    graph: &Graph,
    words: &mut Words<'_>,
    answer: &mut Answer,
) -> Result<(), AllocError> {
    let tests = words.count();
    if !graph.program().is_plain() {
        answer.push("not plain");
        return Ok(());
    }
    let level = unroll(alloc, graph, tests)?;
    answer.push("level ");
    answer.push_number(i128::from(level.tests));
    answer.push(why_stopped(&level.stopped));
    if let Some(family) = &level.family {
        push_trees(family.trees.items(), words, answer);
    }
    Ok(())
}

/// Why no further level was made.
fn why_stopped(cause: &Option<Cause>) -> &'static str {
    match cause {
        None => "",
        Some(Cause::Nodes { .. }) => ", then too many nodes",
        Some(Cause::Wide(_)) => ", then wide numbers",
        Some(_) => ", then another cause",
    }
}

/// Reads a number of tests, and adds the weight of its level.
pub fn push_weight(
    alloc: Global,
    graph: &Graph,
    words: &mut Words<'_>,
    answer: &mut Answer,
) -> Result<(), AllocError> {
    push_unsigned(alloc, graph.weight(words.count()), answer)
}

/// Reads a number of tests, and adds the growth of its level.
pub fn push_growth(
    alloc: Global,
    graph: &Graph,
    words: &mut Words<'_>,
    answer: &mut Answer,
) -> Result<(), AllocError> {
    let tests = words.count();
    if !graph.program().is_plain() {
        answer.push("not plain");
        return Ok(());
    }
    push_unsigned(alloc, graph.growth(tests), answer)
}

/// Adds the number.
pub fn push_unsigned(alloc: Global, number: u128, answer: &mut Answer) -> Result<(), AllocError> {
    let digits = format!(in alloc; "{number}")?;
    answer.push(digits.as_str());
    Ok(())
}
