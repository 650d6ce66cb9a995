//! Calls of the layers of the analysis on small programs, as lines say them. Behind each call stand the items of a program's `main` as a text, and x and y are
//! its first two variables.
//! - `graph` says how many labels the program has, or the statement with which it has too many labels, or with whose test it has too many conjunctions.
//! - `edges` has the edges from each label, and `labels` what each label is.
//! - `candidate` has the trees of the candidate, or says that there is none. Behind it `at N` asks for the tree of that label alone, as behind `level`.
//! - `level N` says which level is made where that one is asked for, and why no further one is, and has its trees.
//! - `weight N` and `growth N` are those of that level, and `plain` says whether there are levels.
//! - `measures FORMULA` has the formula's sizes at the labels from 0 on, the greatest of a part, and its growth.
//! - `boxes N ..` has the ends of the program's variables at those labels.
//! - `unreached` has the labels that no store comes to, as octagons see it.
//! - `kept at ENDS at ENDS ..` has the ends that the edges keep of those guessed at the labels from 0 on.
//! - `swept X Y and X Y ..` is how many steps the sweeps claim for these x and y.
//! - `proposed FORMULA` has the trees that are proposed for the formula and its parts. Behind it `at N` asks for the tree of that label alone.
//! - `facts` has the facts about the loops' tests.
//! - `proposal N where R and R turns F claims X Y and X Y ..` is how many steps the trees that this hint proposes claim at the label N.
//! - `beside N where R and R turns F anew M anew M .. at L claims X Y and X Y ..` is the same of the label L and of what the hint proposes beside trees that are those of
//!   the sweeps at loops' tests and claim at once, with no step, at the other labels. The trees of those labels M are made anew too.
//!
//! It is for programs that are told in lines what to do, and promises nothing but that each call returns. The front door: `answers`.
#![tactic(auto)]

mod candidates;
mod claims;
mod formulas;
mod graphs;
mod invariants;
mod levels;
mod loops;
mod measures;
mod programs;

use crate::programs::{graph_of, read_program};
use case_text::{Answer, Words};
use control_flow::Graph;
use std::alloc::{AllocError, Global};
use step_meaning::Program;

/// Makes the call of that name on the items and writes its answer; false where none has the name.
pub fn answers(
    alloc: Global,
    name: &str,
    words: &mut Words<'_>,
    items: &[u8],
    answer: &mut Answer,
) -> Result<bool, AllocError> {
    let Some(program) = read_program(alloc, items)? else {
        words.fail("no program");
        return Ok(true);
    };
    match name {
        "graph" => graphs::push_graph(alloc, program, answer)?,
        "plain" => answer.push_yes_or_no(program.is_plain()),
        _ => return of_program(alloc, name, words, program, answer),
    }
    Ok(true)
}

/// The same for the calls on a program that has a graph.
fn of_program(
    alloc: Global,
    name: &str,
    words: &mut Words<'_>,
    program: Program,
    answer: &mut Answer,
) -> Result<bool, AllocError> {
    match graph_of(alloc, program, words)? {
        Some(graph) => of_graph(alloc, name, words, &graph, answer),
        None => Ok(true),
    }
}

/// The same for the calls on a graph.
fn of_graph(
    alloc: Global,
    name: &str,
    words: &mut Words<'_>,
    graph: &Graph,
    answer: &mut Answer,
) -> Result<bool, AllocError> {
    let written = match name {
        "edges" => Ok(graphs::push_edges(graph, answer)),
        "labels" => Ok(graphs::push_labels(graph, answer)),
        "candidate" => candidates::push_candidate(alloc, graph, words, answer),
        "level" => levels::push_level(alloc, graph, words, answer),
        "weight" => levels::push_weight(alloc, graph, words, answer),
        "growth" => levels::push_growth(alloc, graph, words, answer),
        "measures" => measures::push_measures(alloc, graph, words, answer),
        _ => return of_sets(alloc, name, words, graph.program().vars(), graph, answer),
    };
    written?;
    Ok(true)
}

/// The same for the calls on a program with so many variables that begin with what holds at its labels.
fn of_sets(
    alloc: Global,
    name: &str,
    words: &mut Words<'_>,
    variables: u8,
    graph: &Graph,
    answer: &mut Answer,
) -> Result<bool, AllocError> {
    let written = match name {
        "boxes" => invariants::push_boxes(alloc, variables, graph, words, answer),
        "unreached" => invariants::push_unreached(alloc, graph, answer),
        "kept" => invariants::push_kept(alloc, variables, graph, words, answer),
        "swept" => loops::push_swept(alloc, graph, words, answer),
        "proposed" => formulas::push_proposed(alloc, graph, words, answer),
        "facts" => loops::push_facts(alloc, variables, graph, answer),
        "proposal" => loops::push_proposal(alloc, variables, graph, words, answer),
        "beside" => loops::push_beside(alloc, variables, graph, words, answer),
        _ => return Ok(false),
    };
    written?;
    Ok(true)
}
