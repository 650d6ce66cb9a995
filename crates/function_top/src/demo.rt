//! The analysis of a demo program, and its summary.

ghost use Rattle.std.specs.Prelude.{◌≡◌, ◌≤◌, ◌++◌, ◌∷◌, ◌^◌, ◌+◌, [], All, IfOk, OnOk, length};
ghost use Rattle.step_meaning.specs.Syntax.{statements};
ghost use Rattle.line_text.specs.Numeral.{numeral};
ghost use Rattle.report_text.specs.Printed.{ended_lines};
ghost use Rattle.ctl_rounds.specs.Asked.{AreAskedAlike};
ghost use Rattle.demo_program.specs.Demo.{demo_body, demo_names, demo_text};
ghost use Rattle.function_top.specs.Demo.{IsDemoDue, summary_lines};

use crate::finding::find;
use crate::output::Output;
use crate::report::shown;
use crate::status::Status;
use advice::Adviser;
use command_words::{Domain, Query};
use control_flow::Graph;
use ctl_formula::Formula;
use demo_program::demo_text;
use demo_program::laws::{
    demo_programs_count_down, demo_programs_have_few_labels, demo_texts_are_programs,
    demo_texts_are_short,
};
use interval_dom::Boxes;
use line_text::push_numeral;
use report_text::Report;
use source_parse::{a_text_is_one_program, parse};
use std::alloc::{AllocError, Global};
use step_meaning::Program;

/// What is asked of an analysis where nothing is chosen.
const DEFAULTS: Query<'static> = Query {
    domain: Domain::Boxes,
    delay: 2,
    formula: None,
    input: None,
    explain: false,
    refine: false,
};

/// The summary of the report on the demo program of a number, analysed with the defaults. The only error is want of memory; the advisers may have
/// been asked by then.
pub(crate) fn demo(
    alloc: Global,
    number: u32,
    advisers: &mut Vec<Box<dyn Adviser>>,
) -> Result<Output, AllocError>
    requires few { number ≤ 1000 }
    requires patient { All (λ adviser. asked_of adviser ≤ 2 ^ 32) advisers.old.items }
    ensures due { IfOk result (λ due. IsDemoDue number due.turns due.bytes.items) }
    ensures status { IfOk result (λ due. due.status ≡ Status.AllInputs) }
    ensures asked { AreAskedAlike (λ adviser. asked_of adviser) advisers.old.items advisers.new.items (λ times. IfOk result (λ due. due.turns ≡ times)) }
{
    let text = demo_text(alloc, number)?;
    let graph = demo_graph(alloc, number, &text)?;
    summarised(alloc, number, text.len(), &graph, advisers)
}

/// The graph of the demo program of a number, by its text. The only error is want of memory.
fn demo_graph(alloc: Global, number: u32, text: &[u8]) -> Result<Graph, AllocError>
    requires few { number ≤ 1000 }
    requires text { text.now ≡ demo_text number }
    ensures names { IfOk result (λ graph. graph.names ≡ demo_names) }
    ensures body { IfOk result (λ graph. statements graph.body ≡ demo_body number) }
{
    demo_texts_are_programs();
    demo_texts_are_short();
    a_text_is_one_program();
    // by the laws the text is a program within the limits, so that nothing but memory can be wanting
    match parse(alloc, text) {
        Ok(program) => Ok(graph_of(alloc, program)?),
        Err(_) => Err(AllocError),
    }
}

/// The graph of a program.
fn graph_of(alloc: Global, program: Program) -> Result<Graph, AllocError>
    ensures { IfOk result (λ graph. graph ≡ program) }
{
    match Graph::of(alloc, program) {
        Ok(graph) => Ok(graph),
        Err(_) => Err(AllocError),
    }
}

/// The summary of the report on a demo program with its graph, whose text has so many bytes.
fn summarised(
    alloc: Global,
    number: u32,
    bytes: usize,
    graph: &Graph,
    advisers: &mut Vec<Box<dyn Adviser>>,
) -> Result<Output, AllocError>
    requires few { number ≤ 1000 }
    requires names { graph.now.names ≡ demo_names }
    requires body { statements graph.now.body ≡ demo_body number }
    requires bytes { bytes ≡ length (demo_text number) }
    requires patient { All (λ adviser. asked_of adviser ≤ 2 ^ 32) advisers.old.items }
    ensures due { IfOk result (λ due. IsDemoDue number due.turns due.bytes.items) }
    ensures status { IfOk result (λ due. due.status ≡ Status.AllInputs) }
    ensures asked { AreAskedAlike (λ adviser. asked_of adviser) advisers.old.items advisers.new.items (λ times. IfOk result (λ due. due.turns ≡ times)) }
{
    demo_programs_count_down();
    demo_programs_have_few_labels();
    let formula = Formula::af_exit(alloc)?;
    let found = find::<Boxes>(alloc, &DEFAULTS, &formula, graph, advisers)?;
    let report = shown(alloc, &found, None, &graph.program().names)?;
    Ok(Output {
        bytes: summary(alloc, number, bytes, graph.labels(), &report)?,
        status: Status::AllInputs,
        turns: found.turns,
    })
}

/// The summary of a report that covers all inputs, on the demo program of a number with so many labels, whose text has so many bytes.
fn summary(
    alloc: Global,
    number: u32,
    bytes: usize,
    labels: u32,
    report: &Report,
) -> Result<Vec<u8>, AllocError>
    ensures { IfOk result (λ text. text.items ≡ ended_lines (summary_lines number bytes labels (length report.now.proved))) }
{
    let mut text = Vec::new(alloc);
    push_counted(&mut text, b"demo ", u64::from(number))?;
    push_counted(&mut text, b"bytes ", bytes as u64)?;
    push_counted(&mut text, b"labels ", u64::from(labels))?;
    push_counted(
        &mut text,
        b"proved lines ",
        report.proved.items().len() as u64,
    )?;
    text.extend_from_slice(b"verdict: all inputs\n")?;
    Ok(text)
}

/// Appends a line of what is counted and its number.
fn push_counted(text: &mut Vec<u8>, what: &[u8], count: u64) -> Result<(), AllocError>
    ensures { OnOk result (text.new.items ≡ text.old.items ++ (what.now ++ (numeral count ++ 10 ∷ []))) }
{
    text.extend_from_slice(what)?;
    push_numeral(text, u128::from(count))?;
    text.push(b'\n')?;
    Ok(())
}
