//! From a text to the report on what fits the numbers of 32 bits.

ghost use Rattle.std.specs.Prelude.{ℕ, List, IfErr, IfOk, Some};
ghost use Rattle.step_meaning.specs.Syntax.{Statements};
ghost use Rattle.function_top.specs.ProgramText.{IsProgramText};
ghost use Rattle.function_top.specs.Fitting.{AreMetByInts, IsFitDueOn};
ghost use Rattle.function_top.specs.Form.{HasKnownLines};
ghost use Rattle.function_top.specs.Headline.{IsTrueText};
ghost use Rattle.command_words.specs.Order.{Task};
ghost use Rattle.function_top.specs.Output.{IsReason, IsReport};
ghost use Rattle.function_top.specs.Subject.{Subject};
ghost use Rattle.function_top.specs.Text.{IsGraphOf};

use crate::answer::refused;
use crate::laws::texts_are_known;
use crate::output::Output;
use crate::question::{Refusal, limited, whole_of};
use crate::report::verdict;
use command_words::Domain;
use control_flow::Graph;
use fit_check::fit_tree;
use interval_dom::Boxes;
use num_domain::NumDomain;
use octagon_dom::Octagon;
use poly_dom::Poly;
use report_text::{fit_lines, print_fit};
use std::alloc::{AllocError, Global};

/// What is to be written for a text where it is asked from which inputs no number of a run leaves 32 bits: the report on the program that the text is, or the
/// line of its first fault. It asks no adviser. The only error is want of memory.
pub fn fit_report_on(alloc: Global, domain: Domain, text: &[u8]) -> Result<Output, AllocError>
    ensures due { IfOk result (λ due. IsFitDueOn text.now due.status due.turns due.bytes.items) }
    ensures headline { IfOk result (λ due. (subject : Subject) → IsProgramText text.now subject.names subject.body
        → IsTrueText subject due.bytes.items) }
    ensures form { IfOk result (λ due. HasKnownLines (Some text.now) due.bytes.items) }
    ensures met { IfOk result (λ due. IsReport due.status → (names : List (List ℕ)) (body : Statements) → IsProgramText text.now names body
        → AreMetByInts names due.bytes.items) }
{
    texts_are_known();
    let due = due_on(alloc, domain, text)?;
    Ok(due)
}

/// What is to be written for a text.
fn due_on(alloc: Global, domain: Domain, text: &[u8]) -> Result<Output, AllocError>
    ensures { IfOk result (λ due. IsFitDueOn text.now due.status due.turns due.bytes.items) }
{
    match graph_of(alloc, text) {
        Ok(graph) => Ok(due(alloc, domain, text, &graph)?),
        Err(refusal) => Ok(refused(alloc, refusal)?),
    }
}

/// The graph of the program that the text is, within the limits.
fn graph_of(alloc: Global, text: &[u8]) -> Result<Graph, Refusal>
    ensures graph { IfOk result (λ graph. IsGraphOf text.now graph) }
    ensures refused { IfErr result (λ refusal. (task : Task) → IsReason task text.now refusal) }
{
    let whole = whole_of(alloc, text)?;
    let graph = limited(alloc, whole.program)?;
    Ok(graph)
}

/// The report on the program that the text is, over the sets that are asked for.
fn due(alloc: Global, domain: Domain, text: &[u8], graph: &Graph) -> Result<Output, AllocError>
    requires { IsGraphOf text.now graph.now }
    ensures { IfOk result (λ due. IsFitDueOn text.now due.status due.turns due.bytes.items) }
{
    match domain {
        Domain::Boxes => due_over::<Boxes>(alloc, text, graph),
        Domain::Octagons => due_over::<Octagon>(alloc, text, graph),
        Domain::Polyhedra => due_over::<Poly>(alloc, text, graph),
    }
}

/// The same over one kind of sets.
fn due_over<D: NumDomain>(alloc: Global, text: &[u8], graph: &Graph) -> Result<Output, AllocError>
    requires { IsGraphOf text.now graph.now }
    ensures { IfOk result (λ due. IsFitDueOn text.now due.status due.turns due.bytes.items) }
{
    texts_are_known();
    // the graph keeps its program, so the text is read again; it is a program, so that nothing but memory can be wanting
    let Ok(whole) = whole_of(alloc, text) else {
        return Err(AllocError);
    };
    let tree = fit_tree::<D>(alloc, whole.program, graph.labels())?;
    let program = graph.program();
    let (fits, unknown) = fit_lines(alloc, tree, program.vars())?;
    let bytes = print_fit(alloc, &fits, &unknown, &program.names)?;
    Ok(Output {
        bytes,
        status: verdict(&unknown),
        turns: 0,
    })
}
