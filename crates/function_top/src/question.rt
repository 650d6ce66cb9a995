//! From a text to what is asked of its program, or to why nothing is analysed.

ghost use Rattle.std.specs.Prelude.{ℕ, ◌≤◌, List, IfErr, IfOk, length};
ghost use Rattle.command_words.specs.Order.{Task, task_of};
ghost use Rattle.source_parse.specs.Derives.{IsUnitText};
ghost use Rattle.function_top.specs.Asking.{IsQuestion};
ghost use Rattle.function_top.specs.Output.{IsReason};
ghost use Rattle.function_top.specs.ProgramText.{HasOwnNames};
ghost use Rattle.function_top.specs.Text.{IsGraphOf, IsParsed};

use crate::formula::formula_asked;
use crate::input::input_asked;
use crate::laws::texts_are_known;
use call_inline::{InlineFault, inline};
use call_meaning::Unit;
use command_words::Query;
use control_flow::{FlowFault, Graph};
use ctl_formula::Formula;
use formula_parse::a_formula_has_no_fault;
use source_parse::{a_unit_has_no_fault, parse_unit};
use std::alloc::Global;
use step_meaning::{Names, Program};

/// Why nothing is analysed.
#[derive(Clone, Copy)]
pub(crate) enum Refusal {
    /// The text is no program within the limits: the number of its first fault, and where it is.
    Program { number: u8, offset: u32 },
    /// The text of an input is that of none of the program's.
    Input,
    /// The text of a formula is none over the program's names, or its normal form is too long: the number of the fault, and where it is.
    Formula { number: u8, offset: u32 },
    /// Memory ran out.
    Memory,
}

/// What is asked of a program, by its graph and the names of `main`'s variables: about a formula in normal form, and about one input where one is asked for.
#[derive(Drop)]
pub(crate) struct Question<'q> {
    pub query: Query<'q>,
    pub graph: Graph,
    pub own: Names,
    pub input: Option<[i128; 16]>,
    pub formula: Formula,
}

/// The program that a text is, with the bodies of functions in the places of their calls, and the names of `main`'s variables.
#[derive(Drop)]
pub(crate) struct Whole {
    pub program: Program,
    pub own: Names,
}

/// What is asked of the program that the text is. The order is: program, input, formula, and the first fault ends it.
pub(crate) fn question_of<'q>(
    alloc: Global,
    query: &Query<'q>,
    text: &[u8],
) -> Result<Question<'q>, Refusal>
    ensures asked { IfOk result (λ question. IsQuestion (task_of query.now) text.now question) }
    ensures refused { IfErr result (IsReason (task_of query.now) text.now) }
{
    texts_are_known();
    a_formula_has_no_fault();
    let whole = whole_of(alloc, text)?;
    let graph = limited(alloc, whole.program)?;
    let Some(input) = input_asked(query.input, &whole.own) else {
        return Err(Refusal::Input);
    };
    match formula_asked(alloc, query.formula, &whole.own) {
        Ok(formula) => Ok(Question {
            query: *query,
            graph,
            own: whole.own,
            input,
            formula,
        }),
        Err(fault) => match fault.numbered() {
            Some((number, offset)) => Err(Refusal::Formula { number, offset }),
            None => Err(Refusal::Memory),
        },
    }
}

/// The program that the text is.
pub(crate) fn whole_of(alloc: Global, text: &[u8]) -> Result<Whole, Refusal>
    ensures parsed { IfOk result (λ whole. IsParsed text.now whole.program) }
    ensures own { IfOk result (λ whole. HasOwnNames text.now whole.own) }
    ensures refused { IfErr result (λ refusal. (task : Task) → IsReason task text.now refusal) }
{
    a_unit_has_no_fault();
    if text.len() > 65_536 {
        return Err(Refusal::Program {
            number: 14,
            offset: 65_536,
        });
    }
    match parse_unit(alloc, text) {
        Ok(unit) => Ok(inlined(alloc, unit)?),
        Err(fault) => match fault.numbered() {
            Some((number, offset)) => Err(Refusal::Program { number, offset }),
            None => Err(Refusal::Memory),
        },
    }
}

/// The program that a unit becomes, which a text of at most 65,536 bytes is.
fn inlined(alloc: Global, unit: Unit) -> Result<Whole, Refusal>
    ensures parsed { IfOk result (λ whole. (text : List ℕ) → length text ≤ 65536 → IsUnitText text unit → IsParsed text whole.program) }
    ensures own { IfOk result (λ whole. (text : List ℕ) → IsUnitText text unit → HasOwnNames text whole.own) }
    ensures refused { IfErr result (λ refusal. (task : Task) (text : List ℕ) → IsUnitText text unit → IsReason task text refusal) }
{
    match inline(alloc, &unit) {
        Ok(program) => Ok(Whole {
            program,
            own: unit.names,
        }),
        Err(InlineFault::Nesting { at, count: _ }) => Err(Refusal::Program {
            number: 10,
            offset: at,
        }),
        Err(InlineFault::Labels { at, count: _ }) => Err(Refusal::Program {
            number: 12,
            offset: at,
        }),
        Err(InlineFault::Memory(_)) => Err(Refusal::Memory),
    }
}

/// The graph of a program that a text is.
pub(crate) fn limited(alloc: Global, program: Program) -> Result<Graph, Refusal>
    ensures graph { IfOk result (λ graph. (text : List ℕ) → IsParsed text program → IsGraphOf text graph) }
    ensures refused { IfErr result (λ refusal. (task : Task) (text : List ℕ) → IsParsed text program → IsReason task text refusal) }
{
    match Graph::of(alloc, program) {
        Ok(graph) => Ok(graph),
        Err(FlowFault::Labels { at, count: _ }) => Err(Refusal::Program {
            number: 12,
            offset: at,
        }),
        Err(FlowFault::Conjunctions { at, count: _ }) => Err(Refusal::Program {
            number: 13,
            offset: at,
        }),
        Err(FlowFault::Memory(_)) => Err(Refusal::Memory),
    }
}
