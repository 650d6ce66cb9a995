//! From a text to what is to be written for it.

ghost use Rattle.std.specs.Prelude.{◌≡◌, ◌≤◌, ◌<◌, ◌+◌, ◌^◌, ℕ, List, All, IfOk, Some, length};
ghost use Rattle.step_meaning.specs.Outcome.{Store};
ghost use Rattle.step_meaning.specs.Syntax.{size_of, statements};
ghost use Rattle.call_meaning.specs.declared.unit.Unit.{Unit};
ghost use Rattle.ctl_formula.specs.Mirror.{ctl};
ghost use Rattle.normal_form.specs.Rows.{RowsAreOver};
ghost use Rattle.ctl_rounds.specs.Asked.{AreAskedAlike};
ghost use Rattle.source_parse.specs.Derives.{IsUnitText};
ghost use Rattle.input_text.specs.Input.{IsInputText};
ghost use Rattle.report_text.specs.declared.report.Report.{Report};
ghost use Rattle.report_text.specs.Printed.{IsReportText};
ghost use Rattle.function_top.specs.Asking.{IsQuestion};
ghost use Rattle.function_top.specs.Output.{IsDueOn, IsReport, IsVerdict, SaysRefusal};
ghost use Rattle.function_top.specs.Explained.{explained, explanation};
ghost use Rattle.function_top.specs.Fitting.{IsFitDueOn};
ghost use Rattle.function_top.specs.Form.{HasKnownLines};
ghost use Rattle.function_top.specs.Framed.{IsTrueAnswerOfFrames, IsTrueTextOfFrames};
ghost use Rattle.function_top.specs.Headline.{IsTrueAnswer, IsTrueText};
ghost use Rattle.command_words.specs.Order.{Task, task_of};
ghost use Rattle.function_top.specs.Printable.{IsFoundPrintable};
ghost use Rattle.function_top.specs.Says.{Says};
ghost use Rattle.function_top.specs.Shown.{Shows};
ghost use Rattle.function_top.specs.Subject.{IsSubject, Subject, asked_names};

use crate::explaining::explained;
use crate::finding::find;
use crate::found::Found;
use crate::laws::texts_are_known;
use crate::one_input::answer_at;
use crate::output::Output;
use crate::question::{Question, Refusal, question_of};
use crate::report::{fault as fault_line, report, usage};
use crate::status::Status;
use advice::Adviser;
use command_words::{Domain, Query};
use control_flow::Graph;
use interval_dom::Boxes;
use num_domain::NumDomain;
use octagon_dom::Octagon;
use poly_dom::Poly;
use std::alloc::{AllocError, Global};

/// What is to be written for a text by what is asked: the report on the program that the text is, or the line of its first fault, or of
/// that of the formula that is asked about. It reads and writes nothing, so whoever embeds the analyser begins here.
///
/// `advisers` are shown facts about loops, and may hint at what bounds one: each equally often and at most eight times, and eight times
/// where the report has an unknown line and the normal form of the formula is a whole `A[f U g]`, as that of `AF exit` is; where it is no such
/// formula they aren't asked. Nothing is assumed of what they hint; each was asked at most 2^32 times before. The only error is want of memory;
/// the advisers may have been asked by then.
pub fn report_on(
    alloc: Global,
    query: &Query,
    text: &[u8],
    advisers: &mut Vec<Box<dyn Adviser>>,
) -> Result<Output, AllocError>
    requires patient { All (λ adviser. asked_of adviser ≤ 2 ^ 32) advisers.old.items }
    ensures due { IfOk result (λ due. IsDueOn (task_of query.now) text.now due.status (length advisers.old.items) due.turns due.bytes.items) }
    ensures headline { IfOk result (λ due. (subject : Subject) → IsSubject (task_of query.now) text.now subject
        → IsTrueText subject due.bytes.items) }
    ensures form { IfOk result (λ due. HasKnownLines (Some text.now) due.bytes.items) }
    ensures answer { IfOk result (λ due. (subject : Subject) (asked : List ℕ) (input : Store) → IsSubject (task_of query.now) text.now subject
        → (task_of query.now).input ≡ Some asked → IsInputText (asked_names subject) asked input → IsTrueAnswer subject input due.bytes.items) }
    ensures framed { IfOk result (λ due. (subject : Subject) (unit : Unit) → IsSubject (task_of query.now) text.now subject → IsUnitText text.now unit
        → IsTrueTextOfFrames unit subject due.bytes.items) }
    ensures framed_answer { IfOk result (λ due. (subject : Subject) (unit : Unit) (asked : List ℕ) (input : Store) → IsSubject (task_of query.now) text.now subject
        → IsUnitText text.now unit → (task_of query.now).input ≡ Some asked → IsInputText (asked_names subject) asked input
        → IsTrueAnswerOfFrames unit subject input due.bytes.items) }
    ensures says { IfOk result (λ due. IsReport due.status → (subject : Subject) → IsSubject (task_of query.now) text.now subject
        → Says (task_of query.now) subject due.status due.bytes.items) }
    ensures asked { AreAskedAlike (λ adviser. asked_of adviser) advisers.old.items advisers.new.items (λ times. IfOk result (λ due. due.turns ≡ times)) }
{
    texts_are_known();
    let due = due_on(alloc, query, text, advisers)?;
    Ok(due)
}

/// What is to be written for a text.
fn due_on(
    alloc: Global,
    query: &Query,
    text: &[u8],
    advisers: &mut Vec<Box<dyn Adviser>>,
) -> Result<Output, AllocError>
    requires patient { All (λ adviser. asked_of adviser ≤ 2 ^ 32) advisers.old.items }
    ensures due { IfOk result (λ due. IsDueOn (task_of query.now) text.now due.status (length advisers.old.items) due.turns due.bytes.items) }
    ensures asked { AreAskedAlike (λ adviser. asked_of adviser) advisers.old.items advisers.new.items (λ times. IfOk result (λ due. due.turns ≡ times)) }
{
    match question_of(alloc, query, text) {
        Ok(question) => Ok(question.due(alloc, advisers)?),
        Err(refusal) => Ok(refused(alloc, refusal)?),
    }
}

impl<'q> Question<'q> {
    /// The report on the program, or what is told of the input, over the sets that are asked for.
    fn due(&self, alloc: Global, advisers: &mut Vec<Box<dyn Adviser>>) -> Result<Output, AllocError>
        requires over { RowsAreOver (length self.now.graph.names) (ctl self.now.formula) }
        requires patient { All (λ adviser. asked_of adviser ≤ 2 ^ 32) advisers.old.items }
        ensures due { IfOk result (λ due. (task : Task) (text : List ℕ) → IsQuestion task text self.now
            → IsDueOn task text due.status (length advisers.old.items) due.turns due.bytes.items) }
        ensures asked { AreAskedAlike (λ adviser. asked_of adviser) advisers.old.items advisers.new.items (λ times. IfOk result (λ due. due.turns ≡ times)) }
    {
        match self.query.domain {
            Domain::Boxes => self.due_over::<Boxes>(alloc, advisers),
            Domain::Octagons => self.due_over::<Octagon>(alloc, advisers),
            Domain::Polyhedra => self.due_over::<Poly>(alloc, advisers),
        }
    }

    /// The same over one kind of sets.
    fn due_over<D: NumDomain>(
        &self,
        alloc: Global,
        advisers: &mut Vec<Box<dyn Adviser>>,
    ) -> Result<Output, AllocError>
        requires over { RowsAreOver (length self.now.graph.names) (ctl self.now.formula) }
        requires patient { All (λ adviser. asked_of adviser ≤ 2 ^ 32) advisers.old.items }
        ensures due { IfOk result (λ due. (task : Task) (text : List ℕ) → IsQuestion task text self.now
            → IsDueOn task text due.status (length advisers.old.items) due.turns due.bytes.items) }
        ensures asked { AreAskedAlike (λ adviser. asked_of adviser) advisers.old.items advisers.new.items (λ times. IfOk result (λ due. due.turns ≡ times)) }
    {
        let count = advisers.len();
        let found = find::<D>(alloc, &self.query, &self.formula, &self.graph, advisers)?;
        match &self.input {
            Some(input) => Ok(answer_at(alloc, &found, input, &self.graph.program().names)?),
            None => Ok(report_on_found(alloc, self.query.explain, count, &found, &self.graph)?),
        }
    }
}

/// The report on what was found of a program with its graph, explained where that is asked for, with so many advisers.
fn report_on_found(
    alloc: Global,
    explain: bool,
    advisers: usize,
    found: &Found,
    graph: &Graph,
) -> Result<Output, AllocError>
    requires printable { IsFoundPrintable (length graph.now.names) found.now }
    ensures shows { IfOk result (λ due. (report : Report) × Shows found.now report × IsReportText graph.now.names report due.bytes.items
        × IsVerdict due.status report.unknown × (report.explain
        ≡ explained explain (explanation (1 + size_of (statements graph.now.body)) found.now.families advisers found.now.turns))) }
    ensures turns { IfOk result (λ due. due.turns ≡ found.now.turns) }
{
    let explanation = explained(alloc, explain, graph.labels(), found, advisers)?;
    let due = report(alloc, found, explanation, &graph.program().names)?;
    Ok(due)
}

/// The line of a text of more than 65,536 bytes. The only error is want of memory.
pub(crate) fn too_long(alloc: Global) -> Result<Output, AllocError>
    ensures due { IfOk result (λ due. (task : Task) (text : List ℕ) (advisers : ℕ) → 65536 < length text
        → IsDueOn task text due.status advisers due.turns due.bytes.items) }
    ensures fit_due { IfOk result (λ due. (text : List ℕ) → 65536 < length text → IsFitDueOn text due.status due.turns due.bytes.items) }
    ensures unasked { IfOk result (λ due. due.turns ≡ 0) }
{
    let number = 14;
    let offset = 65_536;
    let due = refused(alloc, Refusal::Program { number, offset })?;
    Ok(due)
}

/// The line of a refusal, for which no adviser is asked. The only error is want of memory.
pub(crate) fn refused(alloc: Global, refusal: Refusal) -> Result<Output, AllocError>
    ensures says { IfOk result (λ due. SaysRefusal refusal due.status due.bytes.items) }
    ensures unasked { IfOk result (λ due. due.turns ≡ 0) }
{
    match refusal {
        Refusal::Program { number, offset } => Ok(Output {
            bytes: fault_line(alloc, b"program", number, offset)?,
            status: Status::Program,
            turns: 0,
        }),
        Refusal::Input => Ok(Output {
            bytes: usage().to_vec(alloc)?,
            status: Status::Words,
            turns: 0,
        }),
        Refusal::Formula { number, offset } => Ok(Output {
            bytes: fault_line(alloc, b"formula", number, offset)?,
            status: Status::Formula,
            turns: 0,
        }),
        Refusal::Memory => Err(AllocError),
    }
}
