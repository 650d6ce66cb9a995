//! The texts that the command writes.

ghost use Rattle.std.specs.Prelude.{◌≡◌, ◌≤◌, ℕ, IfOk, length};
ghost use Rattle.report_text.specs.declared.report.Report.{Report};
ghost use Rattle.report_text.specs.Printed.{IsReportOver, IsReportText};
ghost use Rattle.function_top.specs.Output.{IsVerdict};
ghost use Rattle.function_top.specs.Printable.{IsExactPrintable, IsFoundPrintable};
ghost use Rattle.function_top.specs.Refusals.{fault_text, usage_text};
ghost use Rattle.function_top.specs.Shown.{Shows, ShowsExact, header_of};

use crate::found::{Exact, Found};
use crate::output::Output;
use crate::status::Status;
use line_text::push_numeral;
use report_text::{Explain, Header, Lines, Report, Stop, Top, lines, print, refined};
use std::alloc::{AllocError, Global};
use step_meaning::Names;

/// The usage line, with its newline byte.
pub fn usage() -> &'static [u8]
    ensures { result.now ≡ usage_text }
{
    b"usage: function [--ctl TEXT] [--domain boxes|octagons|polyhedra] [--delay N] [--at TEXT] [--explain] [--demo N] [--fit] [--refine]\n"
}

/// The text of the report of what was found of a program with these names, with what explains it, and its status. The only error is want of
/// memory.
pub(crate) fn report(
    alloc: Global,
    found: &Found,
    explain: Option<Explain>,
    names: &Names,
) -> Result<Output, AllocError>
    requires few { length names.now ≤ 15 }
    requires printable { IsFoundPrintable (length names.now) found.now }
    ensures shows { IfOk result (λ due. (report : Report) × Shows found.now report × IsReportText names.now report due.bytes.items
        × IsVerdict due.status report.unknown × (report.explain ≡ explain)) }
    ensures turns { IfOk result (λ due. due.turns ≡ found.now.turns) }
{
    let report = shown(alloc, found, explain, names)?;
    let bytes = print(alloc, &report, names)?;
    Ok(Output {
        bytes,
        status: verdict(&report.unknown),
        turns: found.turns,
    })
}

/// The report of what was found of a program with these names, with what explains it. The only error is want of memory.
pub(crate) fn shown(
    alloc: Global,
    found: &Found,
    explain: Option<Explain>,
    names: &Names,
) -> Result<Report, AllocError>
    requires few { length names.now ≤ 15 }
    requires printable { IsFoundPrintable (length names.now) found.now }
    ensures shows { IfOk result (λ report. Shows found.now report) }
    ensures over { IfOk result (λ report. IsReportOver names.now report) }
    ensures explain { IfOk result (λ report. report.explain ≡ explain) }
{
    let (header, exact) = exact_part(alloc, &found.exact)?;
    let (proved, open) = lines(alloc, &found.cover, found.claims)?.parted(alloc)?;
    let (ranked, unknown) = refined(alloc, &open, &found.ranked)?.parted(alloc)?;
    Ok(Report {
        header,
        exact,
        proved,
        ranked,
        unknown,
        explain,
    })
}

/// The exact part of a report: its header and its lines.
fn exact_part(alloc: Global, exact: &Exact) -> Result<(Header, Lines), AllocError>
    requires { (vars : ℕ) × IsExactPrintable vars exact.now }
    ensures { IfOk result (λ part. ShowsExact exact.now part.0 part.1) }
{
    match exact {
        Exact::Unasked => Ok((Header::Absent, Lines::of(Vec::new(alloc)))),
        Exact::Unmade(stop) => Ok((Header::Stopped { cause: *stop }, Lines::of(Vec::new(alloc)))),
        Exact::Made { tests, stop, tree } => {
            let (claimed, _) = lines(alloc, tree, Top::Exact)?.parted(alloc)?;
            Ok((header_of(*tests, *stop), claimed))
        }
    }
}

/// The header of a level for so many tests, by why there is no further one.
fn header_of(tests: u32, stop: Option<Stop>) -> Header
    ensures { result ≡ header_of tests stop }
{
    match stop {
        Some(cause) => Header::Partial { tests, cause },
        None => Header::Whole { tests },
    }
}

/// The status of a report with these unknown lines.
pub(crate) fn verdict(unknown: &Lines) -> Status
    ensures { IsVerdict result unknown.now }
{
    if unknown.items().is_empty() {
        Status::AllInputs
    } else {
        Status::SomeInputs
    }
}

/// The line of a fault by what has it, a program or a formula, its number and its offset. The only error is want of memory.
pub fn fault(alloc: Global, what: &[u8], number: u8, offset: u32) -> Result<Vec<u8>, AllocError>
    ensures { IfOk result (λ text. text.items ≡ fault_text what.now number offset) }
{
    let mut text = Vec::new(alloc);
    text.extend_from_slice(what)?;
    text.extend_from_slice(b": ")?;
    push_numeral(&mut text, u128::from(number))?;
    text.extend_from_slice(b" at ")?;
    push_numeral(&mut text, u128::from(offset))?;
    text.push(b'\n')?;
    Ok(text)
}
