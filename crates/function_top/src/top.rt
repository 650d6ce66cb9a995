//! The top call.

ghost use Rattle.std.specs.Prelude.{◌≡◌, ◌≤◌, ◌<◌, ◌+◌, ◌⊎◌, ◌^◌, ℕ, List, All, IfOk, IfSome, MatchOption, OnErr, length, map};
ghost use Rattle.std.specs.Io.KnownBytes.{Appends};
ghost use Rattle.outside.specs.Faults.{Rose};
ghost use Rattle.outside.specs.Sink.{AppendsFront};
ghost use Rattle.outside.specs.Source.{ConsumesUpTo};
ghost use Rattle.ctl_rounds.specs.Asked.{AreAskedAlike, RoseBy};
ghost use Rattle.command_words.specs.Order.{Ask, Task, analysis, fit, task_of};
ghost use Rattle.function_top.specs.Answer.{IsRun, after_failing};
ghost use Rattle.function_top.specs.Fitting.{IsFitDueOn};
ghost use Rattle.function_top.specs.Output.{IsDueOn};
ghost use Rattle.function_top.specs.Text.{IsRead};

use crate::answer::{report_on, too_long};
use crate::demo::demo;
use crate::fitting::fit_report_on;
use crate::laws::texts_are_known;
use crate::output::Output;
use crate::report::usage;
use crate::status::Status;
use advice::Adviser;
use command_words::{Domain, Order, Query, order_of};
use outside::{ReadEnd, Sink, Source, read_program, write_all};
use std::alloc::{AllocError, Global};

/// Does all that the program does: reads a program from the source, and writes the report on it to the sink.
///
/// `words` are the words of the command line, the program's name first; behind it may stand `--domain` with `boxes`, `octagons` or
/// `polyhedra`, `--delay` with a digit up to 8, `--ctl` with the text of a formula over the program's variables, `--at` with that of an input, of which
/// alone is told then, and `--explain`, each at most once and in any order; or `--demo` alone, with a number from 1 to 1000, for whose program nothing
/// is read; or `--fit`, with `--domain` alone beside it, which asks from which inputs no number of a run leaves 32 bits. The order is: words, reading, program, input, formula, analysis, writing, and the first refusal ends the run. The whole output is built
/// before its first byte is written. After a refusal nothing was written but its line, or a front of that where the sink failed.
///
/// `advisers` are shown facts about loops, and may hint at what bounds one: each equally often and at most eight times, and eight times
/// where the report has an unknown line and the normal form of the formula is a whole `A[f U g]`, as that of `AF exit` is, about which is asked
/// without `--ctl`. Nothing is assumed of what they hint; each was asked at most 2^32 times before.
pub fn run<S: Source, K: Sink>(
    alloc: Global,
    words: &[&str],
    source: &mut S,
    sink: &mut K,
    advisers: &mut Vec<Box<dyn Adviser>>,
) -> Status
    requires patient { All (λ adviser. asked_of adviser ≤ 2 ^ 32) advisers.old.items }
    ensures run { IsRun (map (λ word. word.now) words.now) result record {
      left = S.left source.old;
      taken = K.taken sink.old;
      taken_after = K.taken sink.new;
      read_faults = S.faults source.old;
      read_faults_after = S.faults source.new;
      write_faults = K.faults sink.old;
      write_faults_after = K.faults sink.new;
      asked = map (λ adviser. asked_of adviser) advisers.old.items;
      asked_after = map (λ adviser. asked_of adviser) advisers.new.items;
    } }
    ensures unread { ((task : Task) → ¬ Ask (map (λ word. word.now) words.now) (analysis task))
        → ((domain : Domain) → ¬ Ask (map (λ word. word.now) words.now) (fit domain)) → source.new ≡ source.old }
    ensures stops { ConsumesUpTo (65536 + 1) (S.left source.old) (S.left source.new) }
    ensures reads_never_fall { S.faults source.old ≤ S.faults source.new }
    ensures writes_never_fall { K.faults sink.old ≤ K.faults sink.new }
    ensures asked { (times : ℕ) × (times ≤ 8) × RoseBy (λ adviser. asked_of adviser) times advisers.old.items advisers.new.items }
{
    texts_are_known();
    match order_of(alloc, words) {
        Ok(Some(Order::Analysis(query))) => match answer(alloc, &query, source, advisers) {
            Ok(Some(due)) => settle(sink, &due.bytes, due.status),
            Ok(None) => Status::ReadFault,
            Err(_) => Status::NoMemory,
        },
        Ok(Some(Order::Demo(number))) => match demo(alloc, number, advisers) {
            Ok(due) => settle(sink, &due.bytes, due.status),
            Err(_) => Status::NoMemory,
        },
        Ok(Some(Order::Fit(domain))) => match fit_answer(alloc, domain, source) {
            Ok(Some(due)) => settle(sink, &due.bytes, due.status),
            Ok(None) => Status::ReadFault,
            Err(_) => Status::NoMemory,
        },
        Ok(None) => settle(sink, usage(), Status::Words),
        Err(_) => Status::NoMemory,
    }
}

/// Reads the source, and answers what is to be written for it, or `None` where a read failed.
fn answer<S: Source>(
    alloc: Global,
    query: &Query,
    source: &mut S,
    advisers: &mut Vec<Box<dyn Adviser>>,
) -> Result<Option<Output>, AllocError>
    requires patient { All (λ adviser. asked_of adviser ≤ 2 ^ 32) advisers.old.items }
    ensures due { IfOk result (λ outcome. MatchOption outcome (Rose (S.faults source.old) (S.faults source.new))
        (λ due. (text : List ℕ) × IsRead (S.left source.old) text × (S.faults source.new ≡ S.faults source.old)
        × IsDueOn (task_of query.now) text due.status (length advisers.old.items) due.turns due.bytes.items)) }
    ensures stops { ConsumesUpTo (65536 + 1) (S.left source.old) (S.left source.new) }
    ensures never_falls { S.faults source.old ≤ S.faults source.new }
    ensures stays { OnErr result (S.faults source.new ≡ S.faults source.old) }
    ensures asked { AreAskedAlike (λ adviser. asked_of adviser) advisers.old.items advisers.new.items
        (λ times. IfOk result (λ outcome. IfSome outcome (λ due. due.turns ≡ times))) }
{
    match read_program(alloc, source)? {
        ReadEnd::Text(text) => Ok(Some(report_on(alloc, query, &text, advisers)?)),
        ReadEnd::TooLong => Ok(Some(too_long(alloc)?)),
        ReadEnd::Failed => Ok(None),
    }
}

/// The same where it is asked what fits the numbers of 32 bits.
fn fit_answer<S: Source>(
    alloc: Global,
    domain: Domain,
    source: &mut S,
) -> Result<Option<Output>, AllocError>
    ensures due { IfOk result (λ outcome. MatchOption outcome (Rose (S.faults source.old) (S.faults source.new))
        (λ due. (text : List ℕ) × IsRead (S.left source.old) text × (S.faults source.new ≡ S.faults source.old)
        × IsFitDueOn text due.status due.turns due.bytes.items)) }
    ensures stops { ConsumesUpTo (65536 + 1) (S.left source.old) (S.left source.new) }
    ensures never_falls { S.faults source.old ≤ S.faults source.new }
    ensures stays { OnErr result (S.faults source.new ≡ S.faults source.old) }
{
    match read_program(alloc, source)? {
        ReadEnd::Text(text) => Ok(Some(fit_report_on(alloc, domain, &text)?)),
        ReadEnd::TooLong => Ok(Some(too_long(alloc)?)),
        ReadEnd::Failed => Ok(None),
    }
}

/// Writes the bytes, and answers the status that goes with them. A report of which a write failed has a status of its own.
fn settle<K: Sink>(sink: &mut K, bytes: &[u8], status: Status) -> Status
    ensures settles { ((result ≡ status) × Appends (K.taken sink.old) (K.taken sink.new) bytes.now)
        ⊎ ((result ≡ after_failing status) × AppendsFront (K.taken sink.old) (K.taken sink.new) bytes.now
        × Rose (K.faults sink.old) (K.faults sink.new)) }
    ensures never_falls { K.faults sink.old ≤ K.faults sink.new }
{
    if write_all(sink, bytes) {
        status
    } else {
        after_failing(status)
    }
}

/// The status where a write failed: a refusal keeps its own.
fn after_failing(status: Status) -> Status
    ensures { result ≡ after_failing status }
{
    match status {
        Status::AllInputs | Status::SomeInputs => Status::WriteFault,
        other => other,
    }
}
