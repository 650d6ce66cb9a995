//! The status and the bytes of a run.
ghost use Rattle.std.specs.Prelude.{◌≤◌, ◌^◌, All};

use advice::{Adviser, FactAdviser, FactKind};
use function_top::{Status, run};
use outside::{MemorySink, MemorySource, Source};
use std::alloc::{AllocError, Global};

/// The words of a command line without options.
pub const NO_OPTIONS: &[&str] = &["function"];

/// Room for each report that is wanted.
const ROOM: u32 = 1_000;

/// The status and the bytes of a run on a text, with the advisers of the command.
pub fn outcome_of(
    alloc: Global,
    words: &[&str],
    text: &[u8],
) -> Result<(Status, Vec<u8>), AllocError> {
    let mut source = MemorySource::new(text.to_vec(alloc)?, Vec::new(alloc));
    outcome(alloc, words, &mut source)
}

/// The same on a source.
pub fn outcome<S: Source>(
    alloc: Global,
    words: &[&str],
    source: &mut S,
) -> Result<(Status, Vec<u8>), AllocError> {
    outcome_within(alloc, words, source, ROOM)
}

/// The same with a sink that has room for so many bytes, and the bytes that it took.
pub fn outcome_within<S: Source>(
    alloc: Global,
    words: &[&str],
    source: &mut S,
    room: u32,
) -> Result<(Status, Vec<u8>), AllocError> {
    let guards = Box::new(alloc, FactAdviser::on(FactKind::Guard))?;
    let ranges = Box::new(alloc, FactAdviser::on(FactKind::Range))?;
    outcome_with(alloc, words, source, room, guards, ranges)
}

// The same with two advisers that were asked little.
fn outcome_with<S: Source>(
    alloc: Global,
    words: &[&str],
    source: &mut S,
    room: u32,
    first: Box<dyn Adviser>,
    second: Box<dyn Adviser>,
) -> Result<(Status, Vec<u8>), AllocError>
    requires first { asked_of first ≤ 2 ^ 32 }
    requires second { asked_of second ≤ 2 ^ 32 }
{
    let mut advisers: Vec<Box<dyn Adviser>> = Vec::with_capacity(alloc, 2)?;
    advisers.push(first)?;
    advisers.push(second)?;
    taken(alloc, words, source, room, &mut advisers)
}

/// The status and the bytes of a run on a text, with any advisers that were asked little.
pub fn outcome_by(
    alloc: Global,
    words: &[&str],
    text: &[u8],
    advisers: &mut Vec<Box<dyn Adviser>>,
) -> Result<(Status, Vec<u8>), AllocError>
    requires patient { All (λ adviser. asked_of adviser ≤ 2 ^ 32) advisers.old.items }
{
    let mut source = MemorySource::new(text.to_vec(alloc)?, Vec::new(alloc));
    taken(alloc, words, &mut source, ROOM, advisers)
}

/// The status and the bytes of a run on a text without advisers.
pub fn unadvised(
    alloc: Global,
    words: &[&str],
    text: &[u8],
) -> Result<(Status, Vec<u8>), AllocError> {
    let mut nobody: Vec<Box<dyn Adviser>> = Vec::new(alloc);
    outcome_by(alloc, words, text, &mut nobody)
}

// The status of a run, and the bytes that a sink with the room took.
fn taken<S: Source>(
    alloc: Global,
    words: &[&str],
    source: &mut S,
    room: u32,
    advisers: &mut Vec<Box<dyn Adviser>>,
) -> Result<(Status, Vec<u8>), AllocError>
    requires patient { All (λ adviser. asked_of adviser ≤ 2 ^ 32) advisers.old.items }
{
    let mut sink = MemorySink::new(alloc, room, Vec::new(alloc))?;
    let status = run(alloc, words, source, &mut sink, advisers);
    Ok((status, sink.taken().to_vec(alloc)?))
}
