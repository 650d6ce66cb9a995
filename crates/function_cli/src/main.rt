//! The command: `function_top::run` over the words of the command line, standard input and standard output; and what is told of a refusal on standard error.
#![tactic(auto)]

ghost use Rattle.std.specs.Prelude.{◌≤◌, ◌^◌};

mod keeping;
mod telling;

use crate::keeping::{KeepingSink, KeepingSource};
use crate::telling::{Streams, tell};
use advice::{Adviser, FactAdviser, FactKind};
use function_top::{Status, run};
use outside::{StreamSink, StreamSource};
use std::alloc::AllocError;
use std::process::ExitCode;
use std::{env, io};

/// How many levels of `touched` take a megabyte of stack: each holds 4 bytes for each of 128 places, and what a call takes besides.
const LEVELS: u32 = 2048;

/// Twice as much, in bytes.
const ROOM: usize = 2 << 20;

fn main(rt: HostRuntime) -> ExitCode {
    if take_stack(&rt).is_err() {
        return ExitCode::from(Status::NoMemory as u8);
    }
    let words = match words(&rt) {
        Ok(words) => words,
        Err(_) => return ExitCode::from(Status::NoMemory as u8),
    };
    ExitCode::from(status_of(&rt, &words) as u8)
}

// Takes the stack that a run mostly needs, while there is memory: a limit on all memory counts the stack too, and where it met the stack's growth the run would end by
// a signal. Whether there is so much is seen by an allocation, which is given back. The error is want of memory.
fn take_stack(rt: &HostRuntime) -> Result<(), AllocError> {
    let mut room: Vec<u32> = Vec::with_capacity(rt.alloc(), ROOM / 4)?;
    room.push(LEVELS)?;
    let levels = room.pop().unwrap_or(0);
    drop(room);
    if touched(levels) == levels {
        Ok(())
    } else {
        Err(AllocError)
    }
}

// The number of levels, as each of them reads it from where it wrote it before it called the next. So none can be left out.
fn touched(levels: u32) -> u32 {
    let marks = [levels; 128];
    if levels == 0 {
        return 0;
    }
    let below = touched(levels - 1);
    marks[below as usize % 128]
}

// The words of the command line, where a word that is no text stands as one that no option has.
fn words(rt: &HostRuntime) -> Result<Vec<String>, AllocError> {
    let mut words = Vec::new(rt.alloc());
    match env::args(rt) {
        Ok(args) => {
            for word in args {
                words.push(word)?;
            }
        }
        Err(error) if error.kind() == io::ErrorKind::OutOfMemory => return Err(AllocError),
        Err(_) => {
            for word in ["function", "?"] {
                words.push(String::from_str(rt.alloc(), word)?)?;
            }
        }
    }
    Ok(words)
}

fn status_of(rt: &HostRuntime, words: &[String]) -> Status {
    match status_or_no_memory(rt, words) {
        Ok(status) => status,
        Err(_) => Status::NoMemory,
    }
}

// How the run ends, with an adviser on rows of loops' tests and one on ranges of variables; the error is want of memory before it.
fn status_or_no_memory(rt: &HostRuntime, words: &[String]) -> Result<Status, AllocError> {
    let words: Vec<&str> = words.iter().map(|word| word.as_str()).collect(rt.alloc())?;
    let guards = Box::new(rt.alloc(), FactAdviser::on(FactKind::Guard))?;
    let ranges = Box::new(rt.alloc(), FactAdviser::on(FactKind::Range))?;
    run_with(rt, &words, guards, ranges)
}

// The same with two advisers that were asked little.
fn run_with(
    rt: &HostRuntime,
    words: &[&str],
    first: Box<dyn Adviser>,
    second: Box<dyn Adviser>,
) -> Result<Status, AllocError>
    requires first { asked_of first ≤ 2 ^ 32 }
    requires second { asked_of second ≤ 2 ^ 32 }
{
    let alloc = rt.alloc();
    let mut source = KeepingSource::new(alloc, StreamSource::new(rt.stdin()));
    let mut sink = KeepingSink::new(alloc, StreamSink::new(rt.stdout()));
    let mut advisers: Vec<Box<dyn Adviser>> = Vec::with_capacity(alloc, 2)?;
    advisers.push(first)?;
    advisers.push(second)?;
    let status = run(alloc, words, &mut source, &mut sink, &mut advisers);
    let streams = Streams {
        text: source.text(),
        line: sink.line(),
    };
    tell(
        alloc,
        status,
        words,
        &streams,
        &mut StreamSink::new(rt.stderr()),
    );
    Ok(status)
}
