//! What is written to standard error where a run ends with no report.
use command_words::{Order, order_of};
use fault_words::{Text, refusal_of, told, told_of_word, wrong_word};
use function_top::Status;
use outside::{Sink, write_all};
use std::alloc::{AllocError, Global};

/// What a run read and wrote.
#[derive(Drop)]
pub(crate) struct Streams<'a> {
    /// The text that it read.
    pub text: &'a [u8],
    /// The first bytes that it wrote.
    pub line: &'a [u8],
}

/// Tells in words how a run ended that has no report. After a report nothing is written, and nothing comes of a write that fails or of want of memory.
pub(crate) fn tell<K: Sink>(
    alloc: Global,
    status: Status,
    words: &[&str],
    streams: &Streams<'_>,
    sink: &mut K,
) {
    match status {
        Status::AllInputs | Status::SomeInputs => {}
        Status::ReadFault => say(sink, b"function: standard input can't be read\n"),
        Status::WriteFault => say(sink, b"function: standard output can't be written\n"),
        Status::NoMemory => say(sink, b"function: no memory is left\n"),
        Status::Words => say_told(sink, told_of_words(alloc, words)),
        Status::Program | Status::Formula => say_told(sink, told_of_text(alloc, words, streams)),
    }
}

fn say<K: Sink>(sink: &mut K, words: &[u8]) {
    let _ = write_all(sink, words);
}

fn say_told<K: Sink>(sink: &mut K, told: Result<Vec<u8>, AllocError>) {
    if let Ok(told) = told {
        say(sink, told.as_slice());
    }
}

// Which of the words is wrong, or that the text of an input is: that is read only where the words are taken.
fn told_of_words(alloc: Global, words: &[&str]) -> Result<Vec<u8>, AllocError> {
    match wrong_word(alloc, words)? {
        Some(wrong) => told_of_word(alloc, words, &wrong),
        None => {
            let mut told = Vec::new(alloc);
            told.extend_from_slice(
                b"function: --at takes a number for each variable of the program, each once, as x=1,y=-2\n",
            )?;
            Ok(told)
        }
    }
}

// What is wrong with the text of the program or of the formula, by the line that was written of it.
fn told_of_text(
    alloc: Global,
    words: &[&str],
    streams: &Streams<'_>,
) -> Result<Vec<u8>, AllocError> {
    let Some(refusal) = refusal_of(streams.line) else {
        return Ok(Vec::new(alloc));
    };
    match refusal.text {
        Text::Program => told(alloc, &refusal, streams.text),
        Text::Formula => told(alloc, &refusal, formula_of(alloc, words)?),
    }
}

// The text of the formula that the words ask for.
fn formula_of<'w>(alloc: Global, words: &'w [&'w str]) -> Result<&'w [u8], AllocError> {
    match order_of(alloc, words)? {
        Some(Order::Analysis(query)) => Ok(query.formula.unwrap_or(b"")),
        _ => Ok(b""),
    }
}
