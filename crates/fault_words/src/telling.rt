//! A refusal of a text, told to a person.
use crate::line::line_around;
use crate::place::Place;
use crate::refusal::{Refusal, Text};
use std::alloc::{AllocError, Global};

/// How many bytes of a line are shown before its place, and how many from there on.
const BEFORE: usize = 100;

const BEHIND: usize = 60;

/// The words on a refusal of the text, whose fault's offset is within it or at its end: where the place is, by line and column in bytes, as editors read it; what the fault means, and its
/// number; the line, or as much of a long one as a screen shows; and a mark below the place. The only error is want of memory.
pub fn told(alloc: Global, refusal: &Refusal, text: &[u8]) -> Result<Vec<u8>, AllocError> {
    let offset = (refusal.offset as usize).min(text.len());
    let place = Place::of(text, offset);
    let (line, column) = line_around(text, offset);
    let mut words = Vec::new(alloc);
    let name = name_of(refusal.text);
    let meaning = refusal.meaning();
    let head = format!(in alloc;
        "function: {name}:{}:{}: {meaning} ({})\n",
        place.line, place.column, refusal.number
    )?;
    words.extend_from_slice(head.as_bytes())?;
    let from = column.saturating_sub(BEFORE);
    push_shown(&line[from..line.len().min(column + BEHIND)], &mut words)?;
    push_mark(&line[from..column], &mut words)?;
    Ok(words)
}

/// What stands for a file's name.
fn name_of(text: Text) -> &'static str {
    match text {
        Text::Program => "<stdin>",
        Text::Formula => "--ctl",
    }
}

/// The line, indented, in which a byte that moves the cursor shows as a question mark.
fn push_shown(line: &[u8], words: &mut Vec<u8>) -> Result<(), AllocError> {
    words.extend_from_slice(b"  ")?;
    for byte in line.strip_suffix(b"\r").unwrap_or(line) {
        words.push(if moves(*byte) { b'?' } else { *byte })?;
    }
    words.push(b'\n')?;
    Ok(())
}

/// Whether a screen does something else with the byte than to show a sign or go on to the next tab stop.
fn moves(byte: u8) -> bool {
    byte == 127 || (byte < b' ' && byte != b'\t')
}

/// The mark below the place behind the front of a line. A sign of several bytes, of which all but the first are from 128 to 191, is one wide.
fn push_mark(front: &[u8], words: &mut Vec<u8>) -> Result<(), AllocError> {
    words.extend_from_slice(b"  ")?;
    for byte in front {
        match *byte {
            b'\t' => words.push(b'\t')?,
            128..=191 => {}
            _ => words.push(b' ')?,
        }
    }
    words.extend_from_slice(b"^\n")?;
    Ok(())
}
