//! Graphs of programs, as lines say them.
use case_text::Words;
use control_flow::Graph;
use source_parse::{ParseFault, parse};
use std::alloc::{AllocError, Global};
use step_meaning::Program;

/// The longest text that is parsed.
const LONGEST: usize = 65_536;

/// Reads the items of a program's `main`, which go on up to one of the words that come behind a program, and makes its graph.
pub fn read_graph(alloc: Global, words: &mut Words<'_>) -> Result<Option<Graph>, AllocError> {
    let text = read_text(alloc, words)?;
    let Some(program) = parsed(alloc, text.as_bytes(), words)? else {
        return Ok(None);
    };
    match Graph::of(alloc, program) {
        Ok(graph) => Ok(Some(graph)),
        Err(_) => {
            words.fail("a program without a graph");
            Ok(None)
        }
    }
}

/// The text of the program, with a blank before each word of its items.
fn read_text(alloc: Global, words: &mut Words<'_>) -> Result<String, AllocError> {
    let mut text = String::from_str(alloc, "int main() {")?;
    for _ in 0..words.len() {
        match words.peek() {
            None | Some("with") | Some("claims") => break,
            Some(word) => {
                text.push_str(" ")?;
                text.push_str(word)?;
            }
        }
        words.take();
    }
    text.push_str(" }")?;
    Ok(text)
}

/// The program, where the text is one.
fn parsed(
    alloc: Global,
    text: &[u8],
    words: &mut Words<'_>,
) -> Result<Option<Program>, AllocError> {
    if text.len() > LONGEST {
        words.fail("a program that is too long");
        return Ok(None);
    }
    match parse(alloc, text) {
        Ok(program) => Ok(Some(program)),
        Err(ParseFault::Memory(error)) => Err(error),
        Err(_) => {
            words.fail("no program");
            Ok(None)
        }
    }
}
