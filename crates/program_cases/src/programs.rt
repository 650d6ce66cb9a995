//! Programs and their graphs.
use case_text::Words;
use control_flow::{FlowFault, Graph};
use source_parse::{ParseFault, parse};
use std::alloc::{AllocError, Global};
use step_meaning::Program;

/// The longest text that is parsed.
const LONGEST: usize = 65_536;

/// The program with these items in its `main`; none where they are no items of one.
pub fn read_program(alloc: Global, items: &[u8]) -> Result<Option<Program>, AllocError> {
    let mut text = b"int main() { ".to_vec(alloc)?;
    text.extend_from_slice(items)?;
    text.extend_from_slice(b" }")?;
    if text.len() > LONGEST {
        return Ok(None);
    }
    match parse(alloc, &text) {
        Ok(program) => Ok(Some(program)),
        Err(ParseFault::Memory(error)) => Err(error),
        Err(_) => Ok(None),
    }
}

/// The graph of the program. None where it has none, which is noted as a fault of the line.
pub fn graph_of(
    alloc: Global,
    program: Program,
    words: &mut Words<'_>,
) -> Result<Option<Graph>, AllocError> {
    match Graph::of(alloc, program) {
        Ok(graph) => Ok(Some(graph)),
        Err(FlowFault::Memory(error)) => Err(error),
        Err(_) => {
            words.fail("a program without a graph");
            Ok(None)
        }
    }
}
