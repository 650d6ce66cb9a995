//! Programs of texts.
use crate::LONGEST;
use crate::shown::push_block;
use case_text::{Answer, Words};
use source_parse::{ParseFault, parse};
use std::alloc::{AllocError, Global};

/// How many bytes stand before the items of `main`.
const FRONT: u32 = 12;

/// Adds the program whose `main` has these items, and below it the offsets of its statements among them.
pub fn push_program(
    alloc: Global,
    items: &[u8],
    words: &mut Words<'_>,
    answer: &mut Answer,
) -> Result<(), AllocError> {
    let mut text = b"int main() {".to_vec(alloc)?;
    text.extend_from_slice(items)?;
    text.push(b'}')?;
    if text.len() > LONGEST {
        words.fail("a program that is too long");
        return Ok(());
    }
    let program = match parse(alloc, &text) {
        Ok(program) => program,
        Err(ParseFault::Memory(error)) => return Err(error),
        Err(_) => {
            words.fail("no program");
            return Ok(());
        }
    };
    let mut offsets = Vec::new(alloc);
    push_block(&program.body, &program.names, &mut offsets, answer)?;
    for (number, offset) in offsets.iter().enumerate() {
        answer.push(if number == 0 { "\nat " } else { " " });
        answer.push_number(i128::from(offset.saturating_sub(FRONT)));
    }
    Ok(())
}
