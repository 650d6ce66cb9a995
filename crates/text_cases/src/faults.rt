//! First faults of texts.
ghost use Rattle.std.specs.Prelude.{◌≤◌, length};

use crate::trees::push_tree;
use case_text::Answer;
use derivation::Rule;
use source_lex::LexFault;
use source_parse::parse;
use source_syntax::{SyntaxFault, read_syntax};
use std::alloc::{AllocError, Global};

/// The number of the text's first fault by the grammar and its limits, and its offset; none where it has a tree. Functions are allowed or aren't.
fn first_fault(alloc: Global, text: &[u8], functions: bool) -> Result<Option<(u8, u32)>, AllocError>
    requires { length text.now ≤ 65536 }
{
    match read_syntax(alloc, text, functions) {
        Ok(_) => Ok(None),
        Err(fault) => Ok(Some(numbered(fault)?)),
    }
}

/// The number of the fault, and its offset.
fn numbered(fault: SyntaxFault) -> Result<(u8, u32), AllocError> {
    match fault {
        SyntaxFault::Lex(LexFault::BadByte { at }) => Ok((1, at)),
        SyntaxFault::Lex(LexFault::BigNumber { at }) => Ok((2, at)),
        SyntaxFault::Lex(LexFault::OpenComment { at }) => Ok((3, at)),
        SyntaxFault::Broken { rule, at } => Ok((number_of(rule), at)),
        SyntaxFault::Lex(LexFault::Memory(error)) | SyntaxFault::Memory(error) => Err(error),
    }
}

/// The number of the fault that a broken rule is.
fn number_of(rule: Rule) -> u8 {
    match rule {
        Rule::Expected => 4,
        Rule::Nesting => 10,
        Rule::Operators => 11,
    }
}

/// Adds the tree of the text, or its first fault by the grammar and its limits.
pub fn push_read(
    alloc: Global,
    text: &[u8],
    functions: bool,
    answer: &mut Answer,
) -> Result<(), AllocError>
    requires { length text.now ≤ 65536 }
{
    match read_syntax(alloc, text, functions) {
        Ok(syntax) => push_tree(&syntax.tree, answer),
        Err(fault) => push_numbered(Some(numbered(fault)?), "", answer),
    }
    Ok(())
}

/// Adds the first fault by the grammar and its limits, or that the text has a tree.
pub fn push_syntax(
    alloc: Global,
    text: &[u8],
    functions: bool,
    answer: &mut Answer,
) -> Result<(), AllocError>
    requires { length text.now ≤ 65536 }
{
    push_numbered(first_fault(alloc, text, functions)?, "a tree", answer);
    Ok(())
}

/// Adds the number of the fault and its offset, or the words for none.
pub fn push_numbered(fault: Option<(u8, u32)>, none: &str, answer: &mut Answer) {
    match fault {
        Some((number, at)) => {
            answer.push_number(i128::from(number));
            answer.push(" at ");
            answer.push_number(i128::from(at));
        }
        None => answer.push(none),
    }
}

/// Adds the numbers of the first faults of the texts that begin this one and are shorter, from the empty one on, each number once.
pub fn push_beginnings(alloc: Global, text: &[u8], answer: &mut Answer) -> Result<(), AllocError>
    requires { length text.now ≤ 65536 }
{
    let mut seen = [false; 19];
    for length in 0..text.len() {
        let number = match first_fault(alloc, &text[..length], false)? {
            Some((number, _)) => number,
            None => 0,
        };
        if let Some(is_seen) = seen.get_mut(number as usize) {
            if !*is_seen {
                answer.part(" ");
                answer.push_number(i128::from(number));
            }
            *is_seen = true;
        }
    }
    Ok(())
}

/// Adds the first fault, or that the text is a program.
pub fn push_fault(alloc: Global, text: &[u8], answer: &mut Answer) -> Result<(), AllocError>
    requires { length text.now ≤ 65536 }
{
    match parse(alloc, text) {
        Ok(_) => answer.push("a program"),
        Err(fault) => match fault.numbered() {
            Some(numbered) => push_numbered(Some(numbered), "", answer),
            None => return Err(AllocError),
        },
    }
    Ok(())
}
