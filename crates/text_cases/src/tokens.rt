//! Tokens.
ghost use Rattle.std.specs.Prelude.{◌≤◌, length};

use case_text::Answer;
use source_lex::{Kind, LexFault, Token, lex};
use std::alloc::{AllocError, Global};

/// Adds the tokens of the text, parted by commas, or its fault.
pub fn push_tokens(alloc: Global, text: &[u8], answer: &mut Answer) -> Result<(), AllocError>
    requires { length text.now ≤ 65536 }
{
    match lex(alloc, text) {
        Ok(tokens) => {
            if tokens.is_empty() {
                answer.push("none");
            }
            for token in &tokens {
                answer.part(", ");
                push_token(token, answer);
            }
        }
        Err(LexFault::Memory(error)) => return Err(error),
        Err(fault) => {
            let told = format!(in alloc; "{fault}")?;
            answer.push(told.as_str());
        }
    }
    Ok(())
}

/// Adds the token's kind, its offset and the offset behind it.
fn push_token(token: &Token, answer: &mut Answer) {
    match token.kind {
        Kind::Name => answer.push("name "),
        Kind::Sign => answer.push("sign "),
        Kind::Number(number) => {
            answer.push("number ");
            answer.push_number(i128::from(number));
            answer.push(" ");
        }
    }
    answer.push_number(i128::from(token.start));
    answer.push("-");
    answer.push_number(i128::from(token.end));
}

/// Adds the number of tokens.
pub fn push_count(alloc: Global, text: &[u8], answer: &mut Answer) -> Result<(), AllocError>
    requires { length text.now ≤ 65536 }
{
    match lex(alloc, text) {
        Ok(tokens) => answer.push_number(tokens.len() as i128),
        Err(LexFault::Memory(error)) => return Err(error),
        Err(_) => answer.push("a fault"),
    }
    Ok(())
}

/// Adds the bytes of each token, with a bar behind it.
pub fn push_pieces(alloc: Global, text: &[u8], answer: &mut Answer) -> Result<(), AllocError>
    requires { length text.now ≤ 65536 }
{
    let tokens = match lex(alloc, text) {
        Ok(tokens) => tokens,
        Err(LexFault::Memory(error)) => return Err(error),
        Err(_) => {
            answer.push("a fault");
            return Ok(());
        }
    };
    for token in &tokens {
        answer.push_bytes(token.bytes(text));
        answer.push("|");
    }
    Ok(())
}
