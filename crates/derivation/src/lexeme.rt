//! Words as the parser reads them, told apart by what they are.

ghost use Rattle.std.specs.Prelude.{◌≡◌, IfOk, All};
ghost use Rattle.source_lex.specs.Spans.{IsWithin};
ghost use Rattle.derivation.specs.Word.{word_of, words};
ghost use Rattle.derivation.specs.Spelled.{spelled, all_spelled};

use crate::symbol::{Symbol, reserved_word, sign};
use source_lex::{Kind, Token};
use std::alloc::{AllocError, Global};

/// A word: a reserved word or sign, a name that isn't reserved, or a number.
#[derive(Clone, Copy)]
pub enum Lexeme<'t> {
    Symbol(Symbol),
    Name(&'t [u8]),
    Number(i64),
    /// A sign of no meaning, of which the lexer gives none.
    Unknown,
}

/// The words of a text, one for each token. `AllocError` where the list finds no room.
pub fn lexemes<'t>(
    alloc: Global,
    text: &'t [u8],
    tokens: &[Token],
) -> Result<Vec<Lexeme<'t>>, AllocError>
    requires { All (IsWithin text.now) tokens.now }
    ensures { IfOk result (λ found. all_spelled found.items ≡ words text.now tokens.now) }
{
    let mut found = Vec::with_capacity(alloc, tokens.len())?;
    for token in tokens {
        found.push(read(token.kind, token.bytes(text)))?;
    }
    Ok(found)
}

fn read<'t>(kind: Kind, bytes: &'t [u8]) -> Lexeme<'t>
    ensures { spelled result ≡ word_of kind bytes.now }
{
    match kind {
        Kind::Number(value) => Lexeme::Number(value),
        Kind::Name => match reserved_word(bytes) {
            Some(symbol) => Lexeme::Symbol(symbol),
            None => Lexeme::Name(bytes),
        },
        Kind::Sign => match sign(bytes) {
            Some(symbol) => Lexeme::Symbol(symbol),
            None => Lexeme::Unknown,
        },
    }
}
