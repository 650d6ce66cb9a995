//! Words as the reader sees them, told apart by what they are.

ghost use Rattle.std.specs.Prelude.{◌≡◌, ◌≢◌, ◌∷◌, ◌+◌, List, MatchOption, IfSome, IfOk, All};
ghost use Rattle.source_lex.specs.Spans.{IsWithin};
ghost use Rattle.formula_syntax.specs.Words.{Word, sign as sign_word, word_of, words, spelled, all_spelled, words_from, IsBehind};

use crate::sign::{Sign, reserved_word, sign_spelled};
use source_lex::{Kind, Token};
use std::alloc::{AllocError, Global};

/// A word: a reserved word or sign, a name that isn't reserved, or a number.
#[derive(Clone, Copy)]
pub enum Lexeme<'t> {
    Sign(Sign),
    Name(&'t [u8]),
    Number(i64),
    /// A sign of programs that no formula has.
    Other,
}

/// The words of a text, one for each token. `AllocError` where the list finds no room.
pub fn lexemes<'t>(
    alloc: Global,
    text: &'t [u8],
    tokens: &[Token],
) -> Result<Vec<Lexeme<'t>>, AllocError>
    requires { All (IsWithin text.now) tokens.now }
    ensures { IfOk result (λ found. all_spelled found.items ≡ words text.now tokens.now) }
{
    let mut found = Vec::with_capacity(alloc, tokens.len())?;
    for token in tokens {
        found.push(read(token.kind, token.bytes(text)))?;
    }
    Ok(found)
}

fn read<'t>(kind: Kind, bytes: &'t [u8]) -> Lexeme<'t>
    ensures { spelled result ≡ word_of kind bytes.now }
{
    match kind {
        Kind::Number(value) => Lexeme::Number(value),
        Kind::Name => match reserved_word(bytes) {
            Some(sign) => Lexeme::Sign(sign),
            None => Lexeme::Name(bytes),
        },
        Kind::Sign => match sign_spelled(bytes) {
            Some(sign) => Lexeme::Sign(sign),
            None => Lexeme::Other,
        },
    }
}

/// The number behind, where the word of this number is the sign; `None` where it isn't.
pub fn after(words: &[Lexeme<'_>], at: usize, wanted: Sign) -> Option<usize>
    ensures read { MatchOption result
        ((rest : List Word) → words_from words.now at ≢ sign_word wanted ∷ rest)
        (λ next. (words_from words.now at ≡ sign_word wanted ∷ words_from words.now next) × (next ≡ at + 1)) }
    ensures forward { IfSome result (IsBehind words.now at) }
{
    match *words.get(at)? {
        Lexeme::Sign(found) if found == wanted => Some(at + 1),
        _ => None,
    }
}
