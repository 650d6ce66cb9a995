//! The lexer: one pass over the text.

ghost use Rattle.std.specs.Prelude.{◌≤◌, length, All, IfOk, IfErr};
ghost use Rattle.source_lex.specs.Tokens.{TokensOf};
ghost use Rattle.source_lex.specs.Faults.{IsFaultAnswer};
ghost use Rattle.source_lex.specs.Spans.{IsWithin};

use crate::fault::LexFault;
use crate::piece::{Piece, next_piece};
use crate::token::Token;
use std::alloc::{AllocError, Global};

/// The tokens of the text, in order, or the first fault of the text.
///
/// Blanks (space, tab, line feed, carriage return, vertical tab, form feed) and comments (`/* */`, and `//` up to
/// the line feed) stand between tokens and are no tokens. Each token is the longest that begins at its offset. The
/// text has at most 65,536 bytes. Time is linear in the text; memory is the token list.
///
/// Faults, each with its offset: `BadByte`, `BigNumber`, `OpenComment`; `Memory` where the token list finds no room.
pub fn lex(alloc: Global, text: &[u8]) -> Result<Vec<Token>, LexFault>
    requires { length text.now ≤ 65536 }
    ensures tokens { IfOk result (λ tokens. TokensOf text.now tokens.items) }
    ensures spans { IfOk result (λ tokens. All (IsWithin text.now) tokens.items) }
    ensures fault { IfErr result (λ fault. IsFaultAnswer text.now fault) }
{
    let mut tokens = Vec::new(alloc);
    let mut at = 0usize;
    while at < text.len() {
        match next_piece(text, at)? {
            Piece::Gap(end) => at = end,
            Piece::Token(kind, end) => {
                let token = Token {
                    kind,
                    start: at as u32,
                    end: end as u32,
                };
                tokens
                    .push(token)
                    .map_err(|_| LexFault::Memory(AllocError))?;
                at = end;
            }
        }
    }
    Ok(tokens)
}
