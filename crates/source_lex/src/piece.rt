//! One piece of a text: a blank, a comment or a token.

ghost use Rattle.std.specs.Prelude.{◌≡◌, ◌<◌, ◌^◌, length, IsTrue, MatchResult, slice_index};
ghost use Rattle.source_lex.specs.Bytes.{is_digit};
ghost use Rattle.source_lex.specs.Faults.{FaultAt};
ghost use Rattle.source_lex.specs.Pieces.{PieceAt};

use crate::bytes::{is_blank, is_digit, is_letter, is_name_byte};
use crate::fault::LexFault;
use crate::scan::{ByteClass, byte_at, close_at, decimal_value, literal_end, run_end, sign_end};
use crate::token::Kind;

/// What begins at an offset, with the offset where it ends.
#[derive(Clone, Copy)]
pub enum Piece {
    /// A blank or a comment.
    Gap(usize),
    /// A token of this kind.
    Token(Kind, usize),
}

/// The piece that begins at an offset of the text, or the fault that is met there.
pub fn next_piece(text: &[u8], at: usize) -> Result<Piece, LexFault>
    requires inside { at < length text.now }
    requires small { length text.now < 2 ^ 32 }
    ensures { MatchResult result (PieceAt text.now at) (FaultAt text.now at) }
{
    let byte = text[at];
    if is_blank(byte) {
        Ok(Piece::Gap(at + 1))
    } else if is_letter(byte) {
        Ok(Piece::Token(Kind::Name, run_end(text, at, ByteClass::NameByte)))
    } else if is_digit(byte) {
        number(text, at)
    } else if byte == b'/' {
        slash(text, at)
    } else {
        match sign_end(text, at) {
            Some(end) => Ok(Piece::Token(Kind::Sign, end)),
            None => Err(LexFault::BadByte { at: at as u32 }),
        }
    }
}

// The comment that begins with the `/` at an offset, or the sign that it is.
fn slash(text: &[u8], at: usize) -> Result<Piece, LexFault>
    requires slash { slice_index text.now at ≡ 47 }
    requires inside { at < length text.now }
    requires small { length text.now < 2 ^ 32 }
    ensures { MatchResult result (PieceAt text.now at) (FaultAt text.now at) }
{
    match byte_at(text, at + 1) {
        b'/' => Ok(Piece::Gap(run_end(text, at + 2, ByteClass::InLine))),
        b'*' => match close_at(text, at + 2) {
            Some(close) => Ok(Piece::Gap(close + 2)),
            None => Err(LexFault::OpenComment { at: at as u32 }),
        },
        _ => Ok(Piece::Token(Kind::Sign, at + 1)),
    }
}

// The number that begins with the digit at an offset.
fn number(text: &[u8], at: usize) -> Result<Piece, LexFault>
    requires digit { IsTrue (is_digit (slice_index text.now at)) }
    requires inside { at < length text.now }
    requires small { length text.now < 2 ^ 32 }
    ensures { MatchResult result (PieceAt text.now at) (FaultAt text.now at) }
{
    let end = literal_end(text, at);
    let value = decimal_value(&text[at..end]);
    if value > i64::MAX as u64 {
        return Err(LexFault::BigNumber { at: at as u32 });
    }
    if is_name_byte(byte_at(text, end)) {
        return Err(LexFault::BadByte { at: end as u32 });
    }
    Ok(Piece::Token(Kind::Number(value as i64), end))
}
