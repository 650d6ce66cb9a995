//! Texts, as lines quote them.
use std::alloc::{AllocError, Global};

/// The text that the pieces of a line make, one behind the other. A piece stands between quotes, and where a number stands before it, it comes so many times.
/// In a piece `\0a\` is the byte 10. None where the line has something else.
pub fn read_text(alloc: Global, line: &str) -> Result<Option<Vec<u8>>, AllocError> {
    let mut text = Vec::new(alloc);
    let mut rest = line;
    for _ in 0..=line.len() {
        let Some((before, behind)) = rest.split_once("\"") else {
            let is_read = rest.split_whitespace().next().is_none();
            return Ok(if is_read { Some(text) } else { None });
        };
        let Some((piece, more)) = behind.split_once("\"") else {
            return Ok(None);
        };
        let Some(times) = times_of(before) else {
            return Ok(None);
        };
        for _ in 0..times {
            if !add_piece(&mut text, piece)? {
                return Ok(None);
            }
        }
        rest = more;
    }
    Ok(None)
}

/// How often a piece comes behind this: once where nothing stands before it.
fn times_of(before: &str) -> Option<u32> {
    match before.split_whitespace().next() {
        Some(times) => times.parse::<u32>().ok(),
        None => Some(1),
    }
}

/// Adds the bytes of a piece; false where it is none.
fn add_piece(text: &mut Vec<u8>, piece: &str) -> Result<bool, AllocError> {
    let mut rest = piece;
    for _ in 0..=piece.len() {
        let Some((plain, behind)) = rest.split_once("\\") else {
            text.extend_from_slice(rest.as_bytes())?;
            return Ok(true);
        };
        let Some((digits, more)) = behind.split_once("\\") else {
            return Ok(false);
        };
        let Ok(byte) = u8::from_str_radix(digits, 16) else {
            return Ok(false);
        };
        text.extend_from_slice(plain.as_bytes())?;
        text.push(byte)?;
        rest = more;
    }
    Ok(false)
}
