//! The line of a text on which an offset lies.
ghost use Rattle.std.specs.Prelude.{◌≤◌, length};

/// The bytes of the line around the offset, without its line feed, and how many of them stand before the offset.
pub(crate) fn line_around(text: &[u8], offset: usize) -> (&[u8], usize)
    ensures { result.1 ≤ length result.0.now }
{
    let (front, rest) = text.split_at(offset.min(text.len()));
    let start = match front.iter().rev().position(|byte| *byte == b'\n') {
        Some(behind) => front.len() - behind,
        None => 0,
    };
    let end = match rest.iter().position(|byte| *byte == b'\n') {
        Some(length) => front.len() + length,
        None => text.len(),
    };
    (&text[start..end], front.len() - start)
}
