//! Where the parts of a text end.

ghost use Rattle.std.specs.Prelude.{◌≡◌, ◌≢◌, ◌+◌, ◌^◌, ◌<◌, ◌≤◌, length, min, IsTrue, All, MatchOption, slice_index};
ghost use Rattle.source_lex.specs.Runs.{Run};
ghost use Rattle.source_lex.specs.ByteClass.{has};
ghost use Rattle.source_lex.specs.Bytes.{is_digit};
ghost use Rattle.source_lex.specs.Signs.{is_single_sign, is_double_sign};
ghost use Rattle.source_lex.specs.Words.{decimal_value, LiteralAt, TokenAt};
ghost use Rattle.source_lex.specs.Scans.{FirstCloseAt, NeverCloses, NoSignAt};

use crate::bytes;
use crate::token::Kind;

/// A class of bytes that runs are made of.
#[derive(Clone, Copy)]
pub enum ByteClass {
    /// What a name goes on with.
    NameByte,
    /// A decimal digit.
    Digit,
    /// Anything but a line feed.
    InLine,
}

impl ByteClass {
    /// Whether the byte is of the class.
    #[tactic(auto, unfolding(crate::specs::Bytes::is_in_line))]
    fn has(self, byte: u8) -> bool
        ensures { result ≡ has self byte }
    {
        match self {
            ByteClass::NameByte => bytes::is_name_byte(byte),
            ByteClass::Digit => bytes::is_digit(byte),
            ByteClass::InLine => byte != b'\n',
        }
    }
}

/// The byte at an offset, or 0 past the end.
pub fn byte_at(text: &[u8], at: usize) -> u8
    ensures { result ≡ slice_index text.now at }
{
    if at < text.len() { text[at] } else { 0 }
}

/// Where the run of bytes of a class ends that begins at an offset.
pub fn run_end(text: &[u8], from: usize, class: ByteClass) -> usize
    requires { from ≤ length text.now }
    ensures { Run (has class) text.now from result }
{
    let mut at = from;
    while at < text.len() && class.has(text[at]) {
        at += 1;
    }
    at
}

/// Where the first `*/` from an offset on begins.
pub fn close_at(text: &[u8], from: usize) -> Option<usize>
    requires within { from ≤ length text.now }
    requires small { length text.now < 2 ^ 32 }
    ensures { MatchOption result (NeverCloses text.now from) (FirstCloseAt text.now from) }
{
    let mut at = from;
    while at + 1 < text.len() {
        if text[at] == b'*' && text[at + 1] == b'/' {
            return Some(at);
        }
        at += 1;
    }
    None
}

/// Where the decimal literal ends that begins with the digit at an offset.
pub fn literal_end(text: &[u8], at: usize) -> usize
    requires inside { at < length text.now }
    requires digit { IsTrue (is_digit (slice_index text.now at)) }
    ensures { LiteralAt text.now at result }
{
    if text[at] == b'0' {
        at + 1
    } else {
        run_end(text, at, ByteClass::Digit)
    }
}

/// The number that the digits say, or `u64::MAX` where it is above that.
pub fn decimal_value(digits: &[u8]) -> u64
    requires { All (λ byte. IsTrue (is_digit byte)) digits.now }
    ensures { result ≡ min (decimal_value digits.now) u64.MAX }
{
    let mut value = 0u64;
    for digit in digits {
        value = value
            .saturating_mul(10)
            .saturating_add(u64::from(*digit - b'0'));
    }
    value
}

/// Where the sign ends that begins at an offset, the longest if there are two. A `/` may begin a comment, and isn't asked for.
pub fn sign_end(text: &[u8], at: usize) -> Option<usize>
    requires no_slash { slice_index text.now at ≢ 47 }
    requires inside { at < length text.now }
    requires small { length text.now < 2 ^ 32 }
    ensures { MatchOption result (NoSignAt text.now at) (λ end. TokenAt text.now at end Kind.Sign) }
{
    let byte = text[at];
    let next = byte_at(text, at + 1);
    if bytes::is_double_sign(byte, next) {
        Some(at + 2)
    } else if bytes::is_single_sign(byte) {
        Some(at + 1)
    } else {
        None
    }
}
