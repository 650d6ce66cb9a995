//! Sources, and the reading of a whole program.
ghost use Rattle.std.specs.Prelude.{◌≡◌, ℕ, List, Option, ◌+◌, ◌^◌, ◌<◌, ◌≤◌, ◌-◌, length, IfOk, OnErr};
ghost use Rattle.outside.specs.Source.{Gives, ConsumesUpTo};
ghost use Rattle.outside.specs.ReadEnd.{EndsReading};

use std::alloc::{AllocError, Global};

/// What one read of a source answers.
#[derive(Clone, Copy, Debug, PartialEq, Eq)]
pub enum Got {
    /// The buffer begins with this many bytes that came, at least one.
    Bytes(usize),
    /// No byte is left.
    End,
    /// The read failed, and no byte was lost.
    Failed,
}

/// Gives bytes until its end, and counts the reads that failed.
pub trait Source {
    // The bytes that are left, where the source tells them.
    ghost left: { Self → Option (List ℕ) };

    // How many reads failed so far, or the last value of its counter.
    ghost faults: { Self → ℕ };

    /// Reads the next bytes to the front of `buffer`, which has room for at least one.
    fn read(&mut self, buffer: &mut [u8]) -> Got
        requires { 0 < length buffer.old }
        ensures never_falls { faults self.old ≤ faults self.new }
        ensures gives { Gives result (left self.old) (left self.new) (faults self.old)
            (faults self.new) buffer.new };
}

/// How the reading of a whole text ended.
#[derive(Debug, Drop)]
pub enum ReadEnd {
    /// All the bytes that were left, within the limit.
    Text(Vec<u8>),
    /// One byte more than the limit allows came.
    TooLong,
    /// A read failed.
    Failed,
}

/// The most bytes that a program's text may have.
pub const PROGRAM_LIMIT: usize = 65_536;

// How many bytes one read asks for at most.
const PIECE_LEN: usize = 4096;

/// Reads a program's text to its end, or until a byte more than [`PROGRAM_LIMIT`] came, or until a
/// read fails. The only error is want of memory, which may come in the middle of the reading; the
/// bytes read until then are lost.
pub fn read_program<S: Source>(alloc: Global, source: &mut S) -> Result<ReadEnd, AllocError>
    ensures ends { IfOk result (λ end. EndsReading PROGRAM_LIMIT end (S.left source.old)
        (S.left source.new) (S.faults source.old) (S.faults source.new)) }
    ensures stops { ConsumesUpTo (PROGRAM_LIMIT + 1) (S.left source.old) (S.left source.new) }
    ensures never_falls { S.faults source.old ≤ S.faults source.new }
    ensures stays { OnErr result (S.faults source.new ≡ S.faults source.old) }
{
    read_up_to(alloc, source, PROGRAM_LIMIT, PIECE_LEN)
}

// Reads to the end in pieces of `piece_len` bytes, where at most `limit` bytes are left.
fn read_up_to<S: Source>(
    alloc: Global,
    source: &mut S,
    limit: usize,
    piece_len: usize,
) -> Result<ReadEnd, AllocError>
    requires room { 0 < piece_len }
    requires fits { limit < 2 ^ 64 - 1 }
    ensures ends { IfOk result (λ end. EndsReading limit end (S.left source.old)
        (S.left source.new) (S.faults source.old) (S.faults source.new)) }
    ensures stops { ConsumesUpTo (limit + 1) (S.left source.old) (S.left source.new) }
    ensures never_falls { S.faults source.old ≤ S.faults source.new }
    ensures stays { OnErr result (S.faults source.new ≡ S.faults source.old) }
{
    let mut text = Vec::new(alloc);
    let mut piece = vec![in alloc; 0u8; piece_len]?;
    while text.len() <= limit {
        let most = limit + 1 - text.len();
        match read_at_most(source, piece.as_mut_slice(), most) {
            Got::Bytes(count) => text.extend_from_slice(&piece[..count])?,
            Got::End => return Ok(ReadEnd::Text(text)),
            Got::Failed => return Ok(ReadEnd::Failed),
        }
    }
    Ok(ReadEnd::TooLong)
}

// One read of at most `most` bytes to the front of `piece`.
fn read_at_most<S: Source>(source: &mut S, piece: &mut [u8], most: usize) -> Got
    requires piece { 0 < length piece.old }
    requires most { 0 < most }
    ensures never_falls { S.faults source.old ≤ S.faults source.new }
    ensures gives { Gives result (S.left source.old) (S.left source.new) (S.faults source.old)
        (S.faults source.new) piece.new }
    ensures most { (n : ℕ) → result ≡ Got.Bytes n → n ≤ most }
{
    let room = most.min(piece.len());
    source.read(&mut piece[..room])
}
