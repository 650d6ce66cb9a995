//! A source and a sink over std's readers and writers. They tell what the reader or writer tells.
ghost use Rattle.std.specs.Prelude.{◌≡◌, ◌<◌, ◌≤◌, length, take, IfSome, IfNone};
ghost use Rattle.std.specs.Io.KnownBytes.{Keeps, Consumes, Appends, IsAtEnd};

use crate::faults::one_more;
use crate::reading::{Got, Source};
use crate::writing::{Put, Sink};
use std::io::{ErrorKind, Read, Write};

/// Gives the bytes of a reader. A read of no byte is its end, and each error is a fault, but for a
/// read that a signal interrupted, which is made again.
#[derive(Drop)]
pub struct StreamSource<R> {
    reader: R,
    faults: u64,
}

impl<R: Read + Drop> StreamSource<R> {
    /// A source of what `reader` still gives, with no fault so far.
    pub fn new(reader: R) -> StreamSource<R>
        ensures left { ⟦<StreamSource<R> as Source>⟧.left result ≡ R.remaining reader }
        ensures faults { ⟦<StreamSource<R> as Source>⟧.faults result ≡ 0 }
    {
        StreamSource { reader, faults: 0 }
    }
}

impl<R: Read + Drop> Source for StreamSource<R> {
    ghost left = { λ source. R.remaining source.reader };

    ghost faults = { λ source. source.faults };

    fn read(&mut self, buffer: &mut [u8]) -> Got {
        match read_uninterrupted(&mut self.reader, buffer) {
            Some(0) => Got::End,
            Some(count) => Got::Bytes(count),
            None => {
                self.faults = one_more(self.faults);
                Got::Failed
            }
        }
    }
}

// One read, made again while a signal interrupts it, 2^64 - 1 times at most. `None`: it failed.
fn read_uninterrupted<R: Read>(reader: &mut R, buffer: &mut [u8]) -> Option<usize>
    ensures within { IfSome result (λ n. n ≤ length buffer.new) }
    ensures bytes { IfSome result (λ n. Consumes (R.remaining reader.old) (R.remaining reader.new)
        (take n buffer.new)) }
    ensures end { IfSome result (λ n. n ≡ 0 → 0 < length buffer.old
        → IsAtEnd (R.remaining reader.new)) }
    ensures kept { IfNone result (Keeps (R.remaining reader.old) (R.remaining reader.new)) }
{
    for _ in 0..u64::MAX {
        match reader.read(buffer) {
            Ok(count) => return Some(count),
            Err(error) if error.kind() == ErrorKind::Interrupted => {}
            Err(_) => return None,
        }
    }
    None
}

/// Hands bytes to a writer. Each error is a fault, and so is a write that takes no byte, but a write
/// that a signal interrupted is made again.
#[derive(Drop)]
pub struct StreamSink<W> {
    writer: W,
    faults: u64,
}

impl<W: Write + Drop> StreamSink<W> {
    /// A sink that hands its bytes to `writer`, with no fault so far.
    pub fn new(writer: W) -> StreamSink<W>
        ensures taken { ⟦<StreamSink<W> as Sink>⟧.taken result ≡ W.contents writer }
        ensures faults { ⟦<StreamSink<W> as Sink>⟧.faults result ≡ 0 }
    {
        StreamSink { writer, faults: 0 }
    }
}

impl<W: Write + Drop> Sink for StreamSink<W> {
    ghost taken = { λ sink. W.contents sink.writer };

    ghost faults = { λ sink. sink.faults };

    fn write(&mut self, piece: &[u8]) -> Put {
        match write_uninterrupted(&mut self.writer, piece) {
            Some(count) if count > 0 => Put::Took(count),
            _ => {
                self.faults = one_more(self.faults);
                Put::Failed
            }
        }
    }
}

// One write, made again while a signal interrupts it, 2^64 - 1 times at most. `None`: it failed.
fn write_uninterrupted<W: Write>(writer: &mut W, piece: &[u8]) -> Option<usize>
    ensures within { IfSome result (λ n. n ≤ length piece.now) }
    ensures bytes { IfSome result (λ n. Appends (W.contents writer.old) (W.contents writer.new)
        (take n piece.now)) }
    ensures kept { IfNone result (Keeps (W.contents writer.old) (W.contents writer.new)) }
{
    for _ in 0..u64::MAX {
        match writer.write(piece) {
            Ok(count) => return Some(count),
            Err(error) if error.kind() == ErrorKind::Interrupted => {}
            Err(_) => return None,
        }
    }
    None
}
