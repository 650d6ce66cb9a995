//! A source and a sink that keep what is needed to tell a refusal in words.
use outside::{Got, Put, Sink, Source};
use std::alloc::Global;

/// How many bytes of the first line are kept: more than a refusal's line has.
const LINE: usize = 64;

/// Gives what another source gives, and keeps it, while there is memory.
#[derive(Drop)]
pub(crate) struct KeepingSource<S> {
    source: S,
    text: Vec<u8>,
}

impl<S: Source + Drop> KeepingSource<S> {
    pub(crate) fn new(alloc: Global, source: S) -> KeepingSource<S> {
        KeepingSource {
            source,
            text: Vec::new(alloc),
        }
    }

    /// What was given so far.
    pub(crate) fn text(&self) -> &[u8] {
        self.text.as_slice()
    }
}

impl<S: Source + Drop> Source for KeepingSource<S> {
    ghost left = { λ keeping. S.left keeping.source };

    ghost faults = { λ keeping. S.faults keeping.source };

    fn read(&mut self, buffer: &mut [u8]) -> Got {
        let got = self.source.read(buffer);
        if let Got::Bytes(count) = got {
            let _ = self.text.extend_from_slice(&buffer[..count]);
        }
        got
    }
}

/// Hands what it takes to another sink, and keeps the first bytes of it, while there is memory.
#[derive(Drop)]
pub(crate) struct KeepingSink<K> {
    sink: K,
    line: Vec<u8>,
}

impl<K: Sink + Drop> KeepingSink<K> {
    pub(crate) fn new(alloc: Global, sink: K) -> KeepingSink<K> {
        KeepingSink {
            sink,
            line: Vec::new(alloc),
        }
    }

    /// The first bytes that were taken.
    pub(crate) fn line(&self) -> &[u8] {
        self.line.as_slice()
    }
}

impl<K: Sink + Drop> Sink for KeepingSink<K> {
    ghost taken = { λ keeping. K.taken keeping.sink };

    ghost faults = { λ keeping. K.faults keeping.sink };

    fn write(&mut self, piece: &[u8]) -> Put {
        let put = self.sink.write(piece);
        if let Put::Took(count) = put {
            let room = LINE.saturating_sub(self.line.len());
            let _ = self.line.extend_from_slice(&piece[..count.min(room)]);
        }
        put
    }
}
