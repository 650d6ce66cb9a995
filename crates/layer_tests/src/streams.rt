//! What no clause says: that each call can succeed, and what the adapters do at a reader's or a
//! writer's errors.
ghost use Rattle.std.specs.Prelude.{◌<◌};

use outside::{
    Got, MemorySink, MemorySource, Put, ReadEnd, Sink, Source, StreamSink, StreamSource,
    read_program, write_all,
};
use std::alloc::{AllocError, Global};
use std::io;
use std::io::{ErrorKind, Read, Write};
use std::test::Fail;

// The answers of six reads with a buffer of this length, and the bytes that they gave.
fn six_reads<S: Source>(
    alloc: Global,
    source: &mut S,
    buffer_len: usize,
) -> Result<(Vec<Got>, Vec<u8>), AllocError>
    requires { 0 < buffer_len }
{
    let mut buffer = vec![in alloc; 0u8; buffer_len]?;
    let mut answers = Vec::new(alloc);
    let mut bytes = Vec::new(alloc);
    for _ in 0..6 {
        let got = source.read(buffer.as_mut_slice());
        if let Got::Bytes(count) = got {
            bytes.extend_from_slice(&buffer[..count])?;
        }
        answers.push(got)?;
    }
    Ok((answers, bytes))
}

#[test]
fn memory_source_fails_at_its_numbered_calls(rt: HostRuntime) -> Result<(), Fail> {
    use Got::{Bytes, End, Failed};

    let alloc = rt.alloc();
    let rows: &[(usize, &[u32], &[Got])] = &[
        (3, &[], &[Bytes(3), Bytes(3), Bytes(1), End, End, End]),
        (8, &[], &[Bytes(7), End, End, End, End, End]),
        (
            3,
            &[3, 1],
            &[Failed, Bytes(3), Failed, Bytes(3), Bytes(1), End],
        ),
        (
            4,
            &[0, 4, 6],
            &[Bytes(4), Bytes(3), End, Failed, End, Failed],
        ),
    ];
    for &(buffer_len, failing, wanted) in rows {
        assert!(rt; buffer_len > 0);
        let bytes = b"bananas".to_vec(alloc)?;
        let mut source = MemorySource::new(bytes, failing.to_vec(alloc)?);
        let (answers, given) = six_reads(alloc, &mut source, buffer_len)?;
        assert_eq!(rt; answers.as_slice(), wanted);
        assert!(rt; b"bananas".starts_with(given.as_slice()));
    }
    Ok(())
}

#[test]
fn memory_sink_takes_what_it_has_room_for(rt: HostRuntime) -> Result<(), Fail> {
    let alloc = rt.alloc();
    let text = b"six by six";
    for room in 0u32..=10 {
        let mut sink = MemorySink::new(alloc, room, Vec::new(alloc))?;
        assert_eq!(rt;
            write_all(&mut sink, text),
            room == 10,
            "with room for {room}"
        );
        assert_eq!(rt; sink.taken().len(), room as usize);
        assert!(rt; text.starts_with(sink.taken()));
    }
    Ok(())
}

#[test]
fn memory_sink_fails_at_its_numbered_calls(rt: HostRuntime) -> Result<(), Fail> {
    let alloc = rt.alloc();
    let mut sink = MemorySink::new(alloc, 5, vec![in alloc; 2]?)?;
    assert!(rt; write_all(&mut sink, b"ab"));
    assert!(rt; !write_all(&mut sink, b"cd"));
    assert!(rt; sink.write(b"efgh") == Put::Took(3));
    assert!(rt; sink.write(b"h") == Put::Failed);
    assert!(rt; write_all(&mut sink, b""));
    assert_eq!(rt; sink.taken(), b"abefg".as_slice());
    Ok(())
}

// Gives one byte a call.
#[derive(Drop)]
struct Dripping(MemorySource);

impl Source for Dripping {
    ghost left = { λ source. ⟦<MemorySource as Source>⟧.left source.0 };

    ghost faults = { λ source. ⟦<MemorySource as Source>⟧.faults source.0 };

    fn read(&mut self, buffer: &mut [u8]) -> Got {
        self.0.read(&mut buffer[..1])
    }
}

#[derive(Clone, Copy, Debug, PartialEq, Eq)]
enum Outcome {
    Length(usize),
    TooLong,
    Failed,
}

fn read_len<S: Source>(alloc: Global, source: &mut S) -> Result<Outcome, AllocError> {
    match read_program(alloc, source)? {
        ReadEnd::Text(text) => Ok(Outcome::Length(text.len())),
        ReadEnd::TooLong => Ok(Outcome::TooLong),
        ReadEnd::Failed => Ok(Outcome::Failed),
    }
}

#[test]
fn programs_are_read_up_to_the_limit(rt: HostRuntime) -> Result<(), Fail> {
    let alloc = rt.alloc();
    let rows: &[(usize, &[u32], Outcome)] = &[
        (0, &[], Outcome::Length(0)),
        (300, &[], Outcome::Length(300)),
        (65_536, &[], Outcome::Length(65_536)),
        (65_537, &[], Outcome::TooLong),
        (300, &[1], Outcome::Failed),
        (5_000, &[2], Outcome::Failed),
    ];
    for &(count, failing, wanted) in rows {
        let bytes = vec![in alloc; b'x'; count]?;
        let mut source = MemorySource::new(bytes, failing.to_vec(alloc)?);
        assert_eq!(rt; read_len(alloc, &mut source)?, wanted, "{count} bytes");
    }
    Ok(())
}

#[test]
fn programs_are_read_a_byte_a_call(rt: HostRuntime) -> Result<(), Fail> {
    let alloc = rt.alloc();
    let rows: &[(&[u32], Outcome)] = &[(&[], Outcome::Length(7)), (&[8], Outcome::Failed)];
    for &(failing, wanted) in rows {
        let bytes = b"bananas".to_vec(alloc)?;
        let mut source = Dripping(MemorySource::new(bytes, failing.to_vec(alloc)?));
        assert_eq!(rt; read_len(alloc, &mut source)?, wanted);
    }
    Ok(())
}

// Meets these errors first, one a call, and then reads or writes, `most` bytes a call.
#[derive(Drop)]
struct Rough<T> {
    errors: &'static [ErrorKind],
    inner: T,
    most: usize,
}

impl<T> Rough<T> {
    fn next_error(&mut self) -> Option<io::Error> {
        let (first, rest) = self.errors.split_first()?;
        self.errors = rest;
        Some(io::Error::from(*first))
    }
}

impl Read for Rough<&[u8]> {
    fn read(&mut self, buf: &mut [u8]) -> io::Result<usize> {
        if let Some(error) = self.next_error() {
            return Err(error);
        }
        let most = self.most.min(buf.len());
        self.inner.read(&mut buf[..most])
    }
}

impl Write for Rough<&mut Vec<u8>> {
    fn write(&mut self, buf: &[u8]) -> io::Result<usize> {
        if let Some(error) = self.next_error() {
            return Err(error);
        }
        let most = self.most.min(buf.len());
        self.inner.write(&buf[..most])
    }

    fn flush(&mut self) -> io::Result<()> {
        Ok(())
    }
}

#[test]
fn stream_sources_fail_where_their_readers_do(rt: HostRuntime) -> Result<(), Fail> {
    let alloc = rt.alloc();
    let rows: &[(&[ErrorKind], Outcome)] = &[
        (&[], Outcome::Length(7)),
        (
            &[ErrorKind::Interrupted, ErrorKind::Interrupted],
            Outcome::Length(7),
        ),
        (&[ErrorKind::Other], Outcome::Failed),
        (
            &[ErrorKind::Interrupted, ErrorKind::BrokenPipe],
            Outcome::Failed,
        ),
    ];
    for &(errors, wanted) in rows {
        let inner: &[u8] = b"bananas";
        let mut source = StreamSource::new(Rough {
            errors,
            inner,
            most: 3,
        });
        assert_eq!(rt; read_len(alloc, &mut source)?, wanted);
    }
    let inner: &[u8] = b"bananas";
    let mut source = StreamSource::new(Rough {
        errors: &[ErrorKind::Other],
        inner,
        most: 3,
    });
    assert_eq!(rt; read_len(alloc, &mut source)?, Outcome::Failed);
    assert_eq!(rt; read_len(alloc, &mut source)?, Outcome::Length(7));
    Ok(())
}

#[test]
fn stream_sinks_fail_where_their_writers_do(rt: HostRuntime) -> Result<(), Fail> {
    let rows: &[(&[ErrorKind], usize, bool)] = &[
        (&[], 3, true),
        (&[ErrorKind::Interrupted], 7, true),
        (&[ErrorKind::Other], 3, false),
        (&[], 0, false),
    ];
    for &(errors, most, wanted) in rows {
        let mut taken = Vec::new(rt.alloc());
        let inner = &mut taken;
        let mut sink = StreamSink::new(Rough {
            errors,
            inner,
            most,
        });
        assert_eq!(rt; write_all(&mut sink, b"bananas"), wanted);
        let wanted_bytes: &[u8] = if wanted { b"bananas" } else { b"" };
        assert_eq!(rt; taken.as_slice(), wanted_bytes);
    }
    Ok(())
}

#[test]
fn streams_over_memory(rt: HostRuntime) -> Result<(), Fail> {
    let alloc = rt.alloc();
    let mut source = StreamSource::new(b"bananas".as_slice());
    let mut taken = Vec::new(alloc);
    if let ReadEnd::Text(text) = read_program(alloc, &mut source)? {
        let mut sink = StreamSink::new(&mut taken);
        assert!(rt; write_all(&mut sink, text.as_slice()));
    }
    assert_eq!(rt; taken.as_slice(), b"bananas".as_slice());
    Ok(())
}
