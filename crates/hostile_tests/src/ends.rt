//! Sources and sinks that drip, fail or never end.

ghost use Rattle.std.specs.Prelude.{None};

use crate::endings::ends_with;
use function_top::Status;
use memory_runs::{
    COUNTDOWN, COUNTDOWN_REPORT, EMPTY, EMPTY_REPORT, NO_OPTIONS, outcome, outcome_within,
};
use outside::{Got, MemorySource, Source};
use std::alloc::{AllocError, Global};
use std::process::Abort;
use std::test::Fail;

/// What is written for words that are refused.
const USAGE: &str =
    "usage: function [--ctl TEXT] [--domain boxes|octagons|polyhedra] [--delay N] [--at TEXT] [--explain] [--demo N] [--fit] [--refine]\n";

// Gives one byte a call.
#[derive(Drop)]
struct Dripping(MemorySource);

impl Source for Dripping {
    ghost left = { λ source. ⟦<MemorySource as Source>⟧.left source.0 };

    ghost faults = { λ source. ⟦<MemorySource as Source>⟧.faults source.0 };

    fn read(&mut self, buffer: &mut [u8]) -> Got {
        self.0.read(&mut buffer[..1])
    }
}

// Gives a byte without end, tells nothing, and counts what it gave.
#[derive(Drop)]
struct Endless {
    byte: u8,
    given: usize,
}

impl Source for Endless {
    ghost left = { λ source. None };

    ghost faults = { λ source. 0 };

    fn read(&mut self, buffer: &mut [u8]) -> Got {
        for place in buffer.iter_mut() {
            *place = self.byte;
        }
        self.given = self.given.saturating_add(buffer.len());
        Got::Bytes(buffer.len())
    }
}

// Counts the calls.
#[derive(Drop)]
struct Counting {
    source: MemorySource,
    calls: u32,
}

impl Source for Counting {
    ghost left = { λ counting. ⟦<MemorySource as Source>⟧.left counting.source };

    ghost faults = { λ counting. ⟦<MemorySource as Source>⟧.faults counting.source };

    fn read(&mut self, buffer: &mut [u8]) -> Got {
        self.calls = self.calls.saturating_add(1);
        self.source.read(buffer)
    }
}

// A source of the text that counts its calls, of which those with the numbers fail.
fn counted(alloc: Global, text: &str, failing: &[u32]) -> Result<Counting, AllocError> {
    let numbers = failing.to_vec(alloc)?;
    Ok(Counting {
        source: MemorySource::new(text.as_bytes().to_vec(alloc)?, numbers),
        calls: 0,
    })
}

/// Texts and their reports.
const DRIPPED: &[(&str, &str)] = &[(EMPTY, EMPTY_REPORT), (COUNTDOWN, COUNTDOWN_REPORT)];

#[test]
fn a_source_may_drip(rt: HostRuntime) -> Result<(), Fail> {
    let alloc = rt.alloc();
    for &(text, report) in DRIPPED {
        let bytes = text.as_bytes().to_vec(alloc)?;
        let mut source = Dripping(MemorySource::new(bytes, Vec::new(alloc)));
        let outcome = outcome(alloc, NO_OPTIONS, &mut source)?;
        ends_with(&rt, &outcome, Status::AllInputs, report.as_bytes(), text);
    }
    Ok(())
}

// Of the first byte more than a text may have nothing more is read.
#[test]
fn a_source_may_never_end(rt: HostRuntime) -> Result<(), Fail> {
    for byte in *b"; x" {
        let mut source = Endless { byte, given: 0 };
        let outcome = outcome(rt.alloc(), NO_OPTIONS, &mut source)?;
        ends_with(
            &rt,
            &outcome,
            Status::Program,
            b"program: 14 at 65536\n",
            "bytes without end",
        );
        assert_eq!(rt; source.given, 65_537, "of {byte}");
    }
    Ok(())
}

// The first read gives the text, and the second tells its end.
#[test]
fn reading_stops_at_the_first_failed_read(rt: HostRuntime) -> Result<(), Fail> {
    let alloc = rt.alloc();
    for failing in [1u32, 2] {
        let mut source = counted(alloc, EMPTY, &[failing])?;
        let outcome = outcome(alloc, NO_OPTIONS, &mut source)?;
        ends_with(&rt, &outcome, Status::ReadFault, b"", "a read that fails");
        assert_eq!(rt; source.calls, failing);
    }
    Ok(())
}

// Refused words come before any reading.
#[test]
fn nothing_is_read_for_words_that_are_refused(rt: HostRuntime) -> Result<(), Fail> {
    let alloc = rt.alloc();
    let mut source = counted(alloc, EMPTY, &[1])?;
    let outcome = outcome(alloc, &["function", "--help"], &mut source)?;
    ends_with(&rt, &outcome, Status::Words, USAGE.as_bytes(), "--help");
    assert_eq!(rt; source.calls, 0);
    Ok(())
}

/// Words and a text, and what comes of them.
struct Written {
    words: &'static [&'static str],
    text: &'static str,
    /// The status where there is room for all that is written.
    whole: Status,
    bytes: &'static str,
    /// The status where there isn't. A refusal stays one.
    cut: Status,
}

const WRITTEN: &[Written] = &[
    Written {
        words: NO_OPTIONS,
        text: EMPTY,
        whole: Status::AllInputs,
        bytes: EMPTY_REPORT,
        cut: Status::WriteFault,
    },
    Written {
        words: NO_OPTIONS,
        text: COUNTDOWN,
        whole: Status::AllInputs,
        bytes: COUNTDOWN_REPORT,
        cut: Status::WriteFault,
    },
    Written {
        words: &["function", "--help"],
        text: EMPTY,
        whole: Status::Words,
        bytes: USAGE,
        cut: Status::Words,
    },
    Written {
        words: NO_OPTIONS,
        text: "",
        whole: Status::Program,
        bytes: "program: 4 at 0\n",
        cut: Status::Program,
    },
    Written {
        words: &["function", "--ctl", ""],
        text: EMPTY,
        whole: Status::Formula,
        bytes: "formula: 4 at 0\n",
        cut: Status::Formula,
    },
];

// Every room below the length of what is to be written, that very room, and some more.
#[test]
fn a_sink_takes_what_it_has_room_for(rt: HostRuntime) -> Result<(), Fail> {
    for written in WRITTEN {
        let text = written.text;
        assert!(rt;
            written.bytes.len() < 200,
            "more rooms than are tried for {text}"
        );
        for room in 0u32..=200 {
            takes_within(&rt, written, room)?;
        }
    }
    Ok(())
}

// With a sink that has so much room.
fn takes_within(
    rt: &(impl Abort + AllocGlobal),
    written: &Written,
    room: u32,
) -> Result<(), AllocError> {
    let alloc = rt.alloc();
    let bytes = written.bytes.as_bytes();
    let taken = &bytes[..bytes.len().min(room as usize)];
    let wanted = if taken.len() == bytes.len() {
        written.whole
    } else {
        written.cut
    };
    let text = written.text.as_bytes().to_vec(alloc)?;
    let mut source = MemorySource::new(text, Vec::new(alloc));
    let outcome = outcome_within(alloc, written.words, &mut source, room)?;
    ends_with(rt, &outcome, wanted, taken, written.text);
    Ok(())
}
