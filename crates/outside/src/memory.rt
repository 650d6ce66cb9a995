//! A source and a sink over memory, for tests: they tell their bytes, and fail at numbered calls.
ghost use Rattle.std.specs.Prelude.{◌≡◌, ◌↔◌, ℕ, ◌+◌, ◌++◌, ◌<◌, ◌≤◌, Some, [], IsTrue, IfOk, Contains};
ghost use Rattle.std.specs.Prelude.{length, take, vec_len, vec_capacity, min};
ghost use Rattle.outside.specs.Schedule.{next_call};
ghost use Rattle.outside.specs.Source.{Gives};
ghost use Rattle.outside.specs.Sink.{Takes};

use crate::faults::one_more;
use crate::reading::{Got, Source};
use crate::writing::{Put, Sink};
use std::alloc::{AllocError, Global};

// Counts calls, and knows the numbers of those that fail.
#[derive(Drop)]
struct Schedule {
    failing: Vec<u32>,
    calls: u64,
}

impl Schedule {
    fn new(failing: Vec<u32>) -> Schedule
        ensures failing { result.failing ≡ failing }
        ensures calls { result.calls ≡ 0 }
    {
        Schedule { failing, calls: 0 }
    }

    // Begins the next call, and answers whether it is to fail.
    fn next_fails(&mut self) -> bool
        ensures number { self.new.calls ≡ next_call self.old.calls }
        ensures failing { self.new.failing ≡ self.old.failing }
        ensures fails { IsTrue result ↔ Contains self.old.failing.items self.new.calls }
    {
        self.calls = one_more(self.calls);
        let number = self.calls;
        self.failing
            .iter()
            .any(|failing| u64::from(*failing) == number)
    }
}

/// Gives the bytes that it was made with, as many at a time as the buffer holds.
#[derive(Drop)]
pub struct MemorySource {
    bytes: Vec<u8>,
    position: usize,
    schedule: Schedule,
    faults: u64,
    ghost within: { position ≤ vec_len bytes },
}

impl MemorySource {
    ghost use Rattle.outside.specs.MemorySource.{left_bytes, reads_made, failing_reads, read_faults};

    /// A source of `bytes` whose calls with the numbers `failing`, counted from 1, fail.
    pub fn new(bytes: Vec<u8>, failing: Vec<u32>) -> MemorySource
        ensures left { left_bytes result ≡ bytes.items }
        ensures made { reads_made result ≡ 0 }
        ensures failing { failing_reads result ≡ failing.items }
        ensures faults { read_faults result ≡ 0 }
    {
        MemorySource {
            bytes,
            position: 0,
            schedule: Schedule::new(failing),
            faults: 0,
        }
    }
}

impl Source for MemorySource {
    ghost use Rattle.outside.specs.MemorySource.{left_bytes, read_faults, ReadsOnSchedule};

    ghost left = { λ source. Some (left_bytes source) };

    ghost faults = { read_faults };

    fn read(&mut self, buffer: &mut [u8]) -> Got
        requires { 0 < length buffer.old }
        ensures never_falls { read_faults self.old ≤ read_faults self.new }
        ensures gives { Gives result (Some (left_bytes self.old)) (Some (left_bytes self.new))
            (read_faults self.old) (read_faults self.new) buffer.new }
        ensures schedule { ReadsOnSchedule self.old self.new result }
        ensures amount { (n : ℕ) → result ≡ Got.Bytes n
            → n ≡ min (length (left_bytes self.old)) (length buffer.old) }
    {
        if self.schedule.next_fails() {
            self.faults = one_more(self.faults);
            return Got::Failed;
        }
        let left = self.bytes.as_slice().split_at(self.position).1;
        let count = copy_front(left, buffer);
        if count == 0 {
            return Got::End;
        }
        self.position += count;
        Got::Bytes(count)
    }
}

// Copies the front of `from` to the front of `to`, as much as both hold, and answers how much.
fn copy_front(from: &[u8], to: &mut [u8]) -> usize
    ensures count { result ≡ min (length from.now) (length to.old) }
    ensures copied { take result to.new ≡ take result from.now }
{
    let count = from.len().min(to.len());
    to[..count].copy_from_slice(&from[..count]);
    count
}

/// Takes bytes while it has room.
#[derive(Drop)]
pub struct MemorySink {
    taken: Vec<u8>,
    room: usize,
    schedule: Schedule,
    faults: u64,
    ghost fits: { vec_len taken + room ≤ vec_capacity taken },
}

impl MemorySink {
    ghost use Rattle.outside.specs.MemorySink.{taken_bytes, room_left, writes_made, failing_writes, write_faults};

    /// A sink that takes `room` bytes in all, and whose calls with the numbers `failing`, counted
    /// from 1, fail. The memory for all its room is taken here, so that no write wants any.
    pub fn new(alloc: Global, room: u32, failing: Vec<u32>) -> Result<MemorySink, AllocError>
        ensures taken { IfOk result (λ sink. taken_bytes sink ≡ []) }
        ensures room { IfOk result (λ sink. room_left sink ≡ room) }
        ensures made { IfOk result (λ sink. writes_made sink ≡ 0) }
        ensures failing { IfOk result (λ sink. failing_writes sink ≡ failing.items) }
        ensures faults { IfOk result (λ sink. write_faults sink ≡ 0) }
    {
        let room = room as usize;
        Ok(MemorySink {
            taken: Vec::with_capacity(alloc, room)?,
            room,
            schedule: Schedule::new(failing),
            faults: 0,
        })
    }

    /// The bytes that it took.
    pub fn taken(&self) -> &[u8]
        ensures { result.now ≡ taken_bytes self.now }
    {
        self.taken.as_slice()
    }

    // Takes a piece for which there is room.
    fn take(&mut self, piece: &[u8])
        requires { length piece.now ≤ self.old.room }
        ensures taken { self.new.taken.items ≡ self.old.taken.items ++ piece.now }
        ensures room { self.new.room + length piece.now ≡ self.old.room }
        ensures schedule { self.new.schedule ≡ self.old.schedule }
        ensures faults { self.new.faults ≡ self.old.faults }
    {
        self.room -= piece.len();
        self.taken.extend_from_slice(piece).unwrap();
    }
}

impl Sink for MemorySink {
    ghost use Rattle.outside.specs.MemorySink.{taken_bytes, room_left, write_faults, WritesOnSchedule};

    ghost taken = { λ sink. Some (taken_bytes sink) };

    ghost faults = { write_faults };

    fn write(&mut self, piece: &[u8]) -> Put
        requires { 0 < length piece.now }
        ensures never_falls { write_faults self.old ≤ write_faults self.new }
        ensures takes { Takes result (Some (taken_bytes self.old)) (Some (taken_bytes self.new))
            (write_faults self.old) (write_faults self.new) piece.now }
        ensures schedule { WritesOnSchedule self.old self.new result }
        ensures amount { (n : ℕ) → result ≡ Put.Took n
            → n ≡ min (room_left self.old) (length piece.now) }
    {
        let fails = self.schedule.next_fails();
        let count = self.room.min(piece.len());
        if fails || count == 0 {
            self.faults = one_more(self.faults);
            return Put::Failed;
        }
        self.take(&piece[..count]);
        Put::Took(count)
    }
}
