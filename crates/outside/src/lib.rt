//! Where the program's bytes come from and where they go.
//!
//! A [`Source`] gives bytes until its end, a [`Sink`] takes them, and both count their faults. Over
//! them stand the two calls that the program makes: [`read_program`] reads a whole text up to the
//! limit, and [`write_all`] writes one. The sources and sinks over memory fail at numbered calls and
//! serve tests; those over a stream adapt a reader or writer of std. The crate stands on std alone.
#![tactic(auto)]

mod faults;
mod memory;
mod reading;
mod stream;
mod writing;

pub use memory::{MemorySink, MemorySource};
pub use reading::{Got, PROGRAM_LIMIT, ReadEnd, Source, read_program};
pub use stream::{StreamSink, StreamSource};
pub use writing::{Put, Sink, write_all};
