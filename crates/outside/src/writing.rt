//! Sinks, and the write of a whole text.
ghost use Rattle.std.specs.Prelude.{◌≡◌, ℕ, List, Option, ◌<◌, ◌≤◌, length};
ghost use Rattle.std.specs.Bool.{OnTrue, OnFalse};
ghost use Rattle.std.specs.Io.KnownBytes.{Appends};
ghost use Rattle.outside.specs.Faults.{Rose};
ghost use Rattle.outside.specs.Sink.{Takes, AppendsFront};

/// What one write to a sink answers.
#[derive(Clone, Copy, Debug, PartialEq, Eq)]
pub enum Put {
    /// The sink took this many bytes from the front of the piece, at least one.
    Took(usize),
    /// The write failed, and the sink took nothing.
    Failed,
}

/// Takes bytes, and counts the writes that failed.
pub trait Sink {
    // The bytes that were taken so far, where the sink tells them.
    ghost taken: { Self → Option (List ℕ) };

    // How many writes failed so far, or the last value of its counter.
    ghost faults: { Self → ℕ };

    /// Offers the bytes of `piece`, at least one, and answers how many the sink took.
    fn write(&mut self, piece: &[u8]) -> Put
        requires { 0 < length piece.now }
        ensures never_falls { faults self.old ≤ faults self.new }
        ensures takes { Takes result (taken self.old) (taken self.new) (faults self.old)
            (faults self.new) piece.now };
}

/// Writes `text`, and answers whether the sink took all of it.
///
/// It stops at the first write that fails; the sink then has taken a front of the text.
pub fn write_all<K: Sink>(sink: &mut K, text: &[u8]) -> bool
    ensures front { AppendsFront (K.taken sink.old) (K.taken sink.new) text.now }
    ensures all { OnTrue result (Appends (K.taken sink.old) (K.taken sink.new) text.now) }
    ensures stays { OnTrue result (K.faults sink.new ≡ K.faults sink.old) }
    ensures rose { OnFalse result (Rose (K.faults sink.old) (K.faults sink.new)) }
    ensures never_falls { K.faults sink.old ≤ K.faults sink.new }
{
    let mut rest = text;
    while !rest.is_empty() {
        match sink.write(rest) {
            Put::Took(count) => rest = rest.split_at(count).1,
            Put::Failed => return false,
        }
    }
    true
}
