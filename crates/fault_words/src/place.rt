//! Places in a text, as editors count them.
ghost use Rattle.std.specs.Prelude.{◌≤◌, ◌<◌, ◌-◌, ◌^◌, ◌∷◌, ◌++◌, [], List, ℕ, length, take};

/// A place: its line, and its column in bytes, both counted from 1 on.
#[derive(Clone, Copy, PartialEq, Eq, Debug)]
pub struct Place {
    pub line: usize,
    pub column: usize,
}

impl Place {
    ghost use Rattle.fault_words.specs.Places.{IsBehind};

    /// The place of an offset in bytes: its line is one more than the line feeds before it, and its column one more than the bytes between the last of these and it.
    pub fn of(text: &[u8], offset: usize) -> Place
        requires { offset ≤ length text.now }
        ensures { IsBehind (take offset text.now) result }
    {
        let mut place = Place { line: 1, column: 1 };
        for byte in &text[..offset] {
            place = place.behind(*byte);
        }
        place
    }

    /// The place behind one byte more.
    fn behind(self, byte: u8) -> Place
        requires { (self.line < 2 ^ 64 - 1) × (self.column < 2 ^ 64 - 1) }
        ensures { (front : List ℕ) → IsBehind front self → IsBehind (front ++ byte ∷ []) result }
    {
        if byte == b'\n' {
            Place {
                line: self.line + 1,
                column: 1,
            }
        } else {
            Place {
                line: self.line,
                column: self.column + 1,
            }
        }
    }
}
