//! The words of a line.
ghost use Rattle.std.specs.Prelude.{◌<◌, IfSome};

use linear_cons::PLACES;
use std::alloc::{AllocError, Global};

/// The names of the variables at the sixteen places. The last is the number of a row of a line.
pub const NAMES: [&str; PLACES] = [
    "x", "y", "z", "x3", "x4", "x5", "x6", "x7", "x8", "x9", "x10", "x11", "x12", "x13", "x14", "k",
];

/// The line with blanks around each bracket and each comma, which makes words of them.
pub fn spaced(alloc: Global, line: &str) -> Result<String, AllocError> {
    let line = line.replace(alloc, "(", " ( ")?;
    let line = line.as_str().replace(alloc, ")", " ) ")?;
    let line = line.as_str().replace(alloc, "[", " [ ")?;
    let line = line.as_str().replace(alloc, "]", " ] ")?;
    line.as_str().replace(alloc, ",", " , ")
}

/// The words of a line, of which some are taken. It notes the first fault, and from then on gives what stands for nothing: so who reads needs to look for a
/// fault at the end alone.
#[derive(Clone, Copy)]
pub struct Words<'t> {
    all: &'t [&'t str],
    /// How many are taken.
    taken: usize,
    fault: Option<&'static str>,
}

impl<'t> Words<'t> {
    /// These words, of which none is taken.
    pub fn of(all: &'t [&'t str]) -> Words<'t> {
        Words {
            all,
            taken: 0,
            fault: None,
        }
    }

    /// How many words are left.
    pub fn len(&self) -> usize {
        self.all.len().saturating_sub(self.taken)
    }

    /// The next word, which stays.
    pub fn peek(&self) -> Option<&'t str> {
        self.all.get(self.taken).copied()
    }

    /// The word behind the next one, which stays.
    pub fn second(&self) -> Option<&'t str> {
        self.all.get(self.taken.saturating_add(1)).copied()
    }

    /// Takes the next word. It is empty where there is none.
    pub fn take(&mut self) -> &'t str {
        let word = self.peek();
        self.taken = self.taken.saturating_add(1);
        match word {
            Some(word) => word,
            None => {
                self.fail("a word is missing");
                ""
            }
        }
    }

    /// Whether the next word is this one, which is taken then.
    pub fn takes(&mut self, word: &str) -> bool {
        if self.peek() == Some(word) {
            self.taken = self.taken.saturating_add(1);
            return true;
        }
        false
    }

    /// Takes this word.
    pub fn expect(&mut self, word: &str) {
        if !self.takes(word) {
            self.fail("a word of the call is missing");
        }
    }

    /// Notes why the line can't be read, where nothing is noted yet.
    pub fn fail(&mut self, why: &'static str) {
        if self.fault.is_none() {
            self.fault = Some(why);
        }
    }

    /// The fault that is noted, where there is one or where words are left.
    pub fn fault(&self) -> Option<&'static str> {
        match self.fault {
            None if self.len() > 0 => Some("words behind the end"),
            fault => fault,
        }
    }

    /// Takes a number.
    pub fn number(&mut self) -> i128 {
        let word = self.take();
        match number_of(word) {
            Some(number) => number,
            None => {
                self.fail("no number of 128 bits");
                0
            }
        }
    }

    /// Takes a number, or the word for none.
    pub fn number_or(&mut self, none: &str) -> Option<i128> {
        if self.takes(none) {
            return None;
        }
        Some(self.number())
    }

    /// Takes a number of 32 bits.
    pub fn count(&mut self) -> u32 {
        let word = self.take();
        match word.parse::<u32>() {
            Ok(count) => count,
            Err(_) => {
                self.fail("no number of 32 bits");
                0
            }
        }
    }

    /// Takes the name of a variable, and gives its place.
    pub fn place(&mut self) -> u8
        ensures { result < 16 }
    {
        let word = self.take();
        match place_of(word) {
            Some(place) => place,
            None => {
                self.fail("no name of a variable");
                0
            }
        }
    }
}

/// The number that the word is: decimal, or `most` and `least` for the greatest and the least one of 128 bits.
pub fn number_of(word: &str) -> Option<i128> {
    match word {
        "most" => Some(i128::MAX),
        "least" => Some(i128::MIN),
        _ => word.parse::<i128>().ok(),
    }
}

/// The place of the variable.
pub fn place_of(name: &str) -> Option<u8>
    ensures { IfSome result (λ place. place < 16) }
{
    for place in 0..16u8 {
        if NAMES[place as usize] == name {
            return Some(place);
        }
    }
    None
}
