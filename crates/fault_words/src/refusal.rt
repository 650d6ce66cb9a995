//! Refusals, as the command writes them.
use number_parse::number_of;

/// Which text has the fault.
#[derive(Clone, Copy, PartialEq, Eq, Debug)]
pub enum Text {
    Program,
    Formula,
}

/// The line of a refusal, read.
#[derive(Clone, Copy, PartialEq, Eq, Debug)]
pub struct Refusal {
    pub text: Text,
    /// The fault's number, by docs/LANGUAGE.md or docs/FORMULAS.md.
    pub number: u64,
    /// The fault's place, in bytes from the start of the text.
    pub offset: u64,
}

/// The refusal that a line says: `program: 4 at 86` or `formula: 4 at 7`, with the line feed behind it. `None` where it says none.
pub fn refusal_of(line: &[u8]) -> Option<Refusal> {
    let line = line.strip_suffix(b"\n")?;
    let (text, numbers) = text_of(line)?;
    let place = numbers.iter().position(|byte| *byte == b' ')?;
    let number = number_of(&numbers[..place])?;
    let offset = number_of(numbers[place..].strip_prefix(b" at ")?)?;
    Some(Refusal {
        text,
        number,
        offset,
    })
}

/// The text that the line begins with, and what stands behind the colon.
fn text_of(line: &[u8]) -> Option<(Text, &[u8])> {
    if let Some(rest) = line.strip_prefix(b"program: ") {
        return Some((Text::Program, rest));
    }
    let rest = line.strip_prefix(b"formula: ")?;
    Some((Text::Formula, rest))
}

impl Refusal {
    /// What the fault means, in a few words.
    pub fn meaning(&self) -> &'static str {
        match self.text {
            Text::Program => of_program(self.number),
            Text::Formula => of_formula(self.number),
        }
    }
}

/// What a fault of programs means; those that formulas have too mean the same there, but for the names of limits.
fn of_program(number: u64) -> &'static str {
    match number {
        1 => "no token of the language begins here",
        2 => "this number is above 9223372036854775807",
        3 => "this comment has no end",
        4 => "no program goes on like this",
        5 => "this name isn't declared here",
        6 => "this name is declared already",
        7 => "a truth value stands where a number is needed",
        8 => "this range is upside down, or an end has the wrong infinity",
        9 => "this is the sixteenth variable, and 15 may be declared",
        10 => "this is nested more than 64 levels deep",
        11 => "this expression has more than 256 operators",
        12 => "this is the 1,024th statement that takes a step",
        13 => "this test comes down to more than 64 conjunctions, or its negation does",
        14 => "the text goes on past 65,536 bytes",
        17 => "this stands in no body of a loop",
        18 => "this divisor is 0",
        19 => "a return stands where nothing follows, with a value exactly where one is given",
        20 => "this function has another number of parameters",
        _ => "this is refused",
    }
}

/// What a fault of formulas means.
fn of_formula(number: u64) -> &'static str {
    match number {
        1 => "no token of formulas begins here",
        4 => "no formula goes on like this",
        5 => "no variable has this name",
        11 => "the formula has more than 64 operators, or its normal form more than 256",
        14 => "the formula goes on past 4,096 bytes",
        16 => "a side of this comparison isn't affine, or a number of it doesn't fit 128 bits",
        2 | 3 | 10 => of_program(number),
        _ => "this is refused",
    }
}
