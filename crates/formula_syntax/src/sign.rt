//! Reserved words and signs of formulas, by what they are for.

ghost use Rattle.std.specs.Prelude.{◌≡◌, map};
ghost use Rattle.formula_syntax.specs.Words.{reserved_words, signs, found};

/// A word or sign before a part of a formula: a negation, or an operator of CTL (Clarke and Emerson 1981).
#[derive(Clone, Copy, PartialEq, Eq)]
pub enum Prefix {
    /// `!`
    Not,
    /// `AX`
    AllNext,
    /// `EX`
    SomeNext,
    /// `AF`
    AllFinally,
    /// `EF`
    SomeFinally,
    /// `AG`
    AllGlobally,
    /// `EG`
    SomeGlobally,
}

/// A sign between two parts of a formula: `&&` or `||`.
#[derive(Clone, Copy, PartialEq, Eq)]
pub enum Connective {
    And,
    Or,
}

/// A sign between two sums.
#[derive(Clone, Copy, PartialEq, Eq)]
pub enum Comparison {
    Equal,
    NotEqual,
    Less,
    LessEqual,
    Greater,
    GreaterEqual,
}

/// A sign between two factors.
#[derive(Clone, Copy, PartialEq, Eq)]
pub enum Operator {
    Add,
    Subtract,
    Multiply,
}

/// A reserved word or a sign.
#[derive(Clone, Copy, PartialEq, Eq)]
pub enum Sign {
    Prefix(Prefix),
    /// `A` where it is said of all runs, else `E`.
    Quantifier { all: bool },
    /// `W` where it is weak, else `U`.
    Until { weak: bool },
    Connective(Connective),
    Comparison(Comparison),
    Operator(Operator),
    Truth(bool),
    Exit,
    OpenParenthesis,
    CloseParenthesis,
    OpenBracket,
    CloseBracket,
}

type Entry = (&'static [u8], Sign);

const RESERVED_WORDS: [Entry; 13] = [
    (b"A", Sign::Quantifier { all: true }),
    (b"E", Sign::Quantifier { all: false }),
    (b"U", Sign::Until { weak: false }),
    (b"W", Sign::Until { weak: true }),
    (b"AX", Sign::Prefix(Prefix::AllNext)),
    (b"EX", Sign::Prefix(Prefix::SomeNext)),
    (b"AF", Sign::Prefix(Prefix::AllFinally)),
    (b"EF", Sign::Prefix(Prefix::SomeFinally)),
    (b"AG", Sign::Prefix(Prefix::AllGlobally)),
    (b"EG", Sign::Prefix(Prefix::SomeGlobally)),
    (b"exit", Sign::Exit),
    (b"true", Sign::Truth(true)),
    (b"false", Sign::Truth(false)),
];

const SIGNS: [Entry; 16] = [
    (b"!", Sign::Prefix(Prefix::Not)),
    (b"&&", Sign::Connective(Connective::And)),
    (b"||", Sign::Connective(Connective::Or)),
    (b"==", Sign::Comparison(Comparison::Equal)),
    (b"!=", Sign::Comparison(Comparison::NotEqual)),
    (b"<", Sign::Comparison(Comparison::Less)),
    (b"<=", Sign::Comparison(Comparison::LessEqual)),
    (b">", Sign::Comparison(Comparison::Greater)),
    (b">=", Sign::Comparison(Comparison::GreaterEqual)),
    (b"+", Sign::Operator(Operator::Add)),
    (b"-", Sign::Operator(Operator::Subtract)),
    (b"*", Sign::Operator(Operator::Multiply)),
    (b"(", Sign::OpenParenthesis),
    (b")", Sign::CloseParenthesis),
    (b"[", Sign::OpenBracket),
    (b"]", Sign::CloseBracket),
];

/// The reserved word that these bytes spell.
pub fn reserved_word(bytes: &[u8]) -> Option<Sign>
    ensures { result ≡ found reserved_words bytes.now }
{
    find(&RESERVED_WORDS, bytes)
}

/// The sign that these bytes spell.
pub fn sign_spelled(bytes: &[u8]) -> Option<Sign>
    ensures { result ≡ found signs bytes.now }
{
    find(&SIGNS, bytes)
}

fn find(table: &[Entry], bytes: &[u8]) -> Option<Sign>
    ensures { result ≡ found (map (λ entry. (entry.0.now, entry.1)) table.now) bytes.now }
{
    for (spelling, sign) in table {
        if *spelling == bytes {
            return Some(*sign);
        }
    }
    None
}
