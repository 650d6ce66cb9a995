//! Reserved words and signs.

ghost use Rattle.std.specs.Prelude.{◌≡◌, ◌↔◌, IsTrue, map};
ghost use Rattle.derivation.specs.Symbols.{reserved_words, signs, found};

/// A reserved word or a sign.
#[derive(Clone, Copy, PartialEq, Eq)]
pub enum Symbol {
    Int,
    If,
    Else,
    While,
    Do,
    For,
    Return,
    Break,
    Continue,
    Extern,
    Void,
    Typedef,
    Enum,
    Bool,
    True,
    False,
    Infinite,
    Main,
    Nondeterministic,
    Increment,
    Decrement,
    AddAssign,
    SubtractAssign,
    MultiplyAssign,
    Equal,
    NotEqual,
    LessEqual,
    GreaterEqual,
    And,
    Or,
    Less,
    Greater,
    Assign,
    Plus,
    Minus,
    Times,
    Divide,
    Remainder,
    Not,
    OpenParenthesis,
    CloseParenthesis,
    OpenBrace,
    CloseBrace,
    OpenBracket,
    CloseBracket,
    Semicolon,
    Comma,
    Question,
}

impl Symbol {
    /// Whether it is the other one.
    pub fn is(self, other: Symbol) -> bool
        ensures { IsTrue result ↔ (self ≡ other) }
    {
        self == other
    }
}

type Entry = (&'static [u8], Symbol);

const RESERVED_WORDS: [Entry; 19] = [
    (b"int", Symbol::Int),
    (b"if", Symbol::If),
    (b"else", Symbol::Else),
    (b"while", Symbol::While),
    (b"do", Symbol::Do),
    (b"for", Symbol::For),
    (b"return", Symbol::Return),
    (b"break", Symbol::Break),
    (b"continue", Symbol::Continue),
    (b"extern", Symbol::Extern),
    (b"void", Symbol::Void),
    (b"typedef", Symbol::Typedef),
    (b"enum", Symbol::Enum),
    (b"bool", Symbol::Bool),
    (b"true", Symbol::True),
    (b"false", Symbol::False),
    (b"inf", Symbol::Infinite),
    (b"main", Symbol::Main),
    (b"__VERIFIER_nondet_int", Symbol::Nondeterministic),
];

const SIGNS: [Entry; 29] = [
    (b"++", Symbol::Increment),
    (b"--", Symbol::Decrement),
    (b"+=", Symbol::AddAssign),
    (b"-=", Symbol::SubtractAssign),
    (b"*=", Symbol::MultiplyAssign),
    (b"==", Symbol::Equal),
    (b"!=", Symbol::NotEqual),
    (b"<=", Symbol::LessEqual),
    (b">=", Symbol::GreaterEqual),
    (b"&&", Symbol::And),
    (b"||", Symbol::Or),
    (b"<", Symbol::Less),
    (b">", Symbol::Greater),
    (b"=", Symbol::Assign),
    (b"+", Symbol::Plus),
    (b"-", Symbol::Minus),
    (b"*", Symbol::Times),
    (b"/", Symbol::Divide),
    (b"%", Symbol::Remainder),
    (b"!", Symbol::Not),
    (b"(", Symbol::OpenParenthesis),
    (b")", Symbol::CloseParenthesis),
    (b"{", Symbol::OpenBrace),
    (b"}", Symbol::CloseBrace),
    (b"[", Symbol::OpenBracket),
    (b"]", Symbol::CloseBracket),
    (b";", Symbol::Semicolon),
    (b",", Symbol::Comma),
    (b"?", Symbol::Question),
];

/// The reserved word that these bytes spell.
pub fn reserved_word(bytes: &[u8]) -> Option<Symbol>
    ensures { result ≡ found reserved_words bytes.now }
{
    find(&RESERVED_WORDS, bytes)
}

/// The sign that these bytes spell.
pub fn sign(bytes: &[u8]) -> Option<Symbol>
    ensures { result ≡ found signs bytes.now }
{
    find(&SIGNS, bytes)
}

fn find(table: &[Entry], bytes: &[u8]) -> Option<Symbol>
    ensures { result ≡ found (map (λ entry. (entry.0.now, entry.1)) table.now) bytes.now }
{
    for (spelling, symbol) in table {
        if *spelling == bytes {
            return Some(*symbol);
        }
    }
    None
}
