//! A token: its kind, and where in the text it stands.

ghost use Rattle.std.specs.Prelude.{◌≡◌};
ghost use Rattle.source_lex.specs.Lexemes.{lexeme};
ghost use Rattle.source_lex.specs.Spans.{IsWithin, start_of};

/// What a token is. A reserved word is a `Name`.
#[derive(Clone, Copy, PartialEq, Eq, Debug)]
pub enum Kind {
    /// A decimal literal, with its value, from 0 to 2^63 - 1.
    Number(i64),
    /// A letter or `_`, and the letters, digits and `_` behind it.
    Name,
    /// One of `++ -- += -= *= == != <= >= && || < > = + - * / % ! ( ) { } [ ] ; , ?`.
    Sign,
}

/// A token of a text: the bytes from offset `start` up to offset `end`.
#[derive(Clone, Copy, PartialEq, Eq, Debug)]
pub struct Token {
    pub kind: Kind,
    pub start: u32,
    pub end: u32,
}

impl Token {
    /// The bytes of the text that the token stands for. The token has to lie within the text, as each token that
    /// `lex` answers for this text does.
    pub fn bytes<'a>(&self, text: &'a [u8]) -> &'a [u8]
        requires { IsWithin text.now self.now }
        ensures { result.now ≡ lexeme text.now self.now }
    {
        &text[self.start as usize..self.end as usize]
    }
}

/// Where the token of this number, counted from 0, starts in the text; behind the last token it is `end`.
pub fn start_of(tokens: &[Token], number: usize, end: u32) -> u32
    ensures { result ≡ start_of tokens.now number end }
{
    match tokens.get(number) {
        Some(token) => token.start,
        None => end,
    }
}
