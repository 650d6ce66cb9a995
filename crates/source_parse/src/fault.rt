//! Why a text is no program.

ghost use Rattle.source_parse.specs.Faults.{numbered};

use source_lex::LexFault;
use std::alloc::AllocError;
use thiserror::Error;

/// A limit on a text.
#[derive(Clone, Copy, PartialEq, Eq, Debug)]
pub enum Which {
    /// A program has at most 15 variables.
    Variables,
    /// At most 64 levels of nesting are open at a token.
    Nesting,
    /// At most 256 binary operators stand in one expression.
    Operators,
}

/// The first fault of a text. Offsets are in bytes from the text's start.
#[derive(Debug, Drop, Error)]
pub enum ParseFault {
    /// The text has no tokens.
    #[error("{0}")]
    Lex(LexFault),
    /// The tokens before this one begin a program, and no program goes on with this one; the end of the text is a token too.
    #[error("another token is expected at {at}")]
    Expected { at: u32 },
    /// A name is used outside its scope.
    #[error("an unknown name at {at}")]
    Unknown { at: u32 },
    /// A name is declared inside its scope, or declared again without an initialiser.
    #[error("a name is declared twice at {at}")]
    Twice { at: u32 },
    /// A truth value stands where a number is needed, at its first byte.
    #[error("a truth value in the place of a number at {at}")]
    Mixed { at: u32 },
    /// A range's lower end is above its upper end, or an end has the wrong infinity, at its `[`.
    #[error("no range at {at}")]
    BadRange { at: u32 },
    /// A `break` or `continue` stands inside no body of a loop.
    #[error("a jump out of no loop at {at}")]
    Outside { at: u32 },
    /// A divisor is 0.
    #[error("a divisor 0 at {at}")]
    ZeroDivisor { at: u32 },
    /// A `return` of a function stands elsewhere than at its end, or has a value against the function's type, at the `return`; or one is missing, at the `}`.
    #[error("a return in the wrong place at {at}")]
    Placed { at: u32 },
    /// A call has another number of arguments than the function has parameters, at the function's name.
    #[error("another number of arguments at {at}")]
    Arguments { at: u32 },
    /// The token that breaks a limit. `count` is a number above the limit.
    #[error("past a limit at {at}")]
    Limit { which: Which, at: u32, count: u32 },
    /// Memory ran out. It says nothing of the text.
    #[error("out of memory")]
    Memory(AllocError),
}

impl ParseFault {
    ghost use Rattle.std.specs.Prelude.{◌≡◌};

    /// The fault's number, from 1 to 11 or from 17 to 20, and its offset; `None` where memory ran out.
    pub fn numbered(&self) -> Option<(u8, u32)>
        ensures { result ≡ numbered self.now }
    {
        match self {
            ParseFault::Lex(LexFault::BadByte { at }) => Some((1, *at)),
            ParseFault::Lex(LexFault::BigNumber { at }) => Some((2, *at)),
            ParseFault::Lex(LexFault::OpenComment { at }) => Some((3, *at)),
            ParseFault::Expected { at } => Some((4, *at)),
            ParseFault::Unknown { at } => Some((5, *at)),
            ParseFault::Twice { at } => Some((6, *at)),
            ParseFault::Mixed { at } => Some((7, *at)),
            ParseFault::BadRange { at } => Some((8, *at)),
            ParseFault::Outside { at } => Some((17, *at)),
            ParseFault::ZeroDivisor { at } => Some((18, *at)),
            ParseFault::Placed { at } => Some((19, *at)),
            ParseFault::Arguments { at } => Some((20, *at)),
            ParseFault::Limit { which, at, .. } => match which {
                Which::Variables => Some((9, *at)),
                Which::Nesting => Some((10, *at)),
                Which::Operators => Some((11, *at)),
            },
            ParseFault::Lex(LexFault::Memory(_)) | ParseFault::Memory(_) => None,
        }
    }
}
