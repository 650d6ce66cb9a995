//! Why a text is no formula, and why a formula has no normal form within the limit.

ghost use Rattle.formula_parse.specs.Laws.{numbered};

use source_lex::LexFault;
use std::alloc::AllocError;
use thiserror::Error;

/// A limit on the text of a formula.
#[derive(Clone, Copy, PartialEq, Eq, Debug)]
pub enum FormulaLimit {
    /// It has at most 4,096 bytes.
    Bytes,
    /// At most 64 levels of nesting are open at a token.
    Nesting,
    /// It has at most 64 operators, and its normal form at most 256.
    Operators,
}

/// The first fault of a formula's text, or of its normal form. Offsets are in bytes from the text's start. No line that is printed rests on
/// the texts derived here.
#[derive(Debug, Drop, Error)]
pub enum FormulaFault {
    /// The text has no tokens.
    #[error("{0}")]
    Lex(LexFault),
    /// The tokens before this one begin a formula, and no formula goes on with this one; the end of the text is a token too.
    #[error("another token is expected at {at}")]
    Expected {
        at: u32,
    },
    /// No variable has the name.
    #[error("an unknown name at {at}")]
    Unknown {
        at: u32,
    },
    /// An atom that begins here isn't affine, or a number that it forms doesn't fit 128 bits.
    #[error("no affine atom at {at}")]
    NotAffine {
        at: u32,
    },
    /// Where a limit is passed; the normal form's at offset 0. `count` is a number above the limit.
    #[error("past a limit at {at}")]
    Limit {
        which: FormulaLimit,
        at: u32,
        count: u32,
    },
    /// Memory ran out. It says nothing of the text.
    #[error("out of memory")]
    Memory(AllocError),
}

impl From<AllocError> for FormulaFault {
    ghost use Rattle.std.specs.Prelude.{◌≡◌};
    ghost use Rattle.formula_parse.specs.declared.fault.FormulaFault.TheVariants.{Memory};

    ghost from_gives = { λ error fault. fault ≡ Memory error };

    fn from(error: AllocError) -> FormulaFault {
        FormulaFault::Memory(error)
    }
}

impl FormulaFault {
    ghost use Rattle.std.specs.Prelude.{◌≡◌};

    /// The fault's number, one of 1 to 5, 10, 11, 14 and 16, and its offset; `None` where memory ran out.
    pub fn numbered(&self) -> Option<(u8, u32)>
        ensures { result ≡ numbered self.now }
    {
        match self {
            FormulaFault::Lex(LexFault::BadByte { at }) => Some((1, *at)),
            FormulaFault::Lex(LexFault::BigNumber { at }) => Some((2, *at)),
            FormulaFault::Lex(LexFault::OpenComment { at }) => Some((3, *at)),
            FormulaFault::Expected { at } => Some((4, *at)),
            FormulaFault::Unknown { at } => Some((5, *at)),
            FormulaFault::NotAffine { at } => Some((16, *at)),
            FormulaFault::Limit { which, at, .. } => match which {
                FormulaLimit::Bytes => Some((14, *at)),
                FormulaLimit::Nesting => Some((10, *at)),
                FormulaLimit::Operators => Some((11, *at)),
            },
            FormulaFault::Lex(LexFault::Memory(_)) | FormulaFault::Memory(_) => None,
        }
    }
}
