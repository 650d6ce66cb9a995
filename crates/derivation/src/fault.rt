//! Why a text is none of a language by its syntax.

ghost use Rattle.std.specs.Prelude.{◌≡◌, alloc_error};

use crate::rule::Rule;
use source_lex::LexFault;
use std::alloc::{AllocError, AllocFailed};
use thiserror::Error;

/// The first fault of a text, with its offset in bytes from the text's start.
#[derive(Debug, Drop, Error)]
pub enum SyntaxFault {
    /// The text has no tokens.
    #[error("{0}")]
    Lex(LexFault),
    /// The first token that breaks a rule: the tokens before it begin a text of the language within the limits. The end of the text is a
    /// token too.
    #[error("a rule of the syntax is broken at {at}")]
    Broken { rule: Rule, at: u32 },
    /// Memory ran out. It says nothing of the text.
    #[error("out of memory")]
    Memory(AllocError),
}

/// The first rule that words break, and the number of the word that breaks it; the end has a number too.
#[derive(Clone, Copy, PartialEq, Eq, Debug)]
pub struct Fault {
    pub rule: Rule,
    pub at: usize,
}

/// Why a reader answers no tree.
#[derive(Drop)]
pub enum Failure {
    Fault(Fault),
    /// Memory ran out. It says nothing of the words.
    Memory(AllocError),
}

impl From<Fault> for Failure {
    ghost use Rattle.derivation.specs.declared.fault.Failure.TheVariants.{Fault};

    ghost from_gives = { λ fault failure. failure ≡ Fault fault };

    fn from(fault: Fault) -> Failure {
        Failure::Fault(fault)
    }
}

impl From<AllocError> for Failure {
    ghost use Rattle.derivation.specs.declared.fault.Failure.TheVariants.{Memory};

    ghost from_gives = { λ error failure. failure ≡ Memory error };

    fn from(error: AllocError) -> Failure {
        Failure::Memory(error)
    }
}

impl<T: Drop> From<AllocFailed<T>> for Failure {
    ghost use Rattle.derivation.specs.declared.fault.Failure.TheVariants.{Memory};

    ghost from_gives = { λ _ failure. failure ≡ Memory alloc_error };

    fn from(_: AllocFailed<T>) -> Failure {
        Failure::Memory(AllocError)
    }
}
