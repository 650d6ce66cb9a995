//! Why a tree stands for no formula.

ghost use Rattle.std.specs.Prelude.{◌≡◌};

use std::alloc::AllocError;

/// Why a tree stands for no formula.
#[derive(Debug, Drop)]
pub enum Refusal {
    /// An atom isn't affine, or its numbers don't fit 128 bits; it begins with the token of this number.
    NotAffine(usize),
    /// Memory ran out. It says nothing of the tree.
    Memory(AllocError),
}

impl From<AllocError> for Refusal {
    ghost use Rattle.formula_parse.specs.declared.refusal.Refusal.TheVariants.{Memory};

    ghost from_gives = { λ error refusal. refusal ≡ Memory error };

    fn from(error: AllocError) -> Refusal {
        Refusal::Memory(error)
    }
}
