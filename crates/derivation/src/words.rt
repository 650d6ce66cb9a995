//! The reader of a symbol.

ghost use Rattle.std.specs.Prelude.{◌≡◌, ◌≢◌, ◌∷◌, ◌+◌, List, MatchOption, IfSome};
ghost use Rattle.derivation.specs.Word.{Word, symbol};
ghost use Rattle.derivation.specs.Spelled.{words_from, IsBehind};

use crate::lexeme::Lexeme;
use crate::symbol::Symbol;

/// The number behind, where the word of this number is the symbol; `None` where it isn't.
pub fn after(words: &[Lexeme<'_>], at: usize, wanted: Symbol) -> Option<usize>
    ensures read { MatchOption result
        ((rest : List Word) → words_from words.now at ≢ symbol wanted ∷ rest)
        (λ next. (words_from words.now at ≡ symbol wanted ∷ words_from words.now next) × (next ≡ at + 1)) }
    ensures forward { IfSome result (IsBehind words.now at) }
{
    match *words.get(at)? {
        Lexeme::Symbol(found) if found.is(wanted) => Some(at + 1),
        _ => None,
    }
}
