//! Laws of words, each the contract of a function that does nothing.

ghost use Rattle.derivation.specs.Laws.{TokensAreWords};

use source_lex::tokens_spell_their_kinds;

/// No token of a text is without a word.
pub fn tokens_are_words()
    ensures { TokensAreWords }
{
    tokens_spell_their_kinds();
}
