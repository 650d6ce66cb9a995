//! Laws of tokens and faults: each function is empty, and its contract is the law.

ghost use Rattle.source_lex.specs.Laws.{TokensAreUnique, TokensExcludeFaults, FirstFaultIsUnique, TokensAreInOrder, TokensStandInText, TokensSpellTheirKinds, TokensAreLongest, NoTokenIsMissed, EachTextIsRead};

/// A text has at most one token list.
pub fn tokens_are_unique()
    ensures { TokensAreUnique }
{}

/// A text with a token list has no fault.
pub fn tokens_exclude_faults()
    ensures { TokensExcludeFaults }
{}

/// A text has at most one first fault.
pub fn first_fault_is_unique()
    ensures { FirstFaultIsUnique }
{}

/// The tokens of a text lie in order, each with at least one byte and within the text.
pub fn tokens_are_in_order()
    ensures { TokensAreInOrder }
{}

/// Each token of a text stands there with its kind.
pub fn tokens_stand_in_text()
    ensures { TokensStandInText }
{}

/// The bytes of each token of a text spell its kind, and of a number its value.
pub fn tokens_spell_their_kinds()
    ensures { TokensSpellTheirKinds }
{}

/// Of all the bytes that spell a token from a token's start on, the token's are the longest.
pub fn tokens_are_longest()
    ensures { TokensAreLongest }
{}

/// Where nothing begins, no bytes spell a token.
pub fn no_token_is_missed()
    ensures { NoTokenIsMissed }
{}

/// Each text has a token list or a first fault.
pub fn each_text_is_read()
    ensures { EachTextIsRead }
{}
