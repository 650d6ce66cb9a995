//! The rules that a text may break.

/// How many levels of nesting may be open at a word.
pub const MOST_LEVELS: u32 = 64;

/// Which rule a text breaks first.
#[derive(Clone, Copy, PartialEq, Eq, Debug)]
pub enum Rule {
    /// No text goes on with this token.
    Expected,
    /// The token opens level 65 of nesting.
    Nesting,
    /// The token is the 257th binary operator of its expression.
    Operators,
}
