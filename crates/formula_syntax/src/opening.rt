//! How each kind of phrase opens, by its first word.

ghost use Rattle.std.specs.Prelude.{◌≡◌, ◌<◌, Some, IfSome, length};
ghost use Rattle.derivation.specs.Pieces.{first};
ghost use Rattle.formula_syntax.specs.Words.{words_from, sign as sign_word};
ghost use Rattle.formula_syntax.specs.Language.{operator_of, connective_of};
ghost use Rattle.formula_syntax.specs.Openings.{opening_of_part, opening_of_factor, comparison_of, until_of, IsPart, IsFactor};

use crate::input::Reader;
use crate::lexeme::Lexeme;
use crate::sign::{Comparison, Connective, Operator, Prefix, Sign};

/// How a part of a formula opens.
#[derive(Clone, Copy)]
pub enum Opening {
    /// As a sum does, but not by a `(`.
    Sum,
    Parenthesis,
    Prefix(Prefix),
    Quantifier { all: bool },
    Truth(bool),
    Exit,
    Nothing,
}

/// How a factor opens.
#[derive(Clone, Copy)]
pub enum FactorOpening {
    Number(i64),
    Name,
    Signed { negative: bool },
    Parenthesis,
    Nothing,
}

/// How a part of a formula opens at this word.
pub fn opening_of_part(reader: Reader<'_>, at: usize) -> Opening
    ensures class { result ≡ opening_of_part (first (words_from reader.entry.words.now at)) }
    ensures inside { IsPart result → at < length reader.entry.words.now }
{
    let Some(word) = reader.words.get(at) else {
        return Opening::Nothing;
    };
    match *word {
        Lexeme::Number(_) | Lexeme::Name(_) => Opening::Sum,
        Lexeme::Sign(sign) => part_with(sign),
        Lexeme::Other => Opening::Nothing,
    }
}

// How a part opens that begins with this sign.
fn part_with(sign: Sign) -> Opening
    ensures { result ≡ opening_of_part (Some (sign_word sign)) }
{
    match sign {
        Sign::Operator(Operator::Add) | Sign::Operator(Operator::Subtract) => Opening::Sum,
        Sign::OpenParenthesis => Opening::Parenthesis,
        Sign::Prefix(prefix) => Opening::Prefix(prefix),
        Sign::Quantifier { all } => Opening::Quantifier { all },
        Sign::Truth(value) => Opening::Truth(value),
        Sign::Exit => Opening::Exit,
        _ => Opening::Nothing,
    }
}

/// How a factor opens at this word.
pub fn opening_of_factor(reader: Reader<'_>, at: usize) -> FactorOpening
    ensures class { result ≡ opening_of_factor (first (words_from reader.entry.words.now at)) }
    ensures inside { IsFactor result → at < length reader.entry.words.now }
{
    let Some(word) = reader.words.get(at) else {
        return FactorOpening::Nothing;
    };
    match *word {
        Lexeme::Number(value) => FactorOpening::Number(value),
        Lexeme::Name(_) => FactorOpening::Name,
        Lexeme::Sign(sign) => factor_with(sign),
        Lexeme::Other => FactorOpening::Nothing,
    }
}

// How a factor opens that begins with this sign.
fn factor_with(sign: Sign) -> FactorOpening
    ensures { result ≡ opening_of_factor (Some (sign_word sign)) }
{
    match sign {
        Sign::Operator(Operator::Add) => FactorOpening::Signed { negative: false },
        Sign::Operator(Operator::Subtract) => FactorOpening::Signed { negative: true },
        Sign::OpenParenthesis => FactorOpening::Parenthesis,
        _ => FactorOpening::Nothing,
    }
}

/// The sign between two factors that this word is; `None` where it is another word, or the end.
pub fn operator_of(reader: Reader<'_>, at: usize) -> Option<Operator>
    ensures class { result ≡ operator_of (first (words_from reader.entry.words.now at)) }
    ensures inside { IfSome result (λ _. at < length reader.entry.words.now) }
{
    match reader.words.get(at)? {
        Lexeme::Sign(Sign::Operator(op)) => Some(*op),
        _ => None,
    }
}

/// The sign between two parts that this word is, likewise.
pub fn connective_of(reader: Reader<'_>, at: usize) -> Option<Connective>
    ensures class { result ≡ connective_of (first (words_from reader.entry.words.now at)) }
    ensures inside { IfSome result (λ _. at < length reader.entry.words.now) }
{
    match reader.words.get(at)? {
        Lexeme::Sign(Sign::Connective(connective)) => Some(*connective),
        _ => None,
    }
}

/// The comparison that this word is, likewise.
pub fn comparison_of(reader: Reader<'_>, at: usize) -> Option<Comparison>
    ensures class { result ≡ comparison_of (first (words_from reader.entry.words.now at)) }
    ensures inside { IfSome result (λ _. at < length reader.entry.words.now) }
{
    match reader.words.get(at)? {
        Lexeme::Sign(Sign::Comparison(comparison)) => Some(*comparison),
        _ => None,
    }
}

/// Whether this word is `W` and not `U`; `None` where it is neither.
pub fn until_of(reader: Reader<'_>, at: usize) -> Option<bool>
    ensures class { result ≡ until_of (first (words_from reader.entry.words.now at)) }
    ensures inside { IfSome result (λ _. at < length reader.entry.words.now) }
{
    match reader.words.get(at)? {
        Lexeme::Sign(Sign::Until { weak }) => Some(*weak),
        _ => None,
    }
}
