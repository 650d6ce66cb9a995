//! Readers of single words. Each reads from a word on, by its number, and answers the number of the word behind.

ghost use Rattle.std.specs.Prelude.{◌≡◌, ◌≤◌, IfOk, IfErr, ℕ};
ghost use Rattle.derivation.specs.Comes.{IsNext};
ghost use Rattle.formula_syntax.specs.Words.{sign as sign_word, name as named, IsBehind};
ghost use Rattle.formula_syntax.specs.Language.{rest_at};
ghost use Rattle.derivation.specs.Failures.{IfFault, MissesWord, MissesOpening, MissesKind};
ghost use Rattle.formula_syntax.specs.Pending.{an_until};
ghost use Rattle.formula_syntax.specs.Reads.{Reads, Refuses};

use crate::input::Reader;
use crate::lexeme::{Lexeme, after};
use crate::opening::until_of;
use crate::sign::Sign;
use derivation::{Failure, Fault, MOST_LEVELS, Rule};

/// How many operators a formula may have.
pub const MOST_OPERATORS: u32 = 64;

/// The number behind a sign or reserved word that has to stand here.
pub fn sign(reader: Reader<'_>, at: usize, wanted: Sign) -> Result<usize, Fault>
    ensures read { IfOk result (λ next. IsNext (sign_word wanted) (rest_at reader.entry at) (rest_at reader.entry next)) }
    ensures forward { IfOk result (IsBehind reader.entry.words.now at) }
    ensures missed { IfErr result (λ fault. MissesWord (rest_at reader.entry at) (sign_word wanted) fault.rule × (fault.at ≡ at)) }
{
    match after(reader.words, at, wanted) {
        Some(next) => Ok(next),
        None => Err(Fault {
            rule: Rule::Expected,
            at,
        }),
    }
}

/// The number behind a sign that has to stand here and opens this level.
pub fn opening(reader: Reader<'_>, at: usize, wanted: Sign, level: u32) -> Result<usize, Fault>
    ensures read { IfOk result (λ next. IsNext (sign_word wanted) (rest_at reader.entry at) (rest_at reader.entry next)) }
    ensures shallow { IfOk result (λ _. level ≤ 64) }
    ensures forward { IfOk result (IsBehind reader.entry.words.now at) }
    ensures missed { IfErr result (λ fault. MissesOpening (rest_at reader.entry at) (sign_word wanted) level fault.rule × (fault.at ≡ at)) }
{
    let Some(next) = after(reader.words, at, wanted) else {
        let rule = Rule::Expected;
        return Err(Fault { rule, at });
    };
    if level > MOST_LEVELS {
        let rule = Rule::Nesting;
        return Err(Fault { rule, at });
    }
    Ok(next)
}

/// A name that has to stand here, as bytes of its own, and the number of the word behind it.
pub fn owned_name(reader: Reader<'_>, at: usize) -> Result<(Vec<u8>, usize), Failure>
    ensures read { IfOk result (λ found. IsNext (named found.0.items) (rest_at reader.entry at) (rest_at reader.entry found.1)) }
    ensures forward { IfOk result (λ found. IsBehind reader.entry.words.now at found.1) }
    ensures missed { IfFault result (λ fault. MissesKind (rest_at reader.entry at) named fault.rule × (fault.at ≡ at)) }
{
    let (bytes, next) = name(reader, at)?;
    let owned = bytes.to_vec(reader.alloc)?;
    Ok((owned, next))
}

// A name that has to stand here, and the number of the word behind it.
fn name<'t>(reader: Reader<'t>, at: usize) -> Result<(&'t [u8], usize), Fault>
    ensures read { IfOk result (λ found. IsNext (named found.0.now) (rest_at reader.entry at) (rest_at reader.entry found.1)) }
    ensures forward { IfOk result (λ found. IsBehind reader.entry.words.now at found.1) }
    ensures missed { IfErr result (λ fault. MissesKind (rest_at reader.entry at) named fault.rule × (fault.at ≡ at)) }
{
    let rule = Rule::Expected;
    let missing = Fault { rule, at };
    let Some(word) = reader.words.get(at) else {
        return Err(missing);
    };
    match *word {
        Lexeme::Name(bytes) => Ok((bytes, at + 1)),
        _ => Err(missing),
    }
}

/// Whether `W` or `U` stands here, as one of them has to, and the number of the word behind it.
pub fn until(reader: Reader<'_>, at: usize) -> Result<(bool, usize), Fault>
    ensures read { IfOk result (λ found. (count : ℕ) → Reads count an_until found.0 (rest_at reader.entry at) count (rest_at reader.entry found.1)) }
    ensures forward { IfOk result (λ found. IsBehind reader.entry.words.now at found.1) }
    ensures refused { IfErr result (λ fault. (count : ℕ) → Refuses count an_until (rest_at reader.entry at) fault.rule (rest_at reader.entry fault.at)) }
{
    match until_of(reader, at) {
        Some(weak) => Ok((weak, at + 1)),
        None => Err(Fault {
            rule: Rule::Expected,
            at,
        }),
    }
}
