//! Readers of single words. Each reads from a word on, by its number, and answers the number of the word behind.

ghost use Rattle.std.specs.Prelude.{◌≡◌, ◌+◌, ◌<◌, ◌≤◌, length, IfOk, IfErr};
ghost use Rattle.derivation.specs.Word.{symbol, name as named, number as numbered};
ghost use Rattle.source_syntax.specs.Language.{rest_at};
ghost use Rattle.derivation.specs.Spelled.{IsBehind};
ghost use Rattle.derivation.specs.Comes.{IsNext};
ghost use Rattle.derivation.specs.Failures.{IfFault, MissesWord, MissesOpening, MissesKind};
ghost use Rattle.source_syntax.specs.Reads.{AreNext, MissesOne};

use crate::input::{Read, Reader};
use derivation::{Fault, Lexeme, MOST_LEVELS, Rule, Symbol, after};

/// The number behind a sign or reserved word that has to stand here.
pub fn sign(reader: Reader<'_>, at: usize, wanted: Symbol) -> Result<usize, Fault>
    ensures read { IfOk result (λ next. IsNext (symbol wanted) (rest_at reader.entry at) (rest_at reader.entry next)) }
    ensures forward { IfOk result (IsBehind reader.entry.words.now at) }
    ensures missed { IfErr result (λ fault. MissesWord (rest_at reader.entry at) (symbol wanted) fault.rule × (fault.at ≡ at)) }
{
    match after(reader.words, at, wanted) {
        Some(next) => Ok(next),
        None => Err(Fault {
            rule: Rule::Expected,
            at,
        }),
    }
}

/// The number behind signs and reserved words that have to stand here, one behind the other.
pub fn signs(reader: Reader<'_>, at: usize, wanted: &[Symbol]) -> Result<usize, Fault>
    ensures read { IfOk result (λ next. AreNext wanted.now (rest_at reader.entry at) (rest_at reader.entry next)) }
    ensures forward { IfOk result (λ next. at + length wanted.now ≤ next) }
    ensures inside { IfOk result (λ next. 0 < length wanted.now → next ≤ length reader.entry.words.now) }
    ensures missed { IfErr result (λ fault. MissesOne wanted.now (rest_at reader.entry at) fault.rule (rest_at reader.entry fault.at)) }
{
    let mut here = at;
    for symbol in wanted {
        here = sign(reader, here, *symbol)?;
    }
    Ok(here)
}

/// The number behind a sign or reserved word that has to stand here and opens this level.
pub fn opening(reader: Reader<'_>, at: usize, wanted: Symbol, level: u32) -> Result<usize, Fault>
    ensures read { IfOk result (λ next. IsNext (symbol wanted) (rest_at reader.entry at) (rest_at reader.entry next)) }
    ensures shallow { IfOk result (λ _. level ≤ 64) }
    ensures forward { IfOk result (IsBehind reader.entry.words.now at) }
    ensures missed { IfErr result (λ fault. MissesOpening (rest_at reader.entry at) (symbol wanted) level fault.rule × (fault.at ≡ at)) }
{
    let Some(next) = after(reader.words, at, wanted) else {
        let rule = Rule::Expected;
        return Err(Fault { rule, at });
    };
    if level > MOST_LEVELS {
        let rule = Rule::Nesting;
        return Err(Fault { rule, at });
    }
    Ok(next)
}

/// A name that has to stand here, and the number of the word behind it.
pub fn name<'t>(reader: Reader<'t>, at: usize) -> Result<(&'t [u8], usize), Fault>
    ensures read { IfOk result (λ found. IsNext (named found.0.now) (rest_at reader.entry at) (rest_at reader.entry found.1)) }
    ensures forward { IfOk result (λ found. IsBehind reader.entry.words.now at found.1) }
    ensures missed { IfErr result (λ fault. MissesKind (rest_at reader.entry at) named fault.rule × (fault.at ≡ at)) }
{
    let rule = Rule::Expected;
    let missing = Fault { rule, at };
    let Some(word) = reader.words.get(at) else {
        return Err(missing);
    };
    match *word {
        Lexeme::Name(bytes) => Ok((bytes, at + 1)),
        _ => Err(missing),
    }
}

/// A number that has to stand here, and the number of the word behind it.
pub fn number(reader: Reader<'_>, at: usize) -> Result<(i64, usize), Fault>
    ensures read { IfOk result (λ found. IsNext (numbered found.0) (rest_at reader.entry at) (rest_at reader.entry found.1)) }
    ensures forward { IfOk result (λ found. IsBehind reader.entry.words.now at found.1) }
    ensures missed { IfErr result (λ fault. MissesKind (rest_at reader.entry at) numbered fault.rule × (fault.at ≡ at)) }
{
    let rule = Rule::Expected;
    let missing = Fault { rule, at };
    let Some(word) = reader.words.get(at) else {
        return Err(missing);
    };
    match *word {
        Lexeme::Number(value) => Ok((value, at + 1)),
        _ => Err(missing),
    }
}

/// A name that has to stand here, as bytes of its own, and the number of the word behind it.
pub fn owned_name(reader: Reader<'_>, at: usize) -> Read<Vec<u8>>
    ensures read { IfOk result (λ found. IsNext (named found.0.items) (rest_at reader.entry at) (rest_at reader.entry found.1)) }
    ensures forward { IfOk result (λ found. IsBehind reader.entry.words.now at found.1) }
    ensures missed { IfFault result (λ fault. MissesKind (rest_at reader.entry at) named fault.rule × (fault.at ≡ at)) }
{
    let (bytes, next) = name(reader, at)?;
    let owned = bytes.to_vec(reader.alloc)?;
    Ok((owned, next))
}
