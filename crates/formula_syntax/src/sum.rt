//! Readers of sums. Each reads from a word on, where `levels` levels are open, behind `operators` operators of the formula, and answers a tree,
//! the number of the word behind it and the count of operators by then. An error is the first fault, or that memory ran out.

ghost use Rattle.std.specs.Prelude.{◌≡◌, ◌<◌, length, ◌≤◌, IfOk, Some};
ghost use Rattle.derivation.specs.Pieces.{first};
ghost use Rattle.formula_syntax.specs.Words.{words_from, IsBehind};
ghost use Rattle.formula_syntax.specs.Language.{rest_at, operator_of};
ghost use Rattle.formula_syntax.specs.Mirror.{factor as factor_tree, factor_kind as kind_tree, tail as tail_tree, sum as sum_tree};
ghost use Rattle.formula_syntax.specs.Openings.{opening_of_factor, comparison_of};
ghost use Rattle.formula_syntax.specs.declared.opening.FactorOpening.TheVariants.{Signed, Parenthesis};
ghost use Rattle.derivation.specs.Failures.{IfFault};
ghost use Rattle.formula_syntax.specs.Pending.{a_factor, a_factor_kind, a_tail, a_sum, a_right};
ghost use Rattle.formula_syntax.specs.Reads.{Reads, Refuses, IsFrom};

use crate::input::{Read, Reader};
use crate::opening::{FactorOpening, comparison_of, opening_of_factor, operator_of};
use crate::reader::{MOST_OPERATORS, opening, owned_name, sign};
use crate::sign::{Comparison, Operator, Sign};
use crate::tree::{Factor, FactorKind, Sum, Tail};
use derivation::{Failure, Fault, MOST_LEVELS, Rule};

// A comparison and the sum at its right, the number of the word behind it and the count of operators by then.
type Compared = Result<(Comparison, Sum, usize, u32), Failure>;

/// Reads a sum.
#[cycle(sums)]
pub fn sum(reader: Reader<'_>, at: usize, levels: u32, operators: u32) -> Read<Sum>
    requires shallow { levels ≤ 64 }
    requires few { operators ≤ 64 }
    ensures read { IfOk result (λ found. Reads operators (a_sum levels) (sum_tree found.0) (rest_at reader.entry at) found.2 (rest_at reader.entry found.1)) }
    ensures counted { IfOk result (λ found. found.2 ≤ 64) }
    ensures forward { IfOk result (λ found. IsBehind reader.entry.words.now at found.1) }
    ensures refused { IfFault result (λ fault. Refuses operators (a_sum levels) (rest_at reader.entry at) fault.rule (rest_at reader.entry fault.at)) }
{
    let (factor, behind, count) = factor(reader, at, levels, operators)?;
    let (tail, next, now) = tail(reader, behind, levels, count)?;
    let sum = Sum { factor, tail };
    Ok((sum, next, now))
}

/// Reads what stands behind the first factor of a sum.
#[cycle(sums)]
pub fn tail(reader: Reader<'_>, at: usize, levels: u32, operators: u32) -> Read<Tail>
    requires shallow { levels ≤ 64 }
    requires few { operators ≤ 64 }
    ensures read { IfOk result (λ found. Reads operators (a_tail levels) (tail_tree found.0) (rest_at reader.entry at) found.2 (rest_at reader.entry found.1)) }
    ensures counted { IfOk result (λ found. found.2 ≤ 64) }
    ensures forward { IfOk result (λ found. IsFrom reader.entry.words.now at found.1) }
    ensures refused { IfFault result (λ fault. Refuses operators (a_tail levels) (rest_at reader.entry at) fault.rule (rest_at reader.entry fault.at)) }
{
    match operator_of(reader, at) {
        Some(op) => further(reader, at, levels, operators, op),
        None => Ok((Tail::Ended, at, operators)),
    }
}

// Reads an operator and what stands behind it.
#[cycle(sums)]
fn further(reader: Reader<'_>, at: usize, levels: u32, operators: u32, op: Operator) -> Read<Tail>
    requires shallow { levels ≤ 64 }
    requires inside { at < length reader.words.now }
    requires few { operators ≤ 64 }
    requires opens { Some op ≡ operator_of (first (words_from reader.words.now at)) }
    ensures read { IfOk result (λ found. Reads operators (a_tail levels) (tail_tree found.0) (rest_at reader.entry at) found.2 (rest_at reader.entry found.1)) }
    ensures counted { IfOk result (λ found. found.2 ≤ 64) }
    ensures forward { IfOk result (λ found. IsBehind reader.entry.words.now at found.1) }
    ensures refused { IfFault result (λ fault. Refuses operators (a_tail levels) (rest_at reader.entry at) fault.rule (rest_at reader.entry fault.at)) }
{
    let more = operators + 1;
    if more > MOST_OPERATORS {
        let rule = Rule::Operators;
        return Err(Failure::Fault(Fault { rule, at }));
    }
    let (first, behind, count) = factor(reader, at + 1, levels, more)?;
    let (others, next, now) = tail(reader, behind, levels, count)?;
    let factor = Box::new(reader.alloc, first)?;
    let rest = Box::new(reader.alloc, others)?;
    Ok((Tail::Further { op, factor, rest }, next, now))
}

// Reads a factor.
#[cycle(sums)]
fn factor(reader: Reader<'_>, at: usize, levels: u32, operators: u32) -> Read<Factor>
    requires shallow { levels ≤ 64 }
    requires few { operators ≤ 64 }
    ensures read { IfOk result (λ found. Reads operators (a_factor levels) (factor_tree found.0) (rest_at reader.entry at) found.2 (rest_at reader.entry found.1)) }
    ensures counted { IfOk result (λ found. found.2 ≤ 64) }
    ensures forward { IfOk result (λ found. IsBehind reader.entry.words.now at found.1) }
    ensures refused { IfFault result (λ fault. Refuses operators (a_factor levels) (rest_at reader.entry at) fault.rule (rest_at reader.entry fault.at)) }
{
    let (kind, next, count) = factor_kind(reader, at, levels, operators)?;
    Ok((Factor { at, kind }, next, count))
}

// Reads what a factor is.
#[cycle(sums)]
fn factor_kind(reader: Reader<'_>, at: usize, levels: u32, operators: u32) -> Read<FactorKind>
    requires shallow { levels ≤ 64 }
    requires few { operators ≤ 64 }
    ensures read { IfOk result (λ found. Reads operators (a_factor_kind levels) (kind_tree found.0) (rest_at reader.entry at) found.2 (rest_at reader.entry found.1)) }
    ensures counted { IfOk result (λ found. found.2 ≤ 64) }
    ensures forward { IfOk result (λ found. IsBehind reader.entry.words.now at found.1) }
    ensures refused { IfFault result (λ fault. Refuses operators (a_factor_kind levels) (rest_at reader.entry at) fault.rule (rest_at reader.entry fault.at)) }
{
    match opening_of_factor(reader, at) {
        FactorOpening::Number(value) => Ok((FactorKind::Number(value), at + 1, operators)),
        FactorOpening::Name => {
            let (name, next) = owned_name(reader, at)?;
            Ok((FactorKind::Name(name), next, operators))
        }
        FactorOpening::Signed { negative } => signed(reader, at, levels, operators, negative),
        FactorOpening::Parenthesis => summed(reader, at, levels, operators),
        FactorOpening::Nothing => Err(Failure::Fault(Fault {
            rule: Rule::Expected,
            at,
        })),
    }
}

// Reads a sign and its factor.
#[cycle(sums)]
fn signed(
    reader: Reader<'_>,
    at: usize,
    levels: u32,
    operators: u32,
    negative: bool,
) -> Read<FactorKind>
    requires shallow { levels ≤ 64 }
    requires inside { at < length reader.words.now }
    requires few { operators ≤ 64 }
    requires opens { Signed negative ≡ opening_of_factor (first (words_from reader.words.now at)) }
    ensures read { IfOk result (λ found. Reads operators (a_factor_kind levels) (kind_tree found.0) (rest_at reader.entry at) found.2 (rest_at reader.entry found.1)) }
    ensures counted { IfOk result (λ found. found.2 ≤ 64) }
    ensures forward { IfOk result (λ found. IsBehind reader.entry.words.now at found.1) }
    ensures refused { IfFault result (λ fault. Refuses operators (a_factor_kind levels) (rest_at reader.entry at) fault.rule (rest_at reader.entry fault.at)) }
{
    let inner_levels = levels + 1;
    if inner_levels > MOST_LEVELS {
        let rule = Rule::Nesting;
        return Err(Failure::Fault(Fault { rule, at }));
    }
    let more = operators + 1;
    if more > MOST_OPERATORS {
        let rule = Rule::Operators;
        return Err(Failure::Fault(Fault { rule, at }));
    }
    let (inner, next, count) = factor(reader, at + 1, inner_levels, more)?;
    let factor = Box::new(reader.alloc, inner)?;
    Ok((FactorKind::Signed { negative, factor }, next, count))
}

// Reads a sum in parentheses.
#[cycle(sums)]
fn summed(reader: Reader<'_>, at: usize, levels: u32, operators: u32) -> Read<FactorKind>
    requires shallow { levels ≤ 64 }
    requires few { operators ≤ 64 }
    requires opens { Parenthesis ≡ opening_of_factor (first (words_from reader.words.now at)) }
    ensures read { IfOk result (λ found. Reads operators (a_factor_kind levels) (kind_tree found.0) (rest_at reader.entry at) found.2 (rest_at reader.entry found.1)) }
    ensures counted { IfOk result (λ found. found.2 ≤ 64) }
    ensures forward { IfOk result (λ found. IsBehind reader.entry.words.now at found.1) }
    ensures refused { IfFault result (λ fault. Refuses operators (a_factor_kind levels) (rest_at reader.entry at) fault.rule (rest_at reader.entry fault.at)) }
{
    let inner_levels = levels + 1;
    let inner = opening(reader, at, Sign::OpenParenthesis, inner_levels)?;
    let (value, behind, count) = sum(reader, inner, inner_levels, operators)?;
    let next = sign(reader, behind, Sign::CloseParenthesis)?;
    let factor = Box::new(reader.alloc, value.factor)?;
    let tail = Box::new(reader.alloc, value.tail)?;
    Ok((FactorKind::Summed { factor, tail }, next, count))
}

/// Reads a comparison and the sum at its right.
pub fn right(reader: Reader<'_>, at: usize, levels: u32, operators: u32) -> Compared
    requires shallow { levels ≤ 64 }
    requires few { operators ≤ 64 }
    ensures read { IfOk result (λ found. Reads operators (a_right levels) (record { comparison = found.0; sum = sum_tree found.1 }) (rest_at reader.entry at) found.3 (rest_at reader.entry found.2)) }
    ensures counted { IfOk result (λ found. found.3 ≤ 64) }
    ensures forward { IfOk result (λ found. IsBehind reader.entry.words.now at found.2) }
    ensures refused { IfFault result (λ fault. Refuses operators (a_right levels) (rest_at reader.entry at) fault.rule (rest_at reader.entry fault.at)) }
{
    match comparison_of(reader, at) {
        Some(comparison) => right_of(reader, at, levels, operators, comparison),
        None => Err(Failure::Fault(Fault {
            rule: Rule::Expected,
            at,
        })),
    }
}

// Reads this comparison and the sum at its right.
fn right_of(
    reader: Reader<'_>,
    at: usize,
    levels: u32,
    operators: u32,
    comparison: Comparison,
) -> Compared
    requires shallow { levels ≤ 64 }
    requires inside { at < length reader.words.now }
    requires few { operators ≤ 64 }
    requires opens { Some comparison ≡ comparison_of (first (words_from reader.words.now at)) }
    ensures read { IfOk result (λ found. Reads operators (a_right levels) (record { comparison = found.0; sum = sum_tree found.1 }) (rest_at reader.entry at) found.3 (rest_at reader.entry found.2)) }
    ensures counted { IfOk result (λ found. found.3 ≤ 64) }
    ensures forward { IfOk result (λ found. IsBehind reader.entry.words.now at found.2) }
    ensures refused { IfFault result (λ fault. Refuses operators (a_right levels) (rest_at reader.entry at) fault.rule (rest_at reader.entry fault.at)) }
{
    let more = operators + 1;
    if more > MOST_OPERATORS {
        let rule = Rule::Operators;
        return Err(Failure::Fault(Fault { rule, at }));
    }
    let (value, next, count) = sum(reader, at + 1, levels, more)?;
    Ok((comparison, value, next, count))
}
