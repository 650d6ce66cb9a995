//! Readers of formulas and their parts, which answer as those of sums do. What stands behind a `(` may be a formula or a sum: it is read once,
//! and what it was is told by what it ended with. Only nesting and operators recurse, and there are at most 64 of each.

ghost use Rattle.std.specs.Prelude.{◌≡◌, ◌<◌, length, ◌≢◌, ◌∷◌, List, ◌≤◌, IfOk, Some};
ghost use Rattle.derivation.specs.Pieces.{first};
ghost use Rattle.formula_syntax.specs.Words.{Word, sign as sign_word, words_from, IsBehind};
ghost use Rattle.formula_syntax.specs.Language.{rest_at, connective_of};
ghost use Rattle.formula_syntax.specs.Trees.{quantified, grouped, factor_at, summed};
ghost use Rattle.formula_syntax.specs.Mirror.{factor as factor_tree, tail as tail_tree, sum as sum_tree, part as part_tree, chain as chain_tree, formula as formula_tree};
ghost use Rattle.formula_syntax.specs.Inners.{inner as inner_tree, inner_end as inner_end_tree, inner_of};
ghost use Rattle.formula_syntax.specs.Openings.{opening_of_part, IsProper};
ghost use Rattle.formula_syntax.specs.declared.sign.Sign.TheVariants.{CloseParenthesis};
ghost use Rattle.formula_syntax.specs.declared.opening.Opening.TheVariants.{Sum as OpensSum, Parenthesis, Prefix as OpensPrefix, Quantifier};
ghost use Rattle.derivation.specs.Failures.{IfFault};
ghost use Rattle.formula_syntax.specs.Pending.{a_part, a_chain, a_formula, an_inner, an_inner_end, a_group};
ghost use Rattle.formula_syntax.specs.Reads.{Reads, Refuses, IsFrom};

use crate::input::{Read, Reader};
use crate::lexeme::after;
use crate::opening::{Opening, connective_of, opening_of_part};
use crate::reader::{MOST_OPERATORS, opening, sign, until};
use crate::sign::{Connective, Prefix, Sign};
use crate::sum::{right, sum, tail};
use crate::tree::{Chain, Factor, FactorKind, Formula, Inner, InnerEnd, Part, Sum};
use derivation::{Failure, Fault, MOST_LEVELS, Rule};
use std::alloc::{AllocError, Global};

/// Reads a formula.
#[cycle(parts)]
pub fn formula(reader: Reader<'_>, at: usize, levels: u32, operators: u32) -> Read<Formula>
    requires shallow { levels ≤ 64 }
    requires few { operators ≤ 64 }
    ensures read { IfOk result (λ found. Reads operators (a_formula levels) (formula_tree found.0) (rest_at reader.entry at) found.2 (rest_at reader.entry found.1)) }
    ensures counted { IfOk result (λ found. found.2 ≤ 64) }
    ensures forward { IfOk result (λ found. IsBehind reader.entry.words.now at found.1) }
    ensures refused { IfFault result (λ fault. Refuses operators (a_formula levels) (rest_at reader.entry at) fault.rule (rest_at reader.entry fault.at)) }
{
    let (first, behind, count) = part(reader, at, levels, operators)?;
    let (chain, next, now) = chain(reader, behind, levels, count)?;
    Ok((Formula { part: first, chain }, next, now))
}

// Reads what stands behind the first part of a formula.
#[cycle(parts)]
fn chain(reader: Reader<'_>, at: usize, levels: u32, operators: u32) -> Read<Chain>
    requires shallow { levels ≤ 64 }
    requires few { operators ≤ 64 }
    ensures read { IfOk result (λ found. Reads operators (a_chain levels) (chain_tree found.0) (rest_at reader.entry at) found.2 (rest_at reader.entry found.1)) }
    ensures counted { IfOk result (λ found. found.2 ≤ 64) }
    ensures forward { IfOk result (λ found. IsFrom reader.entry.words.now at found.1) }
    ensures refused { IfFault result (λ fault. Refuses operators (a_chain levels) (rest_at reader.entry at) fault.rule (rest_at reader.entry fault.at)) }
{
    match connective_of(reader, at) {
        Some(connective) => joined(reader, at, levels, operators, connective),
        None => Ok((Chain::Done, at, operators)),
    }
}

// Reads a connective and what stands behind it.
#[cycle(parts)]
fn joined(
    reader: Reader<'_>,
    at: usize,
    levels: u32,
    operators: u32,
    connective: Connective,
) -> Read<Chain>
    requires shallow { levels ≤ 64 }
    requires inside { at < length reader.words.now }
    requires few { operators ≤ 64 }
    requires opens { Some connective ≡ connective_of (first (words_from reader.words.now at)) }
    ensures read { IfOk result (λ found. Reads operators (a_chain levels) (chain_tree found.0) (rest_at reader.entry at) found.2 (rest_at reader.entry found.1)) }
    ensures counted { IfOk result (λ found. found.2 ≤ 64) }
    ensures forward { IfOk result (λ found. IsBehind reader.entry.words.now at found.1) }
    ensures refused { IfFault result (λ fault. Refuses operators (a_chain levels) (rest_at reader.entry at) fault.rule (rest_at reader.entry fault.at)) }
{
    let more = operators + 1;
    if more > MOST_OPERATORS {
        let rule = Rule::Operators;
        return Err(Failure::Fault(Fault { rule, at }));
    }
    let (first, behind, count) = part(reader, at + 1, levels, more)?;
    let (others, next, now) = chain(reader, behind, levels, count)?;
    let part = Box::new(reader.alloc, first)?;
    let rest = Box::new(reader.alloc, others)?;
    let chain = Chain::Joined {
        connective,
        part,
        rest,
    };
    Ok((chain, next, now))
}

// Reads a part of a formula.
#[cycle(parts)]
fn part(reader: Reader<'_>, at: usize, levels: u32, operators: u32) -> Read<Part>
    requires shallow { levels ≤ 64 }
    requires few { operators ≤ 64 }
    ensures read { IfOk result (λ found. Reads operators (a_part levels) (part_tree found.0) (rest_at reader.entry at) found.2 (rest_at reader.entry found.1)) }
    ensures counted { IfOk result (λ found. found.2 ≤ 64) }
    ensures forward { IfOk result (λ found. IsBehind reader.entry.words.now at found.1) }
    ensures refused { IfFault result (λ fault. Refuses operators (a_part levels) (rest_at reader.entry at) fault.rule (rest_at reader.entry fault.at)) }
{
    match opening_of_part(reader, at) {
        Opening::Sum => compared(reader, at, levels, operators),
        Opening::Parenthesis => grouped(reader, at, levels, operators),
        Opening::Prefix(prefix) => prefixed(reader, at, levels, operators, prefix),
        Opening::Quantifier { all } => quantified(reader, at, levels, operators, all),
        Opening::Truth(value) => Ok((Part::Truth(value), at + 1, operators)),
        Opening::Exit => Ok((Part::Exit, at + 1, operators)),
        Opening::Nothing => Err(Failure::Fault(Fault {
            rule: Rule::Expected,
            at,
        })),
    }
}

// Reads a prefix and its part.
#[cycle(parts)]
fn prefixed(
    reader: Reader<'_>,
    at: usize,
    levels: u32,
    operators: u32,
    prefix: Prefix,
) -> Read<Part>
    requires shallow { levels ≤ 64 }
    requires inside { at < length reader.words.now }
    requires few { operators ≤ 64 }
    requires opens { OpensPrefix prefix ≡ opening_of_part (first (words_from reader.words.now at)) }
    ensures read { IfOk result (λ found. Reads operators (a_part levels) (part_tree found.0) (rest_at reader.entry at) found.2 (rest_at reader.entry found.1)) }
    ensures counted { IfOk result (λ found. found.2 ≤ 64) }
    ensures forward { IfOk result (λ found. IsBehind reader.entry.words.now at found.1) }
    ensures refused { IfFault result (λ fault. Refuses operators (a_part levels) (rest_at reader.entry at) fault.rule (rest_at reader.entry fault.at)) }
{
    let inner_levels = levels + 1;
    if inner_levels > MOST_LEVELS {
        let rule = Rule::Nesting;
        return Err(Failure::Fault(Fault { rule, at }));
    }
    let more = operators + 1;
    if more > MOST_OPERATORS {
        let rule = Rule::Operators;
        return Err(Failure::Fault(Fault { rule, at }));
    }
    let (inner, next, count) = part(reader, at + 1, inner_levels, more)?;
    let part = Box::new(reader.alloc, inner)?;
    Ok((Part::Prefixed { prefix, part }, next, count))
}

// Reads an until or a weak until.
#[cycle(parts)]
fn quantified(reader: Reader<'_>, at: usize, levels: u32, operators: u32, all: bool) -> Read<Part>
    requires shallow { levels ≤ 64 }
    requires inside { at < length reader.words.now }
    requires few { operators ≤ 64 }
    requires opens { Quantifier all ≡ opening_of_part (first (words_from reader.words.now at)) }
    ensures read { IfOk result (λ found. Reads operators (a_part levels) (part_tree found.0) (rest_at reader.entry at) found.2 (rest_at reader.entry found.1)) }
    ensures counted { IfOk result (λ found. found.2 ≤ 64) }
    ensures forward { IfOk result (λ found. IsBehind reader.entry.words.now at found.1) }
    ensures refused { IfFault result (λ fault. Refuses operators (a_part levels) (rest_at reader.entry at) fault.rule (rest_at reader.entry fault.at)) }
{
    let more = operators + 1;
    if more > MOST_OPERATORS {
        let rule = Rule::Operators;
        return Err(Failure::Fault(Fault { rule, at }));
    }
    let inner_levels = levels + 1;
    let open = opening(reader, at + 1, Sign::OpenBracket, inner_levels)?;
    let (first, middle, count) = formula(reader, open, inner_levels, more)?;
    let (weak, goal) = until(reader, middle)?;
    let (second, close, now) = formula(reader, goal, inner_levels, count)?;
    let next = sign(reader, close, Sign::CloseBracket)?;
    let made = quantify(reader.alloc, all, first, weak, second)?;
    Ok((made, next, now))
}

// An until or a weak until of these formulas.
fn quantify(
    alloc: Global,
    all: bool,
    first: Formula,
    weak: bool,
    second: Formula,
) -> Result<Part, AllocError>
    ensures { IfOk result (λ made. part_tree made ≡ quantified all (part_tree first.part) (chain_tree first.chain) weak (part_tree second.part) (chain_tree second.chain)) }
{
    let keep = Box::new(alloc, first.part)?;
    let behind_keep = Box::new(alloc, first.chain)?;
    let goal = Box::new(alloc, second.part)?;
    let behind_goal = Box::new(alloc, second.chain)?;
    Ok(Part::Quantified {
        all,
        keep,
        behind_keep,
        weak,
        goal,
        behind_goal,
    })
}

// Reads a comparison that doesn't begin with a `(`.
fn compared(reader: Reader<'_>, at: usize, levels: u32, operators: u32) -> Read<Part>
    requires shallow { levels ≤ 64 }
    requires few { operators ≤ 64 }
    requires opens { OpensSum ≡ opening_of_part (first (words_from reader.words.now at)) }
    ensures read { IfOk result (λ found. Reads operators (a_part levels) (part_tree found.0) (rest_at reader.entry at) found.2 (rest_at reader.entry found.1)) }
    ensures counted { IfOk result (λ found. found.2 ≤ 64) }
    ensures forward { IfOk result (λ found. IsBehind reader.entry.words.now at found.1) }
    ensures refused { IfFault result (λ fault. Refuses operators (a_part levels) (rest_at reader.entry at) fault.rule (rest_at reader.entry fault.at)) }
{
    let (left, behind, count) = sum(reader, at, levels, operators)?;
    let (comparison, right, next, now) = right(reader, behind, levels, count)?;
    let part = Part::Compared {
        left,
        comparison,
        right,
    };
    Ok((part, next, now))
}

// Reads a part that begins with a `(`.
#[cycle(parts)]
fn grouped(reader: Reader<'_>, at: usize, levels: u32, operators: u32) -> Read<Part>
    requires shallow { levels ≤ 64 }
    requires few { operators ≤ 64 }
    requires opens { Parenthesis ≡ opening_of_part (first (words_from reader.words.now at)) }
    ensures read { IfOk result (λ found. Reads operators (a_part levels) (part_tree found.0) (rest_at reader.entry at) found.2 (rest_at reader.entry found.1)) }
    ensures counted { IfOk result (λ found. found.2 ≤ 64) }
    ensures forward { IfOk result (λ found. IsBehind reader.entry.words.now at found.1) }
    ensures refused { IfFault result (λ fault. Refuses operators (a_part levels) (rest_at reader.entry at) fault.rule (rest_at reader.entry fault.at)) }
{
    let (inner, behind, count) = group(reader, at, levels, operators)?;
    match inner {
        Inner::Formula(formula) => {
            let part = grouping(reader.alloc, at, formula)?;
            Ok((part, behind, count))
        }
        Inner::Sum(inner) => {
            let factor = summing(reader.alloc, at, inner)?;
            let (tail, middle, count) = tail(reader, behind, levels, count)?;
            let (comparison, right, next, now) = right(reader, middle, levels, count)?;
            let left = Sum { factor, tail };
            let part = Part::Compared {
                left,
                comparison,
                right,
            };
            Ok((part, next, now))
        }
    }
}

// A formula in parentheses.
fn grouping(alloc: Global, at: usize, inner: Formula) -> Result<Part, AllocError>
    ensures { IfOk result (λ made. part_tree made ≡ grouped at (part_tree inner.part) (chain_tree inner.chain)) }
{
    let part = Box::new(alloc, inner.part)?;
    let chain = Box::new(alloc, inner.chain)?;
    Ok(Part::Grouped { at, part, chain })
}

// A sum in parentheses.
fn summing(alloc: Global, at: usize, inner: Sum) -> Result<Factor, AllocError>
    ensures { IfOk result (λ made. factor_tree made ≡ factor_at at (summed (factor_tree inner.factor) (tail_tree inner.tail))) }
{
    let factor = Box::new(alloc, inner.factor)?;
    let tail = Box::new(alloc, inner.tail)?;
    Ok(Factor {
        at,
        kind: FactorKind::Summed { factor, tail },
    })
}

// Reads a formula or a sum in parentheses.
#[cycle(parts)]
fn group(reader: Reader<'_>, at: usize, levels: u32, operators: u32) -> Read<Inner>
    requires shallow { levels ≤ 64 }
    requires few { operators ≤ 64 }
    ensures read { IfOk result (λ found. Reads operators (a_group levels) (record { at = at; inner = inner_tree found.0 }) (rest_at reader.entry at) found.2 (rest_at reader.entry found.1)) }
    ensures counted { IfOk result (λ found. found.2 ≤ 64) }
    ensures forward { IfOk result (λ found. IsBehind reader.entry.words.now at found.1) }
    ensures refused { IfFault result (λ fault. Refuses operators (a_group levels) (rest_at reader.entry at) fault.rule (rest_at reader.entry fault.at)) }
{
    let inner_levels = levels + 1;
    let open = opening(reader, at, Sign::OpenParenthesis, inner_levels)?;
    let (inner, next, count) = inner(reader, open, inner_levels, operators)?;
    Ok((inner, next, count))
}

// Reads what stands in parentheses, and the `)`.
#[cycle(parts)]
fn inner(reader: Reader<'_>, at: usize, levels: u32, operators: u32) -> Read<Inner>
    requires shallow { levels ≤ 64 }
    requires few { operators ≤ 64 }
    ensures read { IfOk result (λ found. Reads operators (an_inner levels) (inner_tree found.0) (rest_at reader.entry at) found.2 (rest_at reader.entry found.1)) }
    ensures counted { IfOk result (λ found. found.2 ≤ 64) }
    ensures forward { IfOk result (λ found. IsBehind reader.entry.words.now at found.1) }
    ensures refused { IfFault result (λ fault. Refuses operators (an_inner levels) (rest_at reader.entry at) fault.rule (rest_at reader.entry fault.at)) }
{
    match opening_of_part(reader, at) {
        Opening::Sum => inner_sum(reader, at, levels, operators),
        Opening::Parenthesis => inner_group(reader, at, levels, operators),
        Opening::Prefix(_) => closed_formula(reader, at, levels, operators),
        Opening::Quantifier { .. } => closed_formula(reader, at, levels, operators),
        Opening::Truth(_) => closed_formula(reader, at, levels, operators),
        Opening::Exit => closed_formula(reader, at, levels, operators),
        Opening::Nothing => Err(Failure::Fault(Fault {
            rule: Rule::Expected,
            at,
        })),
    }
}

// Reads it where only a formula begins so.
#[cycle(parts)]
fn closed_formula(reader: Reader<'_>, at: usize, levels: u32, operators: u32) -> Read<Inner>
    requires shallow { levels ≤ 64 }
    requires few { operators ≤ 64 }
    requires opens { IsProper (opening_of_part (first (words_from reader.words.now at))) }
    ensures read { IfOk result (λ found. Reads operators (an_inner levels) (inner_tree found.0) (rest_at reader.entry at) found.2 (rest_at reader.entry found.1)) }
    ensures counted { IfOk result (λ found. found.2 ≤ 64) }
    ensures forward { IfOk result (λ found. IsBehind reader.entry.words.now at found.1) }
    ensures refused { IfFault result (λ fault. Refuses operators (an_inner levels) (rest_at reader.entry at) fault.rule (rest_at reader.entry fault.at)) }
{
    let (formula, behind, count) = formula(reader, at, levels, operators)?;
    let next = sign(reader, behind, Sign::CloseParenthesis)?;
    Ok((Inner::Formula(formula), next, count))
}

// Reads it where it begins with a sum, but not with a `(`.
#[cycle(parts)]
fn inner_sum(reader: Reader<'_>, at: usize, levels: u32, operators: u32) -> Read<Inner>
    requires shallow { levels ≤ 64 }
    requires few { operators ≤ 64 }
    requires opens { OpensSum ≡ opening_of_part (first (words_from reader.words.now at)) }
    ensures read { IfOk result (λ found. Reads operators (an_inner levels) (inner_tree found.0) (rest_at reader.entry at) found.2 (rest_at reader.entry found.1)) }
    ensures counted { IfOk result (λ found. found.2 ≤ 64) }
    ensures forward { IfOk result (λ found. IsBehind reader.entry.words.now at found.1) }
    ensures refused { IfFault result (λ fault. Refuses operators (an_inner levels) (rest_at reader.entry at) fault.rule (rest_at reader.entry fault.at)) }
{
    let (left, behind, count) = sum(reader, at, levels, operators)?;
    let (end, next, now) = inner_end(reader, behind, levels, count)?;
    Ok((inner_of(left, end), next, now))
}

// Reads it where it begins with a `(`.
#[cycle(parts)]
fn inner_group(reader: Reader<'_>, at: usize, levels: u32, operators: u32) -> Read<Inner>
    requires shallow { levels ≤ 64 }
    requires few { operators ≤ 64 }
    requires opens { Parenthesis ≡ opening_of_part (first (words_from reader.words.now at)) }
    ensures read { IfOk result (λ found. Reads operators (an_inner levels) (inner_tree found.0) (rest_at reader.entry at) found.2 (rest_at reader.entry found.1)) }
    ensures counted { IfOk result (λ found. found.2 ≤ 64) }
    ensures forward { IfOk result (λ found. IsBehind reader.entry.words.now at found.1) }
    ensures refused { IfFault result (λ fault. Refuses operators (an_inner levels) (rest_at reader.entry at) fault.rule (rest_at reader.entry fault.at)) }
{
    let (inner, behind, count) = group(reader, at, levels, operators)?;
    match inner {
        Inner::Formula(inner) => {
            let part = grouping(reader.alloc, at, inner)?;
            let (chain, close, now) = chain(reader, behind, levels, count)?;
            let next = sign(reader, close, Sign::CloseParenthesis)?;
            Ok((Inner::Formula(Formula { part, chain }), next, now))
        }
        Inner::Sum(inner) => {
            let factor = summing(reader.alloc, at, inner)?;
            let (tail, middle, count) = tail(reader, behind, levels, count)?;
            let (end, next, now) = inner_end(reader, middle, levels, count)?;
            let left = Sum { factor, tail };
            Ok((inner_of(left, end), next, now))
        }
    }
}

// Reads what stands in parentheses behind a sum, and the `)`.
#[cycle(parts)]
fn inner_end(reader: Reader<'_>, at: usize, levels: u32, operators: u32) -> Read<InnerEnd>
    requires shallow { levels ≤ 64 }
    requires few { operators ≤ 64 }
    ensures read { IfOk result (λ found. Reads operators (an_inner_end levels) (inner_end_tree found.0) (rest_at reader.entry at) found.2 (rest_at reader.entry found.1)) }
    ensures counted { IfOk result (λ found. found.2 ≤ 64) }
    ensures forward { IfOk result (λ found. IsBehind reader.entry.words.now at found.1) }
    ensures refused { IfFault result (λ fault. Refuses operators (an_inner_end levels) (rest_at reader.entry at) fault.rule (rest_at reader.entry fault.at)) }
{
    match after(reader.words, at, Sign::CloseParenthesis) {
        Some(next) => Ok((InnerEnd::Closed, next, operators)),
        None => inner_compared(reader, at, levels, operators),
    }
}

// Reads a comparison there and what stands behind it.
#[cycle(parts)]
fn inner_compared(reader: Reader<'_>, at: usize, levels: u32, operators: u32) -> Read<InnerEnd>
    requires shallow { levels ≤ 64 }
    requires few { operators ≤ 64 }
    requires goes_on { (rest : List Word) → words_from reader.words.now at ≢ sign_word CloseParenthesis ∷ rest }
    ensures read { IfOk result (λ found. Reads operators (an_inner_end levels) (inner_end_tree found.0) (rest_at reader.entry at) found.2 (rest_at reader.entry found.1)) }
    ensures counted { IfOk result (λ found. found.2 ≤ 64) }
    ensures forward { IfOk result (λ found. IsBehind reader.entry.words.now at found.1) }
    ensures refused { IfFault result (λ fault. Refuses operators (an_inner_end levels) (rest_at reader.entry at) fault.rule (rest_at reader.entry fault.at)) }
{
    let (comparison, right, behind, count) = right(reader, at, levels, operators)?;
    let (chain, close, now) = chain(reader, behind, levels, count)?;
    let next = sign(reader, close, Sign::CloseParenthesis)?;
    let end = InnerEnd::Compared {
        comparison,
        right,
        chain,
    };
    Ok((end, next, now))
}

// What stands in parentheses: a sum, or the formula that begins with its comparison.
fn inner_of(left: Sum, end: InnerEnd) -> Inner
    ensures { inner_tree result ≡ inner_of (sum_tree left) (inner_end_tree end) }
{
    match end {
        InnerEnd::Closed => Inner::Sum(left),
        InnerEnd::Compared {
            comparison,
            right,
            chain,
        } => {
            let part = Part::Compared {
                left,
                comparison,
                right,
            };
            Inner::Formula(Formula { part, chain })
        }
    }
}
