//! Expressions. Only nesting recurses: the operators and operands of one expression are read by a loop.

ghost use Rattle.std.specs.Prelude.{◌≡◌, ◌≤◌, ℕ, length, IfOk, IfErr};
ghost use Rattle.derivation.specs.Pieces.{first};
ghost use Rattle.derivation.specs.Spelled.{words_from, IsBehind};
ghost use Rattle.source_syntax.specs.Language.{rest_at};
ghost use Rattle.concrete_syntax.specs.Mirror.{operand as operand_tree, operand_kind as kind_tree, expression as expression_tree, tail as tail_tree, link as link_tree, divisor as divisor_tree, range_end as end_tree};
ghost use Rattle.concrete_syntax.specs.Trees.{call as call_tree, range as range_tree};
ghost use Rattle.source_syntax.specs.Openings.{opening_of_operand};
ghost use Rattle.source_syntax.specs.declared.opening.OperandOpening.TheVariants.{Call, Parenthesis, Bracket, Signed};
ghost use Rattle.derivation.specs.Failures.{IfFault};
ghost use Rattle.source_syntax.specs.Pending.{an_operand, an_operand_kind, an_expression, a_tail, a_divisor, an_end, a_size};
ghost use Rattle.source_syntax.specs.Reads.{ReadsCounting, RefusesCounting, ReadsRight, right_of};

use crate::input::{Counted, Reader};
use crate::opening::{
    LinkOpening, OperandOpening, SizeOpening, link_opening, opening_of_operand, size_opening,
};
use crate::reader::{number, opening, owned_name, sign};
use concrete_syntax::{Divisor, End, Expression, Link, Operand, OperandKind, Prefix, Tail};
use derivation::{Failure, Fault, MOST_LEVELS, Rule, Symbol, after};

/// How many binary operators one expression may have.
pub const MOST_OPERATORS: u32 = 256;

/// Reads an expression where `levels` levels are open, behind `operators` operators of the same whole expression. Answers the
/// expression, the number of the word behind it and the count of operators by then.
#[cycle(expressions)]
pub fn expression(reader: Reader<'_>, at: usize, levels: u32, operators: u32) -> Counted<Expression>
    requires shallow { levels ≤ 64 }
    requires few { operators ≤ 256 }
    ensures read { IfOk result (λ found. ReadsCounting operators (an_expression levels) (expression_tree found.0) (rest_at reader.entry at) found.2 (rest_at reader.entry found.1)) }
    ensures counted { IfOk result (λ found. found.2 ≤ 256) }
    ensures forward { IfOk result (λ found. IsBehind reader.entry.words.now at found.1) }
    ensures refused { IfFault result (λ fault. RefusesCounting operators (an_expression levels) (rest_at reader.entry at) fault.rule (rest_at reader.entry fault.at)) }
{
    let (operand, behind, before) = operand(reader, at, levels, operators)?;
    let (tail, next, count) = tail(reader, behind, levels, before)?;
    Ok((Expression { operand, tail }, next, count))
}

/// Reads what stands behind the first operand of an expression where `levels` levels are open, behind `operators` operators of the same
/// whole expression. Answers it, the number of the word behind it and the count of operators by then.
#[cycle(expressions)]
pub fn tail(reader: Reader<'_>, at: usize, levels: u32, operators: u32) -> Counted<Tail>
    requires shallow { levels ≤ 64 }
    requires few { operators ≤ 256 }
    requires within { at ≤ length reader.words.now }
    ensures read { IfOk result (λ found. ReadsCounting operators (a_tail levels) (tail_tree found.0) (rest_at reader.entry at) found.2 (rest_at reader.entry found.1)) }
    ensures counted { IfOk result (λ found. found.2 ≤ 256) }
    ensures forward { IfOk result (λ found. at ≤ found.1) }
    ensures inside { IfOk result (λ found. found.1 ≤ length reader.entry.words.now) }
    ensures refused { IfFault result (λ fault. RefusesCounting operators (a_tail levels) (rest_at reader.entry at) fault.rule (rest_at reader.entry fault.at)) }
{
    let mut here = at;
    let mut count = operators;
    let mut links = Vec::new(reader.alloc);
    'operators: loop {
        match link_opening(reader, here) {
            Some(link) => {
                if count + 1 > MOST_OPERATORS {
                    return Err(Failure::Fault(Fault {
                        rule: Rule::Operators,
                        at: here,
                    }));
                }
                let (further, next, now) = right(reader, here + 1, levels, count + 1, link)?;
                links.push(further)?;
                here = next;
                count = now;
            }
            None => {
                let made = Tail::of(reader.alloc, links)?;
                return Ok((made, here, count));
            }
        }
    }
}

// Reads what stands behind the sign of a link.
#[cycle(expressions)]
fn right(
    reader: Reader<'_>,
    at: usize,
    levels: u32,
    operators: u32,
    link: LinkOpening,
) -> Counted<Link>
    requires shallow { levels ≤ 64 }
    requires few { operators ≤ 256 }
    ensures read { IfOk result (λ found. ReadsRight operators levels link (link_tree found.0) (rest_at reader.entry at) found.2 (rest_at reader.entry found.1)) }
    ensures counted { IfOk result (λ found. found.2 ≤ 256) }
    ensures forward { IfOk result (λ found. IsBehind reader.entry.words.now at found.1) }
    ensures refused { IfFault result (λ fault. RefusesCounting operators (right_of levels link) (rest_at reader.entry at) fault.rule (rest_at reader.entry fault.at)) }
{
    match link {
        LinkOpening::Operation(op) => {
            let (operand, next, count) = operand(reader, at, levels, operators)?;
            Ok((Link::Operation { op, operand }, next, count))
        }
        LinkOpening::Division(division) => {
            let (divisor, next) = divisor(reader, at)?;
            Ok((Link::Division { division, divisor }, next, operators))
        }
    }
}

// Reads an operand.
#[cycle(expressions)]
fn operand(reader: Reader<'_>, at: usize, levels: u32, operators: u32) -> Counted<Operand>
    requires shallow { levels ≤ 64 }
    requires few { operators ≤ 256 }
    ensures read { IfOk result (λ found. ReadsCounting operators (an_operand levels) (operand_tree found.0) (rest_at reader.entry at) found.2 (rest_at reader.entry found.1)) }
    ensures counted { IfOk result (λ found. found.2 ≤ 256) }
    ensures forward { IfOk result (λ found. IsBehind reader.entry.words.now at found.1) }
    ensures refused { IfFault result (λ fault. RefusesCounting operators (an_operand levels) (rest_at reader.entry at) fault.rule (rest_at reader.entry fault.at)) }
{
    let (kind, next, count) = operand_kind(reader, at, levels, operators)?;
    Ok((Operand { at, kind }, next, count))
}

// Reads what an operand is.
#[cycle(expressions)]
fn operand_kind(reader: Reader<'_>, at: usize, levels: u32, operators: u32) -> Counted<OperandKind>
    requires shallow { levels ≤ 64 }
    requires few { operators ≤ 256 }
    ensures read { IfOk result (λ found. ReadsCounting operators (an_operand_kind levels) (kind_tree found.0) (rest_at reader.entry at) found.2 (rest_at reader.entry found.1)) }
    ensures counted { IfOk result (λ found. found.2 ≤ 256) }
    ensures forward { IfOk result (λ found. IsBehind reader.entry.words.now at found.1) }
    ensures refused { IfFault result (λ fault. RefusesCounting operators (an_operand_kind levels) (rest_at reader.entry at) fault.rule (rest_at reader.entry fault.at)) }
{
    match opening_of_operand(reader, at) {
        OperandOpening::Number(value) => Ok((OperandKind::Number(value), at + 1, operators)),
        OperandOpening::Name => {
            let (name, next) = owned_name(reader, at)?;
            Ok((OperandKind::Name(name), next, operators))
        }
        OperandOpening::Truth(value) => Ok((OperandKind::Truth(value), at + 1, operators)),
        OperandOpening::Unknown => Ok((OperandKind::Unknown, at + 1, operators)),
        OperandOpening::Call => {
            let next = call(reader, at, levels)?;
            Ok((OperandKind::Call, next, operators))
        }
        OperandOpening::Signed(prefix) => signed(reader, at, levels, operators, prefix),
        OperandOpening::Parenthesis => parentheses(reader, at, levels, operators),
        OperandOpening::Bracket => {
            let (low, high, next) = range(reader, at, levels)?;
            Ok((OperandKind::Range { low, high }, next, operators))
        }
        OperandOpening::Nothing => Err(Failure::Fault(Fault {
            rule: Rule::Expected,
            at,
        })),
    }
}

// Reads a sign and its operand.
#[cycle(expressions)]
fn signed(
    reader: Reader<'_>,
    at: usize,
    levels: u32,
    operators: u32,
    prefix: Prefix,
) -> Counted<OperandKind>
    requires shallow { levels ≤ 64 }
    requires few { operators ≤ 256 }
    requires opens { Signed prefix ≡ opening_of_operand (first (words_from reader.words.now at)) }
    ensures read { IfOk result (λ found. ReadsCounting operators (an_operand_kind levels) (kind_tree found.0) (rest_at reader.entry at) found.2 (rest_at reader.entry found.1)) }
    ensures counted { IfOk result (λ found. found.2 ≤ 256) }
    ensures forward { IfOk result (λ found. IsBehind reader.entry.words.now at found.1) }
    ensures refused { IfFault result (λ fault. RefusesCounting operators (an_operand_kind levels) (rest_at reader.entry at) fault.rule (rest_at reader.entry fault.at)) }
{
    let inner_levels = levels + 1;
    if inner_levels > MOST_LEVELS {
        let rule = Rule::Nesting;
        return Err(Failure::Fault(Fault { rule, at }));
    }
    let (inner, next, count) = operand(reader, at + 1, inner_levels, operators)?;
    let operand = Box::new(reader.alloc, inner)?;
    Ok((OperandKind::Signed { prefix, operand }, next, count))
}

// Reads an expression in parentheses.
#[cycle(expressions)]
fn parentheses(reader: Reader<'_>, at: usize, levels: u32, operators: u32) -> Counted<OperandKind>
    requires shallow { levels ≤ 64 }
    requires few { operators ≤ 256 }
    requires opens { Parenthesis ≡ opening_of_operand (first (words_from reader.words.now at)) }
    ensures read { IfOk result (λ found. ReadsCounting operators (an_operand_kind levels) (kind_tree found.0) (rest_at reader.entry at) found.2 (rest_at reader.entry found.1)) }
    ensures counted { IfOk result (λ found. found.2 ≤ 256) }
    ensures forward { IfOk result (λ found. IsBehind reader.entry.words.now at found.1) }
    ensures refused { IfFault result (λ fault. RefusesCounting operators (an_operand_kind levels) (rest_at reader.entry at) fault.rule (rest_at reader.entry fault.at)) }
{
    let inner_levels = levels + 1;
    let inner = opening(reader, at, Symbol::OpenParenthesis, inner_levels)?;
    let (value, behind, count) = expression(reader, inner, inner_levels, operators)?;
    let next = sign(reader, behind, Symbol::CloseParenthesis)?;
    let operand = Box::new(reader.alloc, value.operand)?;
    let tail = Box::new(reader.alloc, value.tail)?;
    Ok((OperandKind::Parentheses { operand, tail }, next, count))
}

// Reads a divisor.
fn divisor(reader: Reader<'_>, at: usize) -> Result<(Divisor, usize), Fault>
    ensures read { IfOk result (λ found. (count : ℕ) → ReadsCounting count a_divisor (divisor_tree found.0) (rest_at reader.entry at) count (rest_at reader.entry found.1)) }
    ensures forward { IfOk result (λ found. IsBehind reader.entry.words.now at found.1) }
    ensures refused { IfErr result (λ fault. (count : ℕ) → RefusesCounting count a_divisor (rest_at reader.entry at) fault.rule (rest_at reader.entry fault.at)) }
{
    if let Some(at) = after(reader.words, at, Symbol::Minus) {
        let negative = true;
        let (size, next) = number(reader, at)?;
        return Ok((Divisor { negative, at, size }, next));
    }
    let negative = false;
    let (size, next) = number(reader, at)?;
    Ok((Divisor { negative, at, size }, next))
}

// Reads `__VERIFIER_nondet_int()`.
fn call(reader: Reader<'_>, at: usize, levels: u32) -> Result<usize, Fault>
    requires shallow { levels ≤ 64 }
    requires opens { Call ≡ opening_of_operand (first (words_from reader.words.now at)) }
    ensures read { IfOk result (λ next. (count : ℕ) → ReadsCounting count (an_operand_kind levels) call_tree (rest_at reader.entry at) count (rest_at reader.entry next)) }
    ensures forward { IfOk result (IsBehind reader.entry.words.now at) }
    ensures refused { IfErr result (λ fault. (count : ℕ) → RefusesCounting count (an_operand_kind levels) (rest_at reader.entry at) fault.rule (rest_at reader.entry fault.at)) }
{
    let open = sign(reader, at, Symbol::Nondeterministic)?;
    let close = opening(reader, open, Symbol::OpenParenthesis, levels + 1)?;
    let next = sign(reader, close, Symbol::CloseParenthesis)?;
    Ok(next)
}

// Reads `[a, b]`. Answers both ends and the number behind.
fn range(reader: Reader<'_>, at: usize, levels: u32) -> Result<(End, End, usize), Fault>
    requires opens { Bracket ≡ opening_of_operand (first (words_from reader.words.now at)) }
    ensures read { IfOk result (λ found. (count : ℕ) → ReadsCounting count (an_operand_kind levels) (range_tree (end_tree found.0) (end_tree found.1)) (rest_at reader.entry at) count (rest_at reader.entry found.2)) }
    ensures forward { IfOk result (λ found. IsBehind reader.entry.words.now at found.2) }
    ensures refused { IfErr result (λ fault. (count : ℕ) → RefusesCounting count (an_operand_kind levels) (rest_at reader.entry at) fault.rule (rest_at reader.entry fault.at)) }
{
    let first = sign(reader, at, Symbol::OpenBracket)?;
    let (low, comma) = range_end(reader, first)?;
    let second = sign(reader, comma, Symbol::Comma)?;
    let (high, close) = range_end(reader, second)?;
    let next = sign(reader, close, Symbol::CloseBracket)?;
    Ok((low, high, next))
}

// Reads an end of a range.
fn range_end(reader: Reader<'_>, at: usize) -> Result<(End, usize), Fault>
    ensures read { IfOk result (λ found. (count : ℕ) → ReadsCounting count an_end (end_tree found.0) (rest_at reader.entry at) count (rest_at reader.entry found.1)) }
    ensures forward { IfOk result (λ found. IsBehind reader.entry.words.now at found.1) }
    ensures refused { IfErr result (λ fault. (count : ℕ) → RefusesCounting count an_end (rest_at reader.entry at) fault.rule (rest_at reader.entry fault.at)) }
{
    if let Some(inner) = after(reader.words, at, Symbol::Minus) {
        let negative = true;
        let (size, next) = size(reader, inner)?;
        return Ok((End { negative, size }, next));
    }
    let negative = false;
    let (size, next) = size(reader, at)?;
    Ok((End { negative, size }, next))
}

// Reads a number or `inf`, of which it answers `None`.
fn size(reader: Reader<'_>, at: usize) -> Result<(Option<i64>, usize), Fault>
    ensures read { IfOk result (λ found. (count : ℕ) → ReadsCounting count a_size found.0 (rest_at reader.entry at) count (rest_at reader.entry found.1)) }
    ensures forward { IfOk result (λ found. IsBehind reader.entry.words.now at found.1) }
    ensures refused { IfErr result (λ fault. (count : ℕ) → RefusesCounting count a_size (rest_at reader.entry at) fault.rule (rest_at reader.entry fault.at)) }
{
    match size_opening(reader, at) {
        SizeOpening::Number(value) => Ok((Some(value), at + 1)),
        SizeOpening::Infinite => Ok((None, at + 1)),
        SizeOpening::Nothing => Err(Fault {
            rule: Rule::Expected,
            at,
        }),
    }
}
