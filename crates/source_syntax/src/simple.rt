//! The parts of statements that no statement is a part of: tests, expressions that may be missing, and simple statements.

ghost use Rattle.std.specs.Prelude.{◌≡◌, ◌≤◌, IfOk};
ghost use Rattle.derivation.specs.Spelled.{IsBehind};
ghost use Rattle.source_syntax.specs.Language.{rest_at};
ghost use Rattle.concrete_syntax.specs.Mirror.{expression as expression_tree, optional as optional_tree, simple as simple_tree, action as action_tree, optional_simple as finish_tree};
ghost use Rattle.source_syntax.specs.Openings.{opening_of_simple, opening_of_action};
ghost use Rattle.source_syntax.specs.Spelling.{assignment_sign, step_sign};
ghost use Rattle.derivation.specs.Failures.{IfFault};
ghost use Rattle.source_syntax.specs.Pending.{a_test, an_optional, an_action, a_simple, a_finish};
ghost use Rattle.source_syntax.specs.Reads.{Reads, Refuses, ReadsAfresh, RefusesCounting};

use crate::expression::expression;
use crate::input::{Read, Reader};
use crate::opening::{ActionOpening, SimpleOpening, opening_of_action, opening_of_simple};
use crate::reader::{opening, owned_name, sign};
use concrete_syntax::{Action, Assignment, Expression, Name, Simple, Step};
use derivation::{Failure, Fault, Rule, Symbol, after};

/// Reads the test of an `if` or a loop, in its parentheses.
pub fn test(reader: Reader<'_>, at: usize, levels: u32) -> Read<Expression>
    requires shallow { levels ≤ 64 }
    ensures read { IfOk result (λ found. Reads (a_test levels) (expression_tree found.0) (rest_at reader.entry at) (rest_at reader.entry found.1)) }
    ensures forward { IfOk result (λ found. IsBehind reader.entry.words.now at found.1) }
    ensures refused { IfFault result (λ fault. Refuses (a_test levels) (rest_at reader.entry at) fault.rule (rest_at reader.entry fault.at)) }
{
    let inner_levels = levels + 1;
    let inner = opening(reader, at, Symbol::OpenParenthesis, inner_levels)?;
    let (tested, behind, _) = expression(reader, inner, inner_levels, 0)?;
    let next = sign(reader, behind, Symbol::CloseParenthesis)?;
    Ok((tested, next))
}

/// Reads an expression, which may be missing, and the `;` behind it.
pub fn optional(reader: Reader<'_>, at: usize, levels: u32) -> Read<Option<Expression>>
    requires shallow { levels ≤ 64 }
    ensures read { IfOk result (λ found. ReadsAfresh (an_optional levels) (optional_tree found.0) (rest_at reader.entry at) (rest_at reader.entry found.1)) }
    ensures forward { IfOk result (λ found. IsBehind reader.entry.words.now at found.1) }
    ensures refused { IfFault result (λ fault. RefusesCounting 0 (an_optional levels) (rest_at reader.entry at) fault.rule (rest_at reader.entry fault.at)) }
{
    if let Some(end) = after(reader.words, at, Symbol::Semicolon) {
        return Ok((None, end));
    }
    let (value, behind, _) = expression(reader, at, levels, 0)?;
    let next = sign(reader, behind, Symbol::Semicolon)?;
    Ok((Some(value), next))
}

/// Reads a simple statement, without its `;`.
pub fn simple(reader: Reader<'_>, at: usize, levels: u32) -> Read<Simple>
    requires shallow { levels ≤ 64 }
    ensures read { IfOk result (λ found. Reads (a_simple levels) (simple_tree found.0) (rest_at reader.entry at) (rest_at reader.entry found.1)) }
    ensures forward { IfOk result (λ found. IsBehind reader.entry.words.now at found.1) }
    ensures refused { IfFault result (λ fault. Refuses (a_simple levels) (rest_at reader.entry at) fault.rule (rest_at reader.entry fault.at)) }
{
    match opening_of_simple(reader, at) {
        SimpleOpening::Name => {
            let (bytes, behind) = owned_name(reader, at)?;
            let (action, next) = action(reader, behind, levels)?;
            let name = Name { at, bytes };
            Ok((Simple::Acts { name, action }, next))
        }
        SimpleOpening::Steps(step) => {
            let behind = sign(reader, at, step_symbol(step))?;
            let (bytes, next) = owned_name(reader, behind)?;
            let name = Name { at: behind, bytes };
            Ok((Simple::StepsBefore { at, step, name }, next))
        }
        SimpleOpening::Nothing => Err(Failure::Fault(Fault {
            rule: Rule::Expected,
            at,
        })),
    }
}

/// Reads what a simple statement does to the name that it begins with.
pub fn action(reader: Reader<'_>, at: usize, levels: u32) -> Read<Action>
    requires shallow { levels ≤ 64 }
    ensures read { IfOk result (λ found. Reads (an_action levels) (action_tree found.0) (rest_at reader.entry at) (rest_at reader.entry found.1)) }
    ensures forward { IfOk result (λ found. IsBehind reader.entry.words.now at found.1) }
    ensures refused { IfFault result (λ fault. Refuses (an_action levels) (rest_at reader.entry at) fault.rule (rest_at reader.entry fault.at)) }
{
    match opening_of_action(reader, at) {
        ActionOpening::Assigns(assignment) => {
            let behind = sign(reader, at, assignment_symbol(assignment))?;
            let (value, next, _) = expression(reader, behind, levels, 0)?;
            Ok((Action::Assigns { assignment, value }, next))
        }
        ActionOpening::Steps(step) => {
            let next = sign(reader, at, step_symbol(step))?;
            Ok((Action::Steps(step), next))
        }
        ActionOpening::Nothing => Err(Failure::Fault(Fault {
            rule: Rule::Expected,
            at,
        })),
    }
}

/// Reads the last part of a `for`, which may be missing, and the `)` behind it.
pub fn finish(reader: Reader<'_>, at: usize, levels: u32) -> Read<Option<Simple>>
    requires shallow { levels ≤ 64 }
    ensures read { IfOk result (λ found. Reads (a_finish levels) (finish_tree found.0) (rest_at reader.entry at) (rest_at reader.entry found.1)) }
    ensures forward { IfOk result (λ found. IsBehind reader.entry.words.now at found.1) }
    ensures refused { IfFault result (λ fault. Refuses (a_finish levels) (rest_at reader.entry at) fault.rule (rest_at reader.entry fault.at)) }
{
    if let Some(end) = after(reader.words, at, Symbol::CloseParenthesis) {
        return Ok((None, end));
    }
    let (last, behind) = simple(reader, at, levels)?;
    let next = sign(reader, behind, Symbol::CloseParenthesis)?;
    Ok((Some(last), next))
}

// How a sign that assigns is written.
fn assignment_symbol(assignment: Assignment) -> Symbol
    ensures { result ≡ assignment_sign assignment }
{
    match assignment {
        Assignment::Assign => Symbol::Assign,
        Assignment::Add => Symbol::AddAssign,
        Assignment::Subtract => Symbol::SubtractAssign,
        Assignment::Multiply => Symbol::MultiplyAssign,
    }
}

// How a sign that steps is written.
fn step_symbol(step: Step) -> Symbol
    ensures { result ≡ step_sign step }
{
    match step {
        Step::Increment => Symbol::Increment,
        Step::Decrement => Symbol::Decrement,
    }
}
