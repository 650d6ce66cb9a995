//! What stands behind the name that a statement begins with, where functions are allowed, values, and calls. Arguments are read by a loop.

ghost use Rattle.std.specs.Prelude.{◌≡◌, ◌≤◌, true, length, IfOk};
ghost use Rattle.derivation.specs.Spelled.{IsBehind};
ghost use Rattle.source_syntax.specs.Language.{rest_at};
ghost use Rattle.concrete_syntax.specs.Mirror.{name as name_tree, value as value_tree, expressions as expression_trees, statement_kind as kind_tree};
ghost use Rattle.source_syntax.specs.Ends.{kind_of, given_value};
ghost use Rattle.derivation.specs.Failures.{IfFault};
ghost use Rattle.source_syntax.specs.Pending.{arguments as pending_arguments, a_statement_end};
ghost use Rattle.source_syntax.specs.Reads.{Refuses, ReadsAfresh, RefusesCounting, ReadsValue, RefusesValue, ReadsValueEnd, RefusesValueEnd, ReadsEnd};

use crate::expression::{expression, tail};
use crate::input::{Read, Reader};
use crate::opening::{EndOpening, is_name, opening_of_end};
use crate::reader::{owned_name, sign};
use crate::simple::action;
use concrete_syntax::{
    Action, Assignment, Call, Expression, Name, Operand, OperandKind, Simple, StatementKind, Value,
};
use derivation::{Symbol, after};

/// Reads what stands behind the name that a statement begins with where functions are allowed, with the `;`. Answers the statement.
pub fn statement_end(reader: Reader<'_>, at: usize, levels: u32, name: Name) -> Read<StatementKind>
    requires shallow { levels ≤ 64 }
    ensures read { IfOk result (λ found. ReadsEnd true levels (name_tree name) (kind_tree found.0) (rest_at reader.entry at) (rest_at reader.entry found.1)) }
    ensures forward { IfOk result (λ found. IsBehind reader.entry.words.now at found.1) }
    ensures refused { IfFault result (λ fault. Refuses (a_statement_end true levels) (rest_at reader.entry at) fault.rule (rest_at reader.entry fault.at)) }
{
    match opening_of_end(reader, at) {
        EndOpening::Call => {
            let inner = sign(reader, at, Symbol::OpenParenthesis)?;
            let (arguments, end) = arguments(reader, inner, levels)?;
            let next = sign(reader, end, Symbol::Semicolon)?;
            let call = Call {
                function: name,
                arguments,
            };
            Ok((StatementKind::Calls(call), next))
        }
        EndOpening::Value => {
            let inner = sign(reader, at, Symbol::Assign)?;
            let (value, end) = value(reader, inner, levels)?;
            let next = sign(reader, end, Symbol::Semicolon)?;
            Ok((given(name, value), next))
        }
        EndOpening::Action => {
            let (action, end) = action(reader, at, levels)?;
            let next = sign(reader, end, Symbol::Semicolon)?;
            Ok((StatementKind::Simple(Simple::Acts { name, action }), next))
        }
    }
}

// The statement that gives its name this value.
fn given(name: Name, value: Value) -> StatementKind
    ensures { kind_tree result ≡ kind_of (name_tree name) (given_value (value_tree value)) }
{
    let assignment = Assignment::Assign;
    match value {
        Value::Expression(value) => {
            let action = Action::Assigns { assignment, value };
            StatementKind::Simple(Simple::Acts { name, action })
        }
        Value::Call(call) => StatementKind::Gives { target: name, call },
    }
}

/// Reads an expression or a call, where functions are allowed.
pub fn value(reader: Reader<'_>, at: usize, levels: u32) -> Read<Value>
    requires shallow { levels ≤ 64 }
    ensures read { IfOk result (λ found. ReadsValue levels (value_tree found.0) (rest_at reader.entry at) (rest_at reader.entry found.1)) }
    ensures forward { IfOk result (λ found. IsBehind reader.entry.words.now at found.1) }
    ensures refused { IfFault result (λ fault. RefusesValue levels (rest_at reader.entry at) fault.rule (rest_at reader.entry fault.at)) }
{
    if is_name(reader, at) {
        let (bytes, behind) = owned_name(reader, at)?;
        let first = Name { at, bytes };
        let (named, next) = value_end(reader, behind, levels, first)?;
        return Ok((named, next));
    }
    let (plain, next, _) = expression(reader, at, levels, 0)?;
    Ok((Value::Expression(plain), next))
}

// Reads what stands behind the name that a value begins with: arguments, or the rest of an expression.
fn value_end(reader: Reader<'_>, at: usize, levels: u32, first: Name) -> Read<Value>
    requires shallow { levels ≤ 64 }
    requires within { at ≤ length reader.words.now }
    ensures read { IfOk result (λ found. ReadsValueEnd levels (name_tree first) (value_tree found.0) (rest_at reader.entry at) (rest_at reader.entry found.1)) }
    ensures forward { IfOk result (λ found. at ≤ found.1) }
    ensures inside { IfOk result (λ found. found.1 ≤ length reader.entry.words.now) }
    ensures refused { IfFault result (λ fault. RefusesValueEnd levels (rest_at reader.entry at) fault.rule (rest_at reader.entry fault.at)) }
{
    if let Some(inner) = after(reader.words, at, Symbol::OpenParenthesis) {
        let (arguments, next) = arguments(reader, inner, levels)?;
        let call = Call {
            function: first,
            arguments,
        };
        return Ok((Value::Call(call), next));
    }
    let (tail, next, _) = tail(reader, at, levels, 0)?;
    let operand = Operand {
        at: first.at,
        kind: OperandKind::Name(first.bytes),
    };
    Ok((Value::Expression(Expression { operand, tail }), next))
}

// Reads the arguments of a call, and its `)`.
fn arguments(reader: Reader<'_>, at: usize, levels: u32) -> Read<Vec<Expression>>
    requires shallow { levels ≤ 64 }
    ensures read { IfOk result (λ found. ReadsAfresh (pending_arguments levels) (expression_trees found.0.items) (rest_at reader.entry at) (rest_at reader.entry found.1)) }
    ensures forward { IfOk result (λ found. IsBehind reader.entry.words.now at found.1) }
    ensures refused { IfFault result (λ fault. RefusesCounting 0 (pending_arguments levels) (rest_at reader.entry at) fault.rule (rest_at reader.entry fault.at)) }
{
    let mut list = Vec::new(reader.alloc);
    if let Some(close) = after(reader.words, at, Symbol::CloseParenthesis) {
        return Ok((list, close));
    }
    let (first, mut here, _) = expression(reader, at, levels, 0)?;
    list.push(first)?;
    'further: loop {
        if let Some(inner) = after(reader.words, here, Symbol::Comma) {
            let (further, next, _) = expression(reader, inner, levels, 0)?;
            list.push(further)?;
            here = next;
        } else {
            let next = sign(reader, here, Symbol::CloseParenthesis)?;
            return Ok((list, next));
        }
    }
}
