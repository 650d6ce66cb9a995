//! The greatest number of levels of nesting that are open in a body. The only error is that there are more levels than numbers of levels.

ghost use Rattle.std.specs.Prelude.{◌≡◌, ◌+◌, max, IfOk};
ghost use Rattle.concrete_syntax.specs.Mirror.{operand as operand_of, tail as tail_of, expression as expression_of, expressions, optional, optional_value, simple as simple_of, optional_simple as optional_simple_of, declaration as declaration_of, start as start_of, statement as statement_of, otherwise as otherwise_of, items as items_of};
ghost use Rattle.elaboration.specs.Levels as specs;

use crate::context::{MOST_LEVELS, one_more};
use crate::guards::may_guard;
use concrete_syntax::{
    Action, Declaration, Expression, ForLoop, Items, Link, Operand, OperandKind, Otherwise, Part,
    Simple, Start, Statement, StatementKind, Tail, Value,
};
use std::alloc::AllocError;

/// Among items, where `level` are open around them.
#[cycle(statement_levels)]
pub fn items_levels(tree: &Items, level: u32) -> Result<u32, AllocError>
    ensures { IfOk result (λ most. most ≡ specs.items_levels level (items_of tree.now)) }
{
    let mut most = level;
    let mut here = level;
    let mut left = tree;
    loop {
        match left {
            Items::Ended => return Ok(most),
            Items::Declaration { first, rest } => {
                most = most.max(declaration_levels(first, here)?);
                left = rest;
            }
            Items::Statement { first, rest } => {
                most = most.max(statement_levels(first, here)?);
                here = rest_level(first, here);
                most = most.max(here);
                left = rest;
            }
        }
    }
}

// Around what follows a statement.
fn rest_level(tree: &Statement, level: u32) -> u32
    ensures { result ≡ specs.rest_level level (statement_of tree.now) }
{
    if may_guard(tree) && level < MOST_LEVELS {
        level + 1
    } else {
        level
    }
}

// In a statement.
#[cycle(statement_levels)]
fn statement_levels(tree: &Statement, level: u32) -> Result<u32, AllocError>
    ensures { IfOk result (λ most. most ≡ specs.statement_levels level (statement_of tree.now)) }
{
    match &tree.kind {
        StatementKind::Simple(tree) => simple_levels(tree, level),
        StatementKind::Calls(call) | StatementKind::Gives { target: _, call } => {
            all_levels(&call.arguments, level)
        }
        StatementKind::Skip | StatementKind::Break | StatementKind::Continue => Ok(level),
        StatementKind::Braces(all) => items_levels(all, one_more(level)?),
        StatementKind::Conditional { test, part, other } => {
            let inner = one_more(level)?;
            let tested = test_levels(test, inner)?;
            let parts = statement_levels(part, inner)?.max(otherwise_levels(other, inner)?);
            Ok(tested.max(parts))
        }
        StatementKind::While { test, body } => {
            let inner = one_more(level)?;
            Ok(test_levels(test, inner)?.max(statement_levels(body, inner)?))
        }
        StatementKind::Do { body, end: _, test } => {
            let inner = one_more(level)?;
            Ok(statement_levels(body, inner)?.max(test_levels(test, inner)?))
        }
        StatementKind::For(tree) => for_levels(tree, one_more(level)?),
        StatementKind::Return(value) => optional_levels(value, level),
    }
}

// In a `for`, where `level` are open with its own.
#[cycle(statement_levels)]
fn for_levels(tree: &ForLoop, level: u32) -> Result<u32, AllocError>
    ensures { IfOk result (λ most. most ≡ max (max (specs.start_levels level (start_of tree.now.start)) (specs.optional_levels level (optional tree.now.test)))
        (max (specs.optional_simple_levels level (optional_simple_of tree.now.step)) (specs.statement_levels level (statement_of tree.now.body)))) }
{
    let before = start_levels(&tree.start, level)?.max(optional_levels(&tree.test, level)?);
    let step = match &tree.step {
        Some(step) => simple_levels(step, level)?,
        None => level,
    };
    Ok(before.max(step.max(statement_levels(&tree.body, level)?)))
}

// In the second part of an `if`.
#[cycle(statement_levels)]
fn otherwise_levels(tree: &Otherwise, level: u32) -> Result<u32, AllocError>
    ensures { IfOk result (λ most. most ≡ specs.otherwise_levels level (otherwise_of tree.now)) }
{
    match tree {
        Otherwise::Nothing => Ok(level),
        Otherwise::Else(part) => statement_levels(part, one_more(level)?),
    }
}

// In the start of a `for`.
fn start_levels(tree: &Start, level: u32) -> Result<u32, AllocError>
    ensures { IfOk result (λ most. most ≡ specs.start_levels level (start_of tree.now)) }
{
    match tree {
        Start::Nothing => Ok(level),
        Start::Simple(tree) => simple_levels(tree, level),
        Start::Declaration(tree) => declaration_levels(tree, level),
    }
}

// In a declaration.
fn declaration_levels(tree: &Declaration, level: u32) -> Result<u32, AllocError>
    ensures { IfOk result (λ most. most ≡ specs.declaration_levels level (declaration_of tree.now)) }
{
    let mut most = initialiser_levels(&tree.part.initialiser, level)?;
    for part in tree.more.iter() {
        most = most.max(initialiser_levels(&part.initialiser, level)?);
    }
    Ok(most)
}

// In what gives a declared name its value, if anything does.
fn initialiser_levels(tree: &Option<Value>, level: u32) -> Result<u32, AllocError>
    ensures { IfOk result (λ most. most ≡ specs.initialiser_levels level (optional_value tree.now)) }
{
    match tree {
        Some(Value::Expression(tree)) => expression_levels(tree, level),
        Some(Value::Call(call)) => all_levels(&call.arguments, level),
        None => Ok(level),
    }
}

// In a simple statement.
fn simple_levels(tree: &Simple, level: u32) -> Result<u32, AllocError>
    ensures { IfOk result (λ most. most ≡ specs.simple_levels level (simple_of tree.now)) }
{
    match tree {
        Simple::Acts { name: _, action } => match action {
            Action::Assigns {
                assignment: _,
                value,
            } => expression_levels(value, level),
            Action::Steps(_) => Ok(level),
        },
        Simple::StepsBefore { .. } => Ok(level),
    }
}

// In the test of an `if` or a loop, whose `(` opens one.
fn test_levels(tree: &Expression, level: u32) -> Result<u32, AllocError>
    ensures { IfOk result (λ most. most ≡ specs.expression_levels (level + 1) (expression_of tree.now)) }
{
    expression_levels(tree, one_more(level)?)
}

// In the arguments of a call.
fn all_levels(trees: &[Expression], level: u32) -> Result<u32, AllocError>
    ensures { IfOk result (λ most. most ≡ specs.all_levels level (expressions trees.now)) }
{
    let mut most = level;
    for tree in trees.iter() {
        most = most.max(expression_levels(tree, level)?);
    }
    Ok(most)
}

// In an expression, if there is one.
fn optional_levels(tree: &Option<Expression>, level: u32) -> Result<u32, AllocError>
    ensures { IfOk result (λ most. most ≡ specs.optional_levels level (optional tree.now)) }
{
    match tree {
        Some(tree) => expression_levels(tree, level),
        None => Ok(level),
    }
}

/// In an expression, where `level` are open around it.
pub fn expression_levels(tree: &Expression, level: u32) -> Result<u32, AllocError>
    ensures { IfOk result (λ most. most ≡ specs.expression_levels level (expression_of tree.now)) }
{
    Ok(operand_levels(&tree.operand, level)?.max(tail_levels(&tree.tail, level)?))
}

// In an operand.
#[cycle(expression_levels)]
fn operand_levels(tree: &Operand, level: u32) -> Result<u32, AllocError>
    ensures { IfOk result (λ most. most ≡ specs.operand_levels level (operand_of tree.now)) }
{
    match &tree.kind {
        OperandKind::Number(_)
        | OperandKind::Name(_)
        | OperandKind::Truth(_)
        | OperandKind::Unknown
        | OperandKind::Range { .. } => Ok(level),
        OperandKind::Call => one_more(level),
        OperandKind::Signed { prefix: _, operand } => operand_levels(operand, one_more(level)?),
        OperandKind::Parentheses { operand, tail } => {
            let inner = one_more(level)?;
            Ok(operand_levels(operand, inner)?.max(tail_levels(tail, inner)?))
        }
    }
}

// Behind the first operand of an expression.
#[cycle(expression_levels)]
fn tail_levels(tree: &Tail, level: u32) -> Result<u32, AllocError>
    ensures { IfOk result (λ most. most ≡ specs.tail_levels level (tail_of tree.now)) }
{
    let mut most = level;
    let mut left = tree;
    while let Tail::Further { link, rest } = left {
        if let Link::Operation { op: _, operand } = link {
            most = most.max(operand_levels(operand, level)?);
        }
        left = rest;
    }
    Ok(most)
}
