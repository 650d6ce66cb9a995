//! Statements. Only nesting recurses: the items in braces are walked by a loop.

ghost use Rattle.std.specs.Prelude.{◌≡◌, true, OnOk, IfOk};
ghost use Rattle.concrete_syntax.specs.Trees.{statement as statement_item, conditional as conditional_tree, while_loop as while_tree, do_loop as do_tree};
ghost use Rattle.concrete_syntax.specs.Mirror.{expression as expression_of, start as start_of, optional, optional_simple as optional_simple_of, statement as statement_of, for_loop as for_tree, otherwise as otherwise_of, items as items_of};
ghost use Rattle.step_meaning.specs.Syntax as syntax;
ghost use Rattle.elaboration.specs.Statements.{outside_faults, statement_walked, kind_walked, otherwise_walked, items_walked, start_walked, optional_test, optional_faults, optional_simple_walked};
ghost use Rattle.typed_expressions.specs.Walking.{HasFound};
ghost use Rattle.elaboration.specs.Guards.{guards};
ghost use Rattle.elaboration.specs.Walking.{guard_walked, HasGone, HasAdded, HasLooped, IsMade, context_of};

use crate::call::{add_call, returns};
use crate::context::Context;
use crate::simple::{add, declaration, simple, simple_at};
use call_meaning::{UnitBlock, UnitKind, UnitStmt};
use concrete_syntax::{
    Expression, ForLoop, Items, Otherwise, Simple, Start, Statement, StatementKind,
};
use std::alloc::AllocError;
use step_meaning::Expr;
use typed_expressions::{Rule, Walk};

// A statement: what it stands for is added to `out`. Faults are reported. `context` says what is around it.
#[cycle(statements)]
#[tactic(auto, using(typed_expressions::proofs::Firsts::earliest_more))]
fn statement(
    walk: &mut Walk,
    tree: &Statement,
    context: Context,
    out: &mut Vec<UnitStmt>,
) -> Result<(), AllocError>
    ensures gone { OnOk result (HasGone walk.old walk.new (statement_walked (context_of context.entry) walk.old.scope (statement_of tree.now))) }
    ensures added { OnOk result (HasAdded walk.old out.old.items out.new.items (statement_walked (context_of context.entry) walk.old.scope (statement_of tree.now))) }
{
    let at = tree.at;
    match &tree.kind {
        StatementKind::Simple(tree) => simple(walk, at, tree, out),
        StatementKind::Calls(call) => add_call(walk, None, call, context, out),
        StatementKind::Gives { target, call } => {
            let target = walk.variable(target);
            add_call(walk, Some(target), call, context, out)
        }
        StatementKind::Skip => add(walk, at, UnitKind::Skip, out),
        StatementKind::Braces(all) => {
            let depth = walk.scope.depth();
            let inner = context.deeper()?;
            items(walk, all, inner, out)?;
            walk.scope.close(depth);
            Ok(())
        }
        StatementKind::Conditional { test, part, other } => {
            conditional(walk, at, test, part, other, context, out)
        }
        StatementKind::While { test, body } => while_loop(walk, at, test, body, context, out),
        StatementKind::Do { body, end, test } => do_loop(walk, body, *end, test, context, out),
        StatementKind::For(tree) => for_loop(walk, at, tree, context, out),
        StatementKind::Return(value) => returns(walk, at, value, context, out),
        StatementKind::Break => {
            need_loop(walk, context.in_loop, at);
            add(walk, at, UnitKind::Break, out)
        }
        StatementKind::Continue => {
            need_loop(walk, context.in_loop, at);
            add(walk, at, UnitKind::Continue, out)
        }
    }
}

// An `if` whose word is the token `at`.
#[cycle(statements)]
#[tactic(auto, using(typed_expressions::proofs::Firsts::earliest_more))]
fn conditional(
    walk: &mut Walk,
    at: usize,
    condition: &Expression,
    part: &Statement,
    other: &Otherwise,
    context: Context,
    out: &mut Vec<UnitStmt>,
) -> Result<(), AllocError>
    ensures gone { OnOk result (HasGone walk.old walk.new (kind_walked (context_of context.entry) walk.old.scope at (conditional_tree (expression_of condition.now) (statement_of part.now) (otherwise_of other.now)))) }
    ensures added { OnOk result (HasAdded walk.old out.old.items out.new.items (kind_walked (context_of context.entry) walk.old.scope at (conditional_tree (expression_of condition.now) (statement_of part.now) (otherwise_of other.now)))) }
{
    let test = walk.test(condition)?;
    let inner = context.deeper()?;
    let yes = body(walk, part, inner)?;
    let no = otherwise(walk, other, inner)?;
    add(walk, at, UnitKind::If { test, yes, no }, out)
}

// A `while` whose word is the token `at`.
#[cycle(statements)]
#[tactic(auto, using(typed_expressions::proofs::Firsts::earliest_more))]
fn while_loop(
    walk: &mut Walk,
    at: usize,
    condition: &Expression,
    part: &Statement,
    context: Context,
    out: &mut Vec<UnitStmt>,
) -> Result<(), AllocError>
    ensures gone { OnOk result (HasGone walk.old walk.new (kind_walked (context_of context.entry) walk.old.scope at (while_tree (expression_of condition.now) (statement_of part.now)))) }
    ensures added { OnOk result (HasAdded walk.old out.old.items out.new.items (kind_walked (context_of context.entry) walk.old.scope at (while_tree (expression_of condition.now) (statement_of part.now)))) }
{
    let test = walk.test(condition)?;
    let inner = context.looping()?;
    looped(walk, at, test, UnitBlock::End, part, inner, out)
}

// A `do` that ends with the `while` of the token `end`, whose offset is its own.
#[cycle(statements)]
#[tactic(auto, using(typed_expressions::proofs::Firsts::earliest_more))]
fn do_loop(
    walk: &mut Walk,
    part: &Statement,
    end: usize,
    condition: &Expression,
    context: Context,
    out: &mut Vec<UnitStmt>,
) -> Result<(), AllocError>
    ensures gone { OnOk result (HasGone walk.old walk.new (kind_walked (context_of context.entry) walk.old.scope end (do_tree (statement_of part.now) end (expression_of condition.now)))) }
    ensures added { OnOk result (HasAdded walk.old out.old.items out.new.items (kind_walked (context_of context.entry) walk.old.scope end (do_tree (statement_of part.now) end (expression_of condition.now)))) }
{
    let inner = context.looping()?;
    let body = body(walk, part, inner)?;
    let test = walk.test(condition)?;
    add(walk, end, UnitKind::Do { body, test }, out)
}

// A `for` whose word is the token `at`: its start, and then a loop with its last part as a step.
#[cycle(statements)]
#[tactic(auto, using(typed_expressions::proofs::Firsts::earliest_more))]
fn for_loop(
    walk: &mut Walk,
    at: usize,
    tree: &ForLoop,
    context: Context,
    out: &mut Vec<UnitStmt>,
) -> Result<(), AllocError>
    ensures gone { OnOk result (HasGone walk.old walk.new (kind_walked (context_of context.entry) walk.old.scope at (for_tree tree.now))) }
    ensures added { OnOk result (HasAdded walk.old out.old.items out.new.items (kind_walked (context_of context.entry) walk.old.scope at (for_tree tree.now))) }
{
    let depth = walk.scope.depth();
    let around = context.deeper()?;
    for_start(walk, &tree.start, around, out)?;
    let test = optional_test(walk, &tree.test)?;
    let step = last_part(walk, &tree.step)?;
    let inner = context.looping()?;
    looped(walk, at, test, step, &tree.body, inner, out)?;
    walk.scope.close(depth);
    Ok(())
}

// The loop that a `while` or a `for` at the token `at` is, by its test, its step and its body; `context` is around the body.
#[cycle(statements)]
fn looped(
    walk: &mut Walk,
    at: usize,
    test: Expr,
    step: UnitBlock,
    part: &Statement,
    context: Context,
    out: &mut Vec<UnitStmt>,
) -> Result<(), AllocError>
    ensures gone { OnOk result (HasGone walk.old walk.new (statement_walked (context_of context.entry) walk.old.scope (statement_of part.now))) }
    ensures looped { OnOk result (HasLooped walk.old out.old.items out.new.items at test step (statement_walked (context_of context.entry) walk.old.scope (statement_of part.now))) }
{
    let body = body(walk, part, context)?;
    add(walk, at, UnitKind::While { test, body, step }, out)
}

// A statement as a list of its own.
#[cycle(statements)]
fn body(walk: &mut Walk, tree: &Statement, context: Context) -> Result<UnitBlock, AllocError>
    ensures gone { OnOk result (HasGone walk.old walk.new (statement_walked (context_of context.entry) walk.old.scope (statement_of tree.now))) }
    ensures made { IfOk result (λ block. IsMade walk.old block (statement_walked (context_of context.entry) walk.old.scope (statement_of tree.now))) }
{
    let mut list = Vec::new(walk.alloc);
    statement(walk, tree, context, &mut list)?;
    UnitBlock::of(walk.alloc, list)
}

// The second part of an `if`, where it has one.
#[cycle(statements)]
fn otherwise(walk: &mut Walk, tree: &Otherwise, context: Context) -> Result<UnitBlock, AllocError>
    ensures gone { OnOk result (HasGone walk.old walk.new (otherwise_walked (context_of context.entry) walk.old.scope (otherwise_of tree.now))) }
    ensures made { IfOk result (λ block. IsMade walk.old block (otherwise_walked (context_of context.entry) walk.old.scope (otherwise_of tree.now))) }
{
    match tree {
        Otherwise::Nothing => Ok(UnitBlock::End),
        Otherwise::Else(part) => {
            let inner = context.deeper()?;
            body(walk, part, inner)
        }
    }
}

/// The items of a pair of braces; `context` is what they have around them.
#[cycle(statements)]
#[tactic(auto, using(typed_expressions::proofs::Firsts::earliest_more))]
pub fn items(
    walk: &mut Walk,
    tree: &Items,
    context: Context,
    out: &mut Vec<UnitStmt>,
) -> Result<(), AllocError>
    ensures gone { OnOk result (HasGone walk.old walk.new (items_walked (context_of context.entry) walk.old.scope (items_of tree.now))) }
    ensures added { OnOk result (HasAdded walk.old out.old.items out.new.items (items_walked (context_of context.entry) walk.old.scope (items_of tree.now))) }
{
    let mut left = tree;
    loop {
        match left {
            Items::Ended => return Ok(()),
            Items::Declaration { first, rest } => {
                declaration(walk, first, context, out)?;
                left = rest;
            }
            Items::Statement { first, rest } => {
                if context.is_guarded_by(first) {
                    return guarded(walk, first, rest, context, out);
                }
                statement(walk, first, context.around(first, rest), out)?;
                left = rest;
            }
        }
    }
}

// A statement that guards the items behind it: they stand in the place of its `else`.
#[cycle(statements)]
fn guarded(
    walk: &mut Walk,
    tree: &Statement,
    rest: &Items,
    context: Context,
    out: &mut Vec<UnitStmt>,
) -> Result<(), AllocError>
    requires guards { guards (context_of context) (statement_of tree.now) ≡ true }
    ensures gone { OnOk result (HasGone walk.old walk.new (items_walked (context_of context.entry) walk.old.scope (statement_item (statement_of tree.now) (items_of rest.now)))) }
    ensures added { OnOk result (HasAdded walk.old out.old.items out.new.items (items_walked (context_of context.entry) walk.old.scope (statement_item (statement_of tree.now) (items_of rest.now)))) }
{
    match &tree.kind {
        StatementKind::Conditional {
            test,
            part,
            other: _,
        } => guard(walk, tree.at, test, part, rest, context, out),
        _ => Ok(()),
    }
}

// An `if` whose word is the token `at`, and these items as its second part.
#[cycle(statements)]
fn guard(
    walk: &mut Walk,
    at: usize,
    condition: &Expression,
    part: &Statement,
    rest: &Items,
    context: Context,
    out: &mut Vec<UnitStmt>,
) -> Result<(), AllocError>
    ensures gone { OnOk result (HasGone walk.old walk.new (guard_walked (context_of context.entry) walk.old.scope at (expression_of condition.now) (statement_of part.now) (items_of rest.now))) }
    ensures added { OnOk result (HasAdded walk.old out.old.items out.new.items (guard_walked (context_of context.entry) walk.old.scope at (expression_of condition.now) (statement_of part.now) (items_of rest.now))) }
{
    let test = walk.test(condition)?;
    let inner = context.deeper()?;
    let yes = body(walk, part, inner)?;
    let mut list = Vec::new(walk.alloc);
    items(walk, rest, inner, &mut list)?;
    let no = UnitBlock::of(walk.alloc, list)?;
    add(walk, at, UnitKind::If { test, yes, no }, out)
}

// The start of a `for`.
fn for_start(
    walk: &mut Walk,
    tree: &Start,
    context: Context,
    out: &mut Vec<UnitStmt>,
) -> Result<(), AllocError>
    ensures gone { OnOk result (HasGone walk.old walk.new (start_walked (context_of context.entry) walk.old.scope (start_of tree.now))) }
    ensures added { OnOk result (HasAdded walk.old out.old.items out.new.items (start_walked (context_of context.entry) walk.old.scope (start_of tree.now))) }
{
    match tree {
        Start::Nothing => Ok(()),
        Start::Simple(tree) => simple(walk, simple_at(tree), tree, out),
        Start::Declaration(tree) => declaration(walk, tree, context, out),
    }
}

// The test of a `for`, which is `true` where it is missing.
fn optional_test(walk: &mut Walk, tree: &Option<Expression>) -> Result<Expr, AllocError>
    ensures meaning { IfOk result (λ made. syntax.expression made ≡ optional_test walk.old.scope (optional tree.now)) }
    ensures found { OnOk result (HasFound walk.old walk.new (optional_faults walk.old.scope (optional tree.now))) }
{
    match tree {
        Some(tree) => walk.test(tree),
        None => Ok(Expr::True),
    }
}

// The last part of a `for`, as a list of its own.
fn last_part(walk: &mut Walk, tree: &Option<Simple>) -> Result<UnitBlock, AllocError>
    ensures found { OnOk result (HasFound walk.old walk.new (optional_simple_walked walk.old.scope (optional_simple_of tree.now)).faults) }
    ensures made { IfOk result (λ block. IsMade walk.old block (optional_simple_walked walk.old.scope (optional_simple_of tree.now))) }
{
    match tree {
        Some(tree) => {
            let mut list = Vec::new(walk.alloc);
            simple(walk, simple_at(tree), tree, &mut list)?;
            UnitBlock::of(walk.alloc, list)
        }
        None => Ok(UnitBlock::End),
    }
}

// Reports a `break` or `continue` that is inside no body of a loop.
fn need_loop(walk: &mut Walk, in_loop: bool, token: usize)
    ensures { HasFound walk.old walk.new (outside_faults in_loop token) }
{
    if !in_loop {
        walk.report(Rule::Outside, token);
    }
}
