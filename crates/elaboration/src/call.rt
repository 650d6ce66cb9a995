//! Calls and returns.

ghost use Rattle.std.specs.Prelude.{◌≡◌, IfOk, OnOk, Option, map};
ghost use Rattle.concrete_syntax.specs.Mirror.{call as call_of, expressions, optional};
ghost use Rattle.step_meaning.specs.Syntax.{expression};
ghost use Rattle.call_meaning.specs.Tables.{value_of};
ghost use Rattle.elaboration.specs.Statements.{arguments_faults, arguments_meaning, call_walked, misplaced, return_faults, return_walked, returned_value, signature_faults};
ghost use Rattle.typed_expressions.specs.Walking.{HasFound};
ghost use Rattle.elaboration.specs.Walking.{HasAdded, HasGone, context_of};

use crate::context::{Body, Context};
use crate::functions::Signature;
use crate::simple::add;
use call_meaning::{ExprList, UnitKind, UnitStmt};
use concrete_syntax::{Call, Expression};
use std::alloc::AllocError;
use step_meaning::Expr;
use typed_expressions::{Rule, Walk};

/// A call, whose value goes to the variable `target`, if it goes to one: it is added to `out`. Faults are reported.
#[tactic(auto, using(typed_expressions::proofs::Firsts::earliest_more))]
pub fn add_call(
    walk: &mut Walk,
    target: Option<u8>,
    tree: &Call,
    context: Context,
    out: &mut Vec<UnitStmt>,
) -> Result<(), AllocError>
    ensures gone { OnOk result (HasGone walk.old walk.new (call_walked (context_of context.entry) walk.old.scope target (call_of tree.now))) }
    ensures added { OnOk result (HasAdded walk.old out.old.items out.new.items (call_walked (context_of context.entry) walk.old.scope target (call_of tree.now))) }
{
    let name = &tree.function;
    let signature = context.functions.signature(&name.bytes);
    need_signature(
        walk,
        signature,
        name.at,
        tree.arguments.len(),
        target.is_some(),
    );
    let args = arguments(walk, &tree.arguments)?;
    let func = context.functions.number(&name.bytes)?;
    let kind = UnitKind::Call {
        target,
        func,
        args,
        level: context.level,
    };
    add(walk, name.at, kind, out)
}

// Reports a call, at the name of its function, that isn't of a function with this signature.
#[tactic(auto, using(typed_expressions::proofs::Firsts::earliest_more))]
fn need_signature(
    walk: &mut Walk,
    signature: Option<Signature>,
    token: usize,
    count: usize,
    wanted: bool,
)
    ensures { HasFound walk.old walk.new (signature_faults signature token count wanted) }
{
    match signature {
        None => walk.report(Rule::Unknown, token),
        Some(signature) => {
            if wanted && !signature.valued {
                walk.report(Rule::Mixed, token);
            }
            if count != signature.params as usize {
                walk.report(Rule::Arguments, token);
            }
        }
    }
}

// The arguments of a call. Faults are reported.
#[tactic(auto, using(typed_expressions::proofs::Firsts::earliest_more))]
fn arguments(walk: &mut Walk, trees: &[Expression]) -> Result<ExprList, AllocError>
    ensures meaning { IfOk result (λ made. map expression made ≡ arguments_meaning walk.old.scope (expressions trees.now)) }
    ensures found { OnOk result (HasFound walk.old walk.new (arguments_faults walk.old.scope (expressions trees.now))) }
{
    let mut list = Vec::new(walk.alloc);
    for tree in trees.iter() {
        list.push(walk.number(tree)?)?;
    }
    Ok(ExprList::of(list))
}

/// A `return` at the token `at`: it is added to `out`. Faults are reported.
#[tactic(auto, using(typed_expressions::proofs::Firsts::earliest_more))]
pub fn returns(
    walk: &mut Walk,
    at: usize,
    tree: &Option<Expression>,
    context: Context,
    out: &mut Vec<UnitStmt>,
) -> Result<(), AllocError>
    ensures gone { OnOk result (HasGone walk.old walk.new (return_walked (context_of context.entry) walk.old.scope at (optional tree.now))) }
    ensures added { OnOk result (HasAdded walk.old out.old.items out.new.items (return_walked (context_of context.entry) walk.old.scope at (optional tree.now))) }
{
    let value = returned(walk, at, tree, context.body, context.last)?;
    add(walk, at, UnitKind::Return { value }, out)
}

// The value of a `return`, which is the last of its function that is done or isn't. That of one in `main` isn't asked for.
#[tactic(auto, using(typed_expressions::proofs::Firsts::earliest_more))]
fn returned(
    walk: &mut Walk,
    at: usize,
    tree: &Option<Expression>,
    body: Body,
    last: bool,
) -> Result<Option<Expr>, AllocError>
    ensures value { IfOk result (λ value. value_of value ≡ returned_value body walk.old.scope (optional tree.now)) }
    ensures found { OnOk result (HasFound walk.old walk.new (return_faults body last walk.old.scope at (optional tree.now))) }
{
    match (body, tree) {
        (Body::Main, Some(tree)) => {
            walk.expression(tree)?;
            Ok(None)
        }
        (Body::Valued, Some(tree)) => {
            need_last(walk, last, at);
            Ok(Some(walk.number(tree)?))
        }
        (Body::Valueless, Some(tree)) => {
            walk.report(Rule::Placed, at);
            Ok(Some(walk.number(tree)?))
        }
        (Body::Valued, None) => {
            walk.report(Rule::Placed, at);
            Ok(None)
        }
        (Body::Valueless, None) => {
            need_last(walk, last, at);
            Ok(None)
        }
        (Body::Main, None) => Ok(None),
    }
}

// Reports a `return` of a function that isn't the last that is done in it.
fn need_last(walk: &mut Walk, last: bool, token: usize)
    ensures { HasFound walk.old walk.new (misplaced last token) }
{
    if !last {
        walk.report(Rule::Placed, token);
    }
}
