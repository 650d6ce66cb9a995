//! Simple statements and declarations, which nothing nests in.

ghost use Rattle.std.specs.Prelude.{◌≡◌, ◌++◌, ◌∷◌, [], IfOk, OnOk};
ghost use Rattle.concrete_syntax.specs.Mirror.{action as action_of, simple as simple_of, part as part_of, declaration as declaration_of, name as name_of, optional_value};
ghost use Rattle.step_meaning.specs.Syntax as syntax;
ghost use Rattle.call_meaning.specs.Tables.{command, parts};
ghost use Rattle.call_meaning.specs.Offsets.{all_levels, all_offsets, levels_in, offsets_at};
ghost use Rattle.typed_expressions.specs.Offsets.{offset_in};
ghost use Rattle.elaboration.specs.Statements.{name_faults, action_meaning, action_faults, simple_walked, part_walked, declaration_walked, stepped, assigned, simple_at};
ghost use Rattle.typed_expressions.specs.Walking.{HasFound};
ghost use Rattle.elaboration.specs.Walking.{HasGone, HasAdded, context_of};

use crate::call::add_call;
use crate::context::Context;
use call_meaning::{UnitKind, UnitStmt};
use concrete_syntax::{Action, Assignment, Declaration, Name, Part, Simple, Step, Value};
use std::alloc::{AllocError, Global};
use step_meaning::{Expr, Op2};
use typed_expressions::{Rule, Walk, operation};

/// A simple statement at the token `at`: its assignment is added to `out`. Faults are reported.
#[tactic(auto, using(typed_expressions::proofs::Firsts::earliest_more))]
pub fn simple(
    walk: &mut Walk,
    at: usize,
    tree: &Simple,
    out: &mut Vec<UnitStmt>,
) -> Result<(), AllocError>
    ensures gone { OnOk result (HasGone walk.old walk.new (simple_walked walk.old.scope at (simple_of tree.now))) }
    ensures added { OnOk result (HasAdded walk.old out.old.items out.new.items (simple_walked walk.old.scope at (simple_of tree.now))) }
{
    match tree {
        Simple::Acts { name, action } => {
            let var = walk.variable(name);
            let value = given(walk, action, var)?;
            add(walk, at, UnitKind::Assign { var, value }, out)
        }
        Simple::StepsBefore { step, name, .. } => {
            let var = walk.variable(name);
            let value = stepped(walk.alloc, var, *step)?;
            add(walk, at, UnitKind::Assign { var, value }, out)
        }
    }
}

// What a variable is given behind its name.
fn given(walk: &mut Walk, tree: &Action, var: u8) -> Result<Expr, AllocError>
    ensures meaning { IfOk result (λ made. syntax.expression made ≡ action_meaning walk.old.scope var (action_of tree.now)) }
    ensures found { OnOk result (HasFound walk.old walk.new (action_faults walk.old.scope (action_of tree.now))) }
{
    match tree {
        Action::Assigns { assignment, value } => {
            let value = walk.number(value)?;
            assigned(walk.alloc, var, *assignment, value)
        }
        Action::Steps(step) => stepped(walk.alloc, var, *step),
    }
}

/// A declaration: its names are declared, and for each with an initialiser a statement is added to `out`. Faults are reported. `context` says what is
/// around it.
#[tactic(auto, using(typed_expressions::proofs::Firsts::earliest_more))]
pub fn declaration(
    walk: &mut Walk,
    tree: &Declaration,
    context: Context,
    out: &mut Vec<UnitStmt>,
) -> Result<(), AllocError>
    ensures gone { OnOk result (HasGone walk.old walk.new (declaration_walked (context_of context.entry) walk.old.scope (declaration_of tree.now))) }
    ensures added { OnOk result (HasAdded walk.old out.old.items out.new.items (declaration_walked (context_of context.entry) walk.old.scope (declaration_of tree.now))) }
{
    part(walk, &tree.part, context, out)?;
    for more in tree.more.iter() {
        part(walk, more, context, out)?;
    }
    Ok(())
}

// A declared name, and its initialiser.
#[tactic(auto, using(typed_expressions::proofs::Firsts::earliest_more))]
fn part(
    walk: &mut Walk,
    tree: &Part,
    context: Context,
    out: &mut Vec<UnitStmt>,
) -> Result<(), AllocError>
    ensures gone { OnOk result (HasGone walk.old walk.new (part_walked (context_of context.entry) walk.old.scope (part_of tree.now))) }
    ensures added { OnOk result (HasAdded walk.old out.old.items out.new.items (part_walked (context_of context.entry) walk.old.scope (part_of tree.now))) }
{
    let name = &tree.declared;
    need_new(walk, name, &tree.initialiser);
    match &tree.initialiser {
        Some(Value::Expression(initialiser)) => {
            let value = walk.number(initialiser)?;
            walk.scope.declare(walk.alloc, &name.bytes)?;
            let var = walk.scope.place(&name.bytes);
            add(walk, name.at, UnitKind::Assign { var, value }, out)
        }
        Some(Value::Call(call)) => {
            let target = walk.scope.place(&name.bytes);
            add_call(walk, Some(target), call, context, out)?;
            walk.scope.declare(walk.alloc, &name.bytes)
        }
        None => walk.scope.declare_bare(walk.alloc, &name.bytes),
    }
}

/// Reports a name that may not be declared here, with this initialiser or without one.
pub fn need_new(walk: &mut Walk, name: &Name, initialiser: &Option<Value>)
    ensures { HasFound walk.old walk.new (name_faults walk.old.scope (name_of name.now) (optional_value initialiser.now)) }
{
    if walk.scope.is_visible(&name.bytes) {
        walk.report(Rule::Twice, name.at);
    } else if walk.scope.is_declared(&name.bytes) {
        if initialiser.is_none() {
            walk.report(Rule::Twice, name.at);
        }
    } else if walk.scope.is_full() {
        walk.report(Rule::Variables, name.at);
    }
}

/// Adds a statement to `out`, at the offset of the token `at`.
pub fn add(
    walk: &Walk,
    at: usize,
    kind: UnitKind,
    out: &mut Vec<UnitStmt>,
) -> Result<(), AllocError>
    ensures meaning { OnOk result (parts out.new.items ≡ parts out.old.items ++ command kind ∷ []) }
    ensures offsets { OnOk result (all_offsets out.new.items ≡ all_offsets out.old.items ++ offsets_at (offset_in walk.now.tokens.now at) kind) }
    ensures levels { OnOk result (all_levels out.new.items ≡ all_levels out.old.items ++ levels_in kind) }
{
    out.push(UnitStmt {
        at: walk.offset(at),
        kind,
    })?;
    Ok(())
}

/// The number of a simple statement's first token.
pub fn simple_at(tree: &Simple) -> usize
    ensures { result ≡ simple_at (simple_of tree.now) }
{
    match tree {
        Simple::Acts { name, .. } => name.at,
        Simple::StepsBefore { at, .. } => *at,
    }
}

// What a sign that assigns makes of the value behind it.
fn assigned(alloc: Global, var: u8, assignment: Assignment, value: Expr) -> Result<Expr, AllocError>
    ensures { IfOk result (λ made. syntax.expression made ≡ assigned var assignment (syntax.expression value)) }
{
    match assignment {
        Assignment::Assign => Ok(value),
        Assignment::Add => operation(alloc, Op2::Add, Expr::Name(var), value),
        Assignment::Subtract => operation(alloc, Op2::Sub, Expr::Name(var), value),
        Assignment::Multiply => operation(alloc, Op2::Mul, Expr::Name(var), value),
    }
}

// What a step makes of a variable.
fn stepped(alloc: Global, var: u8, step: Step) -> Result<Expr, AllocError>
    ensures { IfOk result (λ made. syntax.expression made ≡ stepped var step) }
{
    let op = match step {
        Step::Increment => Op2::Add,
        Step::Decrement => Op2::Sub,
    };
    operation(alloc, op, Expr::Name(var), Expr::Number(1))
}
