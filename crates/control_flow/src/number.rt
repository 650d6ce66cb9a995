//! The labels of a program's statements, in the order of the tree. What walks along a list of statements is a loop; only nesting recurses.

ghost use Rattle.std.specs.Prelude.{◌≡◌, ◌+◌, ◌<◌, ◌≤◌, ◌++◌, ◌∷◌, [], IfOk, OnOk, length};
ghost use Rattle.step_meaning.specs.Step.{Todo};
ghost use Rattle.step_meaning.specs.Syntax.{expression, statements, statement, size_of, size_of_statement};
ghost use Rattle.control_flow.specs.Labels.{assigns, inside, passes, tests, labels_of, labels_of_statement, entry_label, first_label};
ghost use Rattle.control_flow.specs.Tables.{IsTableOf, actions, actions_of};

use crate::node::Node;
use std::alloc::{AllocError, Global};
use step_meaning::{Block, Expr, Stmt, StmtKind};

// Where a `break` and a `continue` lead: to the label behind the nearest loop, and to that of its mark, which is its step's first, or that of
// its test where it has no step. Both are 0 where there is no loop around.
#[derive(Clone, Copy)]
struct Jumps {
    out: u32,
    mark: u32,
}

/// The table of a body's labels, label 0 first.
pub(crate) fn table(alloc: Global, body: &Block) -> Result<Vec<Node>, AllocError>
    requires { size_of (statements body.now) < 1024 }
    ensures { IfOk result (λ nodes. IsTableOf nodes.items (statements body.now)) }
{
    let mut nodes = Vec::new(alloc);
    nodes.push(Node::End)?;
    place_all(alloc, body, 0, Jumps { out: 0, mark: 0 }, &mut nodes)?;
    Ok(nodes)
}

/// The number of the statements, inner ones included.
#[cycle(sizes)]
pub(crate) fn size(block: &Block) -> u32
    requires { size_of (statements block.now) ≤ 1024 }
    ensures { result ≡ size_of (statements block.now) }
{
    let mut sum = 0;
    let mut left = block;
    while let Block::Then { first, rest } = left {
        sum += size_of_one(first);
        left = rest;
    }
    sum
}

/// The number of the statement and of those in it.
#[cycle(sizes)]
pub(crate) fn size_of_one(stmt: &Stmt) -> u32
    requires { size_of_statement (statement stmt.now.kind) ≤ 1024 }
    ensures { result ≡ size_of_statement (statement stmt.now.kind) }
{
    match &stmt.kind {
        StmtKind::Assign { .. }
        | StmtKind::Skip
        | StmtKind::Return
        | StmtKind::Break
        | StmtKind::Continue => 1,
        StmtKind::If { test: _, yes, no } => 1 + size(yes) + size(no),
        StmtKind::While {
            test: _,
            body,
            step,
        } => 1 + size(body) + size(step),
        StmtKind::Do { body, test: _ } => 1 + size(body),
    }
}

/// The label of what is done first, of statements whose labels begin at `number`, or `after` where there is none.
#[cycle(entries)]
pub(crate) fn entry(block: &Block, number: u32, after: u32) -> u32
    requires { number + size_of (statements block.now) ≤ 1024 }
    ensures { result ≡ entry_label number after (statements block.now) }
{
    match block {
        Block::End => after,
        Block::Then { first, rest: _ } => entry_of_one(first, number),
    }
}

// The label of what a statement does first.
#[cycle(entries)]
fn entry_of_one(stmt: &Stmt, number: u32) -> u32
    requires { number + size_of_statement (statement stmt.now.kind) ≤ 1024 }
    ensures { result ≡ first_label number (statement stmt.now.kind) }
{
    match &stmt.kind {
        StmtKind::Do { body, test: _ } => entry(body, number, number + size(body)),
        _ => number,
    }
}

// Adds the labels of the statements, which the label `after` follows, and from which jumps lead there.
#[cycle(places)]
fn place_all(
    alloc: Global,
    block: &Block,
    after: u32,
    jumps: Jumps,
    nodes: &mut Vec<Node>,
) -> Result<(), AllocError>
    requires { length nodes.old.items + size_of (statements block.now) ≤ 1024 }
    ensures labels { OnOk result ((rest : Todo) → actions nodes.new.items ≡ actions nodes.old.items ++ actions_of (labels_of (length nodes.old.items) after (inside jumps.out jumps.mark) rest (statements block.now))) }
    ensures count { OnOk result (length nodes.new.items ≡ length nodes.old.items + size_of (statements block.now)) }
{
    let mut left = block;
    while let Block::Then { first, rest } = left {
        let behind = nodes.len() as u32 + size_of_one(first);
        place(alloc, first, entry(rest, behind, after), jumps, nodes)?;
        left = rest;
    }
    Ok(())
}

// Adds the labels of a statement, which the label `after` follows, and from which jumps lead there.
#[cycle(places)]
fn place(
    alloc: Global,
    stmt: &Stmt,
    after: u32,
    jumps: Jumps,
    nodes: &mut Vec<Node>,
) -> Result<(), AllocError>
    requires { length nodes.old.items + size_of_statement (statement stmt.now.kind) ≤ 1024 }
    ensures labels { OnOk result ((rest : Todo) → actions nodes.new.items ≡ actions nodes.old.items ++ actions_of (labels_of_statement (length nodes.old.items) after (inside jumps.out jumps.mark) rest (statement stmt.now.kind))) }
    ensures count { OnOk result (length nodes.new.items ≡ length nodes.old.items + size_of_statement (statement stmt.now.kind)) }
{
    let number = nodes.len() as u32;
    match &stmt.kind {
        StmtKind::Assign { var, value } => add_assign(alloc, *var, value, after, nodes),
        StmtKind::Skip => add_pass(after, nodes),
        StmtKind::Return => add_pass(0, nodes),
        StmtKind::Break => add_pass(jumps.out, nodes),
        StmtKind::Continue => add_pass(jumps.mark, nodes),
        StmtKind::If { test, yes, no } => {
            let first = entry(yes, number + 1, after);
            let second = entry(no, number + 1 + size(yes), after);
            add_test(alloc, false, test, first, second, nodes)?;
            place_all(alloc, yes, after, jumps, nodes)?;
            place_all(alloc, no, after, jumps, nodes)
        }
        StmtKind::While { test, body, step } => {
            let turn = entry(step, number + 1 + size(body), number);
            let first = entry(body, number + 1, turn);
            add_test(alloc, true, test, first, after, nodes)?;
            let jumped = Jumps {
                out: after,
                mark: turn,
            };
            place_all(alloc, body, turn, jumped, nodes)?;
            place_all(alloc, step, number, jumps, nodes)
        }
        StmtKind::Do { body, test } => {
            let last = number + size(body);
            let jumped = Jumps {
                out: after,
                mark: last,
            };
            place_all(alloc, body, last, jumped, nodes)?;
            add_test(alloc, true, test, entry(body, number, last), after, nodes)
        }
    }
}

// Adds an assignment.
fn add_assign(
    alloc: Global,
    var: u8,
    value: &Expr,
    next: u32,
    nodes: &mut Vec<Node>,
) -> Result<(), AllocError>
    ensures labels { OnOk result (actions nodes.new.items ≡ actions nodes.old.items ++ assigns var (expression value.now) next ∷ []) }
    ensures count { OnOk result (length nodes.new.items ≡ length nodes.old.items + 1) }
{
    let value = copied(alloc, value)?;
    nodes.push(Node::Assign { var, value, next })?;
    Ok(())
}

// Adds a step that changes nothing.
fn add_pass(next: u32, nodes: &mut Vec<Node>) -> Result<(), AllocError>
    ensures labels { OnOk result (actions nodes.new.items ≡ actions nodes.old.items ++ passes next ∷ []) }
    ensures count { OnOk result (length nodes.new.items ≡ length nodes.old.items + 1) }
{
    nodes.push(Node::Pass { next })?;
    Ok(())
}

// Adds a test.
fn add_test(
    alloc: Global,
    is_head: bool,
    test: &Expr,
    yes: u32,
    no: u32,
    nodes: &mut Vec<Node>,
) -> Result<(), AllocError>
    ensures labels { OnOk result (actions nodes.new.items ≡ actions nodes.old.items ++ tests is_head (expression test.now) yes no ∷ []) }
    ensures count { OnOk result (length nodes.new.items ≡ length nodes.old.items + 1) }
{
    let test = copied(alloc, test)?;
    nodes.push(Node::Test {
        is_head,
        test,
        yes,
        no,
    })?;
    Ok(())
}

// An equal expression.
fn copied(alloc: Global, from: &Expr) -> Result<Expr, AllocError>
    ensures { IfOk result (λ twin. expression twin ≡ expression from.now) }
{
    let twin = match from {
        Expr::Number(number) => Expr::Number(*number),
        Expr::Name(place) => Expr::Name(*place),
        Expr::Free => Expr::Free,
        Expr::Range { lo, hi } => Expr::Range { lo: *lo, hi: *hi },
        Expr::True => Expr::True,
        Expr::False => Expr::False,
        Expr::Neg(operand) => Expr::Neg(Box::new(alloc, copied(alloc, operand)?)?),
        Expr::Not(operand) => Expr::Not(Box::new(alloc, copied(alloc, operand)?)?),
        Expr::Quot { of, by } => Expr::Quot {
            of: Box::new(alloc, copied(alloc, of)?)?,
            by: *by,
        },
        Expr::Rem { of, by } => Expr::Rem {
            of: Box::new(alloc, copied(alloc, of)?)?,
            by: *by,
        },
        Expr::Pair { op, left, right } => {
            let left = copied(alloc, left)?;
            let right = copied(alloc, right)?;
            Expr::Pair {
                op: *op,
                left: Box::new(alloc, left)?,
                right: Box::new(alloc, right)?,
            }
        }
    };
    Ok(twin)
}
