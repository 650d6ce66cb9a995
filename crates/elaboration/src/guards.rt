//! Which statements of a function always return. Only nesting recurses: items are walked by a loop.

ghost use Rattle.std.specs.Prelude.{◌≡◌};
ghost use Rattle.concrete_syntax.specs.Mirror.{statement as statement_of, otherwise as otherwise_of, items as items_of};
ghost use Rattle.elaboration.specs.Guards as specs;

use concrete_syntax::{Items, Otherwise, Statement, StatementKind};

/// Whether no item is left.
pub fn is_ended(tree: &Items) -> bool
    ensures { result ≡ specs.is_ended (items_of tree.now) }
{
    match tree {
        Items::Ended => true,
        Items::Declaration { .. } | Items::Statement { .. } => false,
    }
}

/// Whether the items always return: whether the last of them does.
#[cycle(returns)]
pub fn items_return(tree: &Items) -> bool
    ensures { result ≡ specs.items_return (items_of tree.now) }
{
    let mut left = tree;
    loop {
        match left {
            Items::Ended => return false,
            Items::Declaration { first: _, rest } => left = rest,
            Items::Statement { first, rest } => {
                if is_ended(rest) {
                    return returns(first);
                }
                left = rest;
            }
        }
    }
}

// Whether the statement always returns.
#[cycle(returns)]
fn returns(tree: &Statement) -> bool
    ensures { result ≡ specs.returns (statement_of tree.now) }
{
    match &tree.kind {
        StatementKind::Return(_) => true,
        StatementKind::Braces(all) => items_return(all),
        StatementKind::Conditional {
            test: _,
            part,
            other,
        } => returns(part) && otherwise_returns(other),
        _ => false,
    }
}

// Whether there is a second part of an `if` and it always returns.
#[cycle(returns)]
fn otherwise_returns(tree: &Otherwise) -> bool
    ensures { result ≡ specs.otherwise_returns (otherwise_of tree.now) }
{
    match tree {
        Otherwise::Nothing => false,
        Otherwise::Else(part) => returns(part),
    }
}

/// Whether it is an `if` without `else` whose part always returns.
pub fn may_guard(tree: &Statement) -> bool
    ensures { result ≡ specs.may_guard (statement_of tree.now) }
{
    match &tree.kind {
        StatementKind::Conditional {
            test: _,
            part,
            other,
        } => is_alone(other) && returns(part),
        _ => false,
    }
}

// Whether an `if` has no second part.
fn is_alone(tree: &Otherwise) -> bool
    ensures { result ≡ specs.stands_alone (otherwise_of tree.now) }
{
    match tree {
        Otherwise::Nothing => true,
        Otherwise::Else(_) => false,
    }
}
