//! One expression of a text.

ghost use Rattle.std.specs.Prelude.{◌≡◌, ◌≤◌, Bool, None, length, IfOk, IfErr};
ghost use Rattle.source_lex.specs.Tokens.{TokensOf};
ghost use Rattle.concrete_syntax.specs.Mirror.{expression as expression_tree};
ghost use Rattle.concrete_syntax.specs.Trees.{Expression as Tree};
ghost use Rattle.step_meaning.specs.Syntax as syntax;
ghost use Rattle.typed_expressions.specs.Faults.{earliest};
ghost use Rattle.typed_expressions.specs.Scopes.{Scope as Names};
ghost use Rattle.source_parse.specs.Expressions.{IsExprAt, IsNoExprAt, IsValueOf, faults_as, meaning_as};

use crate::fault::ParseFault;
use crate::front::{of_names, of_syntax};
use concrete_syntax::Expression;
use elaboration::expression_levels;
use source_lex::Token;
use source_syntax::read_expression;
use std::alloc::{AllocError, Global};
use step_meaning::Expr;
use typed_expressions::{Fault, Scope, Walk};

/// An expression that was read.
#[derive(Drop)]
pub struct ReadExpr {
    /// The expression, or its first fault of names, sorts, ranges and divisors.
    pub value: Result<Expr, ParseFault>,
    /// The number of the token behind it.
    pub next: usize,
    /// The greatest number of levels of nesting that are open in it.
    pub levels: u32,
}

/// The expression at the token of the number `at`, where `scope` says which names may be used and `level` levels of nesting are open. `number` says that a number
/// is needed there, and otherwise a test. The tokens are those of the text, which has at most 65,536 bytes. It is the longest expression that stands there: no
/// binary operator is behind it. Time is linear in the text, times the number of names in scope.
///
/// `Expected` comes where no expression stands there, at the first token with which none goes on, and `Limit` of `Nesting` or `Operators` where a limit is broken
/// before; `Memory` where memory ran out. Of an expression that is one the first fault is kept in its place: of `Unknown`, `Mixed`, `BadRange` and
/// `ZeroDivisor` the first by its offset, and at one offset the first in this order.
pub fn read_expr(
    alloc: Global,
    text: &[u8],
    tokens: &[Token],
    at: usize,
    scope: Scope,
    level: u32,
    number: bool,
) -> Result<ReadExpr, ParseFault>
    requires short { length text.now ≤ 65536 }
    requires lexed { TokensOf text.now tokens.now }
    requires shallow { level ≤ 64 }
    ensures read { IfOk result (IsExprAt text.now tokens.now at scope level number) }
    ensures fault { IfErr result (IsNoExprAt text.now tokens.now level at) }
{
    let (tree, next) = match read_expression(alloc, text, tokens, at, level) {
        Ok(found) => found,
        Err(fault) => return Err(of_syntax(fault)),
    };
    let levels = match expression_levels(&tree, level) {
        Ok(levels) => levels,
        Err(error) => return Err(ParseFault::Memory(error)),
    };
    let (made, least) = match meaning(alloc, tokens, &tree, scope, number) {
        Ok(found) => found,
        Err(error) => return Err(ParseFault::Memory(error)),
    };
    let value = valued(text, tokens, made, least);
    Ok(ReadExpr {
        value,
        next,
        levels,
    })
}

// What an expression means, or its first fault, where it has one.
fn valued(
    text: &[u8],
    tokens: &[Token],
    made: Expr,
    least: Option<Fault>,
) -> Result<Expr, ParseFault>
    requires { length text.now ≤ 65536 }
    ensures { (scope : Names) (number : Bool) (e : Tree) → syntax.expression made ≡ meaning_as number scope e → least ≡ earliest None (faults_as number scope e)
        → IsValueOf text.now tokens.now scope number e result }
{
    match least {
        Some(fault) => Err(of_names(text, tokens, fault)),
        None => Ok(made),
    }
}

// What an expression means where a number is needed, or else a test, and its first fault there.
fn meaning(
    alloc: Global,
    tokens: &[Token],
    tree: &Expression,
    scope: Scope,
    number: bool,
) -> Result<(Expr, Option<Fault>), AllocError>
    ensures meaning { IfOk result (λ made. syntax.expression made.0 ≡ meaning_as number scope (expression_tree tree.now)) }
    ensures least { IfOk result (λ made. made.1 ≡ earliest None (faults_as number scope (expression_tree tree.now))) }
{
    let mut walk = Walk {
        alloc,
        tokens,
        scope,
        least: None,
    };
    let made = if number {
        walk.number(tree)?
    } else {
        walk.test(tree)?
    };
    Ok((made, walk.least))
}
