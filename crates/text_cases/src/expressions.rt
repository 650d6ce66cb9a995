//! Expressions of texts.
ghost use Rattle.std.specs.Prelude.{◌≤◌, length};
ghost use Rattle.source_lex.specs.Tokens.{TokensOf};

use crate::faults::push_numbered;
use crate::shown::push_expression;
use case_text::{Answer, Words};
use source_lex::{Token, lex};
use source_parse::{ParseFault, ReadExpr, read_expr};
use std::alloc::{AllocError, Global};
use step_meaning::Names;
use typed_expressions::Scope;

/// The most levels that may be open around an expression.
const MOST_LEVELS: u32 = 64;

/// Adds the expression that stands in the text, as the words ask: in the place of a number or of a test, at the token of which number, with how many levels open.
pub fn push_expression_of(
    alloc: Global,
    text: &[u8],
    words: &mut Words<'_>,
    answer: &mut Answer,
) -> Result<(), AllocError>
    requires { length text.now ≤ 65536 }
{
    let number = !words.takes("test") && words.takes("number");
    let at = words.count() as usize;
    let level = words.count().min(MOST_LEVELS);
    let Ok(tokens) = lex(alloc, text) else {
        words.fail("no tokens");
        return Ok(());
    };
    push_read(alloc, text, &tokens, at, level, number, answer)
}

/// Adds it, or the fault that stands there.
fn push_read(
    alloc: Global,
    text: &[u8],
    tokens: &[Token],
    at: usize,
    level: u32,
    number: bool,
    answer: &mut Answer,
) -> Result<(), AllocError>
    requires short { length text.now ≤ 65536 }
    requires lexed { TokensOf text.now tokens.now }
    requires shallow { level ≤ 64 }
{
    match read_expr(alloc, text, tokens, at, scope(alloc)?, level, number) {
        Ok(found) => push_found(alloc, &found, answer),
        Err(fault) => {
            answer.push("none, ");
            push_fault(fault, answer)
        }
    }
}

/// Adds what was read, the number of the token behind it, and the levels.
fn push_found(alloc: Global, found: &ReadExpr, answer: &mut Answer) -> Result<(), AllocError> {
    match &found.value {
        Ok(value) => push_expression(value, &names(alloc)?, answer),
        Err(fault) => push_numbered(fault.numbered(), "no memory", answer),
    }
    answer.push(", up to ");
    answer.push_number(found.next as i128);
    answer.push(" at ");
    answer.push_number(i128::from(found.levels));
    Ok(())
}

/// Adds a fault.
fn push_fault(fault: ParseFault, answer: &mut Answer) -> Result<(), AllocError> {
    match fault {
        ParseFault::Memory(error) => Err(error),
        fault => {
            push_numbered(fault.numbered(), "no memory", answer);
            Ok(())
        }
    }
}

/// Where `x` and `y` may be used, and `z` is a variable too.
fn scope(alloc: Global) -> Result<Scope, AllocError> {
    let mut scope = Scope::new(alloc, 0);
    scope.declare(alloc, b"x")?;
    scope.declare(alloc, b"y")?;
    scope.declare(alloc, b"z")?;
    scope.close(2);
    Ok(scope)
}

/// The names of the variables.
const NAMES: &[&str] = &["x", "y", "z"];

fn names(alloc: Global) -> Result<Names, AllocError> {
    let mut list = Vec::new(alloc);
    for name in NAMES {
        list.push(name.as_bytes().to_vec(alloc)?)?;
    }
    Ok(Names::of(list))
}
