//! Expressions, as programs have them.
ghost use Rattle.std.specs.Prelude.{IfSome, IsTrue};
ghost use Rattle.step_meaning.specs.Naming.{NamesBelow};
ghost use Rattle.step_meaning.specs.Syntax.{expression};

use case_text::Words;
use source_parse::{ParseFault, parse};
use std::alloc::{AllocError, Global};
use step_meaning::{Block, Expr, Program, StmtKind};

/// The longest text that is parsed.
const LONGEST: usize = 65_536;

/// The program whose first statement has the expression between the two texts, which goes on up to the word `over`. None where the words are no such
/// expression.
pub fn read_program(
    alloc: Global,
    (before, behind): (&str, &str),
    words: &mut Words<'_>,
) -> Result<Option<Program>, AllocError> {
    let mut text = String::from_str(alloc, "int main() { int x, y, z; ")?;
    text.push_str(before)?;
    for _ in 0..words.len() {
        match words.peek() {
            None | Some("over") => break,
            Some(word) => {
                text.push_str(" ")?;
                text.push_str(word)?;
            }
        }
        words.take();
    }
    text.push_str(behind)?;
    text.push_str(" }")?;
    if text.len() > LONGEST {
        return Ok(None);
    }
    match parse(alloc, text.as_bytes()) {
        Ok(program) => Ok(Some(program)),
        Err(ParseFault::Memory(error)) => Err(error),
        Err(_) => Ok(None),
    }
}

/// What the first statement assigns, if it is an assignment.
pub fn assigned(program: &Program) -> Option<&Expr>
    ensures { IfSome result (λ value. NamesBelow 16 (expression value.now)) }
{
    match first_of(&program.body) {
        Some(StmtKind::Assign { var: _, value }) if names_places(value) => Some(value),
        _ => None,
    }
}

/// What the first statement asks, if it is an `if`.
pub fn asked(program: &Program) -> Option<&Expr>
    ensures { IfSome result (λ test. NamesBelow 16 (expression test.now)) }
{
    match first_of(&program.body) {
        Some(
            StmtKind::If {
                test,
                yes: _,
                no: _,
            },
        ) if names_places(test) => Some(test),
        _ => None,
    }
}

fn first_of(body: &Block) -> Option<&StmtKind> {
    match body {
        Block::Then { first, rest: _ } => Some(&first.kind),
        Block::End => None,
    }
}

/// True only where each name stands for one of the sixteen places.
fn names_places(expr: &Expr) -> bool
    ensures { IsTrue result → NamesBelow 16 (expression expr.now) }
{
    match expr {
        Expr::Name(place) => *place < 16,
        Expr::Neg(operand) | Expr::Not(operand) => names_places(operand),
        Expr::Quot { of, by: _ } | Expr::Rem { of, by: _ } => names_places(of),
        Expr::Pair { op: _, left, right } => names_places(left) && names_places(right),
        Expr::Number(_) | Expr::Free | Expr::Range { .. } | Expr::True | Expr::False => true,
    }
}
