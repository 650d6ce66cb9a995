//! Guarded programs.
ghost use Rattle.std.specs.Prelude.{◌≡◌, IfOk, length};
ghost use Rattle.step_meaning.specs.Syntax.{empty, expression, if_else, pair, sequence, statements};
ghost use Rattle.int_fit.specs.Guarding.{are_small_variables, guarded, is_small_variable};

use std::alloc::{AllocError, Global};
use step_meaning::{Block, Expr, Op2, Program, Stmt, StmtKind};

/// The program with its statements inside one `if`, so that they are done where each variable is a number of 32 bits. The only error is want of memory.
pub fn guard(alloc: Global, program: Program) -> Result<Program, AllocError>
    ensures names { IfOk result (λ made. made.names ≡ program.names) }
    ensures body { IfOk result (λ made. statements made.body ≡ guarded (length program.names) (statements program.body)) }
{
    let test = are_small(alloc, program.vars())?;
    let Program { names, body } = program;
    let body = inside(alloc, test, body)?;
    Ok(Program { names, body })
}

/// The statements in an `if` with the test, with nothing to be done else. It stands where no statement of the text does, at offset 0.
fn inside(alloc: Global, test: Expr, body: Block) -> Result<Block, AllocError>
    ensures { IfOk result (λ block. statements block ≡ sequence (if_else (expression test) (statements body) empty) empty) }
{
    let kind = StmtKind::If {
        test,
        yes: body,
        no: Block::End,
    };
    Ok(Block::Then {
        first: Box::new(alloc, Stmt { at: 0, kind })?,
        rest: Box::new(alloc, Block::End)?,
    })
}

/// The test that each of the first variables is a number of 32 bits.
fn are_small(alloc: Global, count: u8) -> Result<Expr, AllocError>
    ensures { IfOk result (λ test. expression test ≡ are_small_variables count) }
{
    let mut test = Expr::True;
    for place in 0..count {
        let one = is_small(alloc, place)?;
        test = joined(alloc, Op2::And, test, one)?;
    }
    Ok(test)
}

/// The test that the variable at the place is one.
fn is_small(alloc: Global, place: u8) -> Result<Expr, AllocError>
    ensures { IfOk result (λ test. expression test ≡ is_small_variable place) }
{
    let least = Expr::Number(-2_147_483_648);
    let low = joined(alloc, Op2::GreaterEqual, Expr::Name(place), least)?;
    let greatest = Expr::Number(2_147_483_647);
    let high = joined(alloc, Op2::LessEqual, Expr::Name(place), greatest)?;
    let test = joined(alloc, Op2::And, low, high)?;
    Ok(test)
}

/// The operator between both.
fn joined(alloc: Global, op: Op2, left: Expr, right: Expr) -> Result<Expr, AllocError>
    ensures { IfOk result (λ made. expression made ≡ pair op (expression left) (expression right)) }
{
    Ok(Expr::Pair {
        op,
        left: Box::new(alloc, left)?,
        right: Box::new(alloc, right)?,
    })
}
