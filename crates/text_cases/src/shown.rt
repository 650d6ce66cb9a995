//! What expressions and statements are.
use case_text::Answer;
use std::alloc::AllocError;
use step_meaning::{Block, Expr, Names, Op2, Stmt, StmtKind};

/// Adds the statements, and their offsets to the list.
#[cycle(statements)]
pub fn push_block(
    block: &Block,
    names: &Names,
    offsets: &mut Vec<u32>,
    answer: &mut Answer,
) -> Result<(), AllocError> {
    match block {
        Block::End => Ok(()),
        Block::Then { first, rest } => {
            push_statement(first, names, offsets, answer)?;
            push_block(rest, names, offsets, answer)
        }
    }
}

#[cycle(statements)]
fn push_part(
    block: &Block,
    names: &Names,
    offsets: &mut Vec<u32>,
    answer: &mut Answer,
) -> Result<(), AllocError> {
    answer.push("{");
    push_block(block, names, offsets, answer)?;
    answer.push("}");
    Ok(())
}

#[cycle(statements)]
fn push_statement(
    statement: &Stmt,
    names: &Names,
    offsets: &mut Vec<u32>,
    answer: &mut Answer,
) -> Result<(), AllocError> {
    offsets.push(statement.at)?;
    match &statement.kind {
        StmtKind::Skip => answer.push(";"),
        StmtKind::Return => answer.push("return;"),
        StmtKind::Break => answer.push("break;"),
        StmtKind::Continue => answer.push("continue;"),
        StmtKind::Assign { var, value } => push_assignment(*var, value, names, answer),
        StmtKind::If { test, yes, no } => {
            push_asked("if", test, names, answer);
            push_part(yes, names, offsets, answer)?;
            push_part(no, names, offsets, answer)?;
        }
        StmtKind::While { test, body, step } => {
            push_asked("while", test, names, answer);
            push_part(body, names, offsets, answer)?;
            push_part(step, names, offsets, answer)?;
        }
        StmtKind::Do { body, test } => {
            answer.push("do");
            push_part(body, names, offsets, answer)?;
            push_expression(test, names, answer);
        }
    }
    Ok(())
}

fn push_assignment(place: u8, value: &Expr, names: &Names, answer: &mut Answer) {
    push_name(place, names, answer);
    answer.push("=");
    push_expression(value, names, answer);
    answer.push(";");
}

/// Adds the word and the test.
fn push_asked(word: &str, test: &Expr, names: &Names, answer: &mut Answer) {
    answer.push(word);
    push_expression(test, names, answer);
}

fn push_name(place: u8, names: &Names, answer: &mut Answer) {
    match names.items().get(place as usize) {
        Some(name) => answer.push_bytes(name),
        None => answer.push("no name"),
    }
}

/// Adds an expression.
#[cycle(expressions)]
pub fn push_expression(expr: &Expr, names: &Names, answer: &mut Answer) {
    match expr {
        Expr::Number(value) => answer.push_number(i128::from(*value)),
        Expr::Name(place) => push_name(*place, names, answer),
        Expr::Free => answer.push("?"),
        Expr::Range { lo, hi } => push_range(*lo, *hi, answer),
        Expr::True => answer.push(" true"),
        Expr::False => answer.push(" false"),
        Expr::Quot { of, by } => push_divided(of, "/", *by, names, answer),
        Expr::Rem { of, by } => push_divided(of, "%", *by, names, answer),
        Expr::Neg(operand) => {
            answer.push("-");
            push_expression(operand, names, answer);
        }
        Expr::Not(operand) => {
            answer.push("!");
            push_expression(operand, names, answer);
        }
        Expr::Pair { op, left, right } => {
            answer.push("(");
            push_expression(left, names, answer);
            answer.push(sign_of(*op));
            push_expression(right, names, answer);
            answer.push(")");
        }
    }
}

/// Adds what is divided, the sign and the divisor.
#[cycle(expressions)]
fn push_divided(of: &Expr, sign: &str, by: i64, names: &Names, answer: &mut Answer) {
    answer.push("(");
    push_expression(of, names, answer);
    answer.push(sign);
    answer.push_number(i128::from(by));
    answer.push(")");
}

fn push_range(low: Option<i64>, high: Option<i64>, answer: &mut Answer) {
    answer.push("[");
    answer.push_number_or(low.map(i128::from), "*");
    answer.push(",");
    answer.push_number_or(high.map(i128::from), "*");
    answer.push("]");
}

fn sign_of(op: Op2) -> &'static str {
    match op {
        Op2::Or => "||",
        Op2::And => "&&",
        Op2::Equal => "==",
        Op2::NotEqual => "!=",
        Op2::Less => "<",
        Op2::LessEqual => "<=",
        Op2::Greater => ">",
        Op2::GreaterEqual => ">=",
        Op2::Add => "+",
        Op2::Sub => "-",
        Op2::Mul => "*",
    }
}
