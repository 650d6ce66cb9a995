//! Calls of linear programs. `minimise F where F and F ..` says how small the first function becomes over variables that are not below 0 where each other one is 0,
//! and `within N` before `where` how many exchanges may be made.
use case_text::{Answer, Words, read_function};
use linear_cons::{Affine, PLACES, common_divisor, floor_quotient};
use linear_program::{Program, Solution, Term, minimised};
use std::alloc::{AllocError, Global};

/// How many exchanges are made at the most, where nothing is said of them.
const EXCHANGES: u32 = 100;

/// Makes the call of that name and writes its answer; false where none has the name.
pub fn answers(
    alloc: Global,
    name: &str,
    words: &mut Words<'_>,
    answer: &mut Answer,
) -> Result<bool, AllocError> {
    if name != "minimise" {
        return Ok(false);
    }
    let cost = read_function(words);
    let mut exchanges = if words.takes("within") {
        words.count()
    } else {
        EXCHANGES
    };
    let program = read_program(alloc, words)?;
    let costs = terms(alloc, &cost)?;
    match minimised(alloc, &program, &costs, &mut exchanges)? {
        Some(solution) => push_value(&cost, &solution, answer),
        None => answer.push("nothing"),
    }
    Ok(true)
}

/// Reads `where` and functions that are to be 0.
fn read_program(alloc: Global, words: &mut Words<'_>) -> Result<Program, AllocError> {
    let mut program = Program::new(alloc);
    for _ in 0..PLACES {
        program.add_column();
    }
    words.expect("where");
    for _ in 0..words.len() {
        let function = read_function(words);
        match function.constant.checked_neg() {
            Some(right) => program.add_equation(terms(alloc, &function)?, right)?,
            None => words.fail("a constant without an opposite"),
        }
        if !words.takes("and") {
            return Ok(program);
        }
    }
    Ok(program)
}

/// The function's terms.
fn terms(alloc: Global, function: &Affine) -> Result<Vec<Term>, AllocError> {
    let mut terms = Vec::new(alloc);
    for (column, number) in function.coef.iter().enumerate() {
        if *number != 0 {
            terms.push(Term {
                column,
                number: *number,
            })?;
        }
    }
    Ok(terms)
}

/// Writes the function's value at the solution, in lowest terms.
fn push_value(function: &Affine, solution: &Solution, answer: &mut Answer) {
    match value(function, solution) {
        Some(value) => {
            let divisor = common_divisor(value.unsigned_abs(), solution.den.unsigned_abs());
            if divisor == 0 {
                answer.push("no denominator");
                return;
            }
            answer.push_number(floor_quotient(value, divisor));
            let den = floor_quotient(solution.den, divisor);
            if den != 1 {
                answer.push("/");
                answer.push_number(den);
            }
        }
        None => answer.push("wide"),
    }
}

/// The function's value at the solution times its denominator, where it has room.
fn value(function: &Affine, solution: &Solution) -> Option<i128> {
    let mut sum = function.constant.checked_mul(solution.den)?;
    for (number, numerator) in function.coef.iter().zip(&solution.numerators) {
        sum = sum.checked_add(number.checked_mul(*numerator)?)?;
    }
    Some(sum)
}
