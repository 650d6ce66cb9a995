//! Calls on affine functions, rows and ends of ranges. Where F is a function, R a row and N a number, these are
//! - `add F and F`, `subtract F and F`, `scale F by N`, `raise F by N`, `mix N of F and N of F`, `put F for x in F`;
//! - `value F at N N ..`, at a store that is 0 behind these numbers;
//! - `lower L` and `upper L`, a linear expression at its ends;
//! - `row F >= 0`, `not R`, `opposed R and R`, `tells R and R`, `list R and R ..`;
//! - `end E` and one of `alone`, `number`, `plus E`, `times N`, `lesser E`, `greater E`, `raised N`, `lowered N`, where an end is a number or `none`.
use case_text::{Answer, Words, read_constraint, read_function, read_linear, read_row, read_rows};
use linear_cons::{Affine, PLACES, Row, Rows, Wide};
use num_domain::Bound;
use std::alloc::{AllocError, Global};

/// Makes the call of that name and writes its answer; false where none has the name.
pub fn answers(
    alloc: Global,
    name: &str,
    words: &mut Words<'_>,
    answer: &mut Answer,
) -> Result<bool, AllocError> {
    if name == "list" {
        list(alloc, words, answer)?;
        return Ok(true);
    }
    Ok(is_of_functions(name, words, answer) || is_of_rows(name, words, answer))
}

/// Makes a call on functions.
fn is_of_functions(name: &str, words: &mut Words<'_>, answer: &mut Answer) -> bool {
    match name {
        "add" => {
            let (first, second) = two_functions(words);
            push_made(first.add(&second), answer);
        }
        "subtract" => {
            let (first, second) = two_functions(words);
            push_made(first.sub(&second), answer);
        }
        "scale" => {
            let (function, number) = function_and_number(words);
            push_made(function.scale(number), answer);
        }
        "raise" => {
            let (function, number) = function_and_number(words);
            push_made(function.plus(number), answer);
        }
        "mix" => push_made(mixed(words), answer),
        "put" => push_made(with_put(words), answer),
        "value" => push_value(words, answer),
        "lower" => push_end(read_linear(words).with_lower(), answer),
        "upper" => push_end(read_linear(words).with_upper(), answer),
        _ => return false,
    }
    true
}

/// Makes a call on rows or on ends.
fn is_of_rows(name: &str, words: &mut Words<'_>, answer: &mut Answer) -> bool {
    match name {
        "row" => answer.push_kind(&read_constraint(words)),
        "not" => push_complement(read_row(words), answer),
        "opposed" => {
            if let Some((first, second)) = two_rows(words) {
                answer.push_yes_or_no(first.opposed(&second));
            }
        }
        "tells" => {
            if let Some((first, second)) = two_rows(words) {
                answer.push_yes_or_no(first.tells(&second));
            }
        }
        "end" => push_bound(words, answer),
        _ => return false,
    }
    true
}

fn two_functions(words: &mut Words<'_>) -> (Affine, Affine) {
    let first = read_function(words);
    words.expect("and");
    (first, read_function(words))
}

fn function_and_number(words: &mut Words<'_>) -> (Affine, i128) {
    let function = read_function(words);
    words.expect("by");
    (function, words.number())
}

/// The sum of multiples of two functions.
fn mixed(words: &mut Words<'_>) -> Result<Affine, Wide> {
    let times = words.number();
    words.expect("of");
    let first = read_function(words);
    words.expect("and");
    let others = words.number();
    words.expect("of");
    let second = read_function(words);
    first.mixed(times, &second, others)
}

/// A function with another one for a variable.
fn with_put(words: &mut Words<'_>) -> Result<Affine, Wide> {
    let by = read_function(words);
    words.expect("for");
    let place = words.place();
    words.expect("in");
    read_function(words).subst(place, &by)
}

fn push_made(made: Result<Affine, Wide>, answer: &mut Answer) {
    match made {
        Ok(function) => answer.push_function(&function),
        Err(wide) => answer.push_wide(&wide),
    }
}

/// The function's value at the store of the numbers, and 0 behind them.
fn push_value(words: &mut Words<'_>, answer: &mut Answer) {
    let function = read_function(words);
    words.expect("at");
    let mut store = [0; PLACES];
    for place in 0..PLACES {
        if words.len() > 0 {
            store[place] = words.number();
        }
    }
    match function.value(&store) {
        Ok(number) => answer.push_number(number),
        Err(wide) => answer.push_wide(&wide),
    }
}

fn push_end(end: Result<Option<Affine>, Wide>, answer: &mut Answer) {
    match end {
        Ok(Some(function)) => answer.push_function(&function),
        Ok(None) => answer.push("none"),
        Err(wide) => answer.push_wide(&wide),
    }
}

fn push_complement(row: Option<Row>, answer: &mut Answer) {
    match row.map(|row| row.not()) {
        Some(Ok(row)) => answer.push_row(&row),
        Some(Err(wide)) => answer.push_wide(&wide),
        None => {}
    }
}

fn two_rows(words: &mut Words<'_>) -> Option<(Row, Row)> {
    let first = read_row(words);
    words.expect("and");
    let second = read_row(words);
    Some((first?, second?))
}

/// The rows of a list, and those of the vector that it gives back.
fn list(alloc: Global, words: &mut Words<'_>, answer: &mut Answer) -> Result<(), AllocError> {
    let rows = Rows::of(read_rows(alloc, words)?);
    answer.push_rows(rows.items());
    answer.push("\n");
    answer.push_rows(rows.into_vec().as_slice());
    Ok(())
}

/// What is made of one end, or of two.
fn push_bound(words: &mut Words<'_>, answer: &mut Answer) {
    let own = read_bound(words);
    if words.takes("number") {
        return answer.push_number_or(own.end(), "none");
    }
    match made(own, words) {
        Bound::At(number) => {
            answer.push("at ");
            answer.push_number(number);
        }
        Bound::Without => answer.push("without"),
    }
}

fn made(own: Bound<i128>, words: &mut Words<'_>) -> Bound<i128> {
    match words.take() {
        "alone" => own,
        "plus" => own.plus(&read_bound(words)),
        "times" => own.times(&words.number()),
        "lesser" => own.lesser(read_bound(words)),
        "greater" => own.greater(read_bound(words)),
        "raised" => own.raised(words.number()),
        "lowered" => own.lowered(words.number()),
        _ => {
            words.fail("no such call on ends");
            own
        }
    }
}

fn read_bound(words: &mut Words<'_>) -> Bound<i128> {
    Bound::of(words.number_or("none"))
}
