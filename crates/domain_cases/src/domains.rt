//! Calls on states of the numerical domains: `boxes`, `octagons` or `polyhedra`, a question and a state. The questions are `ends`, `rows`, `outline` for the
//! number of rows with the first and the last, and `implies` with a row, `of` before the state. A state is made of all stores by steps, which are rows that it
//! meets, one after the other or behind `together` at once, and assignments `x = L`, parted by `then`; behind it others that it takes in stand behind `join` and `widen`, and further steps behind `meet`.
use case_text::{Answer, Words, read_linear, read_rows};
use interval_dom::Boxes;
use num_domain::NumDomain;
use octagon_dom::Octagon;
use poly_dom::Poly;
use std::alloc::{AllocError, Global};

/// Answers the question of a domain of that name; false where none has the name.
pub fn answers(
    alloc: Global,
    name: &str,
    words: &mut Words<'_>,
    answer: &mut Answer,
) -> Result<bool, AllocError> {
    match name {
        "boxes" => push_asked::<Boxes>(alloc, words, answer)?,
        "octagons" => push_asked::<Octagon>(alloc, words, answer)?,
        "polyhedra" => push_asked::<Poly>(alloc, words, answer)?,
        _ => return Ok(false),
    }
    Ok(true)
}

/// Answers what is asked of the state.
fn push_asked<D: NumDomain>(
    alloc: Global,
    words: &mut Words<'_>,
    answer: &mut Answer,
) -> Result<(), AllocError> {
    let question = words.take();
    if question == "implies" {
        return push_implied::<D>(alloc, words, answer);
    }
    let state: D = read_states(alloc, words)?;
    match question {
        "ends" if state.is_empty() => answer.push("empty"),
        "ends" => answer.push_ends(&state.bounds()),
        "rows" => push_rows(alloc, &state, answer)?,
        "outline" => push_outline(alloc, &state, answer)?,
        _ => words.fail("no such question"),
    }
    Ok(())
}

/// Adds whether the state behind `of` says that its members meet the row before.
fn push_implied<D: NumDomain>(
    alloc: Global,
    words: &mut Words<'_>,
    answer: &mut Answer,
) -> Result<(), AllocError> {
    let rows = read_rows(alloc, words)?;
    words.expect("of");
    let state: D = read_states(alloc, words)?;
    if let Some(row) = rows.first() {
        answer.push_yes_or_no(state.implies(row));
    }
    Ok(())
}

/// Adds the rows of a copy of the state.
fn push_rows<D: NumDomain>(
    alloc: Global,
    state: &D,
    answer: &mut Answer,
) -> Result<(), AllocError> {
    let twin = state.copy(alloc)?;
    answer.push_rows(twin.rows(alloc)?.as_slice());
    Ok(())
}

/// Adds how many rows the state has, the first of them and the last.
fn push_outline<D: NumDomain>(
    alloc: Global,
    state: &D,
    answer: &mut Answer,
) -> Result<(), AllocError> {
    let rows = state.rows(alloc)?;
    answer.push_number(rows.len() as i128);
    if let (Some(first), Some(last)) = (rows.first(), rows.last()) {
        answer.push(" rows from ");
        answer.push_row(first);
        answer.push(" to ");
        answer.push_row(last);
    }
    Ok(())
}

/// Reads a state, with others behind `join` and `widen` that it takes in, and further steps behind `meet`.
fn read_states<D: NumDomain>(alloc: Global, words: &mut Words<'_>) -> Result<D, AllocError> {
    let mut state: D = read_state(alloc, words)?;
    for _ in 0..words.len() {
        match words.peek() {
            Some("meet") => {
                words.take();
                take_steps(alloc, &mut state, words)?;
            }
            Some("join" | "widen") => {
                let is_join = words.take() == "join";
                let other: D = read_side(alloc, words)?;
                take_in(alloc, &mut state, is_join, &other)?;
            }
            _ => return Ok(state),
        }
    }
    Ok(state)
}

/// Joins the state with the other one, or widens it by that.
fn take_in<D: NumDomain>(
    alloc: Global,
    state: &mut D,
    is_join: bool,
    other: &D,
) -> Result<(), AllocError> {
    if is_join {
        return state.join(alloc, other);
    }
    state.widen(alloc, other)
}

/// Reads a state, or in brackets two that are joined or of which the second widens the first.
fn read_side<D: NumDomain>(alloc: Global, words: &mut Words<'_>) -> Result<D, AllocError> {
    if !words.takes("(") {
        return read_state(alloc, words);
    }
    let mut side: D = read_state(alloc, words)?;
    let is_join = words.takes("join");
    if !is_join {
        words.expect("widen");
    }
    let other: D = read_state(alloc, words)?;
    words.expect(")");
    take_in(alloc, &mut side, is_join, &other)?;
    Ok(side)
}

/// Reads a state: the steps that lead to it from all stores on.
fn read_state<D: NumDomain>(alloc: Global, words: &mut Words<'_>) -> Result<D, AllocError> {
    let mut state = D::top(alloc)?;
    take_steps(alloc, &mut state, words)?;
    Ok(state)
}

/// Takes the steps, which are parted by `then`.
fn take_steps<D: NumDomain>(
    alloc: Global,
    state: &mut D,
    words: &mut Words<'_>,
) -> Result<(), AllocError> {
    for _ in 0..words.len() {
        if words.second() == Some("=") {
            assign(alloc, state, words)?;
        } else {
            meet(alloc, state, words)?;
        }
        if !words.takes("then") {
            return Ok(());
        }
    }
    Ok(())
}

/// Meets rows, one after the other, or behind `together` at once.
fn meet<D: NumDomain>(
    alloc: Global,
    state: &mut D,
    words: &mut Words<'_>,
) -> Result<(), AllocError> {
    if words.takes("together") {
        return state.meet_rows(alloc, &read_rows(alloc, words)?);
    }
    let rows = read_rows(alloc, words)?;
    for row in &rows {
        state.meet_row(alloc, row)?;
    }
    Ok(())
}

/// Assigns a linear expression.
fn assign<D: NumDomain>(
    alloc: Global,
    state: &mut D,
    words: &mut Words<'_>,
) -> Result<(), AllocError> {
    let place = words.place();
    words.expect("=");
    let value = read_linear(words);
    state.assign(alloc, place, &value)
}
