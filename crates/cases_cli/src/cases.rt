//! The cases of a file.
use case_text::{Answer, Words, read_text, spaced};
use std::alloc::{AllocError, Global};
use std::io::{self, Write};

/// How the cases of a file end, the worst last.
#[derive(Clone, Copy, PartialEq, Eq)]
pub enum Outcome {
    /// Each has its answer.
    Same = 0,
    /// One has another answer.
    Other = 1,
    /// A line says no call.
    NoCall = 2,
}

impl Outcome {
    /// The worse one of the two.
    pub fn or(self, other: Outcome) -> Outcome {
        match (self, other) {
            (Outcome::NoCall, _) | (_, Outcome::NoCall) => Outcome::NoCall,
            (Outcome::Other, _) | (_, Outcome::Other) => Outcome::Other,
            (Outcome::Same, Outcome::Same) => Outcome::Same,
        }
    }
}

/// A case.
#[derive(Drop)]
struct Case<'t> {
    /// The number of its line.
    at: usize,
    call: &'t str,
    /// The lines of its answer.
    wanted: Vec<u8>,
}

/// Tries the cases of the text of a file, and writes what is to be said of them.
pub fn try_cases<W: Write>(
    alloc: Global,
    file: &str,
    text: &str,
    out: &mut W,
) -> io::Result<Outcome> {
    let mut worst = Outcome::Same;
    let mut count: u64 = 0;
    let mut case: Option<Case<'_>> = None;
    for (above, line) in text.lines().enumerate() {
        if let Some(answer) = line.strip_prefix("    ") {
            if let Some(case) = &mut case {
                add_line(&mut case.wanted, answer)?;
            }
            continue;
        }
        if let Some(ended) = case.take() {
            worst = worst.or(try_case(alloc, file, &ended, out)?);
            count = count.saturating_add(1);
        }
        if !line.is_empty() && !line.starts_with("#") {
            case = Some(Case {
                at: above.saturating_add(1),
                call: line,
                wanted: Vec::new(alloc),
            });
        }
    }
    if let Some(ended) = case {
        worst = worst.or(try_case(alloc, file, &ended, out)?);
        count = count.saturating_add(1);
    }
    writeln!(out, "{file}: {count} cases")?;
    Ok(worst)
}

/// Adds a line to an answer.
fn add_line(answer: &mut Vec<u8>, line: &str) -> Result<(), AllocError> {
    if !answer.is_empty() {
        answer.push(b'\n')?;
    }
    answer.extend_from_slice(line.as_bytes())
}

/// Tries the case, and writes what came where it is something else.
fn try_case<W: Write>(
    alloc: Global,
    file: &str,
    case: &Case<'_>,
    out: &mut W,
) -> io::Result<Outcome> {
    let found = match answer_of(alloc, case.call)? {
        Ok(found) => found,
        Err(why) => {
            writeln!(out, "{file}:{}: {why}", case.at)?;
            return Ok(Outcome::NoCall);
        }
    };
    if found.as_slice() == case.wanted.as_slice() {
        return Ok(Outcome::Same);
    }
    writeln!(out, "{file}:{}: {}", case.at, case.call)?;
    out.write_all(&found)?;
    writeln!(out, "")?;
    Ok(Outcome::Other)
}

/// The answer of the call, or why the line says no call. The text of a formula stands in its line as it is, while other texts are made of pieces; and so do the
/// words of a run.
fn answer_of(alloc: Global, call: &str) -> Result<Result<Vec<u8>, &'static str>, AllocError> {
    if let Some(answer) = formula_cases::answer(alloc, call)? {
        return Ok(Ok(answer));
    }
    if let Some(answer) = run_cases::answer(alloc, call)? {
        return Ok(Ok(answer));
    }
    let mut answer = Answer::new(alloc)?;
    match push_answer(alloc, call, &mut answer)? {
        Some(why) => Ok(Err(why)),
        None => Ok(Ok(answer.whole()?.to_vec(alloc)?)),
    }
}

/// Makes the call and writes its answer, or tells why the line says no call.
fn push_answer(
    alloc: Global,
    call: &str,
    answer: &mut Answer,
) -> Result<Option<&'static str>, AllocError> {
    let (front, text) = match call.split_once("\"") {
        Some((front, _)) => {
            let pieces = call.strip_prefix(front).unwrap_or("");
            let Some(text) = read_text(alloc, pieces)? else {
                return Ok(Some("no text"));
            };
            (front, Some(text))
        }
        None => (call, None),
    };
    let line = spaced(alloc, front)?;
    let words: Vec<&str> = line.as_str().split_whitespace().collect(alloc)?;
    let mut words = Words::of(&words);
    let name = words.take();
    let is_call = match &text {
        Some(text) => is_answered_of(alloc, name, &mut words, text, answer)?,
        None => is_answered(alloc, name, &mut words, answer)?,
    };
    Ok(if is_call {
        words.fault()
    } else {
        Some("no such call")
    })
}

/// Makes the call of that name and writes its answer; false where none has the name.
fn is_answered(
    alloc: Global,
    name: &str,
    words: &mut Words<'_>,
    answer: &mut Answer,
) -> Result<bool, AllocError> {
    Ok(
        domain_cases::answers(alloc, name, words, answer)?
            || tree_cases::answers(alloc, name, words, answer)?
            || check_cases::answers(alloc, name, words, answer)?
            || form_cases::answers(alloc, name, words, answer)?
            || text_cases::written(alloc, name, words, answer)?,
    )
}

/// The same for the calls that end with a text.
fn is_answered_of(
    alloc: Global,
    name: &str,
    words: &mut Words<'_>,
    text: &[u8],
    answer: &mut Answer,
) -> Result<bool, AllocError> {
    Ok(
        text_cases::answers(alloc, name, words, text, answer)?
            || formula_cases::answers(alloc, name, text, answer)?
            || program_cases::answers(alloc, name, words, text, answer)?,
    )
}
