//! Functions and lines of reports, as they are printed.
use case_text::{Answer, Words, read_function, read_rows};
use line_text::{Claim, is_claim_over, is_over, push_affine, push_line, push_row};
use linear_cons::{Affine, Row};
use std::alloc::{AllocError, Global};
use step_meaning::Names;

/// Makes the call of that name and writes its answer; false where none has the name.
pub fn answers(
    alloc: Global,
    name: &str,
    words: &mut Words<'_>,
    answer: &mut Answer,
) -> Result<bool, AllocError> {
    let names = names(alloc)?;
    match name {
        "written" => {
            let function = read_function(words);
            answer.push_bytes(&function_text(alloc, &function, &names)?);
        }
        "line" => {
            let rows = read_rows(alloc, words)?;
            words.expect("claims");
            let claim = read_claim(words);
            answer.push_bytes(&line_text(alloc, &rows, &claim, &names)?);
        }
        _ => return Ok(false),
    }
    Ok(true)
}

const NAMES: &[&str] = &["x", "y", "always"];

fn names(alloc: Global) -> Result<Names, AllocError> {
    let mut list = Vec::new(alloc);
    for name in NAMES {
        list.push(name.as_bytes().to_vec(alloc)?)?;
    }
    Ok(Names::of(list))
}

fn read_claim(words: &mut Words<'_>) -> Claim {
    match words.take() {
        "holds" => Claim::Holds,
        "exactly" => Claim::Exactly(words.number()),
        "within" => Claim::Within(read_function(words)),
        "ranked" => {
            let mut functions = [Affine::constant(0); 5];
            for _ in 0..5 {
                functions.rotate_left(1);
                functions[4] = read_function(words);
                if !words.takes("and") {
                    break;
                }
            }
            Claim::Ranked(functions)
        }
        "fits" => Claim::Fits,
        "unknown" => Claim::Unknown,
        _ => {
            words.fail("no claim");
            Claim::Unknown
        }
    }
}

/// The text of the function, where it is over the names.
fn function_text(alloc: Global, function: &Affine, names: &Names) -> Result<Vec<u8>, AllocError> {
    let mut text = Vec::new(alloc);
    if is_over(function, names) {
        push_affine(&mut text, function, names)?;
    }
    Ok(text)
}

/// The line of the claim, where all is over the names.
fn line_text(
    alloc: Global,
    rows: &[Row],
    claim: &Claim,
    names: &Names,
) -> Result<Vec<u8>, AllocError> {
    let mut texts = Vec::new(alloc);
    for row in rows {
        texts.push(row_text(alloc, row, names)?)?;
    }
    let mut line = Vec::new(alloc);
    if is_claim_over(claim, names) {
        push_line(&mut line, &texts, claim, names)?;
    }
    Ok(line)
}

/// The text of the row, where it is over the names.
fn row_text(alloc: Global, row: &Row, names: &Names) -> Result<Vec<u8>, AllocError> {
    let mut text = Vec::new(alloc);
    if is_over(&row.affine, names) {
        push_row(&mut text, row, names)?;
    }
    Ok(text)
}
