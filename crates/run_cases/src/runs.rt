//! What comes of a run, as an answer has it.
use function_top::Status;
use std::alloc::{AllocError, Global};

/// Adds the number of the status, and below it what was written. Its last line feed isn't shown; where it ends with none a line says so.
pub fn push_outcome(
    alloc: Global,
    answer: &mut Vec<u8>,
    outcome: &(Status, Vec<u8>),
) -> Result<(), AllocError> {
    let (status, written) = outcome;
    let number = format!(in alloc; "status {}", *status as u8)?;
    answer.extend_from_slice(number.as_bytes())?;
    if written.is_empty() {
        return Ok(());
    }
    answer.push(b'\n')?;
    match written.strip_suffix(b"\n") {
        Some(lines) => answer.extend_from_slice(lines),
        None => {
            answer.extend_from_slice(written)?;
            answer.extend_from_slice(b"\nno line feed at the end")
        }
    }
}

/// Adds what the lines behind `proved:` say under the condition, a line for each.
pub fn push_claims(
    answer: &mut Vec<u8>,
    condition: &str,
    outcome: &(Status, Vec<u8>),
) -> Result<(), AllocError> {
    let (_, written) = outcome;
    let mut is_behind = false;
    for line in written.split(|byte| *byte == b'\n') {
        is_behind = is_behind || line == b"proved:".as_slice();
        let claim = line
            .strip_prefix(condition.as_bytes())
            .and_then(|rest| rest.strip_prefix(b": "));
        if let (true, Some(claim)) = (is_behind, claim) {
            if !answer.is_empty() {
                answer.push(b'\n')?;
            }
            answer.extend_from_slice(claim)?;
        }
    }
    Ok(())
}
