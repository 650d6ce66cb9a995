//! Long formulas, up to the limits and past them.

use crate::endings::ends_with;
use function_top::Status;
use function_top::Status::{AllInputs, Formula};
use memory_runs::{ALWAYS_HOLDS, EMPTY, outcome_of};
use std::alloc::{AllocError, Global};
use std::test::Fail;

/// Formulas on the program without statements, each as a front and what is repeated behind it how often, with the status and what is written. The
/// operators of a formula are at most 64, and its bytes at most 4,096.
const FORMULAS: &[(&str, &str, u32, Status, &str)] = &[
    ("true", "&&true", 64, AllInputs, ALWAYS_HOLDS),
    ("true", "&&true", 65, Formula, "formula: 11 at 388\n"),
    ("", " ", 4_096, Formula, "formula: 4 at 4096\n"),
    ("", " ", 4_097, Formula, "formula: 14 at 4096\n"),
    ("true", " ", 4_092, AllInputs, ALWAYS_HOLDS),
    ("true", " ", 4_093, Formula, "formula: 14 at 4096\n"),
];

#[test]
fn formulas_are_read_up_to_the_limits(rt: HostRuntime) -> Result<(), Fail> {
    let alloc = rt.alloc();
    for &(front, part, times, wanted, bytes) in FORMULAS {
        let formula = repeated(alloc, front, part, times)?;
        let words = ["function", "--ctl", formula.as_str()];
        let outcome = outcome_of(alloc, &words, EMPTY.as_bytes())?;
        ends_with(&rt, &outcome, wanted, bytes.as_bytes(), formula.as_str());
    }
    Ok(())
}

/// The front, and so many times the part behind it.
fn repeated(alloc: Global, front: &str, part: &str, times: u32) -> Result<String, AllocError> {
    let mut text = String::from_str(alloc, front)?;
    for _ in 0..times {
        text.push_str(part)?;
    }
    Ok(text)
}
