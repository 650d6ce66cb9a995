//! A command line without words.

use crate::endings::ends_with;
use function_top::Status;
use memory_runs::{EMPTY, EMPTY_REPORT, outcome_of};
use std::test::Fail;

#[test]
fn no_words_are_no_options(rt: HostRuntime) -> Result<(), Fail> {
    let outcome = outcome_of(rt.alloc(), &[], EMPTY.as_bytes())?;
    ends_with(
        &rt,
        &outcome,
        Status::AllInputs,
        EMPTY_REPORT.as_bytes(),
        EMPTY,
    );
    Ok(())
}
