//! A text that is cut off.

use function_top::Status;
use memory_runs::{NO_OPTIONS, NOISE, outcome_of};
use std::test::Fail;

// The comment of the text begins at 40 and ends at 69, and the `&&` of its test stands at 110.
#[test]
fn a_text_that_is_cut_off_is_no_program(rt: HostRuntime) -> Result<(), Fail> {
    for length in 0..NOISE.len() {
        let text = NOISE.as_bytes().split_at(length).0;
        let (status, written) = outcome_of(rt.alloc(), NO_OPTIONS, text)?;
        assert!(rt;
            written.starts_with(fault_of(length).as_bytes()) && is_one_line(written.as_slice()),
            "{written:?} on the first {length} bytes"
        );
        assert_eq!(rt; status, Status::Program, "on the first {length} bytes");
    }
    Ok(())
}

// How the line begins that is written of the first bytes.
fn fault_of(length: usize) -> &'static str {
    match length {
        42..=68 => "program: 3 at 40\n",
        111 => "program: 1 at 110\n",
        _ => "program: 4 at ",
    }
}

// Whether the bytes end with the only end of a line among them.
fn is_one_line(bytes: &[u8]) -> bool {
    bytes.iter().position(|byte| *byte == b'\n') == bytes.len().checked_sub(1)
}
