//! How a run ends.

use function_top::Status;
use std::process::Abort;

/// The run ends with this status, and these bytes are what it writes.
pub fn ends_with(
    rt: &impl Abort,
    (status, written): &(Status, Vec<u8>),
    wanted: Status,
    bytes: &[u8],
    on: &str,
) {
    assert_eq!(rt; written.as_slice(), bytes, "on {on}");
    assert_eq!(rt; *status, wanted, "on {on}");
}
