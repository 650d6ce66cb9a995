//! What is to be written for a text.

use crate::status::Status;

/// What is to be written, built whole before its first byte is written.
#[derive(Drop)]
pub struct Output {
    /// The bytes of a report, or of a refusal's line with its newline byte.
    pub bytes: Vec<u8>,
    /// The status that comes with it where no write fails.
    pub status: Status,
    /// How often each adviser was asked for it.
    pub turns: u32,
}
