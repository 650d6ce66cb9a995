//! Numbers read from their texts: the way back from the numerals of `line_text`. The front doors: `number_of` and `signed_of`.
#![tactic(auto)]

mod reading;
mod signed;

pub use reading::number_of;
pub use signed::signed_of;
