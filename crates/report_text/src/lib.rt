//! The lines of a tree's leaves, the text of a report, and a report's text cut into its sections.
//!
//! It stands on `decision_tree` (leaves and their paths), `integer_point` (conditions that no
//! store meets) and `line_text` (the text of one line). The front door: `lines`, `print` and the types of a
//! report; the words `AreLinesOf`, `IsReportText` and `lines_in`; and the laws that each store meets
//! exactly one of a tree's lines, and that a printed report, or a front of it, is cut into what was
//! printed.
#![tactic(auto)]

mod claims;
mod fitting;
pub mod laws;
mod leaves;
mod line;
mod line_list;
mod printing;
mod refining;
mod report;

pub use fitting::fit_lines;
pub use leaves::lines;
pub use line::{Line, Top};
pub use line_list::Lines;
pub use printing::{print, print_fit};
pub use refining::refined;
pub use report::{Counts, Explain, Header, Report, Stop};
