//! The top calls: `run` does all that the program does, and carries the headline; `report_on` and `fit_report_on` do the same for a text at hand, reading
//! and writing nothing.
#![tactic(auto)]

mod answer;
mod demo;
mod exact;
mod explaining;
mod finding;
mod fitting;
mod formula;
mod found;
mod input;
mod laws;
mod one_input;
mod output;
mod question;
mod report;
mod status;
mod top;

pub use answer::report_on;
pub use command_words::{Domain, Query};
pub use fitting::fit_report_on;
pub use laws::{
    each_input_meets_at_most_one_exact_line, each_input_meets_one_line,
    exact_lines_are_met_by_exact_runs, proved_lines_are_met_by_satisfied_inputs,
};
pub use output::Output;
pub use status::Status;
pub use top::run;
