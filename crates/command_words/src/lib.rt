//! The words of the command line: what they ask for, as `clap` reads them and by the rules on values.
//!
//! It stands on `clap` and on `number_parse`. The front door: `order_of`.
#![tactic(auto)]

mod command;
pub mod laws;
mod order;

pub use order::{Domain, Order, Query, order_of};
