//! Exact affine functions over sixteen whole-number variables, and the normalised constraints
//! `e >= 0` that they form.
//!
//! It stands on the standard library alone. The numbers of the code are `i128`; each call answers
//! the exact function over unbounded whole numbers, or `Wide` where one of its numbers does not fit.
//! The front door: `Affine` and its calls, `Row::of`, `settles`, and the words of `specs/` for values,
//! points and rows that are met. `specs/Laws/` holds proofs that these words need.
#![tactic(auto)]

mod affine;
mod bounds;
mod divisor;
mod ends;
mod exact;
pub mod laws;
mod row;
mod rows;
mod settling;

pub use affine::{Affine, PLACES};
pub use bounds::{Bounds, Linear};
pub use divisor::{common_divisor, floor_quotient};
pub use ends::{end_difference, end_multiple, end_sum};
pub use exact::{Op, Wide};
pub use row::{Row, RowKind};
pub use rows::{MOST_ROWS, Rows};
pub use settling::settles;
