//! Programs of several functions, and what they mean: runs with a frame for each call, which has a store of its own. What is said of the runs of programs is said
//! of any system that steps and has stores.
#![tactic(auto)]

mod lists;
mod statement;
mod unit;

pub use lists::{ExprList, FuncList};
pub use statement::{Func, UnitBlock, UnitKind, UnitStmt};
pub use unit::Unit;
