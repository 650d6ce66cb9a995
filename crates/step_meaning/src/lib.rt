//! The syntax of programs and what they mean: what an expression may give, what a configuration may step to, and how long its runs
//! are. Every theorem of this product about a program speaks of these definitions, which stand in `specs/`; nothing here analyses.
//! The front door is `Program`; below it stand the words for whole numbers of `linear_cons`.
#![tactic(auto)]

mod affine;
mod count;
mod countdown;
mod expression;
mod function;
mod laws;
mod names;
mod plain;
mod program;
mod statement;

pub use affine::is_affine;
pub use count::{Count, assigned_change};
pub use countdown::Countdown;
pub use expression::{Expr, Op2};
pub use function::{function_of, total_size};
pub use laws::{
    front_and_store_decide, jumps_have_their_marks, no_configuration_is_stuck,
    runs_begin_at_valid_statements, steps_keep_configurations_valid,
};
pub use names::Names;
pub use program::Program;
pub use statement::{Block, Stmt, StmtKind};
