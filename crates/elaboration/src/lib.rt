//! Elaboration: names, sorts, jumps, divisors, returns and calls of a concrete tree, and the program that it stands for.
//! Front doors: `elaborate`, `elaborate_unit`. Stands on the concrete trees of `concrete_syntax`, their expressions as `typed_expressions` reads them, and the
//! programs of `step_meaning` and `call_meaning`. In `specs/`: what a walk over statements finds: names, faults, meaning and tokens (Statements), the functions
//! that may be called (Functions), what is around a statement (Contexts), how deep calls are (Levels), and all of it at a program (Elaborates). Inside the
//! crate: what the walk of the code does (Walking).
#![tactic(auto)]

mod call;
mod context;
mod front;
mod function;
mod functions;
mod guards;
mod levels;
mod plain;
mod simple;
mod statement;

pub use context::{Body, Context};
pub use front::{Parts, Refusal, elaborate, elaborate_unit};
pub use functions::{Functions, Signature};
pub use levels::expression_levels;
