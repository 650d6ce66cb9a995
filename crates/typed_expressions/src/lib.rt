//! Expressions of concrete trees: their names, sorts and divisors, and the expressions that they stand for. Front door: `Walk` with `expression`, `number`
//! and `test`. In `specs/`: how operators group (Grouping), which names may be used where (Scopes), what expressions stand for (Expressions), faults in their
//! order (Faults), where tokens stand in the text (Offsets). For this crate and the walk over statements above it: what a walk does (Walking, Typing).
#![tactic(auto)]

mod expression;
mod fault;
mod grouping;
mod laws;
mod scope;
mod typed;
mod walk;

pub use expression::operation;
pub use fault::{Fault, Rule, earlier};
pub use laws::{one_group_is_by_the_ladder, operators_group_by_the_ladder};
pub use scope::{MOST_VARIABLES, Scope, Variables, position};
pub use typed::{Sort, Typed};
pub use walk::Walk;
