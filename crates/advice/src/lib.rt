//! Advisers of the analysis: they are shown facts about loops, and may hint at what could bound a loop.
//!
//! A hint only proposes: what it leads to is checked, so nothing that is claimed rests on it. It stands on `linear_cons`. The front doors:
//! the trait `Adviser`, and `consult`.
#![tactic(auto)]

mod adviser;
mod consulting;
mod fact;
mod fact_adviser;
mod memory;

pub use adviser::Adviser;
pub use consulting::consult;
pub use fact::{FactKind, Hint, LoopFact};
pub use fact_adviser::FactAdviser;
