//! What is seen of the loops of a program: functions that fall in each turn, families of trees that a hint on a loop proposes, guesses at such hints, and
//! how a point that refutes a family splits it.
//!
//! Nothing is promised of a fact, and of a proposal only which trees it has from the trees at hand, and which follow from others; the check decides. It stands on
//! `control_flow` for the bodies of loops, on `backward_sweeps` for the step from label to label, and on `advice` for facts and hints. The
//! front door: `Facts`, `proposal`, `proposal_beside`, `holds_under`, `guesses` and `split`.
#![tactic(auto)]

mod beside;
mod body;
mod facts;
mod falls;
mod guessing;
mod proposing;
mod raising;
mod refuting;
mod splitting;
mod under;

pub use beside::proposal_beside;
pub use facts::Facts;
pub use guessing::{Guess, guesses};
pub use proposing::proposal;
pub use refuting::Point;
pub use splitting::{Fallen, split};
pub use under::holds_under;
