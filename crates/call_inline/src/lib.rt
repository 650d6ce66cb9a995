//! Programs without calls in place of programs of several functions: the bodies of functions stand in the places of their calls. The runs of both are in step.
#![tactic(auto)]

mod fault;
mod inlining;
mod laws;
mod layout;
mod moving;
mod nesting;
mod room;
mod writer;

pub use fault::InlineFault;
pub use inlining::inline;
pub use laws::framed_runs_are_runs_of_the_inlined_program;
pub use moving::moved;
