//! Laws of the syntax that no crate stands on, for who reads its definitions.
//! In `specs/`: trees whose numbers may be wrong (Numbering).
#![tactic(auto)]

mod laws;

pub use laws::trees_can_be_numbered;
