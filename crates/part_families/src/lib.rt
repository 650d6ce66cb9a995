//! What is known of a program whatever formula it is asked about, the check of a family over that, and the families of a formula's smaller parts, part by
//! part from the inside: of the trees that are proposed for a part (`part_trees`), over the families of its operands, each family is what the check leaves,
//! and those of the truth and of `exit` are known by their shape. Of an until or a weak until linear programs propose more (`rank_synthesis`), and the one
//! that claims most stays.
//! The front door: `Premises` with `smaller_parts`, `found`, `left_of`, `checked` and `examined`.
#![tactic(auto)]

mod fitting;
mod improving;
mod known;
mod premises;
mod showing;
mod smaller;
mod until_kind;

pub use fitting::fitted;
pub use premises::{Checked, Premises};
pub use smaller::SmallerParts;
pub use until_kind::UntilKind;
