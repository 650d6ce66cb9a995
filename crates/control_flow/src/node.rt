//! What a graph keeps of a label.

use step_meaning::Expr;

/// What is done at a label, and the numbers of the labels that follow.
#[derive(Drop)]
pub(crate) enum Node {
    End,
    Assign {
        var: u8,
        value: Expr,
        next: u32,
    },
    Pass {
        next: u32,
    },
    /// The test of a loop's head, or of an `if`.
    Test {
        is_head: bool,
        test: Expr,
        yes: u32,
        no: u32,
    },
}
