//! Nodes of an arena, references to them, and the rows and leaves that they have by number.
use decision_tree::{Cause, Rank, Why};
use linear_cons::Row;
use std::hash::{Hash, Hasher};

/// A tree of an arena, by its place in the list of its trees. References of one arena are equal exactly where their trees are.
#[derive(Clone, Copy, PartialEq, Eq, Debug)]
pub struct TreeRef {
    pub place: usize,
}

/// What stands at the root of a tree of an arena.
#[derive(Clone, Copy)]
pub enum NodeView<'a, R: Rank> {
    /// No claim.
    Bottom,
    /// No claim, and what it was given up for.
    Top(&'a Cause),
    /// A claim, with its reason and its rank.
    Leaf {
        why: &'a Why,
        rank: &'a R,
    },
    /// The side `yes` holds where the row's value is at least 0, `no` where it is below. Both stand at places before the tree's.
    Node {
        row: &'a Row,
        yes: TreeRef,
        no: TreeRef,
    },
}

/// A node, with its leaf or its row by number, and its sides by their places, which are before its own.
#[derive(Clone, Copy, PartialEq, Eq, Hash)]
pub(crate) enum Entry {
    End(usize),
    Branch { row: usize, yes: usize, no: usize },
}

/// A row of the table of rows. It is hashed by its constant alone: its coefficients are sixteen numbers of 128 bits, and of those of a program's rows there are
/// few.
#[derive(Clone, Copy)]
pub(crate) struct RowKey {
    pub(crate) row: Row,
}

impl PartialEq for RowKey {
    ghost use Rattle.std.specs.Cmp.{partial_equiv_from_equiv};
    ghost use Rattle.decision_tree.specs.Laws.EqualityLaws.{equivalence_by};
    ghost use Rattle.decision_tree.specs.Equality.{same_row};
    ghost use Rattle.linear_cons.proofs.RowLaws.{row_eq-Decides};

    ghost eq = { λ key other. same_row key.row other.row };

    ghost laws = { partial_equiv_from_equiv (equivalence_by (λ key. key.row) _ (λ key other. row_eq-Decides key.row other.row)) };

    fn eq(&self, other: &RowKey) -> bool {
        self.row == other.row
    }
}

impl Eq for RowKey {
    ghost use Rattle.decision_tree.specs.Laws.EqualityLaws.{equivalence_by};
    ghost use Rattle.linear_cons.proofs.RowLaws.{row_eq-Decides};

    ghost laws = { equivalence_by (λ key. key.row) _ (λ key other. row_eq-Decides key.row other.row) };
}

impl Hash for RowKey {
    ghost use Rattle.std.proofs.Common.{ap};
    ghost use Rattle.linear_cons.proofs.RowLaws.{row_eq-Decides};
    ghost use Rattle.tree_arena.specs.Equality.{input_of_row};

    ghost hash_input = { λ key. input_of_row key.row };

    ghost respects_eq = { λ key other same. ap input_of_row ((row_eq-Decides key.row other.row).0 same) };

    fn hash<H: Hasher>(&self, state: &mut H) {
        state.write_i128(self.row.affine.constant);
    }
}

/// A leaf of the table of leaves. It is hashed by its kind and its rank: there are few reasons and causes.
#[derive(Clone, Copy)]
pub(crate) enum End<R: Rank> {
    Bottom,
    Top(Cause),
    Leaf { why: Why, rank: R },
}

impl<R: Rank> PartialEq for End<R> {
    ghost use Rattle.std.specs.Cmp.{partial_equiv_from_equiv};
    ghost use Rattle.decision_tree.specs.Laws.EqualityLaws.{equivalence_by};
    ghost use Rattle.tree_arena.specs.Equality.{same_end};
    ghost use Rattle.tree_arena.specs.Laws.EndLaws.{end_eq-Decides};

    ghost eq = { λ end other. same_end R.eq end other };

    ghost laws = { partial_equiv_from_equiv (equivalence_by (λ end. end) _
        (λ end other. end_eq-Decides R.eq R.Rank.equal_law end other)) };

    fn eq(&self, other: &End<R>) -> bool {
        match (self, other) {
            (End::Bottom, End::Bottom) => true,
            (End::Top(cause), End::Top(given)) => cause == given,
            (
                End::Leaf { why, rank },
                End::Leaf {
                    why: reason,
                    rank: second,
                },
            ) => why == reason && rank == second,
            _ => false,
        }
    }
}

impl<R: Rank> Eq for End<R> {
    ghost use Rattle.decision_tree.specs.Laws.EqualityLaws.{equivalence_by};
    ghost use Rattle.tree_arena.specs.Laws.EndLaws.{end_eq-Decides};

    ghost laws = { equivalence_by (λ end. end) _ (λ end other. end_eq-Decides R.eq R.Rank.equal_law end other) };
}

impl<R: Rank> Hash for End<R> {
    ghost use Rattle.std.proofs.Common.{ap};
    ghost use Rattle.tree_arena.specs.Equality.{input_of_end};
    ghost use Rattle.tree_arena.specs.Laws.EndLaws.{end_eq-Decides};

    ghost hash_input = { λ end. input_of_end R.hash_input end };

    ghost respects_eq = { λ end other same.
        ap (input_of_end R.hash_input) ((end_eq-Decides R.eq R.Rank.equal_law end other).0 same) };

    fn hash<H: Hasher>(&self, state: &mut H) {
        match self {
            End::Bottom => state.write_u8(0),
            End::Top(_) => state.write_u8(1),
            End::Leaf { why: _, rank } => {
                state.write_u8(2);
                rank.hash(state);
            }
        }
    }
}
