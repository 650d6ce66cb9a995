//! The part of the newer tree that is still to be looked at.
ghost use Rattle.std.specs.Prelude.{◌≡◌, [], ◌∷◌, ◌++◌, length};
ghost use Rattle.linear_cons.specs.Rows.{complement};
ghost use Rattle.decision_tree.specs.Plans.{plan_of};
ghost use Rattle.tree_widening.specs.Leaves.{beginning};

use decision_tree::{Rank, Trail, Tree};
use linear_cons::Row;

/// Where the newer tree begins on the yes side and on the no side of a node with the row, which stands where
/// it begins at `rest`. A side whose row is opposed to one on the way looks at the whole tree again: no store
/// comes there, and rows that the way settled may be settled the other way.
pub(crate) fn beginnings<'a, R: Rank>(
    trail: &Trail,
    row: &Row,
    new: &'a Tree<R>,
    rest: &'a Tree<R>,
) -> (&'a Tree<R>, &'a Tree<R>)
    requires { beginning trail.now (plan_of rest.now) ≡ beginning trail.now (plan_of new.now) }
    ensures yes_side { beginning (trail.now ++ row.now ∷ []) (plan_of result.0.now) ≡ beginning (trail.now ++ row.now ∷ []) (plan_of new.now) }
    ensures no_side { beginning (trail.now ++ complement row.now ∷ []) (plan_of result.1.now)
        ≡ beginning (trail.now ++ complement row.now ∷ []) (plan_of new.now) }
{
    has_sixteen_places(row);
    let next = beginning(trail, rest);
    match trail.settles(row) {
        Some(true) => (next, new),
        Some(false) => (new, next),
        None => (next, next),
    }
}

/// Where the tree begins behind the rows of the trail: at the first node whose row they don't settle, or at
/// a leaf.
fn beginning<'a, R: Rank>(trail: &Trail, tree: &'a Tree<R>) -> &'a Tree<R>
    ensures { plan_of result.now ≡ beginning trail.now (plan_of tree.now) }
{
    let mut at = tree;
    while let Tree::Node { row, yes, no } = at {
        match trail.settles(row) {
            Some(true) => at = yes,
            Some(false) => at = no,
            None => break,
        }
    }
    at
}

/// A row of the type has sixteen coefficients. It has no effect.
fn has_sixteen_places(row: &Row)
    ensures { length row.now.affine.coef ≡ 16 }
{
    let _ = row.affine.coef[0];
}
