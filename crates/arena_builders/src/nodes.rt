//! What a walk asks of a node of an arena. No row is held across a call that goes deeper.
ghost use Rattle.std.specs.Prelude.{◌≡◌, ℕ, ◌<◌, ◌≤◌, ◌++◌, ◌∷◌, [], IfSome, IsNone, OnErr, OnOk, length};
ghost use Rattle.linear_cons.specs.Settling.{settles};
ghost use Rattle.linear_cons.specs.declared.exact.Wide.{Wide};
ghost use Rattle.linear_cons.specs.declared.row.Row.{Row};
ghost use Rattle.decision_tree.specs.Nodes.{node};
ghost use Rattle.decision_tree.specs.Plans.{IsEnd, is_defined, size_of};
ghost use Rattle.tree_unify.specs.Builds.{given};
ghost use Rattle.tree_unify.specs.declared.fault.TreeFault.TheVariants.{Full, Wide as TooWide};
ghost use Rattle.tree_arena.specs.Trees.{tree_at};
ghost use Rattle.arena_builders.specs.BuildsIn.{BuildsIn};
ghost use Rattle.arena_builders.specs.Nodes.{HasRow, HasSides};

use decision_tree::{MOST_NODES, Rank};
use linear_cons::Row;
use tree_arena::{Arena, NodeView, TreeRef};
use tree_unify::{Stopped, TreeFault, Walk};

/// The sides of the tree, where it has some.
#[inline(never)]
pub(crate) fn sides<R: Rank>(arena: &Arena<R>, tree: TreeRef) -> Option<(TreeRef, TreeRef)>
    requires { tree.place < length arena.now }
    ensures some { IfSome result (λ both. HasSides arena.now tree both) }
    ensures none { IsNone result → IsEnd (tree_at arena.now tree.place) }
{
    match arena.view(tree) {
        NodeView::Node { row: _, yes, no } => Some((yes, no)),
        NodeView::Bottom | NodeView::Top(_) => None,
        NodeView::Leaf { .. } => None,
    }
}

/// The tree that came first. It has no sides, since they would stand before it.
#[inline(never)]
pub(crate) fn first_leaf<R: Rank>(arena: &Arena<R>) -> TreeRef
    requires { 0 < length arena.now }
    ensures { (result.place < length arena.now) × IsEnd (tree_at arena.now result.place) }
{
    let first = TreeRef { place: 0 };
    match arena.view(first) {
        NodeView::Node { .. } => unreachable!(),
        NodeView::Bottom | NodeView::Top(_) => first,
        NodeView::Leaf { .. } => first,
    }
}

/// Whether the tree is a claim.
#[inline(never)]
pub(crate) fn is_claim<R: Rank>(arena: &Arena<R>, tree: TreeRef) -> bool
    requires { tree.place < length arena.now }
    ensures { result ≡ is_defined (tree_at arena.now tree.place) }
{
    match arena.view(tree) {
        NodeView::Leaf { .. } => true,
        NodeView::Bottom | NodeView::Top(_) => false,
        NodeView::Node { .. } => false,
    }
}

/// Whether the rows of the way settle the row of the node.
#[inline(never)]
pub(crate) fn settled<R: Rank>(arena: &Arena<R>, walk: &Walk, tree: TreeRef) -> Option<bool>
    requires { tree.place < length arena.now }
    ensures { (row : Row) → HasRow arena.now tree row → result ≡ settles walk.now.trail row }
{
    match arena.view(tree) {
        NodeView::Node { row, .. } => walk.trail.settles(row),
        NodeView::Bottom | NodeView::Top(_) => None,
        NodeView::Leaf { .. } => None,
    }
}

/// Goes down to the yes side of the node.
#[inline(never)]
pub(crate) fn down<R: Rank>(arena: &Arena<R>, walk: &mut Walk, tree: TreeRef) -> Result<(), Stopped>
    requires { tree.place < length arena.now }
    ensures down { (row : Row) → HasRow arena.now tree row → OnOk result (walk.new.trail ≡ walk.old.trail ++ row ∷ []) }
    ensures full { OnErr result ((count : ℕ) → walk.new.fault ≡ Full count → ⊥) }
    ensures wide { OnErr result ((w : Wide) → walk.new.fault ≡ TooWide w → ⊥) }
{
    match arena.view(tree) {
        NodeView::Node { row, .. } => walk.down_by(row),
        NodeView::Bottom | NodeView::Top(_) => Ok(()),
        NodeView::Leaf { .. } => Ok(()),
    }
}

/// The yes side where both sides are one, else the node of the tree's row with these sides.
#[inline(never)]
pub(crate) fn join_at<R: Rank>(
    arena: &mut Arena<R>,
    walk: &mut Walk,
    tree: TreeRef,
    yes: TreeRef,
    no: TreeRef,
) -> Result<TreeRef, Stopped>
    requires tree { tree.place < length arena.old }
    requires yes { (yes.place < length arena.old) × (size_of (tree_at arena.old yes.place) ≤ 65536) }
    requires no { (no.place < length arena.old) × (size_of (tree_at arena.old no.place) ≤ 65536) }
    ensures { (row : Row) → HasRow arena.old tree row → BuildsIn (given (node R.eq row (tree_at arena.old yes.place) (tree_at arena.old no.place)))
        arena.old arena.new walk.old.trail walk.new result }
{
    let NodeView::Node { row, .. } = arena.view(tree) else {
        return Ok(yes);
    };
    let row = *row;
    join_sides(arena, walk, &row, yes, no)
}

/// The yes side where both sides are one, else the node of the row with these sides.
#[inline(never)]
pub(crate) fn join_sides<R: Rank>(
    arena: &mut Arena<R>,
    walk: &mut Walk,
    row: &Row,
    yes: TreeRef,
    no: TreeRef,
) -> Result<TreeRef, Stopped>
    requires yes { (yes.place < length arena.old) × (size_of (tree_at arena.old yes.place) ≤ 65536) }
    requires no { (no.place < length arena.old) × (size_of (tree_at arena.old no.place) ≤ 65536) }
    ensures { BuildsIn (given (node R.eq row.now (tree_at arena.old yes.place) (tree_at arena.old no.place)))
        arena.old arena.new walk.old.trail walk.new result }
{
    let _ = arena.entries();
    if yes.place == no.place {
        return Ok(yes);
    }
    let size = arena.size(yes) + arena.size(no) + 1;
    if size > MOST_NODES {
        return Err(walk.stop(TreeFault::Full { count: size }));
    }
    match arena.node(row, yes, no) {
        Ok(made) => Ok(made),
        Err(error) => Err(walk.stop(TreeFault::Memory(error))),
    }
}
