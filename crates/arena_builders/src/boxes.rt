//! Trees of an arena taken into boxes, however large.
ghost use Rattle.std.specs.Prelude.{◌≡◌, ◌<◌, IfOk, length};
ghost use Rattle.decision_tree.specs.Plans.{plan_of};
ghost use Rattle.tree_arena.specs.Trees.{tree_at};

use decision_tree::{MOST_NODES, Rank, Tree};
use std::alloc::{AllocError, Global};
use tree_arena::{Arena, NodeView, TreeRef};

/// An equal tree.
pub(crate) fn taken<R: Rank>(
    alloc: Global,
    arena: &Arena<R>,
    tree: TreeRef,
) -> Result<Tree<R>, AllocError>
    requires { tree.place < length arena.now }
    ensures { IfOk result (λ made. plan_of made ≡ tree_at arena.now tree.place) }
{
    let made = boxed(alloc, arena, tree)?;
    Ok(Box::into_inner(made))
}

/// An equal tree in a box. The arena takes out what has at most 65,536 nodes, and so parts of larger trees.
fn boxed<R: Rank>(
    alloc: Global,
    arena: &Arena<R>,
    tree: TreeRef,
) -> Result<Box<Tree<R>>, AllocError>
    requires { tree.place < length arena.now }
    ensures { IfOk result (λ made. plan_of made.value ≡ tree_at arena.now tree.place) }
{
    if arena.size(tree) <= MOST_NODES {
        let made = arena.take(alloc, tree)?;
        let made = Box::new(alloc, made)?;
        return Ok(made);
    }
    match arena.view(tree) {
        NodeView::Node { row, yes, no } => {
            let first = boxed(alloc, arena, yes)?;
            match boxed(alloc, arena, no) {
                Ok(second) => Tree::boxed_branch(alloc, row, first, second),
                Err(error) => {
                    Tree::discard(first);
                    Err(error)
                }
            }
        }
        NodeView::Bottom | NodeView::Top(_) => unreachable!(),
        NodeView::Leaf { .. } => unreachable!(),
    }
}
