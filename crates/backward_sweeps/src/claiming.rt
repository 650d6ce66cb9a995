//! Claims that are taken over from another part.
ghost use Rattle.std.specs.Prelude.{◌≡◌, IfOk};
ghost use Rattle.decision_tree.specs.Plans.{plan_of};
ghost use Rattle.backward_sweeps.specs.Claiming.{taken_over};
ghost use Rattle.backward_sweeps.specs.Moving.{at_once};

use decision_tree::{AffineRank, HeldWhy, Tree, Why};
use linear_cons::Affine;
use std::alloc::{AllocError, Global};

/// The claims of the tree with the rank 0, for the reason that is given or else each for its own. Nodes whose sides come out equal are left
/// out. The only error is want of memory.
pub fn taken_over(
    alloc: Global,
    tree: &Tree<AffineRank>,
    why: Option<Why>,
) -> Result<Tree<AffineRank>, AllocError>
    ensures { IfOk result (λ made. plan_of made ≡ taken_over why (plan_of tree.now)) }
{
    let made = boxed(alloc, tree, &why)?;
    Ok(Box::into_inner(made))
}

/// The same, in a box.
fn boxed(
    alloc: Global,
    tree: &Tree<AffineRank>,
    why: &Option<Why>,
) -> Result<Box<Tree<AffineRank>>, AllocError>
    ensures { IfOk result (λ made. plan_of made.value ≡ taken_over why.now (plan_of tree.now)) }
{
    match tree {
        Tree::Bottom => Tree::boxed_bottom(alloc),
        Tree::Top(cause) => Tree::boxed_top(alloc, cause),
        Tree::Leaf { why: own, rank: _ } => match why {
            Some(given) => nought(alloc, given),
            None => nought_held(alloc, own),
        },
        Tree::Node { row, yes, no } => {
            let yes = boxed(alloc, yes, why)?;
            match boxed(alloc, no, why) {
                Ok(no) => Tree::shared_node(alloc, row, yes, no),
                Err(error) => {
                    Tree::discard(yes);
                    Err(error)
                }
            }
        }
    }
}

/// A claim of rank 0 for a reason that a tree holds.
#[inline(never)]
fn nought_held(alloc: Global, why: &HeldWhy) -> Result<Box<Tree<AffineRank>>, AllocError>
    ensures { IfOk result (λ made. plan_of made.value ≡ at_once why.now) }
{
    nought(alloc, &why.why())
}

/// A claim of rank 0 for the reason.
#[inline(never)]
fn nought(alloc: Global, why: &Why) -> Result<Box<Tree<AffineRank>>, AllocError>
    ensures { IfOk result (λ made. plan_of made.value ≡ at_once why.now) }
{
    let rank = AffineRank {
        value: Affine::constant(0),
    };
    Tree::boxed_leaf(alloc, why, &rank)
}
