//! Trees of rows with ranks at their leaves.
ghost use Rattle.std.specs.Prelude.{◌≡◌, ◌<◌, ◌-◌, ◌^◌, ◌↔◌, false, min, IsTrue, IsOk, IfOk, IfErr};
ghost use Rattle.linear_cons.specs.Exact.{IsOutside};
ghost use Rattle.decision_tree.specs.Equality.{same_plan};
ghost use Rattle.decision_tree.specs.Evaluation.{WayFits, eval};
ghost use Rattle.decision_tree.specs.Nodes.{node};
ghost use Rattle.decision_tree.specs.Paths.{with_leaf};
ghost use Rattle.decision_tree.specs.Plans.{bottom, branch, leaf, leaves_of, plan_of, size_of, top};
ghost use Rattle.decision_tree.specs.Seeking.{IsReplaced};

use crate::held_reason::{HeldCause, HeldWhy};
use crate::rank::Rank;
use crate::reason::{Cause, Why};
use crate::shared::Shared;
use linear_cons::{Row, Wide};
use std::alloc::{AllocError, Global};
use std::mem;

/// The most nodes of a tree that is made or widened, leaves included.
pub const MOST_NODES: u64 = 65_536;

/// A tree that divides the stores by the sides of its rows. What is longer than a few words stands elsewhere, and a copy of a tree
/// holds the same rows and ranks once more.
pub enum Tree<R: Rank> {
    /// No claim.
    Bottom,
    /// No claim, and what it was given up for.
    Top(HeldCause),
    /// A claim, with its reason and its rank.
    Leaf {
        why: HeldWhy,
        rank: Shared<R>,
    },
    /// The side `yes` holds where the row's value is at least 0, `no` where it is below.
    Node {
        row: Shared<Row>,
        yes: Box<Tree<R>>,
        no: Box<Tree<R>>,
    },
}

impl<R: Rank> Drop for Tree<R> {
    // A loop, since a tree may be a long line: while the yes side of the root has sides of its own,
    // it moves to the no side, in the box that it has. The yes side that is dropped is a leaf.
    #[cycle(drop_trees)]
    fn drop(mut self) {
        loop {
            match self {
                Tree::Bottom | Tree::Top(_) => return,
                Tree::Leaf { why: _, rank: _ } => return,
                Tree::Node { row, mut yes, no } => {
                    if let Tree::Node { no: inner, .. } = &mut *yes {
                        let next = mem::replace(inner, no);
                        self = Tree::Node {
                            row,
                            yes: next,
                            no: yes,
                        };
                    } else {
                        self = Box::into_inner(no);
                    }
                }
            }
        }
    }
}

impl<R: Rank> PartialEq for Tree<R> {
    ghost use Rattle.decision_tree.specs.Laws.EqualityLaws.{equivalence_by, plan_eq-Decides};
    ghost use Rattle.std.specs.Cmp.{partial_equiv_from_equiv};

    ghost eq = { λ tree other. same_plan R.eq (plan_of tree) (plan_of other) };

    ghost laws = { partial_equiv_from_equiv (equivalence_by plan_of _
        (λ tree other. plan_eq-Decides R.eq R.Rank.equal_law (plan_of tree) (plan_of other))) };

    /// True exactly where the trees have the same shape, with identical rows, reasons, causes and ranks.
    fn eq(&self, other: &Tree<R>) -> bool
        ensures tested { result ≡ same_plan R.eq (plan_of self.now) (plan_of other.now) }
        ensures identical { IsTrue result ↔ (plan_of self.now ≡ plan_of other.now) }
    {
        self.is_same(other)
    }
}

impl<R: Rank> Eq for Tree<R> {
    ghost use Rattle.decision_tree.specs.Laws.EqualityLaws.{equivalence_by, plan_eq-Decides};

    ghost laws = { equivalence_by plan_of _ (λ tree other. plan_eq-Decides R.eq R.Rank.equal_law (plan_of tree) (plan_of other)) };
}

impl<R: Rank> Tree<R> {
    /// The number of nodes, leaves included, or the type's last value where that is less.
    pub fn size(&self) -> u64
        ensures { result ≡ min (size_of (plan_of self.now)) (2 ^ 64 - 1) }
    {
        match self {
            Tree::Bottom | Tree::Top(_) | Tree::Leaf { .. } => 1,
            Tree::Node { row: _, yes, no } => yes
                .size()
                .saturating_add(no.size())
                .saturating_add(1),
        }
    }

    /// The number of leaves, or the type's last value where that is less.
    pub fn leaves(&self) -> u64
        ensures { result ≡ min (leaves_of (plan_of self.now)) (2 ^ 64 - 1) }
    {
        match self {
            Tree::Bottom | Tree::Top(_) | Tree::Leaf { .. } => 1,
            Tree::Node { row: _, yes, no } => yes.leaves().saturating_add(no.leaves()),
        }
    }

    /// The leaf at which the store stands. `Wide` comes exactly where the value of a row on the way
    /// to it, or a number that the value is summed up from, lies outside `i128`.
    pub fn leaf_at(&self, store: &[i128; 16]) -> Result<&Tree<R>, Wide>
        ensures leaf { IfOk result (λ leaf. plan_of leaf.now ≡ eval (plan_of self.now) store.now) }
        ensures fits { IsOk result ↔ WayFits (plan_of self.now) store.now }
        ensures wide { IfErr result IsOutside }
    {
        let mut at = self;
        while let Tree::Node { row, yes, no } = at {
            let value = row.affine.value(store)?;
            at = if value < 0 { no } else { yes };
        }
        Ok(at)
    }

    /// What `==` answers.
    fn is_same(&self, other: &Tree<R>) -> bool
        ensures { result ≡ same_plan R.eq (plan_of self.now) (plan_of other.now) }
    {
        match (self, other) {
            (Tree::Bottom, Tree::Bottom) => true,
            (Tree::Top(cause), Tree::Top(given)) => cause.is_same(given),
            (
                Tree::Leaf { why, rank },
                Tree::Leaf {
                    why: reason,
                    rank: second,
                },
            ) => why.is_same(reason) && **rank == **second,
            (
                Tree::Node { row, yes, no },
                Tree::Node {
                    row: given,
                    yes: first,
                    no: second,
                },
            ) => **row == **given && yes.is_same(first) && no.is_same(second),
            _ => false,
        }
    }

    /// An equal tree.
    pub fn copy(&self, alloc: Global) -> Result<Tree<R>, AllocError>
        ensures { IfOk result (λ twin. plan_of twin ≡ plan_of self.now) }
    {
        let twin = self.boxed(alloc)?;
        Ok(Box::into_inner(twin))
    }

    /// Puts `Top` with the cause in place of the leaf with the number; all else stays. Leaves are numbered
    /// from 0, yes sides first. It takes no memory.
    pub fn undefine(&mut self, leaf: u64, cause: HeldCause)
        requires { leaf < leaves_of (plan_of self.old) }
        ensures { plan_of self.new ≡ with_leaf (plan_of self.old) leaf (top cause) }
    {
        let mut left = leaf;
        let mut given = Tree::Top(cause);
        let _ = self.replace_after(&mut left, &mut given);
    }

    /// Swaps the leaf that `left` others come before with the given one, and counts `left` down by each that it passes.
    /// True where it was found.
    fn replace_after(&mut self, left: &mut u64, given: &mut Tree<R>) -> bool
        ensures replaced { IsReplaced (plan_of self.old) left.old left.new (plan_of given.old) (plan_of self.new) result }
        ensures stays { result ≡ false → given.new ≡ given.old }
    {
        match self {
            Tree::Bottom | Tree::Top(_) | Tree::Leaf { .. } => {
                if *left == 0 {
                    mem::swap(self, given);
                    return true;
                }
                *left -= 1;
                false
            }
            Tree::Node { row: _, yes, no } => {
                yes.replace_after(left, given) || no.replace_after(left, given)
            }
        }
    }

    /// A claim, with its reason and its rank.
    pub fn claim(alloc: Global, why: &Why, rank: &R) -> Result<Tree<R>, AllocError>
        ensures { IfOk result (λ tree. plan_of tree ≡ leaf why.now rank.now) }
    {
        let why = HeldWhy::of(alloc, why)?;
        let rank = Shared::new(alloc, *rank)?;
        Ok(Tree::Leaf { why, rank })
    }

    /// No claim, given up for the cause.
    pub fn given_up(alloc: Global, cause: &Cause) -> Result<Tree<R>, AllocError>
        ensures { IfOk result (λ tree. plan_of tree ≡ top cause.now) }
    {
        let cause = HeldCause::of(alloc, cause)?;
        Ok(Tree::Top(cause))
    }

    /// The tree with the row at its root and the two sides.
    pub fn branch(alloc: Global, row: Row, yes: Tree<R>, no: Tree<R>) -> Result<Tree<R>, AllocError>
        ensures { IfOk result (λ tree. plan_of tree ≡ branch row (plan_of yes) (plan_of no)) }
    {
        let yes = Box::new(alloc, yes)?;
        let no = Box::new(alloc, no)?;
        let row = Shared::new(alloc, row)?;
        Ok(Tree::Node { row, yes, no })
    }

    /// The yes side where both sides are equal, else the tree with the row at its root.
    pub fn node(alloc: Global, row: Row, yes: Tree<R>, no: Tree<R>) -> Result<Tree<R>, AllocError>
        ensures { IfOk result (λ tree. plan_of tree ≡ node R.eq row (plan_of yes) (plan_of no)) }
    {
        if yes == no {
            return Ok(yes);
        }
        Tree::branch(alloc, row, yes, no)
    }
}

/// Building in boxes. A recursion along a tree may be 32,767 levels deep, so that it holds references,
/// boxes and words alone, and makes each tree in a call of its own: then a level takes a few words of
/// stack, and a tree of 65,536 nodes is walked on a stack of eight megabytes. These are such calls.
impl<R: Rank> Tree<R> {
    /// An equal tree.
    pub fn boxed(&self, alloc: Global) -> Result<Box<Tree<R>>, AllocError>
        ensures { IfOk result (λ twin. plan_of twin.value ≡ plan_of self.now) }
    {
        match self {
            Tree::Bottom => Tree::boxed_bottom(alloc),
            Tree::Top(cause) => Tree::boxed_top(alloc, cause),
            Tree::Leaf { why, rank } => Tree::shared_leaf(alloc, why, rank),
            Tree::Node { row, yes, no } => {
                let yes = yes.boxed(alloc)?;
                match no.boxed(alloc) {
                    Ok(no) => Tree::shared_branch(alloc, row, yes, no),
                    Err(error) => {
                        Tree::discard(yes);
                        Err(error)
                    }
                }
            }
        }
    }

    /// Drops the tree.
    #[inline(never)]
    pub fn discard(_tree: Box<Tree<R>>) {}

    /// No claim.
    #[inline(never)]
    pub fn boxed_bottom(alloc: Global) -> Result<Box<Tree<R>>, AllocError>
        ensures { IfOk result (λ tree. plan_of tree.value ≡ bottom) }
    {
        let tree = Box::new(alloc, Tree::Bottom)?;
        Ok(tree)
    }

    /// No claim, given up for the cause.
    #[inline(never)]
    pub fn boxed_top(alloc: Global, cause: &HeldCause) -> Result<Box<Tree<R>>, AllocError>
        ensures { IfOk result (λ tree. plan_of tree.value ≡ top cause.now) }
    {
        let tree = Box::new(alloc, Tree::Top(cause.share()?))?;
        Ok(tree)
    }

    /// A claim, with its reason and its rank.
    #[inline(never)]
    pub fn boxed_leaf(alloc: Global, why: &Why, rank: &R) -> Result<Box<Tree<R>>, AllocError>
        ensures { IfOk result (λ tree. plan_of tree.value ≡ leaf why.now rank.now) }
    {
        let tree = Tree::claim(alloc, why, rank)?;
        let tree = Box::new(alloc, tree)?;
        Ok(tree)
    }

    /// A claim, with a reason and a rank that another tree holds.
    #[inline(never)]
    pub fn shared_leaf(
        alloc: Global,
        why: &HeldWhy,
        rank: &Shared<R>,
    ) -> Result<Box<Tree<R>>, AllocError>
        ensures { IfOk result (λ tree. plan_of tree.value ≡ leaf why.now rank.now) }
    {
        let why = why.share()?;
        let rank = rank.share()?;
        let tree = Box::new(alloc, Tree::Leaf { why, rank })?;
        Ok(tree)
    }

    /// The tree with the row at its root and the two sides.
    #[inline(never)]
    pub fn boxed_branch(
        alloc: Global,
        row: &Row,
        yes: Box<Tree<R>>,
        no: Box<Tree<R>>,
    ) -> Result<Box<Tree<R>>, AllocError>
        ensures { IfOk result (λ tree. plan_of tree.value ≡ branch row.now (plan_of yes.value) (plan_of no.value)) }
    {
        let row = Shared::new(alloc, *row)?;
        let tree = Box::new(alloc, Tree::Node { row, yes, no })?;
        Ok(tree)
    }

    /// The same, with a row that another tree holds.
    #[inline(never)]
    pub fn shared_branch(
        alloc: Global,
        row: &Shared<Row>,
        yes: Box<Tree<R>>,
        no: Box<Tree<R>>,
    ) -> Result<Box<Tree<R>>, AllocError>
        ensures { IfOk result (λ tree. plan_of tree.value ≡ branch row.now (plan_of yes.value) (plan_of no.value)) }
    {
        let row = row.share()?;
        let tree = Box::new(alloc, Tree::Node { row, yes, no })?;
        Ok(tree)
    }

    /// The yes side where both sides are equal, else the tree with the row at its root.
    #[inline(never)]
    pub fn boxed_node(
        alloc: Global,
        row: &Row,
        yes: Box<Tree<R>>,
        no: Box<Tree<R>>,
    ) -> Result<Box<Tree<R>>, AllocError>
        ensures { IfOk result (λ tree. plan_of tree.value ≡ node R.eq row.now (plan_of yes.value) (plan_of no.value)) }
    {
        if yes.is_same(&no) {
            return Ok(yes);
        }
        Tree::boxed_branch(alloc, row, yes, no)
    }

    /// The same, with a row that another tree holds.
    #[inline(never)]
    pub fn shared_node(
        alloc: Global,
        row: &Shared<Row>,
        yes: Box<Tree<R>>,
        no: Box<Tree<R>>,
    ) -> Result<Box<Tree<R>>, AllocError>
        ensures { IfOk result (λ tree. plan_of tree.value ≡ node R.eq row.now (plan_of yes.value) (plan_of no.value)) }
    {
        if yes.is_same(&no) {
            return Ok(yes);
        }
        Tree::shared_branch(alloc, row, yes, no)
    }
}
