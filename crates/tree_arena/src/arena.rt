//! Trees in one table of distinct nodes.
ghost use Rattle.std.specs.Prelude.{◌≡◌, ◌<◌, ◌≤◌, [], IfOk, OnErr, length};
ghost use Rattle.decision_tree.specs.Plans.{IsEnd, branch, plan_of, size_of, top};
ghost use Rattle.tree_arena.specs.Table.{plan_of_end};
ghost use Rattle.tree_arena.specs.Trees.{AreClosed, AreDistinct, Extends, IsAt, IsThere, Shows, capped_size, tree_at};

use crate::node::{End, Entry, NodeView, RowKey, TreeRef};
use crate::numbering::{end_number, place_of, row_number};
use decision_tree::{Cause, HeldCause, Rank, Tree};
use indexmap::{IndexMap, IndexSet};
use linear_cons::Row;
use std::alloc::{AllocError, Global};
use std::marker::Model;

/// Trees that share their parts: each distinct node stands once, and its row and leaf once in tables of their own. Contracts see the list of the trees
/// whose roots are the nodes, in the order in which they came, no two of which are equal.
///
/// The list only grows, and not by a tree that is there. So a reference keeps its tree after each call, and after one that wanted memory too.
#[derive(Drop)]
pub struct Arena<R: Rank> {
    rows: IndexSet<RowKey>,
    ends: IndexSet<End<R>>,
    /// Beside each node stands the size of its tree without sharing, or the type's last value where that is less.
    nodes: IndexMap<Entry, u64>,
}

impl<R: Rank> Model for Arena<R> {
    ghost use Rattle.std.specs.Coded.{coded_list};
    ghost use Rattle.std.specs.Map.{keys_of};
    ghost use Rattle.std.specs.Prelude.{List};
    ghost use Rattle.decision_tree.specs.Laws.PlanCode.{plan_code};
    ghost use Rattle.decision_tree.specs.Plans.{Plan};
    ghost use Rattle.tree_arena.specs.Table.{IsTable, roots_of, trees_of};

    ghost Value = { List (Plan R) };

    ghost coded = { coded_list (plan_code R.code) };

    ghost view = { λ inside. trees_of (roots_of inside.rows.keys inside.ends.keys (keys_of inside.nodes.entries)) };

    ghost invariant = { λ inside. IsTable inside.rows.keys inside.ends.keys inside.nodes.entries };
}

// A table tells that its parts are distinct wherever it tells their number. So each method asks for the three numbers first.
impl<R: Rank> Arena<R> {
    /// An arena without trees.
    pub fn new(alloc: Global) -> Arena<R>
        ensures { result ≡ [] }
    {
        Arena {
            rows: IndexSet::new(alloc),
            ends: IndexSet::new(alloc),
            nodes: IndexMap::new(alloc),
        }
    }

    /// The number of its trees. No two of them are equal.
    #[inline(never)]
    pub fn entries(&self) -> usize
        ensures count { result ≡ length self.now }
        ensures distinct { AreDistinct self.now }
    {
        let _ = self.rows.len();
        let _ = self.ends.len();
        self.nodes.len()
    }

    /// The number of nodes of the tree without sharing, leaves included, or the type's last value where that is less.
    #[inline(never)]
    pub fn size(&self, tree: TreeRef) -> u64
        requires { tree.place < length self.now }
        ensures { result ≡ capped_size (tree_at self.now tree.place) }
    {
        let _ = self.rows.len();
        let _ = self.ends.len();
        let _ = self.nodes.len();
        self.nodes[tree.place]
    }

    /// What stands at the root of the tree.
    #[inline(never)]
    pub fn view(&self, tree: TreeRef) -> NodeView<'_, R>
        requires { tree.place < length self.now }
        ensures { Shows self.now tree.place result (tree_at self.now tree.place) }
    {
        let _ = self.rows.len();
        let _ = self.ends.len();
        let _ = self.nodes.len();
        match self.nodes.get_index(tree.place) {
            None => unreachable!(),
            Some((Entry::End(number), _)) => match self.ends.get_index(*number) {
                Some(End::Bottom) => NodeView::Bottom,
                Some(End::Top(cause)) => NodeView::Top(cause),
                Some(End::Leaf { why, rank }) => NodeView::Leaf { why, rank },
                None => unreachable!(),
            },
            Some((Entry::Branch { row, yes, no }, _)) => match self.rows.get_index(*row) {
                Some(key) => NodeView::Node {
                    row: &key.row,
                    yes: TreeRef { place: *yes },
                    no: TreeRef { place: *no },
                },
                None => unreachable!(),
            },
        }
    }

    /// A reference to a tree equal to this one, which has no sides. The only error is want of memory.
    #[inline(never)]
    pub fn leaf(&mut self, leaf: &Tree<R>) -> Result<TreeRef, AllocError>
        requires { IsEnd (plan_of leaf.now) }
        ensures tree { IfOk result (λ made. IsAt self.new made (plan_of leaf.now)) }
        ensures kept { Extends self.old self.new }
        ensures there { IsThere self.old (plan_of leaf.now) → self.new ≡ self.old }
        ensures stays { OnErr result (self.new ≡ self.old) }
    {
        match leaf {
            Tree::Bottom => self.end(End::Bottom),
            Tree::Top(cause) => self.end(End::Top(cause.cause())),
            Tree::Leaf { why, rank } => self.end(End::Leaf {
                why: why.why(),
                rank: **rank,
            }),
            Tree::Node { .. } => unreachable!(),
        }
    }

    /// A reference to the leaf.
    #[inline(never)]
    fn end(&mut self, end: End<R>) -> Result<TreeRef, AllocError>
        ensures tree { IfOk result (λ made. IsAt self.new made (plan_of_end end)) }
        ensures kept { Extends self.old self.new }
        ensures there { IsThere self.old (plan_of_end end) → self.new ≡ self.old }
        ensures stays { OnErr result (self.new ≡ self.old) }
    {
        let _ = self.rows.len();
        let _ = self.ends.len();
        let _ = self.nodes.len();
        let number = end_number(&mut self.ends, end)?;
        let place = place_of(&mut self.nodes, Entry::End(number), 1)?;
        Ok(TreeRef { place })
    }

    /// A reference to the tree with the row at its root and the two sides, which may be equal. The only error is want of memory.
    #[inline(never)]
    pub fn node(&mut self, row: &Row, yes: TreeRef, no: TreeRef) -> Result<TreeRef, AllocError>
        requires yes { yes.place < length self.old }
        requires no { no.place < length self.old }
        ensures tree { IfOk result (λ made. IsAt self.new made (branch row.now (tree_at self.old yes.place) (tree_at self.old no.place))) }
        ensures kept { Extends self.old self.new }
        ensures there { IsThere self.old (branch row.now (tree_at self.old yes.place) (tree_at self.old no.place)) → self.new ≡ self.old }
        ensures stays { OnErr result (self.new ≡ self.old) }
    {
        let size = self
            .size(yes)
            .saturating_add(self.size(no))
            .saturating_add(1);
        let _ = self.rows.len();
        let _ = self.ends.len();
        let _ = self.nodes.len();
        let number = row_number(&mut self.rows, RowKey { row: *row })?;
        let entry = Entry::Branch {
            row: number,
            yes: yes.place,
            no: no.place,
        };
        let place = place_of(&mut self.nodes, entry, size)?;
        Ok(TreeRef { place })
    }

    /// A reference to a tree equal to this one. The only error is want of memory; parts of the tree may be in the list after it.
    pub fn put(&mut self, tree: &Tree<R>) -> Result<TreeRef, AllocError>
        ensures tree { IfOk result (λ made. IsAt self.new made (plan_of tree.now)) }
        ensures kept { Extends self.old self.new }
        ensures there { IsThere self.old (plan_of tree.now) → self.new ≡ self.old }
    {
        match tree {
            Tree::Node { row, yes, no } => {
                self.sides_are_there();
                let yes = self.put(yes)?;
                let no = self.put(no)?;
                self.node(row, yes, no)
            }
            leaf => self.leaf(leaf),
        }
    }

    /// The sides of each tree of the list are in it.
    #[inline(never)]
    fn sides_are_there(&self)
        ensures { AreClosed self.now }
    {
        let _ = self.rows.len();
        let _ = self.ends.len();
        let _ = self.nodes.len();
    }

    /// An equal tree in boxes. The only error is want of memory. It is asked for trees as large as are made at most, since what is shared may be exponentially
    /// larger in boxes.
    pub fn take(&self, alloc: Global, tree: TreeRef) -> Result<Tree<R>, AllocError>
        requires place { tree.place < length self.now }
        requires small { size_of (tree_at self.now tree.place) ≤ 65536 }
        ensures { IfOk result (λ made. plan_of made ≡ tree_at self.now tree.place) }
    {
        let made = self.boxed(alloc, tree.place)?;
        Ok(Box::into_inner(made))
    }

    /// An equal tree in a box.
    fn boxed(&self, alloc: Global, place: usize) -> Result<Box<Tree<R>>, AllocError>
        requires { place < length self.now }
        ensures { IfOk result (λ made. plan_of made.value ≡ tree_at self.now place) }
    {
        match self.view(TreeRef { place }) {
            NodeView::Bottom => Tree::boxed_bottom(alloc),
            NodeView::Top(cause) => boxed_top(alloc, cause),
            NodeView::Leaf { why, rank } => Tree::boxed_leaf(alloc, why, rank),
            NodeView::Node { row, yes, no } => {
                let first = self.boxed(alloc, yes.place)?;
                match self.boxed(alloc, no.place) {
                    Ok(second) => Tree::boxed_branch(alloc, row, first, second),
                    Err(error) => {
                        Tree::discard(first);
                        Err(error)
                    }
                }
            }
        }
    }
}

/// No claim, given up for the cause, in a box.
#[inline(never)]
fn boxed_top<R: Rank>(alloc: Global, cause: &Cause) -> Result<Box<Tree<R>>, AllocError>
    ensures { IfOk result (λ made. plan_of made.value ≡ top cause.now) }
{
    let held = HeldCause::of(alloc, cause)?;
    let made = Tree::boxed_top(alloc, &held)?;
    Ok(made)
}
