//! A table of nodes, and trees as numbers into it.
ghost use Rattle.std.specs.Prelude.{◌<◌, IfSome};
ghost use Rattle.decision_tree.specs.Plans.{IsEnd, plan_of};

use crate::rows::{RowFault, RowTable};
use crate::way::Way;
use decision_tree::{Cause, HeldCause, HeldWhy, MOST_NODES, Rank, Shared, Tree, Why};
use indexmap::{IndexMap, IndexSet};
use std::alloc::{AllocError, Global};
use tree_unify::{Stopped, TreeFault};

/// A node, with its row or its leaf's parts by their numbers, and with its sides by theirs, which are less than its own.
#[derive(Clone, Copy, PartialEq, Eq, Hash)]
pub(crate) enum Node {
    Bottom,
    Top(usize),
    Leaf { why: usize, rank: usize },
    Fork { row: usize, yes: usize, no: usize },
}

/// The number of a row, and of the sides of a node with it.
#[derive(Clone, Copy)]
pub(crate) struct Fork {
    pub(crate) row: usize,
    pub(crate) yes: usize,
    pub(crate) no: usize,
}

/// Trees with shared nodes. A tree is its number, which it keeps. A number that none of its trees has stands for no claim.
#[derive(Drop)]
pub struct Forest<R: Rank> {
    pub(crate) alloc: Global,
    pub(crate) rows: RowTable,
    pub(crate) stepped: IndexMap<usize, usize>,
    pub(crate) fault: TreeFault,
    causes: IndexSet<Cause>,
    reasons: IndexSet<Why>,
    ranks: IndexSet<R>,
    /// The ranks by their numbers, as trees hold them.
    held: Vec<Shared<R>>,
    /// Beside each node stands how many nodes its tree has where nothing is shared.
    nodes: IndexMap<Node, u64>,
}

impl<R: Rank> Forest<R> {
    /// A table without trees.
    pub fn new(alloc: Global) -> Forest<R> {
        Forest {
            alloc,
            rows: RowTable::new(alloc),
            stepped: IndexMap::new(alloc),
            fault: TreeFault::Memory(AllocError),
            causes: IndexSet::new(alloc),
            reasons: IndexSet::new(alloc),
            ranks: IndexSet::new(alloc),
            held: Vec::new(alloc),
            nodes: IndexMap::new(alloc),
        }
    }

    /// Stops a walk with the fault. It stands here so that a level of a walk takes a few words of stack.
    #[inline(never)]
    pub(crate) fn stop(&mut self, fault: TreeFault) -> Stopped {
        self.fault = fault;
        Stopped
    }

    /// How many nodes the tree has where nothing is shared, leaves included.
    #[inline(never)]
    pub fn size(&self, tree: usize) -> u64 {
        match self.nodes.get_index(tree) {
            Some((_, size)) => *size,
            None => 1,
        }
    }

    /// The row and the sides of the tree, where it has some.
    #[inline(never)]
    pub(crate) fn fork(&self, tree: usize) -> Option<Fork>
        ensures { IfSome result (λ fork. (fork.yes < tree) × (fork.no < tree)) }
    {
        match self.nodes.get_index(tree) {
            Some((Node::Fork { row, yes, no }, _)) if *yes < tree && *no < tree => Some(Fork {
                row: *row,
                yes: *yes,
                no: *no,
            }),
            _ => None,
        }
    }

    /// Whether the tree is a claim.
    #[inline(never)]
    pub fn is_claim(&self, tree: usize) -> bool {
        match self.nodes.get_index(tree) {
            Some((Node::Leaf { .. }, _)) => true,
            _ => false,
        }
    }

    /// Whether the tree is a leaf with a cause.
    #[inline(never)]
    pub(crate) fn is_top(&self, tree: usize) -> bool {
        match self.nodes.get_index(tree) {
            Some((Node::Top(_), _)) => true,
            _ => false,
        }
    }

    /// The rank of the claim, where it is one.
    #[inline(never)]
    pub(crate) fn rank(&self, tree: usize) -> Option<R> {
        match self.nodes.get_index(tree) {
            Some((Node::Leaf { why: _, rank }, _)) => self.ranks.get_index(*rank).copied(),
            _ => None,
        }
    }

    /// The tree of the node, which is noted with its size where it wasn't.
    #[inline(never)]
    fn noted(&mut self, node: Node, size: u64) -> Result<usize, AllocError> {
        if let Some(tree) = self.nodes.get_index_of(&node) {
            return Ok(tree);
        }
        let (tree, _) = self.nodes.insert_full(node, size)?;
        Ok(tree)
    }

    /// No claim.
    pub fn bottom(&mut self) -> Result<usize, AllocError> {
        self.noted(Node::Bottom, 1)
    }

    /// No claim, with the cause.
    #[inline(never)]
    pub fn top(&mut self, cause: &Cause) -> Result<usize, AllocError> {
        let (cause, _) = self.causes.insert_full(*cause)?;
        self.noted(Node::Top(cause), 1)
    }

    /// A claim.
    #[inline(never)]
    pub(crate) fn leaf(&mut self, why: &Why, rank: &R) -> Result<usize, AllocError> {
        let (why, _) = self.reasons.insert_full(*why)?;
        let rank = self.rank_number(rank)?;
        self.noted(Node::Leaf { why, rank }, 1)
    }

    /// The number of the rank, which is noted where it wasn't.
    fn rank_number(&mut self, rank: &R) -> Result<usize, AllocError> {
        if let Some(number) = self.ranks.get_index_of(rank) {
            return Ok(number);
        }
        let held = Shared::new(self.alloc, *rank)?;
        self.held.push(held)?;
        match self.ranks.insert_full(*rank) {
            Ok((number, _)) => Ok(number),
            Err(error) => {
                let _ = self.held.pop();
                Err(error.into())
            }
        }
    }

    /// The yes side where both sides are one, else the node of the row with these sides.
    #[inline(never)]
    pub(crate) fn join_sides(
        &mut self,
        row: usize,
        yes: usize,
        no: usize,
    ) -> Result<usize, Stopped> {
        if yes == no {
            return Ok(yes);
        }
        let size = self
            .size(yes)
            .saturating_add(self.size(no))
            .saturating_add(1);
        if size > MOST_NODES {
            return Err(self.stop(TreeFault::Full { count: size }));
        }
        match self.noted(Node::Fork { row, yes, no }, size) {
            Ok(tree) => Ok(tree),
            Err(error) => Err(self.stop(TreeFault::Memory(error))),
        }
    }

    /// The number of a tree equal to this one. The only error is want of memory.
    pub fn put(&mut self, tree: &Tree<R>) -> Result<usize, AllocError> {
        match tree {
            Tree::Bottom => self.put_end(tree),
            Tree::Top(_) => self.put_end(tree),
            Tree::Leaf { .. } => self.put_end(tree),
            Tree::Node { row, yes, no } => {
                let yes = self.put(yes)?;
                let no = self.put(no)?;
                let row = self.rows.number(row)?;
                let size = self
                    .size(yes)
                    .saturating_add(self.size(no))
                    .saturating_add(1);
                self.noted(Node::Fork { row, yes, no }, size)
            }
        }
    }

    /// The same of a tree without sides. It stands apart, and is called from some places so that it does in any build, since `put` recurs along a tree.
    #[inline(never)]
    fn put_end(&mut self, end: &Tree<R>) -> Result<usize, AllocError>
        requires { IsEnd (plan_of end.now) }
    {
        match end {
            Tree::Bottom => self.bottom(),
            Tree::Top(cause) => self.top(&cause.cause()),
            Tree::Leaf { why, rank } => self.leaf(&why.why(), rank),
            Tree::Node { .. } => unreachable!(),
        }
    }

    /// An equal tree in boxes. The only error is want of memory.
    pub fn take(&self, alloc: Global, tree: usize) -> Result<Tree<R>, AllocError> {
        let made = match self.fork(tree) {
            Some(_) => self.boxed(alloc, tree)?,
            None => self.boxed_leaf(alloc, tree)?,
        };
        Ok(Box::into_inner(made))
    }

    /// An equal tree in a box.
    fn boxed(&self, alloc: Global, tree: usize) -> Result<Box<Tree<R>>, AllocError> {
        let Some(fork) = self.fork(tree) else {
            return self.boxed_leaf(alloc, tree);
        };
        let yes = self.boxed(alloc, fork.yes)?;
        match self.boxed(alloc, fork.no) {
            Ok(no) => self.boxed_fork(alloc, fork.row, yes, no),
            Err(error) => {
                Tree::discard(yes);
                Err(error)
            }
        }
    }

    /// A node of the row in a box.
    #[inline(never)]
    fn boxed_fork(
        &self,
        alloc: Global,
        row: usize,
        yes: Box<Tree<R>>,
        no: Box<Tree<R>>,
    ) -> Result<Box<Tree<R>>, AllocError> {
        match self.rows.held(row) {
            Some(row) => Tree::shared_branch(alloc, row, yes, no),
            None => Ok(yes),
        }
    }

    /// A leaf in a box.
    #[inline(never)]
    fn boxed_leaf(&self, alloc: Global, tree: usize) -> Result<Box<Tree<R>>, AllocError> {
        match self.nodes.get_index(tree) {
            Some((Node::Top(cause), _)) => match self.causes.get_index(*cause) {
                Some(cause) => Tree::boxed_top(alloc, &HeldCause::of(alloc, cause)?),
                None => Tree::boxed_bottom(alloc),
            },
            Some((Node::Leaf { why, rank }, _)) => {
                match (self.reasons.get_index(*why), self.held.get(*rank)) {
                    (Some(why), Some(rank)) => {
                        Tree::shared_leaf(alloc, &HeldWhy::of(alloc, why)?, rank)
                    }
                    _ => Tree::boxed_bottom(alloc),
                }
            }
            _ => Tree::boxed_bottom(alloc),
        }
    }

    /// Goes down to the yes side of a node with the row.
    #[inline(never)]
    pub(crate) fn down(&mut self, way: &mut Way, row: usize) -> Result<(), Stopped> {
        let Some(facts) = self.rows.facts(row) else {
            return Ok(());
        };
        match way.down(row, &facts) {
            Ok(()) => Ok(()),
            Err(error) => Err(self.stop(TreeFault::Memory(error))),
        }
    }

    /// Goes over from the yes side of a node to its no side.
    #[inline(never)]
    pub(crate) fn turn(&mut self, way: &mut Way) -> Result<(), Stopped> {
        let Some(row) = way.last() else {
            return Ok(());
        };
        match self.rows.complement(row) {
            Ok(complement) => {
                way.up();
                self.down(way, complement)
            }
            Err(fault) => Err(self.stop_without_row(fault)),
        }
    }

    /// Stops a walk for which a row can't be formed.
    #[inline(never)]
    pub(crate) fn stop_without_row(&mut self, fault: RowFault) -> Stopped {
        match fault {
            RowFault::Wide(wide) => self.stop(TreeFault::Wide(wide)),
            RowFault::Memory(error) => self.stop(TreeFault::Memory(error)),
        }
    }

    /// Whether the rows of the way settle the row.
    #[inline(never)]
    pub(crate) fn settled(&self, way: &Way, row: usize) -> Option<bool> {
        let facts = self.rows.facts(row)?;
        way.settles(&facts)
    }
}
