//! Trees trimmed, and two trees joined leaf by leaf.
use crate::forest::{Forest, Fork};
use crate::way::Way;
use decision_tree::Rank;
use tree_unify::{Join, Stopped, TreeFault, later};

impl<R: Rank> Forest<R> {
    /// The first tree joined with the second, as `either`, `both` and `later` join them.
    pub fn join(&mut self, join: Join, first: usize, second: usize) -> Result<usize, TreeFault> {
        let mut way = Way::new(self.alloc);
        match self.graft(&mut way, join, first, second) {
            Ok(made) => Ok(made),
            Err(_) => Err(self.fault),
        }
    }

    /// The tree trimmed, as `trim` trims it.
    pub(crate) fn trim(&mut self, tree: usize) -> Result<usize, TreeFault> {
        let none = self.bottom()?;
        let mut way = Way::new(self.alloc);
        match self.lay(&mut way, Join::Both, none, tree) {
            Ok(made) => Ok(made),
            Err(_) => Err(self.fault),
        }
    }

    /// Whether no leaf of the tree has a cause.
    pub fn has_no_cause(&self, tree: usize) -> bool {
        match self.fork(tree) {
            Some(fork) => self.has_no_cause(fork.yes) && self.has_no_cause(fork.no),
            None => !self.is_top(tree),
        }
    }

    /// The first tree with what stands in place of each of its leaves.
    fn graft(
        &mut self,
        way: &mut Way,
        join: Join,
        first: usize,
        second: usize,
    ) -> Result<usize, Stopped> {
        let Some(fork) = self.fork(first) else {
            return self.graft_leaf(way, join, first, second);
        };
        self.down(way, fork.row)?;
        let yes = self.graft(way, join, fork.yes, second)?;
        self.turn(way)?;
        let no = self.graft(way, join, fork.no, second)?;
        self.rejoined(way, first, &fork, yes, no)
    }

    /// The tree that the walk goes up from, with other sides: where these are its own it is the tree itself.
    fn rejoined(
        &mut self,
        way: &mut Way,
        tree: usize,
        fork: &Fork,
        yes: usize,
        no: usize,
    ) -> Result<usize, Stopped> {
        way.up();
        if yes == fork.yes && no == fork.no {
            return Ok(tree);
        }
        self.join_sides(fork.row, yes, no)
    }

    /// What stands in place of a leaf of the first tree.
    #[inline(never)]
    fn graft_leaf(
        &mut self,
        way: &mut Way,
        join: Join,
        leaf: usize,
        second: usize,
    ) -> Result<usize, Stopped> {
        let asks = match join {
            Join::Either => !self.is_claim(leaf),
            Join::Both | Join::Later => self.is_claim(leaf),
        };
        if !asks {
            return Ok(leaf);
        }
        match self.fork(second) {
            Some(_) => self.lay(way, join, leaf, second),
            None => self.meet(join, leaf, second),
        }
    }

    /// The second tree trimmed by the rows of the way, with what stands where the leaf meets its leaves.
    fn lay(
        &mut self,
        way: &mut Way,
        join: Join,
        leaf: usize,
        second: usize,
    ) -> Result<usize, Stopped> {
        let Some(fork) = self.fork(second) else {
            return self.meet(join, leaf, second);
        };
        match self.settled(way, fork.row) {
            Some(true) => self.lay(way, join, leaf, fork.yes),
            Some(false) => self.lay(way, join, leaf, fork.no),
            None => {
                self.down(way, fork.row)?;
                let yes = self.lay(way, join, leaf, fork.yes)?;
                self.turn(way)?;
                let no = self.lay(way, join, leaf, fork.no)?;
                self.rejoined(way, second, &fork, yes, no)
            }
        }
    }

    /// What stands where the leaf meets the second one.
    #[inline(never)]
    fn meet(&mut self, join: Join, leaf: usize, second: usize) -> Result<usize, Stopped> {
        match join {
            Join::Either => {
                if self.is_claim(second) {
                    Ok(second)
                } else {
                    Ok(leaf)
                }
            }
            Join::Both => Ok(second),
            Join::Later => match self.later_leaf(leaf, second) {
                Ok(made) => Ok(made),
                Err(fault) => Err(self.stop(fault)),
            },
        }
    }

    /// The leaf of the greater rank, as a tree: it is told in boxes.
    #[inline(never)]
    fn later_leaf(&mut self, leaf: usize, second: usize) -> Result<usize, TreeFault> {
        if !self.is_claim(leaf) || !self.is_claim(second) {
            return Ok(second);
        }
        let first = self.take(self.alloc, leaf)?;
        let other = self.take(self.alloc, second)?;
        let made = later(self.alloc, &first, &other)?;
        let made = self.put(&made)?;
        Ok(made)
    }
}
