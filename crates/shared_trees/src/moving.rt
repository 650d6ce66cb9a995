//! Trees moved backward over a step that changes nothing, and over an assignment.
ghost use Rattle.std.specs.Prelude.{◌<◌};

use crate::forest::Forest;
use crate::rows::{Assignment, Moved};
use decision_tree::{Pick, Rank, Why};
use linear_cons::Affine;
use tree_unify::{Stopped, TreeFault};

impl<R: Rank> Forest<R> {
    /// The tree before a step that changes nothing, as `back_skip` makes it.
    pub fn back_skip(&mut self, tree: usize) -> Result<usize, TreeFault> {
        match self.step(tree) {
            Ok(made) => self.trim(made),
            Err(_) => Err(self.fault),
        }
    }

    /// The tree with one more step at each claim.
    pub(crate) fn step(&mut self, tree: usize) -> Result<usize, Stopped> {
        let Some(fork) = self.fork(tree) else {
            return self.step_leaf(tree);
        };
        let yes = self.step(fork.yes)?;
        let no = self.step(fork.no)?;
        self.join_sides(fork.row, yes, no)
    }

    /// The leaf with one more step, where it is a claim. It is remembered.
    #[inline(never)]
    fn step_leaf(&mut self, leaf: usize) -> Result<usize, Stopped> {
        if let Some(made) = self.stepped.get(&leaf) {
            return Ok(*made);
        }
        let Some(rank) = self.rank(leaf) else {
            return Ok(leaf);
        };
        let made = self.stepped_to(&rank)?;
        match self.stepped.insert_full(leaf, made) {
            Ok(_) => Ok(made),
            Err(error) => Err(self.stop(TreeFault::Memory(error.into()))),
        }
    }

    /// A claim of the rank with one more, for every next state.
    #[inline(never)]
    fn stepped_to(&mut self, rank: &R) -> Result<usize, Stopped> {
        let more = match rank.add_one() {
            Ok(more) => more,
            Err(wide) => return Err(self.stop(TreeFault::Wide(wide))),
        };
        match self.leaf(&Why::Step(Pick::All), &more) {
            Ok(made) => Ok(made),
            Err(error) => Err(self.stop(TreeFault::Memory(error))),
        }
    }

    /// The tree before the value is assigned to the variable at the place, as `back_assign` makes it. The label is that of the assignment: another one has another
    /// label.
    pub fn back_assign(
        &mut self,
        tree: usize,
        place: u8,
        value: &Affine,
        label: u32,
    ) -> Result<usize, TreeFault>
        requires { place < 16 }
    {
        let assignment = Assignment {
            place,
            value,
            label,
        };
        match self.assign(&assignment, tree) {
            Ok(made) => self.trim(made),
            Err(_) => Err(self.fault),
        }
    }

    /// The tree with the function put in for the variable, and one more step at each claim.
    fn assign(&mut self, assignment: &Assignment<'_>, tree: usize) -> Result<usize, Stopped> {
        let Some(fork) = self.fork(tree) else {
            return self.assign_leaf(assignment, tree);
        };
        match self.moved_row(assignment, fork.row)? {
            Moved::Always => self.assign(assignment, fork.yes),
            Moved::Never => self.assign(assignment, fork.no),
            Moved::Row(row) => {
                let yes = self.assign(assignment, fork.yes)?;
                let no = self.assign(assignment, fork.no)?;
                self.join_sides(row, yes, no)
            }
        }
    }

    /// The leaf with the function put in, and one more step, where it is a claim.
    #[inline(never)]
    fn assign_leaf(&mut self, assignment: &Assignment<'_>, leaf: usize) -> Result<usize, Stopped> {
        let Some(rank) = self.rank(leaf) else {
            return Ok(leaf);
        };
        match rank.subst(assignment.place, assignment.value) {
            Ok(moved) if moved == rank => self.step_leaf(leaf),
            Ok(moved) => self.stepped_to(&moved),
            Err(wide) => Err(self.stop(TreeFault::Wide(wide))),
        }
    }

    /// What the assignment makes of the row.
    #[inline(never)]
    fn moved_row(&mut self, assignment: &Assignment<'_>, row: usize) -> Result<Moved, Stopped> {
        match self.rows.moved(assignment, row) {
            Ok(moved) => Ok(moved),
            Err(fault) => Err(self.stop_without_row(fault)),
        }
    }
}
