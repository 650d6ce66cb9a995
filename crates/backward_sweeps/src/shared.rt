//! The trees of the labels for an until, or a weak until, in one table of shared nodes.
ghost use Rattle.std.specs.Prelude.{◌<◌};

use crate::label_trees::{LabelTrees, all_put, number_at};
use crate::operands::Operands;
use backward_transfer::{back_pick, back_range, back_some};
use control_flow::{Choice, Transition};
use decision_tree::{AffineRank, Tree};
use linear_cons::Linear;
use std::alloc::{AllocError, Global};
use tree_unify::{Join, TreeFault};

/// The trees of the labels while sweeps make them anew, and those of the operands, by their numbers in one table. They are made as `remade` makes them.
#[derive(Drop)]
pub(crate) struct SharedTrees {
    pub(crate) labels: LabelTrees<AffineRank>,
    alloc: Global,
    goal: Vec<usize>,
    keep: Vec<usize>,
    all: bool,
}

impl SharedTrees {
    /// The trees of the labels, at which this is done, and the operands in one table. The only error is want of memory.
    pub(crate) fn of(
        alloc: Global,
        transitions: &[Transition],
        trees: &[Tree<AffineRank>],
        operands: &Operands<'_>,
    ) -> Result<SharedTrees, AllocError> {
        let most = LabelTrees::<AffineRank>::MOST;
        let mut labels = LabelTrees::of(alloc, transitions, trees, most)?;
        let goal = all_put(alloc, &mut labels.forest, operands.goal)?;
        let keep = all_put(alloc, &mut labels.forest, operands.keep)?;
        Ok(SharedTrees {
            labels,
            alloc,
            goal,
            keep,
            all: operands.all,
        })
    }

    /// The number of the new tree of the label, at which this is done, or of what the label has for one that can't be made. The only error is want of memory.
    pub(crate) fn remade(
        &mut self,
        label: u32,
        transition: &Transition,
    ) -> Result<usize, AllocError> {
        let made = self.made(label, transition);
        self.labels.noted(made)
    }

    /// What the goal claims at the label, or else what the trees behind the transition claim before it, where it is to be kept.
    fn made(&mut self, label: u32, transition: &Transition) -> Result<usize, TreeFault> {
        let none = self.labels.none();
        let goal = number_at(&self.goal, label as usize, none);
        let keep = number_at(&self.keep, label as usize, none);
        let step = self.moved_back(label, transition)?;
        let forest = &mut self.labels.forest;
        if !forest.is_claim(keep) {
            let kept = forest.join(Join::Both, keep, step)?;
            return forest.join(Join::Either, goal, kept);
        }
        if goal == none && forest.has_no_cause(step) {
            return Ok(step);
        }
        forest.join(Join::Either, goal, step)
    }

    /// The tree before what is done at the label, for all next states or for some.
    fn moved_back(&mut self, label: u32, transition: &Transition) -> Result<usize, TreeFault> {
        let picked = if self.all {
            Choice::None
        } else {
            transition.choice()
        };
        match transition {
            Transition::Choose {
                place,
                range,
                to,
                ..
            } => self.before_value(*to, place.number, range, picked),
            Transition::Test { yes, no, .. } if picked == Choice::Branch => {
                self.before_outcome(*yes, *no)
            }
            _ => self.labels.moved_back(label, transition),
        }
    }

    /// The tree before the assignment of a value in a range, of which one may be picked. It is moved in boxes.
    fn before_value(
        &mut self,
        to: u32,
        place: u8,
        range: &Linear,
        choice: Choice,
    ) -> Result<usize, TreeFault>
        requires { place < 16 }
    {
        let tree = self.labels.take(to)?;
        let made = match choice {
            Choice::Range { lo, hi } => back_some(self.alloc, &tree, place, lo, hi)?,
            _ => back_range(self.alloc, &tree, place, range)?,
        };
        let made = self.labels.forest.put(&made)?;
        Ok(made)
    }

    /// The tree before a test of which one outcome is picked. It is moved in boxes.
    fn before_outcome(&mut self, yes: u32, no: u32) -> Result<usize, TreeFault> {
        let first = self.labels.take(yes)?;
        let second = self.labels.take(no)?;
        let made = back_pick(self.alloc, &first, &second)?;
        let made = self.labels.forest.put(&made)?;
        Ok(made)
    }
}
