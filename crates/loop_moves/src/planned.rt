//! The pass over the labels that follows a plan.
ghost use Rattle.std.specs.Prelude.{◌≡◌, ◌<◌, ◌≤◌, length};
ghost use Rattle.control_flow.specs.Transitions.{AreOnward, LeadsWithin};

use crate::bounding::back_bounded;
use crate::cases::{back_cases, have_rows};
use crate::loops::Question;
use crate::reach::Arrows;
use backward_sweeps::{given_up, is_given, moved_back, stays, tree_at};
use backward_transfer::{back_pick, back_some};
use control_flow::Transition;
use decision_tree::{AffineRank, Pick, Tree, Why};
use std::alloc::{AllocError, Global};
use tree_unify::{TreeFault, both, either};

impl<'a> Question<'a> {
    /// Makes the trees of the labels in front anew, or those of the others, but not of heads and where nothing is done: the greatest label first, by the choices of
    /// the plan. One that can't be made claims nothing. The only error is want of memory.
    pub fn follow(
        &self,
        alloc: Global,
        front: &[bool],
        is_in_front: bool,
        trees: &mut Vec<Tree<AffineRank>>,
    ) -> Result<(), AllocError>
        requires few { length self.now.transitions.now ≤ 1024 }
        requires onward { AreOnward self.now.transitions.now }
        requires labels { length trees.old.items ≡ length self.now.transitions.now }
        ensures { length trees.new.items ≡ length trees.old.items }
    {
        for label in (0..self.transitions.len() as u32).rev() {
            let transition = &self.transitions[label as usize];
            if !is_given(transition) && front.get(label as usize) == Some(&is_in_front) {
                let tree = match self.before(alloc, label, transition, trees) {
                    Ok(tree) => tree,
                    Err(fault) => given_up(alloc, fault)?,
                };
                trees[label as usize] = tree;
            }
        }
        Ok(())
    }

    /// The tree of the label, at which this is done: what the goal claims, or else what is claimed behind the step, where it is to be kept.
    fn before(
        &self,
        alloc: Global,
        label: u32,
        transition: &Transition,
        trees: &[Tree<AffineRank>],
    ) -> Result<Tree<AffineRank>, TreeFault>
        requires { LeadsWithin (length trees.now) transition.now }
    {
        let none = Tree::Bottom;
        let goal = tree_at(self.operands.goal, label, &none);
        let keep = tree_at(self.operands.keep, label, &none);
        let step = self.picked(alloc, transition, trees)?;
        if stays(goal, keep, &step) {
            return Ok(step);
        }
        let kept = both(alloc, keep, &step)?;
        either(alloc, goal, &kept)
    }

    /// What is claimed behind the step, before it.
    fn picked(
        &self,
        alloc: Global,
        transition: &Transition,
        trees: &[Tree<AffineRank>],
    ) -> Result<Tree<AffineRank>, TreeFault>
        requires { LeadsWithin (length trees.now) transition.now }
    {
        let none = Tree::Bottom;
        match transition {
            Transition::Test {
                choice,
                yes,
                no,
                ..
            } => match self.picked_outcome(*choice) {
                Some(true) => back_pick(alloc, &trees[*yes as usize], &none),
                Some(false) => back_pick(alloc, &none, &trees[*no as usize]),
                None => moved_back(alloc, self.operands.all, transition, trees),
            },
            Transition::Choose {
                place,
                range,
                choice,
                cases,
                to,
            } => match self.picked_end(*choice) {
                Some(end) => back_some(
                    alloc,
                    &trees[*to as usize],
                    place.number,
                    Some(end),
                    Some(end),
                ),
                None if have_rows(cases) => {
                    back_cases(alloc, &trees[*to as usize], place.number, cases)
                }
                None if self.operands.all => {
                    back_bounded(alloc, &trees[*to as usize], place.number, range)
                }
                None => moved_back(alloc, self.operands.all, transition, trees),
            },
            _ => moved_back(alloc, self.operands.all, transition, trees),
        }
    }

    /// The reason for which a claim at the head at the label stands.
    pub fn why(&self, label: u32) -> Why {
        let outcome = match self.transitions.get(label as usize) {
            Some(transition) => self.picked_outcome(transition.choice()),
            None => None,
        };
        Why::Step(match outcome {
            Some(true) => Pick::Yes,
            Some(false) => Pick::No,
            None => Pick::All,
        })
    }
}

/// For each label whether it is in front: the tree at the entry is made of its tree, since a path leads from there to it through no head. The only error is
/// want of memory.
pub fn front(
    alloc: Global,
    transitions: &[Transition],
    entry: u32,
) -> Result<Vec<bool>, AllocError> {
    let mut arrows = Arrows::none(alloc, transitions.len())?;
    for (from, transition) in transitions.iter().enumerate() {
        if !is_given(transition) {
            match transition {
                Transition::Pass { to }
                | Transition::Assign { to, .. }
                | Transition::Choose { to, .. } => arrows.add(from, *to as usize)?,
                Transition::Test { yes, no, .. } => {
                    arrows.add(from, *yes as usize)?;
                    arrows.add(from, *no as usize)?;
                }
                Transition::End | Transition::Dead => {}
            }
        }
    }
    arrows.reached(alloc, entry as usize, 0)
}
