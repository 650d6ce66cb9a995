//! Trees that follow from ranks of cells.
ghost use Rattle.std.specs.Prelude.{◌≡◌, ◌≤◌, IfOk, length};
ghost use Rattle.control_flow.specs.Transitions.{AreOnward, LeadsWithin};

use crate::jump::Power;
use crate::ordinal::{OrdinalRank, at_once};
use crate::sweeps::{before_choice, begun_at, or_given_up};
use backward_sweeps::is_given;
use backward_transfer::{back_assign, back_skip, back_test};
use control_flow::Transition;
use decision_tree::{Pick, Tree, Why};
use linear_cons::Wide;
use loop_moves::{Rescaled, back_cases, function_of_multiple, have_rows};
use rank_synthesis::RankedCell;
use std::alloc::{AllocError, Global};
use tree_unify::{TreeFault, either, trim};

/// Makes the trees of the labels in front, at which this is done, or those of the others, but not of heads and where nothing is done: each from those of its
/// successors, the greatest label first; behind a jump no power above the highest rises. One that can't be made claims nothing. Nothing is promised of them: the
/// check decides. The only error is want of memory.
pub(crate) fn follow(
    alloc: Global,
    transitions: &[Transition],
    highest: Power,
    front: &[bool],
    is_in_front: bool,
    trees: &mut [Tree<OrdinalRank>],
) -> Result<(), AllocError>
    requires few { length transitions.now ≤ 1024 }
    requires onward { AreOnward transitions.now }
    requires labels { length trees.old ≡ length transitions.now }
    ensures { length trees.new ≡ length trees.old }
{
    for label in (0..transitions.len() as u32).rev() {
        let transition = &transitions[label as usize];
        if !is_given(transition) && front.get(label as usize) == Some(&is_in_front) {
            let made = or_given_up(alloc, before(alloc, transition, trees, highest))?;
            trees[label as usize] = made;
        }
    }
    Ok(())
}

/// The tree before what is done, for every next state: a value that has cases goes by these, and before one of a range without an end a run may begin anew, with one more
/// of a power that isn't above the highest.
fn before(
    alloc: Global,
    transition: &Transition,
    trees: &[Tree<OrdinalRank>],
    highest: Power,
) -> Result<Tree<OrdinalRank>, TreeFault>
    requires { LeadsWithin (length trees.now) transition.now }
{
    match transition {
        Transition::End => Ok(Tree::Bottom),
        Transition::Dead => {
            let tree = at_once(alloc, Why::Dead)?;
            Ok(tree)
        }
        Transition::Pass { to } => back_skip(alloc, &trees[*to as usize]),
        Transition::Assign { place, value, to } => {
            back_assign(alloc, &trees[*to as usize], place.number, value)
        }
        Transition::Choose {
            place,
            cases,
            to,
            ..
        } if have_rows(cases) => back_cases(alloc, &trees[*to as usize], place.number, cases),
        Transition::Choose {
            place,
            range,
            choice,
            cases: _,
            to,
        } => before_choice(
            alloc,
            &trees[*to as usize],
            place.number,
            range,
            choice,
            highest,
        ),
        Transition::Test {
            holds,
            fails,
            yes,
            no,
            ..
        } => back_test(
            alloc,
            &trees[*yes as usize],
            &trees[*no as usize],
            holds,
            fails,
        ),
    }
}

impl Rescaled for OrdinalRank {
    fn of_multiple(&self, place: u8, times: i128) -> Result<OrdinalRank, Wide> {
        let fourth = function_of_multiple(&self.fourth, place, times)?;
        let third = function_of_multiple(&self.third, place, times)?;
        let second = function_of_multiple(&self.second, place, times)?;
        let first = function_of_multiple(&self.first, place, times)?;
        let finite = function_of_multiple(&self.finite, place, times)?;
        Ok(OrdinalRank {
            fourth,
            third,
            second,
            first,
            finite,
        })
    }
}

/// The trees before the pass: at the heads of loops what the cells claim, and elsewhere what is known without a step. The only error is want of memory.
pub(crate) fn given(
    alloc: Global,
    transitions: &[Transition],
    cells: &[RankedCell],
) -> Result<Vec<Tree<OrdinalRank>>, AllocError>
    requires few { length transitions.now ≤ 1024 }
    ensures { IfOk result (λ trees. length trees.items ≡ length transitions.now) }
{
    let mut trees = Vec::with_capacity(alloc, transitions.len())?;
    for label in 0..transitions.len() as u32 {
        let tree = given_at(alloc, &transitions[label as usize], label, cells)?;
        trees.push(tree)?;
    }
    Ok(trees)
}

/// The tree of the label, at which this is done, before the pass.
fn given_at(
    alloc: Global,
    transition: &Transition,
    label: u32,
    cells: &[RankedCell],
) -> Result<Tree<OrdinalRank>, AllocError> {
    match transition {
        Transition::Test { is_head: true, .. } => or_given_up(alloc, at_head(alloc, label, cells)),
        _ => begun_at(alloc, transition),
    }
}

/// What the cells of the head at the label claim.
fn at_head(
    alloc: Global,
    label: u32,
    cells: &[RankedCell],
) -> Result<Tree<OrdinalRank>, TreeFault> {
    let mut tree = Tree::Bottom;
    for cell in cells {
        if cell.label == label {
            let part = of_cell(alloc, cell)?;
            let next = either(alloc, &tree, &part)?;
            tree = next;
        }
    }
    trim(alloc, &tree, &[])
}

/// The cell's rank where its rows are met.
fn of_cell(alloc: Global, cell: &RankedCell) -> Result<Tree<OrdinalRank>, AllocError> {
    let rank = OrdinalRank::of(&cell.parts);
    let mut tree = Tree::boxed_leaf(alloc, &Why::Step(Pick::All), &rank)?;
    for row in cell.rows.iter().rev() {
        let none = Tree::boxed_bottom(alloc)?;
        tree = Tree::boxed_branch(alloc, row, tree, none)?;
    }
    Ok(Box::into_inner(tree))
}
