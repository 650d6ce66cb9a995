//! Families that are proposed.
ghost use Rattle.std.specs.Prelude.{◌≡◌, ◌≤◌, IfOk, IfSome, length};
ghost use Rattle.control_flow.specs.Transitions.{AreOnward};

use crate::cells::{Cell, Found};
use crate::closing::close;
use crate::components::components;
use backward_sweeps::{begun, given_up, taken_over, tree_at};
use control_flow::{Choice, Transition};
use decision_tree::{AffineRank, Pick, Tree, TreeList, Why};
use forward_inv::Inv;
use linear_cons::Row;
use loop_moves::{Loops, Move, Parting, Question, Search, Stop, front, unless_given_up};
use num_domain::NumDomain;
use std::alloc::{AllocError, Global};
use tree_unify::{TreeFault, both, either, trim};

/// The loops of a program, of whose cells ranks are looked for.
#[derive(Drop)]
pub struct Synthesis {
    pub(crate) loops: Loops,
    /// The rows of each head in the partings that were tried.
    tried: Vec<Vec<Vec<Row>>>,
    /// The cells for which ranks of two parts were looked for.
    pub(crate) kept: Vec<Kept>,
    /// Whether a number is chosen without a bound anywhere: then ranks of the same cells claim the more the more parts they may have.
    pub(crate) jumps: bool,
}

/// The cells of a parting, for ranks of more than two parts.
#[derive(Drop)]
pub(crate) struct Kept {
    pub(crate) parting: Parting,
    pub(crate) cells: Vec<Cell>,
    /// Ranks of no more cells than so many claim nothing new.
    pub(crate) claimed: usize,
    /// Whether it is known that with more parts no other cell has a rank.
    pub(crate) is_settled: bool,
}

/// Trees that are proposed, one for each label. Those of which the tree at the entry isn't made, behind the first heads, are made by `whole`: they are needed only
/// where the one at the entry may add a claim.
#[derive(Drop)]
pub struct Proposal {
    /// The trees as far as they are made: those of heads, and those of which the tree at the entry is made.
    pub trees: Vec<Tree<AffineRank>>,
    /// For each label whether the tree at the entry is made of its tree.
    front: Vec<bool>,
}

impl Proposal {
    /// All trees, with the question for which they are proposed. The only error is want of memory.
    pub fn whole(
        self,
        alloc: Global,
        question: &Question<'_>,
    ) -> Result<TreeList<AffineRank>, AllocError>
        requires few { length question.now.transitions.now ≤ 1024 }
        requires onward { AreOnward question.now.transitions.now }
        requires labels { length self.trees.items ≡ length question.now.transitions.now }
        ensures { IfOk result (λ made. length made ≡ length question.now.transitions.now) }
    {
        let Proposal { mut trees, front } = self;
        question.follow(alloc, &front, false, &mut trees)?;
        Ok(TreeList::of(trees))
    }
}

impl Synthesis {
    /// That of the question's loops. The only error is want of memory.
    pub fn of<D: NumDomain>(
        search: &mut Search,
        inv: &Inv<D>,
        question: &Question<'_>,
    ) -> Result<Synthesis, AllocError>
        requires states { length inv.now ≡ length question.now.transitions.now }
        requires few { length question.now.transitions.now ≤ 1024 }
    {
        let loops = Loops::of(search, inv, question)?;
        Ok(Synthesis {
            loops,
            tried: Vec::new(search.alloc),
            kept: Vec::new(search.alloc),
            jumps: question.transitions.iter().any(has_no_bound),
        })
    }

    /// What is proposed for the question of a program with that entry, a tree for each label: at the heads ranks of the cells of the parting, and elsewhere what
    /// follows from these; a label whose tree can't be made claims nothing. None where there is no loop, the parting's rows are those of one that was tried, a
    /// number lies outside `i128`, or no work is left to the search. The only error is want of memory.
    pub fn proposed(
        &mut self,
        search: &mut Search,
        question: &Question<'_>,
        parting: Parting,
        entry: u32,
    ) -> Result<Option<Proposal>, AllocError>
        requires few { length question.now.transitions.now ≤ 1024 }
        requires onward { AreOnward question.now.transitions.now }
        ensures { IfOk result (λ found. IfSome found (λ made. length made.trees.items ≡ length question.now.transitions.now)) }
    {
        match unless_given_up(self.ranked(search, parting))?.flatten() {
            Some(cells) => {
                let proposal = self.followed(search.alloc, question, entry, &cells)?;
                Ok(Some(proposal))
            }
            None => Ok(None),
        }
    }

    /// The cells of the parting with their ranks. None where the rows were tried.
    fn ranked(&mut self, search: &mut Search, parting: Parting) -> Result<Option<Vec<Cell>>, Stop> {
        let Some(mut cells) = self.parted(search, parting)? else {
            return Ok(None);
        };
        if self.loops.is_weak {
            close(&mut cells);
        } else {
            for component in components(search.alloc, &cells)? {
                self.rank(search, &mut cells, &component)?;
            }
        }
        Ok(Some(cells))
    }

    /// The cells of the parting, with their links. None where the rows were tried.
    pub(crate) fn parted(
        &mut self,
        search: &mut Search,
        parting: Parting,
    ) -> Result<Option<Vec<Cell>>, Stop> {
        let rows = rows_of(search.alloc, &self.loops, parting)?;
        if rows.is_empty() || self.tried.contains(&rows) {
            return Ok(None);
        }
        let cells = self.cells(search, &rows)?;
        self.tried.push(rows)?;
        Ok(Some(cells))
    }

    /// The move of the cell's head with the index.
    pub(crate) fn move_of(&self, cell: &Cell, one: usize) -> Option<&Move> {
        match self.loops.heads.get(cell.head) {
            Some(head) => head.moves.get(one),
            None => None,
        }
    }

    /// The trees that follow from the cells' ranks, as far as the one at the entry is made of them.
    fn followed(
        &self,
        alloc: Global,
        question: &Question<'_>,
        entry: u32,
        cells: &[Cell],
    ) -> Result<Proposal, AllocError>
        requires few { length question.now.transitions.now ≤ 1024 }
        requires onward { AreOnward question.now.transitions.now }
        ensures { IfOk result (λ made. length made.trees.items ≡ length question.now.transitions.now) }
    {
        let heads = self.trees(alloc, question, cells)?;
        let mut trees = begun(alloc, question.transitions, question.operands, &heads)?;
        if question.is_weak {
            keep_ends(alloc, question, &mut trees)?;
        }
        let front = front(alloc, question.transitions, entry)?;
        question.follow(alloc, &front, true, &mut trees)?;
        Ok(Proposal { trees, front })
    }

    /// The trees at the heads, and none elsewhere.
    fn trees(
        &self,
        alloc: Global,
        question: &Question<'_>,
        cells: &[Cell],
    ) -> Result<Vec<Tree<AffineRank>>, AllocError>
        requires few { length question.now.transitions.now ≤ 1024 }
    {
        let mut heads = Vec::with_capacity(alloc, question.transitions.len())?;
        for label in 0..question.transitions.len() as u32 {
            let tree = match self.loops.index(label) {
                Some(index) => match at_head(alloc, question, cells, index, label) {
                    Ok(tree) => tree,
                    Err(fault) => given_up(alloc, fault)?,
                },
                None => Tree::Bottom,
            };
            heads.push(tree)?;
        }
        Ok(heads)
    }
}

/// Whether a number is chosen without a bound.
fn has_no_bound(transition: &Transition) -> bool {
    match transition {
        Transition::Choose { choice, .. } => match choice {
            Choice::Range { lo, hi } => lo.is_none() || hi.is_none(),
            _ => false,
        },
        _ => false,
    }
}

/// For each head the rows of the parting.
fn rows_of(alloc: Global, loops: &Loops, parting: Parting) -> Result<Vec<Vec<Row>>, AllocError> {
    let mut rows = Vec::with_capacity(alloc, loops.heads.len())?;
    for head in &loops.heads {
        rows.push(loops.rows(alloc, head, parting)?)?;
    }
    Ok(rows)
}

/// Lets what is to be kept be claimed at the end of the program, where the goal isn't.
fn keep_ends(
    alloc: Global,
    question: &Question<'_>,
    trees: &mut [Tree<AffineRank>],
) -> Result<(), AllocError>
    requires few { length question.now.transitions.now ≤ 1024 }
    ensures { length trees.new ≡ length trees.old }
{
    let none = Tree::Bottom;
    for label in 0..question.transitions.len() as u32 {
        if let Some(Transition::End) = question.transitions.get(label as usize) {
            let why = Some(Why::Step(Pick::All));
            let keep = taken_over(alloc, tree_at(question.operands.keep, label, &none), why)?;
            let made = match either(alloc, tree_at(question.operands.goal, label, &none), &keep) {
                Ok(tree) => tree,
                Err(fault) => given_up(alloc, fault)?,
            };
            if let Some(tree) = trees.get_mut(label as usize) {
                *tree = made;
            }
        }
    }
    Ok(())
}

/// The tree at the head with the index: the ranks of its cells, where the goal doesn't hold and what is to be kept does.
fn at_head(
    alloc: Global,
    question: &Question<'_>,
    cells: &[Cell],
    index: usize,
    label: u32,
) -> Result<Tree<AffineRank>, TreeFault> {
    let mut tree = Tree::Bottom;
    for cell in cells {
        if cell.head == index {
            if let Found::Rank(value) = cell.found {
                let part = of_cell(alloc, &cell.rows, question.why(label), AffineRank { value })?;
                let next = either(alloc, &tree, &part)?;
                tree = next;
            }
        }
    }
    let none = Tree::Bottom;
    let tree = either(alloc, &tree, tree_at(question.under, label, &none))?;
    let kept = both(alloc, tree_at(question.operands.keep, label, &none), &tree)?;
    let made = either(alloc, tree_at(question.operands.goal, label, &none), &kept)?;
    trim(alloc, &made, &[])
}

/// The rank where the rows are met.
fn of_cell(
    alloc: Global,
    rows: &[Row],
    why: Why,
    rank: AffineRank,
) -> Result<Tree<AffineRank>, AllocError> {
    let mut tree = Tree::boxed_leaf(alloc, &why, &rank)?;
    for row in rows.iter().rev() {
        let none = Tree::boxed_bottom(alloc)?;
        tree = Tree::boxed_branch(alloc, row, tree, none)?;
    }
    Ok(Box::into_inner(tree))
}
