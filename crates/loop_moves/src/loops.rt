//! The loops of a program, with the moves between their heads.
ghost use Rattle.std.specs.Prelude.{◌≡◌, ◌≤◌, length};

use crate::cases::times_of;
use crate::moves::{Move, Target, unchanged};
use crate::plan::Plan;
use crate::reach::Arrows;
use crate::search::Search;
use crate::stop::unless_given_up;
use backward_sweeps::{Operands, tree_at};
use control_flow::{Choice, Transition};
use decision_tree::{AffineRank, Tree};
use forward_inv::Inv;
use linear_cons::{Row, Rows, common_divisor};
use num_domain::NumDomain;
use std::alloc::{AllocError, Global};

/// What is asked of a program.
#[derive(Clone, Copy)]
pub struct Question<'a> {
    pub transitions: &'a [Transition],
    pub operands: &'a Operands<'a>,
    /// Whether it is a weak until, which holds as well where what is to be kept is kept for ever.
    pub is_weak: bool,
    /// Claims that stand at the heads where no rank is found; a label past the end has none.
    pub under: &'a [Tree<AffineRank>],
    /// The choices that are made, if the formula is about some run.
    pub plan: Option<Plan>,
    /// How many variables the program has.
    pub variables: u32,
}

/// The head of a loop.
#[derive(Drop)]
pub struct Head {
    pub label: u32,
    /// Rows that its stores meet.
    pub known: Vec<Row>,
    /// The rows of its test where that holds, each once.
    pub guards: Vec<Row>,
    /// The rows of the goal's tree there.
    pub goals: Vec<Row>,
    pub moves: Vec<Move>,
}

/// The loops of a program that are reached, for a question, with how many variables it has and whether it is about a weak until.
#[derive(Drop)]
pub struct Loops {
    pub heads: Vec<Head>,
    pub variables: u32,
    pub is_weak: bool,
    /// For each head the indices of the heads of the loops around it.
    around: Vec<Vec<usize>>,
    /// For each variable a number by which its coefficient in a rank is divided, so that the rank can be said behind the quotients that it gets.
    pub factors: Vec<i128>,
}

impl Loops {
    /// The loops of the program. The paths from a head are given up where there are too many or a number lies outside `i128`: then its stores
    /// get no claim. The only error is want of memory.
    pub fn of<D: NumDomain>(
        search: &mut Search,
        inv: &Inv<D>,
        question: &Question<'_>,
    ) -> Result<Loops, AllocError>
        requires states { length inv.now ≡ length question.now.transitions.now }
        requires few { length question.now.transitions.now ≤ 1024 }
    {
        let mut heads = Vec::new(search.alloc);
        for label in 0..question.transitions.len() as u32 {
            if let Some(
                Transition::Test {
                    is_head: true,
                    holds,
                    ..
                },
            ) = question.transitions.get(label as usize)
            {
                let known = inv.at(label).rows(search.alloc)?;
                let head = question.head(search, label, known, holds)?;
                heads.push(head)?;
            }
        }
        let around = around(search.alloc, &heads)?;
        Ok(Loops {
            heads,
            around,
            variables: question.variables,
            is_weak: question.is_weak,
            factors: question.factors(search.alloc)?,
        })
    }

    /// The index of the head at the label.
    pub fn index(&self, label: u32) -> Option<usize> {
        self.heads.iter().position(|head| head.label == label)
    }

    /// The head at the label.
    pub(crate) fn head_at(&self, label: u32) -> Option<&Head> {
        self.heads.iter().find(|head| head.label == label)
    }

    /// The heads of the loops in whose bodies the head at the label stands.
    pub(crate) fn around(&self, label: u32) -> &[usize] {
        match self.index(label) {
            Some(index) => match self.around.get(index) {
                Some(around) => around,
                None => &[],
            },
            None => &[],
        }
    }
}

impl<'a> Question<'a> {
    /// The outcome that is picked of a test with this choice, if it is free.
    pub(crate) fn picked_outcome(&self, choice: Choice) -> Option<bool> {
        match (self.plan, choice) {
            (Some(plan), Choice::Branch) => Some(plan.outcome),
            _ => None,
        }
    }

    /// The number that is picked of a range with this choice, if there is such an end.
    pub(crate) fn picked_end(&self, choice: Choice) -> Option<i64> {
        match (self.plan, choice) {
            (Some(plan), Choice::Range { lo, hi }) => plan.end(lo, hi),
            _ => None,
        }
    }

    /// What is seen of the head at the label, whose stores meet the rows.
    fn head(
        &self,
        search: &mut Search,
        label: u32,
        known: Vec<Row>,
        holds: &[Rows],
    ) -> Result<Head, AllocError> {
        let mut guards = Vec::new(search.alloc);
        for conjunction in holds {
            for row in conjunction.items() {
                if !guards.contains(row) {
                    guards.push(*row)?;
                }
            }
        }
        let mut goals = Vec::new(search.alloc);
        let none = Tree::Bottom;
        add_rows(tree_at(self.operands.goal, label, &none), &mut goals)?;
        let moves = match unless_given_up(self.moves(search, label, &known))? {
            Some(moves) => moves,
            None => self.no_moves(search.alloc)?,
        };
        Ok(Head {
            label,
            known,
            guards,
            goals,
            moves,
        })
    }

    /// For each variable the least common multiple of the multiples that cases say of its values, or 1 where that is large.
    fn factors(&self, alloc: Global) -> Result<Vec<i128>, AllocError> {
        let mut factors = vec![in alloc; 1; self.variables.min(16) as usize]?;
        for transition in self.transitions {
            if let Transition::Choose { place, cases, .. } = transition {
                if let Some(factor) = factors.get_mut(place.number as usize) {
                    for case in cases {
                        *factor = common_multiple(*factor, times_of(case));
                    }
                }
            }
        }
        Ok(factors)
    }

    /// What stands for the moves of a head whose paths were given up: it may lead to where nothing is claimed.
    fn no_moves(&self, alloc: Global) -> Result<Vec<Move>, AllocError> {
        let mut moves = Vec::with_capacity(alloc, 1)?;
        moves.push(Move {
            to: Target::Fault,
            rows: Vec::new(alloc),
            after: unchanged(alloc, self.variables)?,
            steps: 0,
            jumps: 0,
        })?;
        Ok(moves)
    }
}

/// For each head the indices of those in whose loops' bodies it stands: moves lead from it to such a one through heads of greater labels. The heads stand by
/// their labels.
fn around(alloc: Global, heads: &[Head]) -> Result<Vec<Vec<usize>>, AllocError> {
    let back = moves_back(alloc, heads)?;
    let mut around = Vec::with_capacity(alloc, heads.len())?;
    for _ in heads {
        around.push(Vec::new(alloc))?;
    }
    for outer in 0..heads.len() {
        let leads = back.reached(alloc, outer, outer)?;
        for (inner, own) in around.iter_mut().enumerate() {
            if inner != outer && leads.get(inner) == Some(&true) {
                own.push(outer)?;
            }
        }
    }
    Ok(around)
}

/// Arrows from each head to those from which a move leads to it.
fn moves_back(alloc: Global, heads: &[Head]) -> Result<Arrows, AllocError> {
    let mut back = Arrows::none(alloc, heads.len())?;
    for (from, head) in heads.iter().enumerate() {
        for one in &head.moves {
            if let Target::Head(label) = one.to {
                if let Some(to) = heads.iter().position(|other| other.label == label) {
                    back.add(to, from)?;
                }
            }
        }
    }
    Ok(back)
}

/// The greatest factor of the coefficients of a variable.
const MOST_TIMES: u128 = 65_536;

/// The least common multiple of two numbers above 0, or 1 where it is large.
fn common_multiple(one: i128, other: i128) -> i128 {
    let (one, other) = (one.unsigned_abs(), other.unsigned_abs());
    match one.checked_div(common_divisor(one, other)) {
        Some(part) => {
            let multiple = part.saturating_mul(other);
            if multiple <= MOST_TIMES {
                multiple as i128
            } else {
                1
            }
        }
        None => 1,
    }
}

/// The most rows of a goal's tree that part the stores at a head.
const MOST_GOAL_ROWS: usize = 64;

/// Adds the rows of the tree, as far as there are not too many.
fn add_rows(tree: &Tree<AffineRank>, rows: &mut Vec<Row>) -> Result<(), AllocError> {
    if let Tree::Node { row, yes, no } = tree {
        if rows.len() < MOST_GOAL_ROWS {
            rows.push(**row)?;
            add_rows(yes, rows)?;
            add_rows(no, rows)?;
        }
    }
    Ok(())
}
