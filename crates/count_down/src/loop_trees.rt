//! The trees of a candidate, last label first.

ghost use Rattle.std.specs.Prelude.{◌≡◌, ◌+◌, ◌≤◌, ◌<◌, ◌++◌, ◌∷◌, [], pos, map, reverse, All, IfOk, OnOk, unsigned_abs};
ghost use Rattle.step_meaning.specs.Syntax.{expression, size_of, statements};
ghost use Rattle.step_meaning.specs.Counts.{HasNoLoop};
ghost use Rattle.step_meaning.specs.Countdown.{CountsDown, IsSmall};
ghost use Rattle.linear_cons.specs.Functions.{constant_of, multiple_of, sum_of};
ghost use Rattle.decision_tree.specs.Plans.{plan_of};
ghost use Rattle.count_down.specs.Building as building;
ghost use Rattle.count_down.specs.Candidates as candidates;
ghost use Rattle.count_down.specs.Trees as trees;

use crate::exact::{multiple, put_in, shifted};
use crate::label_counts::{add_counts, nothing};
use decision_tree::{AffineRank, Pick, Tree, Why};
use linear_cons::{Affine, Row, RowKind};
use std::alloc::{AllocError, Global};
use step_meaning::{Block, Count, Expr, StmtKind, function_of};

/// The steps of a loop: 1 more than the most of a turn, and the most behind it.
#[derive(Clone, Copy)]
pub(crate) struct Lengths {
    turn: u64,
    last: u64,
}

/// What stands before statements that lead to a loop: the function that is counted down, carried back to there, the steps to the loop,
/// and the steps of the loop.
#[derive(Clone, Copy)]
pub(crate) struct Lead {
    function: Affine,
    steps: u64,
    lengths: Lengths,
}

/// Adds the trees at the labels of statements without loops, behind which the program ends. It answers the most steps to the end.
pub(crate) fn add_behind(
    alloc: Global,
    block: &Block,
    list: &mut Vec<Tree<AffineRank>>,
) -> Result<u64, AllocError>
    requires free { HasNoLoop (statements block.now) }
    requires few { size_of (statements block.now) < 1024 }
    ensures list { OnOk result (building.plans list.new.items ≡ building.plans list.old.items ++ reverse (candidates.behind (statements block.now))) }
    ensures steps { IfOk result (λ steps. steps ≡ candidates.last_steps (statements block.now)) }
    ensures short { IfOk result (λ steps. steps ≤ size_of (statements block.now)) }
{
    let mut counts = Vec::new(alloc);
    let first = add_counts(block, &Affine::constant(0), nothing(), &mut counts)?;
    add_steps(alloc, &counts, list)?;
    Ok(first.most)
}

// Adds for each count the tree of its steps.
fn add_steps(
    alloc: Global,
    counts: &[Count],
    list: &mut Vec<Tree<AffineRank>>,
) -> Result<(), AllocError>
    ensures { OnOk result (building.plans list.new.items ≡ building.plans list.old.items ++ map candidates.most_within counts.now) }
{
    for count in counts {
        let tree = within(alloc, Affine::constant(count.most as i128))?;
        list.push(tree)?;
    }
    Ok(())
}

/// Adds the trees at the labels of assignments, of the loop that they lead to and of the statements behind it.
pub(crate) fn add_all(
    alloc: Global,
    block: &Block,
    row: &Row,
    list: &mut Vec<Tree<AffineRank>>,
) -> Result<Lead, AllocError>
    requires led { building.IsLed row.now (statements block.now) }
    requires few { size_of (statements block.now) < 1024 }
    ensures list { OnOk result (building.plans list.new.items ≡ building.plans list.old.items ++ reverse (candidates.counting row.now.affine (statements block.now))) }
    ensures lead { IfOk result (λ lead. lead ≡ building.lead_of row.now.affine (statements block.now)) }
{
    match block {
        Block::Then { first, rest } => match &first.kind {
            StmtKind::Assign { var, value } => {
                let behind = add_all(alloc, rest, row, list)?;
                add_before(alloc, &behind, *var, value, list)
            }
            StmtKind::While {
                test: _,
                body,
                step,
            } => {
                let lengths = add_loop(alloc, &row.affine, body, step, rest, list)?;
                Ok(Lead {
                    function: row.affine,
                    steps: 0,
                    lengths,
                })
            }
            _ => unreachable!(),
        },
        Block::End => unreachable!(),
    }
}

// Adds the tree at the label of an assignment in front. It is a call of its own so that a level of the recursion in `add_all` holds two
// functions and few words else.
#[inline(never)]
fn add_before(
    alloc: Global,
    behind: &Lead,
    var: u8,
    value: &Expr,
    list: &mut Vec<Tree<AffineRank>>,
) -> Result<Lead, AllocError>
    requires known { building.IsCarried behind.now.function var (expression value.now) }
    requires modest { building.IsModest (building.lead_before behind.now var (expression value.now)).function }
    requires short { building.AreShort behind.now.lengths }
    requires few { behind.now.steps < 1024 }
    ensures list { OnOk result (building.plans list.new.items ≡ building.plans list.old.items ++ building.tree_of (building.lead_before behind.now var (expression value.now)) ∷ []) }
    ensures lead { IfOk result (λ lead. lead ≡ building.lead_before behind.now var (expression value.now)) }
{
    let lead = behind.carried(var, value);
    list.push(count_tree(alloc, lead.lengths, &lead.function, lead.steps)?)?;
    Ok(lead)
}

impl Lead {
    // What stands before an assignment in front.
    fn carried(&self, var: u8, value: &Expr) -> Lead
        requires known { building.IsCarried self.now.function var (expression value.now) }
        requires few { self.now.steps < 1024 }
        ensures { result ≡ building.lead_before self.now var (expression value.now) }
    {
        let value = match function_of(value) {
            Some(value) => value,
            None => unreachable!(),
        };
        Lead {
            function: put_in(&self.function, var, &value),
            steps: 1 + self.steps,
            lengths: self.lengths,
        }
    }
}

// Adds the trees at the labels of the loop and of the statements behind it.
#[inline(never)]
fn add_loop(
    alloc: Global,
    function: &Affine,
    body: &Block,
    step: &Block,
    rest: &Block,
    list: &mut Vec<Tree<AffineRank>>,
) -> Result<Lengths, AllocError>
    requires counts { CountsDown (statements body.now) (statements step.now) function.now }
    requires free { HasNoLoop (statements rest.now) }
    requires few { size_of (statements body.now) + size_of (statements step.now) + size_of (statements rest.now) < 1023 }
    ensures list { OnOk result (building.plans list.new.items ≡ building.plans list.old.items ++ reverse (candidates.looping function.now (statements body.now) (statements step.now) (statements rest.now))) }
    ensures lengths { IfOk result (λ lengths. lengths ≡ building.lengths_of function.now (statements body.now) (statements step.now) (statements rest.now)) }
{
    let last = add_behind(alloc, rest, list)?;
    let mut counts = Vec::new(alloc);
    let turn = add_turn(function, body, step, &mut counts)?;
    let lengths = Lengths { turn, last };
    add_inside(alloc, lengths, function, &counts, list)?;
    list.push(count_tree(alloc, lengths, function, 0)?)?;
    Ok(lengths)
}

// Adds the counts at the labels of body and step. It answers 1 more than the most steps of a turn.
fn add_turn(
    function: &Affine,
    body: &Block,
    step: &Block,
    counts: &mut Vec<Count>,
) -> Result<u64, AllocError>
    requires counts { CountsDown (statements body.now) (statements step.now) function.now }
    requires few { size_of (statements body.now) + size_of (statements step.now) < 1023 }
    requires empty { counts.old.items ≡ [] }
    ensures list { OnOk result (counts.new.items ≡ reverse (candidates.turn_counts function.now (statements body.now) (statements step.now))) }
    ensures few { OnOk result (All (building.IsFew 2048) counts.new.items) }
    ensures steps { IfOk result (λ turn. turn ≡ candidates.turn_steps function.now (statements body.now) (statements step.now)) }
    ensures short { IfOk result (λ turn. turn ≤ 1024) }
{
    let after = add_counts(step, function, nothing(), counts)?;
    let first = add_counts(body, function, after, counts)?;
    Ok(1 + first.most)
}

// Adds for each count inside the loop the tree of its label.
fn add_inside(
    alloc: Global,
    lengths: Lengths,
    function: &Affine,
    counts: &[Count],
    list: &mut Vec<Tree<AffineRank>>,
) -> Result<(), AllocError>
    requires short { building.AreShort lengths }
    requires small { IsSmall function.now }
    requires few { All (building.IsFew 2048) counts.now }
    ensures { OnOk result (building.plans list.new.items ≡ building.plans list.old.items ++ map (candidates.inside lengths.turn lengths.last function.now) counts.now) }
{
    for count in counts {
        list.push(inside(alloc, lengths, function, count)?)?;
    }
    Ok(())
}

// The tree of a label inside the loop.
fn inside(
    alloc: Global,
    lengths: Lengths,
    function: &Affine,
    count: &Count,
) -> Result<Tree<AffineRank>, AllocError>
    requires short { building.AreShort lengths }
    requires small { IsSmall function.now }
    requires few { building.IsFew 2048 count.now }
    ensures { IfOk result (λ tree. plan_of tree ≡ candidates.inside lengths.turn lengths.last function.now count.now) }
{
    let ahead = shifted(function, count.change);
    count_tree(alloc, lengths, &ahead, count.most)
}

// The tree with a bound where the function is at least 0, and another elsewhere.
#[tactic(auto, using(linear_cons::proofs::KindLaws::row_kind_unique))]
fn count_tree(
    alloc: Global,
    lengths: Lengths,
    function: &Affine,
    steps: u64,
) -> Result<Tree<AffineRank>, AllocError>
    requires short { building.AreShort lengths }
    requires modest { building.IsModest function.now }
    requires few { steps ≤ 2048 }
    ensures { IfOk result (λ tree. plan_of tree ≡ trees.count_tree lengths.turn lengths.last function.now steps) }
{
    let rest = (steps + 1 + lengths.last) as i128;
    let again = within(alloc, bound(lengths.turn, function, rest))?;
    match Row::of(*function) {
        RowKind::Always => Ok(again),
        RowKind::Never => within(alloc, Affine::constant(rest)),
        RowKind::Row(row) => {
            let elsewhere = within(alloc, Affine::constant(rest))?;
            Tree::branch(alloc, row, again, elsewhere)
        }
    }
}

// As many steps a turn as the loop has turns, and the rest.
fn bound(turn: u64, function: &Affine, rest: i128) -> Affine
    requires turn { turn ≤ 1024 }
    requires modest { building.IsModest function.now }
    requires rest { unsigned_abs rest ≤ 4096 }
    ensures { result ≡ sum_of (multiple_of (trees.shifted function.now (pos 1)) (pos turn)) (constant_of rest) }
{
    shifted(&multiple(&shifted(function, 1), turn as i128), rest)
}

// The leaf that promises the end within the function's value.
fn within(alloc: Global, function: Affine) -> Result<Tree<AffineRank>, AllocError>
    ensures { IfOk result (λ tree. plan_of tree ≡ trees.within function) }
{
    Tree::claim(
        alloc,
        &Why::Step(Pick::All),
        &AffineRank { value: function },
    )
}

/// The leaf of the end.
pub(crate) fn ended(alloc: Global) -> Result<Tree<AffineRank>, AllocError>
    ensures { IfOk result (λ tree. plan_of tree ≡ trees.ended) }
{
    let rank = AffineRank {
        value: Affine::constant(0),
    };
    Tree::claim(alloc, &Why::End, &rank)
}
