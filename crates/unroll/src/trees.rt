//! The trees of a level.
ghost use Rattle.std.specs.Prelude.{◌≡◌, ℕ, suc, ◌^◌, ◌<◌, ◌≤◌, Some, Err, IfOk, IfErr, OnOk, length};
ghost use Rattle.linear_cons.specs.declared.exact.Wide.{Wide as Operands};
ghost use Rattle.decision_tree.specs.Plans.{bottom, leaf, plan_of};
ghost use Rattle.decision_tree.specs.declared.reason.Why.TheVariants.{End};
ghost use Rattle.step_meaning.specs.Syntax.{statements};
ghost use Rattle.control_flow.specs.Edges.{is_head_by};
ghost use Rattle.control_flow.specs.Labels.{action_at, all_labels};
ghost use Rattle.control_flow.specs.Actions.{AtAll, AtBehind, AtFirst, AtNext};
ghost use Rattle.control_flow.specs.Fitting.{IsFitting};
ghost use Rattle.unroll.specs.Building.{TellsAt, TellsTree, left_by};
ghost use Rattle.unroll.specs.Doing.{AreDone};
ghost use Rattle.control_flow.specs.Growth.{growth_of};
ghost use Rattle.backward_transfer.specs.AffineShapes.{tree_at, plans};
ghost use Rattle.unroll.specs.Levels.{counted};
ghost use Rattle.control_flow.specs.Measures.{AreSizes, IsHeavy};
ghost use Rattle.unroll.specs.Refusals.{IsRefusal};
ghost use Rattle.tree_unify.specs.declared.fault.TreeFault.TheVariants.{Full, Wide as TooLarge};

use crate::moving::{assigned, passed, tested};
use control_flow::{Graph, Transition};
use decision_tree::{AffineRank, Tree, Why};
use linear_cons::Affine;
use std::alloc::{AllocError, Global};
use tree_unify::TreeFault;

/// The trees of level 0: at the test of a loop nothing is claimed.
pub(crate) fn first_trees(
    alloc: Global,
    graph: &Graph,
    steps: &[Transition],
) -> Result<Vec<Tree<AffineRank>>, TreeFault>
    requires fitting { IsFitting (statements graph.now.body) }
    requires done { AreDone (statements graph.now.body) steps.now }
    ensures tells { IfOk result (λ trees. AtAll (statements graph.now.body) (TellsAt 0 (statements graph.now.body) (plans trees.items))) }
    ensures count { IfOk result (λ trees. length trees.items ≡ length (all_labels (statements graph.now.body))) }
    ensures full { (count : ℕ) → result ≡ Err (Full count) → IsHeavy (statements graph.now.body) 0 }
    ensures wide { (operands : Operands) → result ≡ Err (TooLarge operands) → 2 ^ 100 < growth_of (statements graph.now.body) 0 }
    ensures refusal { IfErr result IsRefusal }
{
    let mut trees = unclaimed(alloc, graph)?;
    fill(alloc, graph, steps, &mut trees)?;
    Ok(trees)
}

/// The trees of a level behind the last one.
pub(crate) fn next_trees(
    alloc: Global,
    graph: &Graph,
    steps: &[Transition],
    last: &[Tree<AffineRank>],
) -> Result<Vec<Tree<AffineRank>>, TreeFault>
    requires fitting { IsFitting (statements graph.now.body) }
    requires done { AreDone (statements graph.now.body) steps.now }
    requires count { length last.now ≡ length (all_labels (statements graph.now.body)) }
    ensures tells { (tests : ℕ) → AtAll (statements graph.now.body) (TellsAt tests (statements graph.now.body) (plans last.now))
        → IfOk result (λ trees. AtAll (statements graph.now.body) (TellsAt (suc tests) (statements graph.now.body) (plans trees.items))) }
    ensures count { IfOk result (λ trees. length trees.items ≡ length (all_labels (statements graph.now.body))) }
    ensures full { (tests count : ℕ) → AtAll (statements graph.now.body) (TellsAt tests (statements graph.now.body) (plans last.now))
        → result ≡ Err (Full count) → IsHeavy (statements graph.now.body) (suc tests) }
    ensures wide { (tests : ℕ) (operands : Operands) → suc tests < 2 ^ 32 → AtAll (statements graph.now.body) (TellsAt tests (statements graph.now.body) (plans last.now))
        → result ≡ Err (TooLarge operands) → 2 ^ 100 < growth_of (statements graph.now.body) (suc tests) }
    ensures refusal { IfErr result IsRefusal }
{
    let mut trees = unclaimed(alloc, graph)?;
    fill_heads(alloc, graph, steps, last, &mut trees)?;
    fill(alloc, graph, steps, &mut trees)?;
    Ok(trees)
}

/// The tree of label 0, and at each other label one that claims nothing.
fn unclaimed(alloc: Global, graph: &Graph) -> Result<Vec<Tree<AffineRank>>, AllocError>
    ensures end { IfOk result (λ trees. tree_at (plans trees.items) 0 ≡ leaf End (counted 0)) }
    ensures others { IfOk result (λ trees. (label : ℕ) → 0 < label → tree_at (plans trees.items) label ≡ bottom) }
    ensures count { IfOk result (λ trees. length trees.items ≡ length (all_labels (statements graph.now.body))) }
{
    let mut trees = Vec::with_capacity(alloc, graph.labels() as usize)?;
    let end = ended(alloc)?;
    trees.push(end)?;
    for _ in 1..graph.labels() {
        trees.push(Tree::Bottom)?;
    }
    Ok(trees)
}

/// Puts in the trees at the labels of loops' tests, by those of the last level.
fn fill_heads(
    alloc: Global,
    graph: &Graph,
    steps: &[Transition],
    last: &[Tree<AffineRank>],
    trees: &mut [Tree<AffineRank>],
) -> Result<(), TreeFault>
    requires fitting { IsFitting (statements graph.now.body) }
    requires done { AreDone (statements graph.now.body) steps.now }
    requires last_count { length last.now ≡ length (all_labels (statements graph.now.body)) }
    requires count { length trees.old ≡ length (all_labels (statements graph.now.body)) }
    ensures tells { (tests : ℕ) → AtAll (statements graph.now.body) (TellsAt tests (statements graph.now.body) (plans last.now))
        → AtFirst (statements graph.now.body) 1 (TellsAt (suc tests) (statements graph.now.body) (plans trees.old))
        → OnOk result (AtFirst (statements graph.now.body) (length (all_labels (statements graph.now.body))) (TellsAt (suc tests) (statements graph.now.body) (plans trees.new))) }
    ensures count { OnOk result (length trees.new ≡ length (all_labels (statements graph.now.body))) }
    ensures full { (tests count : ℕ) → AtAll (statements graph.now.body) (TellsAt tests (statements graph.now.body) (plans last.now))
        → result ≡ Err (Full count) → IsHeavy (statements graph.now.body) (suc tests) }
    ensures wide { (tests : ℕ) (operands : Operands) → suc tests < 2 ^ 32 → AtAll (statements graph.now.body) (TellsAt tests (statements graph.now.body) (plans last.now))
        → result ≡ Err (TooLarge operands) → 2 ^ 100 < growth_of (statements graph.now.body) (suc tests) }
    ensures refusal { IfErr result IsRefusal }
{
    for label in 1..graph.labels() {
        fill_head(alloc, graph, steps, label, last, trees)?;
    }
    Ok(())
}

/// Puts in the tree at the label, where it is that of a loop's test.
fn fill_head(
    alloc: Global,
    graph: &Graph,
    steps: &[Transition],
    label: u32,
    last: &[Tree<AffineRank>],
    trees: &mut [Tree<AffineRank>],
) -> Result<(), TreeFault>
    requires fitting { IsFitting (statements graph.now.body) }
    requires done { AreDone (statements graph.now.body) steps.now }
    requires some { 0 < label }
    requires within { label < length (all_labels (statements graph.now.body)) }
    requires few { length (all_labels (statements graph.now.body)) ≤ 1024 }
    requires last_count { length last.now ≡ length (all_labels (statements graph.now.body)) }
    requires count { length trees.old ≡ length (all_labels (statements graph.now.body)) }
    ensures tells { (tests : ℕ) → AtAll (statements graph.now.body) (TellsAt tests (statements graph.now.body) (plans last.now))
        → AtFirst (statements graph.now.body) label (TellsAt (suc tests) (statements graph.now.body) (plans trees.old))
        → OnOk result (AtFirst (statements graph.now.body) (suc label) (TellsAt (suc tests) (statements graph.now.body) (plans trees.new))) }
    ensures count { OnOk result (length trees.new ≡ length (all_labels (statements graph.now.body))) }
    ensures full { (tests count : ℕ) → AtAll (statements graph.now.body) (TellsAt tests (statements graph.now.body) (plans last.now))
        → result ≡ Err (Full count) → IsHeavy (statements graph.now.body) (suc tests) }
    ensures wide { (tests : ℕ) (operands : Operands) → suc tests < 2 ^ 32 → AtAll (statements graph.now.body) (TellsAt tests (statements graph.now.body) (plans last.now))
        → result ≡ Err (TooLarge operands) → 2 ^ 100 < growth_of (statements graph.now.body) (suc tests) }
    ensures refusal { IfErr result IsRefusal }
{
    if !graph.is_head(label) {
        return Ok(());
    }
    let tree = tree(alloc, graph, steps, label, last)?;
    trees[label as usize] = tree;
    Ok(())
}

/// Puts in the trees at the labels but label 0 and those of loops' tests, from the last on.
fn fill(
    alloc: Global,
    graph: &Graph,
    steps: &[Transition],
    trees: &mut [Tree<AffineRank>],
) -> Result<(), TreeFault>
    requires fitting { IsFitting (statements graph.now.body) }
    requires done { AreDone (statements graph.now.body) steps.now }
    requires count { length trees.old ≡ length (all_labels (statements graph.now.body)) }
    ensures tells { (tests : ℕ)
        → AtFirst (statements graph.now.body) (length (all_labels (statements graph.now.body))) (TellsAt tests (statements graph.now.body) (plans trees.old))
        → OnOk result (AtAll (statements graph.now.body) (TellsAt tests (statements graph.now.body) (plans trees.new))) }
    ensures count { OnOk result (length trees.new ≡ length (all_labels (statements graph.now.body))) }
    ensures full { (tests count : ℕ)
        → AtFirst (statements graph.now.body) (length (all_labels (statements graph.now.body))) (TellsAt tests (statements graph.now.body) (plans trees.old))
        → result ≡ Err (Full count) → IsHeavy (statements graph.now.body) tests }
    ensures wide { (tests : ℕ) (operands : Operands) → tests < 2 ^ 32
        → AtFirst (statements graph.now.body) (length (all_labels (statements graph.now.body))) (TellsAt tests (statements graph.now.body) (plans trees.old))
        → result ≡ Err (TooLarge operands) → 2 ^ 100 < growth_of (statements graph.now.body) tests }
    ensures refusal { IfErr result IsRefusal }
{
    for label in (1..graph.labels()).rev() {
        fill_one(alloc, graph, steps, label, trees)?;
    }
    Ok(())
}

/// Puts in the tree at the label, unless it is that of a loop's test.
fn fill_one(
    alloc: Global,
    graph: &Graph,
    steps: &[Transition],
    label: u32,
    trees: &mut [Tree<AffineRank>],
) -> Result<(), TreeFault>
    requires fitting { IsFitting (statements graph.now.body) }
    requires done { AreDone (statements graph.now.body) steps.now }
    requires some { 0 < label }
    requires within { label < length (all_labels (statements graph.now.body)) }
    requires few { length (all_labels (statements graph.now.body)) ≤ 1024 }
    requires count { length trees.old ≡ length (all_labels (statements graph.now.body)) }
    ensures tells { (tests : ℕ) → AtBehind (statements graph.now.body) (suc label) (TellsAt tests (statements graph.now.body) (plans trees.old))
        → OnOk result (AtBehind (statements graph.now.body) label (TellsAt tests (statements graph.now.body) (plans trees.new))) }
    ensures count { OnOk result (length trees.new ≡ length (all_labels (statements graph.now.body))) }
    ensures full { (tests count : ℕ) → AtBehind (statements graph.now.body) (suc label) (TellsAt tests (statements graph.now.body) (plans trees.old))
        → result ≡ Err (Full count) → IsHeavy (statements graph.now.body) tests }
    ensures wide { (tests : ℕ) (operands : Operands) → tests < 2 ^ 32 → AtBehind (statements graph.now.body) (suc label) (TellsAt tests (statements graph.now.body) (plans trees.old))
        → result ≡ Err (TooLarge operands) → 2 ^ 100 < growth_of (statements graph.now.body) tests }
    ensures refusal { IfErr result IsRefusal }
{
    if graph.is_head(label) {
        return Ok(());
    }
    let tree = tree(alloc, graph, steps, label, trees)?;
    trees[label as usize] = tree;
    Ok(())
}

/// The tree at the label by those behind it.
fn tree(
    alloc: Global,
    graph: &Graph,
    steps: &[Transition],
    label: u32,
    behind: &[Tree<AffineRank>],
) -> Result<Tree<AffineRank>, TreeFault>
    requires fitting { IsFitting (statements graph.now.body) }
    requires done { AreDone (statements graph.now.body) steps.now }
    requires some { 0 < label }
    requires within { label < length (all_labels (statements graph.now.body)) }
    requires few { length (all_labels (statements graph.now.body)) ≤ 1024 }
    requires count { length behind.now ≡ length (all_labels (statements graph.now.body)) }
    ensures tells { (tests left : ℕ) → left_by (is_head_by (action_at (statements graph.now.body) label)) tests ≡ Some left
        → AtNext (action_at (statements graph.now.body) label) (TellsAt left (statements graph.now.body) (plans behind.now))
        → IfOk result (λ tree. TellsTree tests (statements graph.now.body) label (plan_of tree)) }
    ensures full { (tests left count : ℕ) → left_by (is_head_by (action_at (statements graph.now.body) label)) tests ≡ Some left
        → AtNext (action_at (statements graph.now.body) label) (TellsAt left (statements graph.now.body) (plans behind.now))
        → result ≡ Err (Full count) → (sizes : ℕ → ℕ → ℕ) → AreSizes (statements graph.now.body) sizes → 65536 < sizes tests label }
    ensures wide { (tests left : ℕ) (operands : Operands) → tests < 2 ^ 32 → left_by (is_head_by (action_at (statements graph.now.body) label)) tests ≡ Some left
        → AtNext (action_at (statements graph.now.body) label) (TellsAt left (statements graph.now.body) (plans behind.now))
        → result ≡ Err (TooLarge operands) → 2 ^ 100 < growth_of (statements graph.now.body) tests }
    ensures refusal { IfErr result IsRefusal }
{
    match &steps[label as usize] {
        Transition::Assign { place, value, to } => {
            let tree = assigned(alloc, *place, value, &behind[*to as usize])?;
            Ok(tree)
        }
        Transition::Pass { to } => {
            let tree = passed(alloc, &behind[*to as usize])?;
            Ok(tree)
        }
        Transition::Test {
            is_head: _,
            choice: _,
            holds,
            fails,
            yes,
            no,
        } => {
            let tree = tested(
                alloc,
                holds,
                fails,
                &behind[*yes as usize],
                &behind[*no as usize],
            )?;
            Ok(tree)
        }
        Transition::End | Transition::Dead | Transition::Choose { .. } => {
            let tree = ended(alloc)?;
            Ok(tree)
        }
    }
}

/// The tree of label 0.
fn ended(alloc: Global) -> Result<Tree<AffineRank>, AllocError>
    ensures { IfOk result (λ tree. plan_of tree ≡ leaf End (counted 0)) }
{
    let rank = AffineRank {
        value: Affine::constant(0),
    };
    Tree::claim(alloc, &Why::End, &rank)
}
