//! The sizes of a formula's parts at the labels of a program.

ghost use Rattle.std.specs.Prelude.{◌≡◌, ◌<◌, ◌*◌, ℕ, suc, max, IfOk, length};
ghost use Rattle.step_meaning.specs.Counts.{HasNoLoop};
ghost use Rattle.step_meaning.specs.Syntax.{statements};
ghost use Rattle.control_flow.specs.Actions.{AtAll, AtBehind};
ghost use Rattle.control_flow.specs.Labels.{all_labels};
ghost use Rattle.control_flow.specs.Measures.{greatest_below};
ghost use Rattle.control_flow.specs.Sizing.{HoldsAt, held, held_at};
ghost use Rattle.ctl_formula.specs.Mirror.{ctl};
ghost use Rattle.formula_measures.specs.Measures.{greatest_part, next_size, part_size, until_size};
ghost use Rattle.formula_measures.specs.Sizing.{AreSizesOf};

use control_flow::Graph;
use ctl_formula::Formula;
use std::alloc::{AllocError, Global};

/// The sizes of a part at the labels, and the greatest of them and of those of its own parts: each as long as the type holds it, and else as its last
/// value.
#[derive(Drop)]
pub(crate) struct Sizes {
    pub(crate) at: Vec<u128>,
    pub(crate) greatest: u128,
}

/// The size of the formula at the label of a program without loops, or the type's last value where that is less. The only error is want of memory.
pub fn part_size(
    alloc: Global,
    graph: &Graph,
    formula: &Formula,
    label: u32,
) -> Result<u128, AllocError>
    requires { label < length (all_labels (statements graph.now.body)) }
    ensures { HasNoLoop (statements graph.now.body) → IfOk result (λ size. size
        ≡ held (part_size (statements graph.now.body) (ctl formula.now) label)) }
{
    let sizes = sizes_of(alloc, graph, formula)?;
    Ok(sizes.at[label as usize])
}

/// The greatest size of a part of the formula at a label of a program without loops, the formula among its parts, or the type's last value where that is
/// less. The only error is want of memory.
pub fn greatest_size(alloc: Global, graph: &Graph, formula: &Formula) -> Result<u128, AllocError>
    ensures { HasNoLoop (statements graph.now.body) → IfOk result (λ size. size
        ≡ held (greatest_part (statements graph.now.body) (ctl formula.now))) }
{
    let sizes = sizes_of(alloc, graph, formula)?;
    Ok(sizes.greatest)
}

// The sizes of the formula and the greatest of its parts.
fn sizes_of(alloc: Global, graph: &Graph, formula: &Formula) -> Result<Sizes, AllocError>
    ensures { IfOk result (λ sizes. AreSizesOf (statements graph.now.body) (ctl formula.now) sizes) }
{
    match formula {
        Formula::True | Formula::False | Formula::Exit | Formula::NotExit => {
            let at = everywhere(alloc, graph, 1)?;
            Ok(with_greatest(at, 0))
        }
        Formula::Holds(_) => {
            let at = everywhere(alloc, graph, 5)?;
            Ok(with_greatest(at, 0))
        }
        Formula::Not(part) => {
            let part = sizes_of(alloc, graph, part)?;
            let at = everywhere(alloc, graph, 0)?;
            Ok(with_greatest(at, part.greatest))
        }
        Formula::Next { all: _, part } => {
            let part = sizes_of(alloc, graph, part)?;
            let at = next_sizes(alloc, graph, &part.at)?;
            Ok(with_greatest(at, part.greatest))
        }
        Formula::And(left, right) | Formula::Or(left, right) => {
            let left = sizes_of(alloc, graph, left)?;
            let right = sizes_of(alloc, graph, right)?;
            let at = products(alloc, graph, &left.at, &right.at)?;
            Ok(with_greatest(at, left.greatest.max(right.greatest)))
        }
        Formula::Until { all: _, keep, goal } | Formula::Weak { all: _, keep, goal } => {
            let keep = sizes_of(alloc, graph, keep)?;
            let goal = sizes_of(alloc, graph, goal)?;
            let at = until_sizes(alloc, graph, &keep.at, &goal.at)?;
            Ok(with_greatest(at, keep.greatest.max(goal.greatest)))
        }
    }
}

// The sizes with the greatest of them and of those below.
fn with_greatest(at: Vec<u128>, below: u128) -> Sizes
    ensures at { result.at ≡ at }
    ensures greatest { result.greatest ≡ max (greatest_below (λ label. held_at at.items label) (length at.items)) below }
{
    let greatest = greatest_of(&at).max(below);
    Sizes { at, greatest }
}

// The greatest of the numbers.
fn greatest_of(sizes: &[u128]) -> u128
    ensures { result ≡ greatest_below (λ label. held_at sizes.now label) (length sizes.now) }
{
    let mut greatest = 0u128;
    for label in 0..sizes.len() {
        greatest = greatest.max(sizes[label]);
    }
    greatest
}

// The same size at each label.
fn everywhere(alloc: Global, graph: &Graph, size: u128) -> Result<Vec<u128>, AllocError>
    ensures count { IfOk result (λ sizes. length sizes.items ≡ length (all_labels (statements graph.now.body))) }
    ensures each { IfOk result (λ sizes. AtAll (statements graph.now.body) (λ label. held_at sizes.items label ≡ size)) }
{
    let mut sizes = Vec::with_capacity(alloc, graph.labels() as usize)?;
    for _ in 0..graph.labels() {
        sizes.push(size)?;
    }
    Ok(sizes)
}

// Those of a conjunction or disjunction by those of its parts.
fn products(
    alloc: Global,
    graph: &Graph,
    left: &[u128],
    right: &[u128],
) -> Result<Vec<u128>, AllocError>
    requires left { length left.now ≡ length (all_labels (statements graph.now.body)) }
    requires right { length right.now ≡ length (all_labels (statements graph.now.body)) }
    ensures count { IfOk result (λ sizes. length sizes.items ≡ length (all_labels (statements graph.now.body))) }
    ensures each { (f g : ℕ → ℕ) → AtAll (statements graph.now.body) (HoldsAt f left.now) → AtAll (statements graph.now.body) (HoldsAt g right.now)
        → IfOk result (λ sizes. AtAll (statements graph.now.body) (HoldsAt (λ label. 4 * (f label * g label)) sizes.items)) }
{
    let mut sizes = Vec::with_capacity(alloc, graph.labels() as usize)?;
    for label in 0..graph.labels() as usize {
        sizes.push(left[label].saturating_mul(right[label]).saturating_mul(4))?;
    }
    Ok(sizes)
}

// Those of a next by those of its part.
fn next_sizes(alloc: Global, graph: &Graph, part: &[u128]) -> Result<Vec<u128>, AllocError>
    requires part { length part.now ≡ length (all_labels (statements graph.now.body)) }
    ensures count { IfOk result (λ sizes. length sizes.items ≡ length (all_labels (statements graph.now.body))) }
    ensures each { (f : ℕ → ℕ) → AtAll (statements graph.now.body) (HoldsAt f part.now)
        → IfOk result (λ sizes. AtAll (statements graph.now.body) (HoldsAt (next_size (statements graph.now.body) f) sizes.items)) }
{
    let mut sizes = Vec::with_capacity(alloc, graph.labels() as usize)?;
    sizes.push(part[0])?;
    for label in 1..graph.labels() {
        sizes.push(graph.size_before(label, part))?;
    }
    Ok(sizes)
}

// Those of an until by those of what is to be kept and of the goal.
fn until_sizes(
    alloc: Global,
    graph: &Graph,
    keep: &[u128],
    goal: &[u128],
) -> Result<Vec<u128>, AllocError>
    requires keep { length keep.now ≡ length (all_labels (statements graph.now.body)) }
    requires goal { length goal.now ≡ length (all_labels (statements graph.now.body)) }
    ensures count { IfOk result (λ sizes. length sizes.items ≡ length (all_labels (statements graph.now.body))) }
    ensures each { HasNoLoop (statements graph.now.body) → (k g : ℕ → ℕ) → AtAll (statements graph.now.body) (HoldsAt k keep.now)
        → AtAll (statements graph.now.body) (HoldsAt g goal.now)
        → IfOk result (λ sizes. AtAll (statements graph.now.body)
        (HoldsAt (until_size (statements graph.now.body) k g (length (all_labels (statements graph.now.body)))) sizes.items)) }
{
    let mut sizes = products(alloc, graph, keep, goal)?;
    fill(graph, keep, goal, &mut sizes);
    Ok(sizes)
}

// Puts them in from the last label on, where that of label 0 is there.
fn fill(graph: &Graph, keep: &[u128], goal: &[u128], sizes: &mut [u128])
    requires keep { length keep.now ≡ length (all_labels (statements graph.now.body)) }
    requires goal { length goal.now ≡ length (all_labels (statements graph.now.body)) }
    requires count { length sizes.old ≡ length (all_labels (statements graph.now.body)) }
    ensures count { length sizes.new ≡ length sizes.old }
    ensures each { HasNoLoop (statements graph.now.body) → (k g : ℕ → ℕ) → AtAll (statements graph.now.body) (HoldsAt k keep.now)
        → AtAll (statements graph.now.body) (HoldsAt g goal.now) → held_at sizes.old 0 ≡ held (4 * (k 0 * g 0))
        → AtAll (statements graph.now.body)
        (HoldsAt (until_size (statements graph.now.body) k g (length (all_labels (statements graph.now.body)))) sizes.new) }
{
    for label in (1..graph.labels()).rev() {
        fill_one(graph, keep, goal, label, sizes);
    }
}

// Puts in that of a label.
fn fill_one(graph: &Graph, keep: &[u128], goal: &[u128], label: u32, sizes: &mut [u128])
    requires keep { length keep.now ≡ length (all_labels (statements graph.now.body)) }
    requires goal { length goal.now ≡ length (all_labels (statements graph.now.body)) }
    requires count { length sizes.old ≡ length (all_labels (statements graph.now.body)) }
    requires some { 0 < label }
    requires within { label < length (all_labels (statements graph.now.body)) }
    ensures count { length sizes.new ≡ length sizes.old }
    ensures each { HasNoLoop (statements graph.now.body) → (k g : ℕ → ℕ) → AtAll (statements graph.now.body) (HoldsAt k keep.now)
        → AtAll (statements graph.now.body) (HoldsAt g goal.now)
        → AtBehind (statements graph.now.body) (suc label)
        (HoldsAt (until_size (statements graph.now.body) k g (length (all_labels (statements graph.now.body)))) sizes.old)
        → AtBehind (statements graph.now.body) label
        (HoldsAt (until_size (statements graph.now.body) k g (length (all_labels (statements graph.now.body)))) sizes.new) }
{
    let before = graph.size_before(label, sizes);
    sizes[label as usize] = keep[label as usize]
        .saturating_mul(goal[label as usize])
        .saturating_mul(before)
        .saturating_mul(16);
}
