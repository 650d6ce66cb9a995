//! Levels made in turn.
ghost use Rattle.std.specs.Prelude.{◌≡◌, ℕ, suc, ◌^◌, ◌<◌, ◌≤◌, IfOk, IfErr, IfSome, IsSome, IsSomeAnd, OnErr, OnOk, length};
ghost use Rattle.step_meaning.specs.Syntax.{Statements, statements};
ghost use Rattle.control_flow.specs.Labels.{all_labels};
ghost use Rattle.backward_transfer.specs.AffineShapes.{plans};
ghost use Rattle.control_flow.specs.Actions.{AtAll};
ghost use Rattle.control_flow.specs.Fitting.{IsFitting};
ghost use Rattle.unroll.specs.Building.{TellsAt};
ghost use Rattle.unroll.specs.Doing.{AreDone};
ghost use Rattle.unroll.specs.Levels.{IsLevel};
ghost use Rattle.step_meaning.specs.Plain.{IsPlain};
ghost use Rattle.control_flow.specs.Measures.{IsHeavy, IsLight};
ghost use Rattle.unroll.specs.Refusals.{IsNodes, IsRefusalAt};
ghost use Rattle.control_flow.specs.Sizing.{HasSizes};
ghost use Rattle.unroll.specs.Stopping.{IsCause, IsMade, next_level};

use crate::sizes::{first_sizes, next_sizes};
use crate::steps::steps_of;
use crate::trees::{first_trees, next_trees};
use control_flow::{Graph, Transition};
use decision_tree::{AffineRank, Cause, Family, MOST_NODES, Tree, TreeList};
use std::alloc::{AllocError, Global};
use tree_unify::TreeFault;

/// The last level that was made, and why no further one was.
#[derive(Drop)]
pub struct Unrolled {
    /// A tree for each label, where a level was made.
    pub family: Option<Family<AffineRank>>,
    /// The level of the family, and 0 where there is none.
    pub tests: u32,
    /// `None` where the level that was asked for was made.
    pub stopped: Option<Cause>,
}

/// A level: for each label the most nodes of its tree, and the tree.
#[derive(Drop)]
struct Level {
    sizes: Vec<u128>,
    trees: Vec<Tree<AffineRank>>,
}

/// What is done at the labels, and level 0.
#[derive(Drop)]
struct Start {
    steps: Vec<Transition>,
    level: Level,
}

/// The trees of the level for so many tests of a loop, or of the last level before it that was made: at each store the tree of a label makes
/// a claim exactly where all runs from there end with at most as many tests of a loop as the level says, and the claim is the number of
/// steps of the longest one. The levels are made in turn. `Nodes` stops them before the first one whose weight is above 65,536; else `Wide`
/// where a number of a function, of a rank or of a complement doesn't fit `i128`, and before level 0 where one of what the program assigns
/// or compares doesn't. The program is plain. The only error is want of memory.
pub fn unroll(alloc: Global, graph: &Graph, tests: u32) -> Result<Unrolled, AllocError>
    requires { IsPlain (statements graph.now.body) }
    ensures level { IfOk result (λ unrolled. IfSome unrolled.family (λ family. IsLevel unrolled.tests (statements graph.now.body) family.trees)) }
    ensures made { IfOk result (λ unrolled. IsMade tests unrolled) }
    ensures light { IfOk result (λ unrolled. IsSome unrolled.family → (level : ℕ) → level ≤ unrolled.tests → IsLight (statements graph.now.body) level) }
    ensures cause { IfOk result (λ unrolled. IfSome unrolled.stopped (IsCause (statements graph.now.body) (next_level unrolled))) }
{
    match first(alloc, graph) {
        Ok(Start { steps, level }) => climb(alloc, graph, &steps, level, tests),
        Err(refusal) => {
            let cause = cause(refusal)?;
            Ok(Unrolled {
                family: None,
                tests: 0,
                stopped: Some(cause),
            })
        }
    }
}

/// The level for so many tests, or the last one before it, from level 0 on.
fn climb(
    alloc: Global,
    graph: &Graph,
    steps: &[Transition],
    first: Level,
    tests: u32,
) -> Result<Unrolled, AllocError>
    requires fitting { IsFitting (statements graph.now.body) }
    requires done { AreDone (statements graph.now.body) steps.now }
    requires light { IsLight (statements graph.now.body) 0 }
    requires sizes { HasSizes (statements graph.now.body) 0 first.sizes.items }
    requires sizes_count { length first.sizes.items ≡ length (all_labels (statements graph.now.body)) }
    requires count { length first.trees.items ≡ length (all_labels (statements graph.now.body)) }
    requires tells { AtAll (statements graph.now.body) (TellsAt 0 (statements graph.now.body) (plans first.trees.items)) }
    ensures level { IfOk result (λ unrolled. IfSome unrolled.family (λ family. IsLevel unrolled.tests (statements graph.now.body) family.trees)) }
    ensures made { IfOk result (λ unrolled. IsMade tests unrolled) }
    ensures light { IfOk result (λ unrolled. IsSome unrolled.family → (level : ℕ) → level ≤ unrolled.tests → IsLight (statements graph.now.body) level) }
    ensures cause { IfOk result (λ unrolled. IfSome unrolled.stopped (IsCause (statements graph.now.body) (next_level unrolled))) }
{
    let mut level = first;
    for made in 0..tests {
        match next(alloc, graph, steps, &level) {
            Ok(more) => level = more,
            Err(refusal) => {
                let cause = cause(refusal)?;
                return Ok(unrolled_to(level, made, Some(cause)));
            }
        }
    }
    Ok(unrolled_to(level, tests, None))
}

/// The level for so many tests, and why there is no further one.
fn unrolled_to(level: Level, tests: u32, stopped: Option<Cause>) -> Unrolled
    ensures family { IsSomeAnd result.family (λ family. family.trees ≡ plans level.trees.items) }
    ensures tests { result.tests ≡ tests }
    ensures stopped { result.stopped ≡ stopped }
{
    let Level { sizes: _, trees } = level;
    Unrolled {
        family: Some(Family {
            part: 0,
            trees: TreeList::of(trees),
        }),
        tests,
        stopped,
    }
}

/// What the refusal gave up for.
fn cause(refusal: TreeFault) -> Result<Cause, AllocError>
    ensures { (body : Statements) (level : ℕ) → IsRefusalAt body level refusal → IfOk result (IsCause body level) }
{
    match refusal {
        TreeFault::Full { count } => Ok(Cause::Nodes {
            count: count.min(u32::MAX as u64) as u32,
        }),
        TreeFault::Wide(wide) => Ok(Cause::Wide(wide)),
        TreeFault::Memory(error) => Err(error),
    }
}

/// What is done at the labels, and level 0.
fn first(alloc: Global, graph: &Graph) -> Result<Start, TreeFault>
    requires plain { IsPlain (statements graph.now.body) }
    ensures done { IfOk result (λ start. AreDone (statements graph.now.body) start.steps.items) }
    ensures tells { IfOk result (λ start. AtAll (statements graph.now.body) (TellsAt 0 (statements graph.now.body) (plans start.level.trees.items))) }
    ensures sizes { IfOk result (λ start. HasSizes (statements graph.now.body) 0 start.level.sizes.items) }
    ensures sizes_count { IfOk result (λ start. length start.level.sizes.items ≡ length (all_labels (statements graph.now.body))) }
    ensures light { OnOk result (IsLight (statements graph.now.body) 0) }
    ensures count { IfOk result (λ start. length start.level.trees.items ≡ length (all_labels (statements graph.now.body))) }
    ensures fitting { OnOk result (IsFitting (statements graph.now.body)) }
    ensures refusal { IfErr result (IsRefusalAt (statements graph.now.body) 0) }
{
    let sizes = first_sizes(alloc, graph)?;
    check_sizes(graph, &sizes)?;
    match graph.check_numbers() {
        Ok(()) => {}
        Err(wide) => return Err(TreeFault::Wide(wide)),
    }
    let steps = steps_of(alloc, graph)?;
    let trees = first_trees(alloc, graph, &steps)?;
    Ok(Start {
        steps,
        level: Level { sizes, trees },
    })
}

/// The level behind the last one.
fn next(
    alloc: Global,
    graph: &Graph,
    steps: &[Transition],
    last: &Level,
) -> Result<Level, TreeFault>
    requires fitting { IsFitting (statements graph.now.body) }
    requires done { AreDone (statements graph.now.body) steps.now }
    requires sizes_count { length last.now.sizes.items ≡ length (all_labels (statements graph.now.body)) }
    requires count { length last.now.trees.items ≡ length (all_labels (statements graph.now.body)) }
    ensures tells { (tests : ℕ) → AtAll (statements graph.now.body) (TellsAt tests (statements graph.now.body) (plans last.now.trees.items))
        → IfOk result (λ level. AtAll (statements graph.now.body) (TellsAt (suc tests) (statements graph.now.body) (plans level.trees.items))) }
    ensures sizes { (tests : ℕ) → HasSizes (statements graph.now.body) tests last.now.sizes.items
        → IfOk result (λ level. HasSizes (statements graph.now.body) (suc tests) level.sizes.items) }
    ensures sizes_count { IfOk result (λ level. length level.sizes.items ≡ length (all_labels (statements graph.now.body))) }
    ensures light { (tests : ℕ) → HasSizes (statements graph.now.body) tests last.now.sizes.items
        → OnOk result (IsLight (statements graph.now.body) (suc tests)) }
    ensures count { IfOk result (λ level. length level.trees.items ≡ length (all_labels (statements graph.now.body))) }
    ensures refusal { (tests : ℕ) → suc tests < 2 ^ 32 → HasSizes (statements graph.now.body) tests last.now.sizes.items
        → AtAll (statements graph.now.body) (TellsAt tests (statements graph.now.body) (plans last.now.trees.items))
        → IfErr result (IsRefusalAt (statements graph.now.body) (suc tests)) }
{
    let sizes = next_sizes(alloc, graph, &last.sizes)?;
    check_sizes(graph, &sizes)?;
    let trees = next_trees(alloc, graph, steps, &last.trees)?;
    Ok(Level { sizes, trees })
}

/// No size is above the most nodes.
fn check_sizes(graph: &Graph, sizes: &[u128]) -> Result<(), TreeFault>
    requires { length sizes.now ≡ length (all_labels (statements graph.now.body)) }
    ensures light { (level : ℕ) → HasSizes (statements graph.now.body) level sizes.now → OnOk result (IsLight (statements graph.now.body) level) }
    ensures heavy { (level : ℕ) → HasSizes (statements graph.now.body) level sizes.now → OnErr result (IsHeavy (statements graph.now.body) level) }
    ensures nodes { IfErr result IsNodes }
{
    let most = graph.weight_of(sizes);
    if most > u128::from(MOST_NODES) {
        return Err(TreeFault::Full {
            count: most.min(u64::MAX as u128) as u64,
        });
    }
    Ok(())
}
