//! The candidate of a countdown program.

ghost use Rattle.std.specs.Prelude.{◌≡◌, ◌<◌, ◌≤◌, ◌++◌, ◌↔◌, reverse, IfOk, IfSome, IsSome, OnOk, length, slice_index_or};
ghost use Rattle.step_meaning.specs.Syntax.{size_of, statements};
ghost use Rattle.step_meaning.specs.Countdown.{IsCountdown, IsCountdownBy};
ghost use Rattle.control_flow.specs.Labels.{all_labels, entry_of};
ghost use Rattle.decision_tree.specs.Plans.{bottom};
ghost use Rattle.count_down.specs.Building as building;
ghost use Rattle.count_down.specs.Candidates as candidates;
ghost use Rattle.decision_tree.specs.Extent.{IsWhole};

use crate::loop_trees::{add_all, add_behind, ended};
use control_flow::Graph;
use decision_tree::{AffineRank, Family, Tree, TreeList};
use std::alloc::{AllocError, Global};
use step_meaning::{Countdown, Program};

/// For a countdown program a tree for each label of its graph, which promises the end within a bound of steps, or `None` exactly where
/// the program is no countdown program.
pub fn candidate(alloc: Global, graph: &Graph) -> Result<Option<Family<AffineRank>>, AllocError>
    ensures countdown { IfOk result (λ found. IsSome found ↔ IsCountdown (statements graph.now.body)) }
    ensures trees { IfOk result (λ found. IfSome found (λ family. candidates.IsCandidate family.trees (statements graph.now.body))) }
    ensures labels { IfOk result (λ found. IfSome found (λ family. length family.trees ≡ length (all_labels (statements graph.now.body)))) }
    ensures entry { IfOk result (λ found. IfSome found (λ family. IsWhole (slice_index_or family.trees (entry_of (statements graph.now.body)) bottom))) }
{
    candidate_of(alloc, graph.labels(), graph.program())
}

// The same of the program, with so many labels.
fn candidate_of(
    alloc: Global,
    labels: u32,
    program: &Program,
) -> Result<Option<Family<AffineRank>>, AllocError>
    requires count { labels ≡ length (all_labels (statements program.now.body)) }
    requires few { labels ≤ 1024 }
    ensures countdown { IfOk result (λ found. IsSome found ↔ IsCountdown (statements program.now.body)) }
    ensures trees { IfOk result (λ found. IfSome found (λ family. candidates.IsCandidate family.trees (statements program.now.body))) }
    ensures labels { IfOk result (λ found. IfSome found (λ family. length family.trees ≡ length (all_labels (statements program.now.body)))) }
    ensures entry { IfOk result (λ found. IfSome found (λ family. IsWhole (slice_index_or family.trees (entry_of (statements program.now.body)) bottom))) }
{
    match program.countdown() {
        Some(countdown) => {
            let trees = trees(alloc, labels, program, &countdown)?;
            Ok(Some(Family {
                part: 0,
                trees: TreeList::of(trees),
            }))
        }
        None => Ok(None),
    }
}

// The trees at the labels, label 0 first.
fn trees(
    alloc: Global,
    labels: u32,
    program: &Program,
    countdown: &Countdown,
) -> Result<Vec<Tree<AffineRank>>, AllocError>
    requires countdown { IsCountdownBy countdown.now (statements program.now.body) }
    requires few { size_of (statements program.now.body) < 1024 }
    ensures { IfOk result (λ list. building.plans list.items ≡ candidates.candidate_by countdown.now (statements program.now.body)) }
{
    let mut list = Vec::with_capacity(alloc, labels as usize)?;
    add_trees(alloc, program, countdown, &mut list)?;
    let end = ended(alloc)?;
    list.push(end)?;
    list.reverse();
    Ok(list)
}

// Adds the trees at the labels but label 0, the last label's first.
fn add_trees(
    alloc: Global,
    program: &Program,
    countdown: &Countdown,
    list: &mut Vec<Tree<AffineRank>>,
) -> Result<(), AllocError>
    requires countdown { IsCountdownBy countdown.now (statements program.now.body) }
    requires few { size_of (statements program.now.body) < 1024 }
    ensures { OnOk result (building.plans list.new.items ≡ building.plans list.old.items ++ reverse (building.trees_by countdown.now (statements program.now.body))) }
{
    match countdown {
        Countdown::Straight => {
            add_behind(alloc, &program.body, list)?;
        }
        Countdown::Loop(row) => {
            add_all(alloc, &program.body, row, list)?;
        }
    }
    Ok(())
}
