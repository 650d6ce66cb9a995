//! The families of the truth and of `exit`, which are supported by their shape.
ghost use Rattle.std.specs.Prelude.{◌≡◌, ◌<◌, ◌++◌, IfOk, OnOk, map, replicate};
ghost use Rattle.decision_tree.specs.Plans.{plan_of};
ghost use Rattle.part_families.specs.Known.{end_trees, truth_trees};

use backward_sweeps::at_once;
use decision_tree::{AffineRank, Family, Tree, TreeList, Why};
use std::alloc::{AllocError, Global};

/// The family of the truth, with this number, for a program of so many labels: the truth holds at each. The only error is want of memory.
pub(crate) fn truth(
    alloc: Global,
    labels: u32,
    number: u32,
) -> Result<Family<AffineRank>, AllocError>
    ensures number { IfOk result (λ family. family.part ≡ number) }
    ensures trees { IfOk result (λ family. family.trees ≡ truth_trees labels) }
{
    let mut trees = Vec::with_capacity(alloc, labels as usize)?;
    let claim = at_once(alloc, Why::Atom)?;
    add_copies(alloc, &claim, labels, &mut trees)?;
    Ok(Family {
        part: number,
        trees: TreeList::of(trees),
    })
}

/// The family of `exit`: the end is at label 0 alone. The only error is want of memory.
pub(crate) fn end(alloc: Global, labels: u32, number: u32) -> Result<Family<AffineRank>, AllocError>
    requires { 0 < labels }
    ensures number { IfOk result (λ family. family.part ≡ number) }
    ensures trees { IfOk result (λ family. family.trees ≡ end_trees labels) }
{
    let mut trees = Vec::with_capacity(alloc, labels as usize)?;
    let claim = at_once(alloc, Why::End)?;
    trees.push(claim)?;
    add_copies(alloc, &Tree::Bottom, labels - 1, &mut trees)?;
    Ok(Family {
        part: number,
        trees: TreeList::of(trees),
    })
}

// Adds so many copies of the tree.
fn add_copies(
    alloc: Global,
    tree: &Tree<AffineRank>,
    count: u32,
    trees: &mut Vec<Tree<AffineRank>>,
) -> Result<(), AllocError>
    ensures { OnOk result (map plan_of trees.new.items ≡ map plan_of trees.old.items ++ replicate count (plan_of tree.now)) }
{
    for _ in 0..count {
        trees.push(tree.copy(alloc)?)?;
    }
    Ok(())
}
