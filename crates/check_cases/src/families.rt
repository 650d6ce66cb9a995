//! Families of trees, as lines say them.
use case_text::{Words, read_tree};
use decision_tree::{AffineRank, Family, Tree, TreeList};
use std::alloc::{AllocError, Global};

/// The number of an operand's family, which the check doesn't read.
const OPERAND: u32 = 0;

/// Reads the families of the operands, each behind the word `with`.
pub fn read_operands(
    alloc: Global,
    labels: u32,
    words: &mut Words<'_>,
) -> Result<Vec<Family<AffineRank>>, AllocError> {
    let mut families = Vec::new(alloc);
    for _ in 0..words.len() {
        if !words.takes("with") {
            break;
        }
        let trees = read_trees(alloc, labels, words)?;
        families.push(Family {
            part: OPERAND,
            trees: TreeList::of(trees),
        })?;
    }
    Ok(families)
}

/// Reads a tree for each label: `all T` is that of each, `at N T` that of the label with the number, and nothing is claimed at the others.
pub fn read_trees(
    alloc: Global,
    labels: u32,
    words: &mut Words<'_>,
) -> Result<Vec<Tree<AffineRank>>, AllocError> {
    let mut trees = Vec::new(alloc);
    for _ in 0..labels {
        trees.push(Tree::Bottom)?;
    }
    for _ in 0..words.len() {
        if words.takes("all") {
            set_each(alloc, &mut trees, words)?;
        } else if words.takes("at") {
            set_one(alloc, &mut trees, words)?;
        } else {
            break;
        }
    }
    Ok(trees)
}

/// Reads the tree of each label.
fn set_each(
    alloc: Global,
    trees: &mut [Tree<AffineRank>],
    words: &mut Words<'_>,
) -> Result<(), AllocError> {
    let tree = read_tree(alloc, words)?;
    for place in trees.iter_mut() {
        *place = tree.copy(alloc)?;
    }
    Ok(())
}

/// Reads the tree of one label.
fn set_one(
    alloc: Global,
    trees: &mut [Tree<AffineRank>],
    words: &mut Words<'_>,
) -> Result<(), AllocError> {
    let label = words.count() as usize;
    let tree = read_tree(alloc, words)?;
    match trees.get_mut(label) {
        Some(place) => *place = tree,
        None => words.fail("no such label"),
    }
    Ok(())
}
