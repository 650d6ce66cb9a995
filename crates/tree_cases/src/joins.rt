//! Calls that trim, prune, join and widen trees: `trim R and R .. in T`, `prune R and R .. in T`, `either T and T`, and so `both`, `later`, and `widen` for the
//! first tree widened by the second. Behind `is` may stand a tree: then the answer is whether it was made. Behind `prune` may stand `octagons` or `polyhedra`,
//! where it isn't boxes that keep the rows.
use case_text::{Answer, Words, read_rows, read_tree};
use decision_tree::{AffineRank, Tree};
use interval_dom::Boxes;
use num_domain::NumDomain;
use octagon_dom::Octagon;
use poly_dom::Poly;
use std::alloc::{AllocError, Global};
use tree_unify::{TreeFault, both, either, later, prune, trim};
use tree_widening::widen;

/// What a call on trees answers.
pub type Made = Result<Tree<AffineRank>, TreeFault>;

/// Makes the call of that name and writes its answer; false where none has the name.
pub fn answers(
    alloc: Global,
    name: &str,
    words: &mut Words<'_>,
    answer: &mut Answer,
) -> Result<bool, AllocError> {
    let made = match name {
        "trim" => trimmed(alloc, words),
        "prune" => pruned(alloc, words),
        "either" | "both" | "later" | "widen" => joined(alloc, name, words),
        _ => return Ok(false),
    };
    push_made(alloc, made?, words, answer)?;
    Ok(true)
}

/// Reads rows and a tree behind `in`, and trims it by them.
fn trimmed(alloc: Global, words: &mut Words<'_>) -> Result<Made, AllocError> {
    let rows = read_rows(alloc, words)?;
    words.expect("in");
    let tree = read_tree(alloc, words)?;
    Ok(trim(alloc, &tree, &rows))
}

/// Reads the name of a domain, where one stands there, rows and a tree behind `in`, and prunes it by what the domain keeps of the rows.
fn pruned(alloc: Global, words: &mut Words<'_>) -> Result<Made, AllocError> {
    if words.takes("octagons") {
        return pruned_by::<Octagon>(alloc, words);
    }
    if words.takes("polyhedra") {
        return pruned_by::<Poly>(alloc, words);
    }
    pruned_by::<Boxes>(alloc, words)
}

/// The same under one domain.
fn pruned_by<D: NumDomain>(alloc: Global, words: &mut Words<'_>) -> Result<Made, AllocError> {
    let members: D = members(alloc, words)?;
    words.expect("in");
    let tree = read_tree(alloc, words)?;
    Ok(prune(alloc, &tree, &members))
}

/// Reads rows, and gives what the domain keeps of the stores that meet them.
pub fn members<D: NumDomain>(alloc: Global, words: &mut Words<'_>) -> Result<D, AllocError> {
    let rows = read_rows(alloc, words)?;
    let mut members = D::top(alloc)?;
    for row in &rows {
        members.meet_row(alloc, row)?;
    }
    Ok(members)
}

/// Reads two trees and joins them, or widens the first by the second.
fn joined(alloc: Global, name: &str, words: &mut Words<'_>) -> Result<Made, AllocError> {
    let first = read_tree(alloc, words)?;
    words.expect("and");
    let second = read_tree(alloc, words)?;
    Ok(match name {
        "either" => either(alloc, &first, &second),
        "both" => both(alloc, &first, &second),
        "later" => later(alloc, &first, &second),
        _ => widen(alloc, &first, &second),
    })
}

/// Writes the tree or its fault. Where a tree stands behind `is`, it writes whether that one was made.
pub fn push_made(
    alloc: Global,
    made: Made,
    words: &mut Words<'_>,
    answer: &mut Answer,
) -> Result<(), AllocError> {
    match made {
        Ok(tree) if words.takes("is") => {
            answer.push_yes_or_no(tree == read_tree(alloc, words)?);
        }
        Ok(tree) => answer.push_tree(&tree),
        Err(TreeFault::Full { count }) if count > 65_536 => answer.push("too large"),
        Err(TreeFault::Full { .. }) => answer.push("not too large"),
        Err(TreeFault::Wide(wide)) => answer.push_wide(&wide),
        Err(TreeFault::Memory(error)) => return Err(error),
    }
    Ok(())
}
