//! The first claims of families.
ghost use Rattle.std.specs.Prelude.{◌≡◌, ◌↔◌, All, IfOk, IsTrue, None, Some, length, option_map};
ghost use Rattle.step_meaning.specs.Syntax.{statements};
ghost use Rattle.control_flow.specs.Labels.{all_labels};
ghost use Rattle.decision_tree.specs.Extent.{ComplementsFit, IsWhole};
ghost use Rattle.decision_tree.specs.Plans.{plan_of};
ghost use Rattle.ctl_rounds.specs.Covers.{Extends, IsCover, LeavesOpen, claims_of};
ghost use Rattle.ctl_rounds.specs.Growing.{next_of};

use crate::certificate::Certificate;
use control_flow::Graph;
use decision_tree::{AffineRank, Tree};
use std::alloc::{AllocError, Global};
use tree_support::tree_at_entry;
use tree_unify::{TreeFault, either};

/// The most nodes of a cover, leaves included.
pub(crate) const MOST_NODES: u64 = 4_096;

/// The first claim for each input of the certificate's families of the whole formula: their trees at the entry, joined in their order by
/// `either`. It begins with the first tree of at most 4,096 nodes whose rows can be turned, and where there is none it claims nothing; a later
/// tree is left out where a number passes 128 bits as it is joined, or more than 4,096 nodes come of it. The only error is want of memory.
pub fn cover(
    alloc: Global,
    certificate: &Certificate,
    graph: &Graph,
) -> Result<Tree<AffineRank>, AllocError>
    requires labels { All (λ family. length family.trees ≡ length (all_labels (statements graph.now.body))) certificate.now.tops }
    ensures { IfOk result (λ tree. IsCover (statements graph.now.body) certificate.now.tops (plan_of tree)) }
{
    let mut cover = None;
    for family in certificate.tops.items() {
        let entry = tree_at_entry(graph, family);
        match extended(alloc, &cover, entry)? {
            Some(next) => cover = Some(next),
            None => {}
        }
    }
    Ok(claims(cover))
}

/// Whether the cover of the certificate's families has an undefined leaf. The only error is want of memory.
pub fn is_open(alloc: Global, certificate: &Certificate, graph: &Graph) -> Result<bool, AllocError>
    requires labels { All (λ family. length family.trees ≡ length (all_labels (statements graph.now.body))) certificate.now.tops }
    ensures { IfOk result (λ leaves. IsTrue leaves → LeavesOpen (statements graph.now.body) certificate.now.tops) }
{
    let cover = cover(alloc, certificate, graph)?;
    Ok(!is_whole(&cover))
}

// What a cover claims.
fn claims(cover: Option<Tree<AffineRank>>) -> Tree<AffineRank>
    ensures { plan_of result ≡ claims_of (option_map plan_of cover) }
{
    match cover {
        Some(cover) => cover,
        None => Tree::Bottom,
    }
}

/// The cover with one more tree, and nothing where it stays as it is. The only error is want of memory.
pub(crate) fn extended(
    alloc: Global,
    cover: &Option<Tree<AffineRank>>,
    tree: &Tree<AffineRank>,
) -> Result<Option<Tree<AffineRank>>, AllocError>
    ensures { IfOk result (λ found. Extends (option_map plan_of cover.now) (plan_of tree.now) (next_of (option_map plan_of cover.now) (option_map plan_of found))) }
{
    match cover {
        Some(cover) => joined(alloc, cover, tree),
        None => begun(alloc, tree),
    }
}

/// A copy of the tree, if it has at most 4,096 nodes and its rows can be turned.
fn begun(alloc: Global, tree: &Tree<AffineRank>) -> Result<Option<Tree<AffineRank>>, AllocError>
    ensures { IfOk result (λ found. Extends None (plan_of tree.now) (option_map plan_of found)) }
{
    if tree.size() <= MOST_NODES && complements_fit(tree) {
        Ok(Some(tree.copy(alloc)?))
    } else {
        Ok(None)
    }
}

/// The cover's claims, and those of the tree where it has none; nothing where they can't be joined in 4,096 nodes, or a number passes 128
/// bits.
fn joined(
    alloc: Global,
    cover: &Tree<AffineRank>,
    tree: &Tree<AffineRank>,
) -> Result<Option<Tree<AffineRank>>, AllocError>
    ensures { IfOk result (λ found. Extends (Some (plan_of cover.now)) (plan_of tree.now)
        (next_of (Some (plan_of cover.now)) (option_map plan_of found))) }
{
    match either(alloc, cover, tree) {
        Ok(both) => {
            if both.size() <= MOST_NODES {
                Ok(Some(both))
            } else {
                Ok(None)
            }
        }
        Err(TreeFault::Full { .. } | TreeFault::Wide(_)) => Ok(None),
        Err(TreeFault::Memory(error)) => Err(error),
    }
}

/// Whether the complement of each row of the tree fits 128 bits.
fn complements_fit(tree: &Tree<AffineRank>) -> bool
    ensures { IsTrue result ↔ ComplementsFit (plan_of tree.now) }
{
    match tree {
        Tree::Bottom | Tree::Top(_) | Tree::Leaf { .. } => true,
        Tree::Node { row, yes, no } => {
            row.not().is_ok() && complements_fit(yes) && complements_fit(no)
        }
    }
}

/// Whether no leaf of the tree is undefined.
pub(crate) fn is_whole(tree: &Tree<AffineRank>) -> bool
    ensures { IsTrue result ↔ IsWhole (plan_of tree.now) }
{
    match tree {
        Tree::Bottom | Tree::Top(_) => false,
        Tree::Leaf { .. } => true,
        Tree::Node { row: _, yes, no } => is_whole(yes) && is_whole(no),
    }
}
