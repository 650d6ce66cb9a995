//! The leaves of a tree that a survey found, given up in one walk over it.
ghost use Rattle.std.specs.Prelude.{◌≡◌, ◌+◌, ◌-◌, ◌^◌, ◌<◌, length, OnOk};
ghost use Rattle.decision_tree.specs.Plans.{IsEnd, leaves_of, plan_of};
ghost use Rattle.tree_check.specs.Giving.{AreToCome, IsWalked};
ghost use Rattle.tree_check.specs.Surveys.{AreApart};

use crate::survey::Refuted;
use decision_tree::{Rank, Tree};
use std::alloc::{AllocError, Global};
use tree_support::Dropped;

/// How far a walk over a tree came: how many leaves it passed, and the number of the found leaf that is next.
#[derive(Clone, Copy)]
pub(crate) struct Place {
    pub(crate) passed: u64,
    pub(crate) next: usize,
}

/// Gives up those of the found leaves that are the tree's, and lists each as it comes to it. It stops behind the last that was found. After want of memory those
/// are given up that are listed.
#[cycle(giving)]
pub(crate) fn give_up_within<R: Rank>(
    alloc: Global,
    tree: &mut Tree<R>,
    label: u32,
    found: &[Refuted],
    at: &mut Place,
    drops: &mut Vec<Dropped>,
) -> Result<(), AllocError>
    requires few { at.old.passed + leaves_of (plan_of tree.old) < 2 ^ 64 - 1 }
    requires apart { AreApart found.now }
    requires to_come { AreToCome found.now at.old.passed at.old.next }
    ensures walked { IsWalked label found.now at.old.passed (plan_of tree.old) (plan_of tree.new) at.old.next at.new.next drops.old.items drops.new.items }
    ensures passed { OnOk result (at.new.next < length found.now → at.new.passed ≡ at.old.passed + leaves_of (plan_of tree.old)) }
    ensures to_come { OnOk result (AreToCome found.now at.new.passed at.new.next) }
{
    match tree {
        Tree::Node { row: _, yes, no } => {
            give_up_within(alloc, yes, label, found, at, drops)?;
            if at.next < found.len() {
                give_up_within(alloc, no, label, found, at, drops)?;
            }
            Ok(())
        }
        Tree::Bottom => give_up_end(alloc, tree, label, found, at, drops),
        Tree::Top(_) => give_up_end(alloc, tree, label, found, at, drops),
        Tree::Leaf { .. } => give_up_end(alloc, tree, label, found, at, drops),
    }
}

/// Passes the leaf, and gives it up if it is the next that was found.
#[inline(never)]
fn give_up_end<R: Rank>(
    alloc: Global,
    end: &mut Tree<R>,
    label: u32,
    found: &[Refuted],
    at: &mut Place,
    drops: &mut Vec<Dropped>,
) -> Result<(), AllocError>
    requires few { at.old.passed < 2 ^ 64 - 1 }
    requires end { IsEnd (plan_of end.old) }
    requires apart { AreApart found.now }
    requires to_come { AreToCome found.now at.old.passed at.old.next }
    ensures walked { IsWalked label found.now at.old.passed (plan_of end.old) (plan_of end.new) at.old.next at.new.next drops.old.items drops.new.items }
    ensures passed { OnOk result (at.new.passed ≡ at.old.passed + 1) }
    ensures to_come { OnOk result (AreToCome found.now at.new.passed at.new.next) }
{
    let Some(refuted) = found.get(at.next) else {
        at.passed += 1;
        return Ok(());
    };
    if refuted.leaf != at.passed {
        at.passed += 1;
        return Ok(());
    }
    let cause = refuted.held_cause(alloc)?;
    drops.push(refuted.dropped(label))?;
    end.undefine(0, cause);
    at.passed += 1;
    at.next += 1;
    Ok(())
}
