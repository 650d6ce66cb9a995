//! Sweeps over the labels.
ghost use Rattle.std.specs.Prelude.{◌≡◌, ◌<◌, ◌≤◌, false, IfOk, OnOk, length};
ghost use Rattle.backward_transfer.specs.AffineShapes.{plans};
ghost use Rattle.control_flow.specs.Transitions.{AreOnward, HasNoHead, is_idle};
ghost use Rattle.backward_sweeps.specs.Remaking.{AreEndsGiven, AreEndsStarted, AreKept, AreRemadeFrom, parts_of};

use crate::operands::Operands;
use crate::pass::{begun, follow, has_head, is_idle};
use crate::shared::SharedTrees;
use crate::starting::started;
use control_flow::Transition;
use decision_tree::{AffineRank, Tree, TreeList};
use forward_inv::Inv;
use num_domain::NumDomain;
use std::alloc::{AllocError, Global};
use tree_unify::{TreeFault, prune};
use tree_widening::widen;

/// The most sweeps.
const SWEEPS: u32 = 32;

/// Trees for the labels, at which this is done, proposed for an until of these operands: in each sweep, from the greatest label to the
/// first, a label's tree is made from those of its successors, and from sweep `max(delay, 1) + 1` on that of a loop's head is widened and
/// pruned. The sweeps end where one changes nothing, and at the latest after 32. At the end the goal has to hold; a label at which no run
/// comes claims everything, and one whose tree can't be made, since a number passes 128 bits, its nodes 65,536 or those of all trees 2^20,
/// claims nothing. The only error is want of memory.
pub fn swept<D: NumDomain>(
    alloc: Global,
    inv: &Inv<D>,
    transitions: &[Transition],
    operands: &Operands<'_>,
    delay: u32,
) -> Result<TreeList<AffineRank>, AllocError>
    requires states { length inv.now ≡ length transitions.now }
    requires few { length transitions.now ≤ 1024 }
    requires onward { AreOnward transitions.now }
    ensures labels { IfOk result (λ trees. length trees ≡ length transitions.now) }
    ensures given { IfOk result (λ trees. AreEndsGiven (parts_of operands.now) transitions.now trees) }
    ensures remade { HasNoHead transitions.now → IfOk result (λ trees. AreRemadeFrom 0 false (parts_of operands.now) transitions.now trees) }
{
    let mut trees = begun(alloc, transitions, operands, &[])?;
    if !has_head(transitions) {
        follow(alloc, transitions, operands, &mut trees)?;
        return Ok(TreeList::of(trees));
    }
    let sweeps = Sweeps {
        alloc,
        transitions,
        inv,
        operands,
        count: SWEEPS,
        widened_from: Some(delay.max(1).saturating_add(1)),
    };
    sweeps.run(&mut trees)?;
    Ok(TreeList::of(trees))
}

/// Trees for the labels, at which this is done, proposed for a weak until of these operands. At first a label claims what the goal does, or
/// else that what is to be kept is kept behind each step; then `max(delay, 1)` sweeps follow, in which a label's tree is made from those of
/// its successors, or as many as change something. Nothing is widened. What is claimed at first is kept at the end; a label at which no run
/// comes claims everything, and one whose tree can't be made, since a number passes 128 bits or the nodes 65,536, claims nothing. The only
/// error is want of memory.
pub fn kept<D: NumDomain>(
    alloc: Global,
    inv: &Inv<D>,
    transitions: &[Transition],
    operands: &Operands<'_>,
    delay: u32,
) -> Result<TreeList<AffineRank>, AllocError>
    requires states { length inv.now ≡ length transitions.now }
    requires few { length transitions.now ≤ 1024 }
    requires onward { AreOnward transitions.now }
    ensures labels { IfOk result (λ trees. length trees ≡ length transitions.now) }
    ensures started { IfOk result (λ trees. AreEndsStarted (parts_of operands.now) transitions.now trees) }
    ensures remade { HasNoHead transitions.now → IfOk result (λ trees. AreRemadeFrom 0 false (parts_of operands.now) transitions.now trees) }
{
    let mut trees = started(alloc, transitions, operands)?;
    if !has_head(transitions) {
        follow(alloc, transitions, operands, &mut trees)?;
        return Ok(TreeList::of(trees));
    }
    let sweeps = Sweeps {
        alloc,
        transitions,
        inv,
        operands,
        count: delay.max(1),
        widened_from: None,
    };
    sweeps.run(&mut trees)?;
    Ok(TreeList::of(trees))
}

/// Sweeps over the labels.
#[derive(Drop)]
struct Sweeps<'a, D: NumDomain> {
    alloc: Global,
    transitions: &'a [Transition],
    inv: &'a Inv<D>,
    operands: &'a Operands<'a>,
    /// How many there are at most.
    count: u32,
    /// The number of the first that widens, if one does.
    widened_from: Option<u32>,
}

impl<'a, D: NumDomain> Sweeps<'a, D> {
    /// Makes the trees anew, sweep after sweep, until one changes nothing or there were as many as may be. While sweeps go on the trees stand in one table of shared
    /// nodes.
    fn run(&self, trees: &mut [Tree<AffineRank>]) -> Result<(), AllocError>
        requires states { length self.now.inv.now ≡ length self.now.transitions.now }
        requires few { length self.now.transitions.now ≤ 1024 }
        requires trees { length trees.old ≡ length self.now.transitions.now }
        ensures trees { length trees.new ≡ length trees.old }
        ensures ends { OnOk result (AreKept is_idle self.now.transitions.now (plans trees.old) (plans trees.new)) }
    {
        let mut shared = SharedTrees::of(self.alloc, self.transitions, trees, self.operands)?;
        for number in 1..=self.count {
            if self.widened_from == Some(number) {
                shared.labels.begin_widening(self.transitions);
            }
            if !self.sweep(&mut shared)? {
                break;
            }
        }
        self.take_all(&shared, trees)
    }

    /// Takes the trees of the labels at which something is done out of the table.
    fn take_all(
        &self,
        shared: &SharedTrees,
        trees: &mut [Tree<AffineRank>],
    ) -> Result<(), AllocError>
        requires few { length self.now.transitions.now ≤ 1024 }
        requires trees { length trees.old ≡ length self.now.transitions.now }
        ensures trees { length trees.new ≡ length trees.old }
        ensures ends { OnOk result (AreKept is_idle self.now.transitions.now (plans trees.old) (plans trees.new)) }
    {
        for label in 0..self.transitions.len() as u32 {
            self.take(shared, label, trees)?;
        }
        Ok(())
    }

    /// Takes the tree of the label out of the table, where something is done there.
    fn take(
        &self,
        shared: &SharedTrees,
        label: u32,
        trees: &mut [Tree<AffineRank>],
    ) -> Result<(), AllocError>
        requires label { label < length self.now.transitions.now }
        requires trees { length trees.old ≡ length self.now.transitions.now }
        ensures labels { length trees.new ≡ length trees.old }
        ensures ends { OnOk result (AreKept is_idle self.now.transitions.now (plans trees.old) (plans trees.new)) }
    {
        if is_idle(&self.transitions[label as usize]) {
            return Ok(());
        }
        let made = shared.labels.take(label)?;
        trees[label as usize] = made;
        Ok(())
    }

    /// Makes the trees anew that are due, the greatest label first; true where one differs from what it was.
    fn sweep(&self, shared: &mut SharedTrees) -> Result<bool, AllocError>
        requires states { length self.now.inv.now ≡ length self.now.transitions.now }
        requires few { length self.now.transitions.now ≤ 1024 }
    {
        let mut any = false;
        for label in (0..self.transitions.len() as u32).rev() {
            if shared.labels.take_due(label) {
                let made = self.remade(label, shared)?;
                any = shared.labels.set(self.transitions, label, made)? || any;
            }
        }
        Ok(any)
    }

    /// The number of the label's new tree.
    fn remade(&self, label: u32, shared: &mut SharedTrees) -> Result<usize, AllocError>
        requires label { label < length self.now.transitions.now }
        requires states { length self.now.inv.now ≡ length self.now.transitions.now }
    {
        let transition = &self.transitions[label as usize];
        let made = shared.remade(label, transition)?;
        if shared.labels.is_widened(transition) {
            self.widened(label, shared, made)
        } else {
            Ok(made)
        }
    }

    /// The number of the label's tree widened by the new one. It is widened in boxes.
    fn widened(
        &self,
        label: u32,
        shared: &mut SharedTrees,
        made: usize,
    ) -> Result<usize, AllocError>
        requires label { label < length self.now.transitions.now }
        requires states { length self.now.inv.now ≡ length self.now.transitions.now }
    {
        let old = shared.labels.take(label)?;
        let new = shared.labels.taken(made)?;
        shared
            .labels
            .put(widened(self.alloc, &old, &new, self.inv.at(label)))
    }
}

/// The old tree widened by the new one, without the sides where the set has no member. Only the tree at a loop's test is pruned: without loops
/// each tree is made of those behind it as they are, and whoever pruned one would make it false that they miss no state in which the formula
/// holds (`exact_families`).
fn widened<D: NumDomain>(
    alloc: Global,
    old: &Tree<AffineRank>,
    new: &Tree<AffineRank>,
    set: &D,
) -> Result<Tree<AffineRank>, TreeFault> {
    let widened = widen(alloc, old, new)?;
    prune(alloc, &widened, set)
}
