//! Sweeps backward over the labels of a program, which propose a tree of ordinal ranks for each.
ghost use Rattle.std.specs.Prelude.{◌≡◌, ◌<◌, ◌≤◌, IfOk, length};

use crate::jump::{Power, back_jump};
use crate::ordinal::{OrdinalRank, at_once};
use backward_sweeps::LabelTrees;
use backward_transfer::back_range;
use control_flow::{Choice, Transition};
use decision_tree::{Cause, Tree, Why};
use forward_inv::Inv;
use linear_cons::Linear;
use num_domain::NumDomain;
use std::alloc::{AllocError, Global};
use tree_unify::{TreeFault, either, prune};
use tree_widening::widen;

/// The most sweeps.
const SWEEPS: u32 = 32;

/// The most nodes of the trees of all labels together where no run begins anew: there these sweeps find ranks of one function alone, where they widen
/// otherwise than those of bounds do.
const MOST_WITHOUT_JUMP: u64 = 1 << 12;

/// Trees for the labels, at which this is done, proposed for `AF exit`: in each sweep, from the greatest label to the first, a label's tree is
/// made from those of its successors, and from sweep `max(delay, 1) + 1` on that of a loop's head is widened, where something is claimed there,
/// and pruned. The sweeps end where one changes nothing, and at the latest after 32. All trees may have 2^20 nodes together, or 2^12 where no run begins anew; past that
/// the greatest are given up. Nothing is promised of them: the check decides. The only error is want of memory.
pub(crate) fn swept<D: NumDomain>(
    alloc: Global,
    inv: &Inv<D>,
    transitions: &[Transition],
    delay: u32,
) -> Result<Vec<Tree<OrdinalRank>>, AllocError>
    requires states { length inv.now ≡ length transitions.now }
    requires few { length transitions.now ≤ 1024 }
    ensures labels { IfOk result (λ trees. length trees.items ≡ length transitions.now) }
{
    let begun = begun(alloc, transitions)?;
    let mut labels = LabelTrees::of(alloc, transitions, &begun, most_nodes(transitions))?;
    let sweeps = Sweeps {
        alloc,
        inv,
        transitions,
    };
    let first = delay.max(1).saturating_add(1);
    for number in 1..=SWEEPS {
        if number == first {
            labels.begin_widening(transitions);
        }
        if !sweeps.sweep(&mut labels)? {
            break;
        }
    }
    all_taken(alloc, transitions, &labels)
}

/// The trees of the labels, in boxes.
fn all_taken(
    alloc: Global,
    transitions: &[Transition],
    labels: &LabelTrees<OrdinalRank>,
) -> Result<Vec<Tree<OrdinalRank>>, AllocError>
    requires few { length transitions.now ≤ 1024 }
    ensures { IfOk result (λ trees. length trees.items ≡ length transitions.now) }
{
    let mut trees = Vec::with_capacity(alloc, transitions.len())?;
    for label in 0..transitions.len() as u32 {
        let tree = labels.take(label)?;
        trees.push(tree)?;
    }
    Ok(trees)
}

/// The trees before the first sweep: the end claims itself, a label at which no run comes everything, and any other nothing.
fn begun(alloc: Global, transitions: &[Transition]) -> Result<Vec<Tree<OrdinalRank>>, AllocError>
    requires few { length transitions.now ≤ 1024 }
    ensures { IfOk result (λ trees. length trees.items ≡ length transitions.now) }
{
    let mut trees = Vec::with_capacity(alloc, transitions.len())?;
    for label in 0..transitions.len() as u32 {
        let tree = begun_at(alloc, &transitions[label as usize])?;
        trees.push(tree)?;
    }
    Ok(trees)
}

/// The tree of a label at which this is done, before the first sweep.
pub(crate) fn begun_at(
    alloc: Global,
    transition: &Transition,
) -> Result<Tree<OrdinalRank>, AllocError> {
    match transition {
        Transition::End => at_once(alloc, Why::Now),
        Transition::Dead => at_once(alloc, Why::Dead),
        _ => Ok(Tree::Bottom),
    }
}

/// Sweeps over the labels.
#[derive(Drop)]
struct Sweeps<'a, D: NumDomain> {
    alloc: Global,
    inv: &'a Inv<D>,
    transitions: &'a [Transition],
}

impl<'a, D: NumDomain> Sweeps<'a, D> {
    /// Makes the trees anew that are due, the greatest label first; true where one differs from what it was.
    fn sweep(&self, labels: &mut LabelTrees<OrdinalRank>) -> Result<bool, AllocError>
        requires states { length self.now.inv.now ≡ length self.now.transitions.now }
        requires few { length self.now.transitions.now ≤ 1024 }
    {
        let mut any = false;
        for label in (0..self.transitions.len() as u32).rev() {
            if labels.take_due(label) {
                let made = self.remade(label, labels)?;
                any = labels.set(self.transitions, label, made)? || any;
            }
        }
        Ok(any)
    }

    /// The number of the label's new tree.
    fn remade(&self, label: u32, labels: &mut LabelTrees<OrdinalRank>) -> Result<usize, AllocError>
        requires label { label < length self.now.transitions.now }
        requires states { length self.now.inv.now ≡ length self.now.transitions.now }
    {
        let transition = &self.transitions[label as usize];
        let made = moved_back(self.alloc, label, transition, labels)?;
        if labels.is_widened(transition) {
            self.widened(label, labels, made)
        } else {
            Ok(made)
        }
    }

    /// The number of the label's tree widened by the new one. It is widened in boxes.
    fn widened(
        &self,
        label: u32,
        labels: &mut LabelTrees<OrdinalRank>,
        made: usize,
    ) -> Result<usize, AllocError>
        requires label { label < length self.now.transitions.now }
        requires states { length self.now.inv.now ≡ length self.now.transitions.now }
    {
        let old = labels.take(label)?;
        let new = labels.taken(made)?;
        labels.put(widened(self.alloc, &old, &new, self.inv.at(label)))
    }
}

/// The number of the tree before what is done at the label, for every next state, or of what the label has for one that can't be made. A value that is chosen is moved
/// in boxes. The only error is want of memory.
fn moved_back(
    alloc: Global,
    label: u32,
    transition: &Transition,
    labels: &mut LabelTrees<OrdinalRank>,
) -> Result<usize, AllocError> {
    match transition {
        Transition::Choose {
            place,
            range,
            choice,
            to,
            ..
        } => {
            let tree = labels.take(*to)?;
            labels.put(before_choice(alloc, &tree, place.number, range, choice, Power::First))
        }
        _ => {
            let made = labels.moved_back(label, transition);
            labels.noted(made)
        }
    }
}

/// The tree before a value of the range is assigned to the variable at the place, with the tree behind it given: where the range has no end a run may begin anew,
/// with one more of a power that isn't above the highest.
pub(crate) fn before_choice(
    alloc: Global,
    tree: &Tree<OrdinalRank>,
    place: u8,
    range: &Linear,
    choice: &Choice,
    highest: Power,
) -> Result<Tree<OrdinalRank>, TreeFault>
    requires { place < 16 }
{
    let bounded = back_range(alloc, tree, place, range)?;
    if is_bounded(choice) {
        return Ok(bounded);
    }
    let anew = back_jump(alloc, tree, place, range, highest)?;
    either(alloc, &bounded, &anew)
}

/// How many nodes the trees of all labels may have together.
fn most_nodes(transitions: &[Transition]) -> u64 {
    if transitions.iter().any(begins_anew) {
        LabelTrees::<OrdinalRank>::MOST
    } else {
        MOST_WITHOUT_JUMP
    }
}

/// Whether a run may begin anew behind what is done: a number is chosen from a range without an end.
fn begins_anew(transition: &Transition) -> bool {
    match transition {
        Transition::Choose { choice, .. } => !is_bounded(choice),
        _ => false,
    }
}

/// Whether what is chosen isn't a number of a range without an end.
fn is_bounded(choice: &Choice) -> bool {
    match choice {
        Choice::Range { lo, hi } => lo.is_some() && hi.is_some(),
        _ => true,
    }
}

/// The old tree widened by the new one, or the new one where the old one claims nothing, without the sides where the set has no member.
fn widened<D: NumDomain>(
    alloc: Global,
    old: &Tree<OrdinalRank>,
    new: &Tree<OrdinalRank>,
    set: &D,
) -> Result<Tree<OrdinalRank>, TreeFault> {
    match old {
        Tree::Bottom => prune(alloc, new, set),
        _ => {
            let widened = widen(alloc, old, new)?;
            prune(alloc, &widened, set)
        }
    }
}

/// The tree, or what the label has for one that can't be made. The only error is want of memory.
pub(crate) fn or_given_up(
    alloc: Global,
    made: Result<Tree<OrdinalRank>, TreeFault>,
) -> Result<Tree<OrdinalRank>, AllocError> {
    match made {
        Ok(tree) => Ok(tree),
        Err(TreeFault::Full { count }) => {
            let count = u32::try_from(count).unwrap_or(u32::MAX);
            Tree::given_up(alloc, &Cause::Nodes { count })
        }
        Err(TreeFault::Wide(wide)) => Tree::given_up(alloc, &Cause::Wide(wide)),
        Err(TreeFault::Memory(error)) => Err(error),
    }
}
