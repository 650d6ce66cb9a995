//! The trees of the labels in one table of shared nodes.
use crate::pass::{is_head, is_idle};
use control_flow::Transition;
use decision_tree::{Cause, Rank, Tree};
use shared_trees::Forest;
use std::alloc::{AllocError, Global};
use tree_unify::TreeFault;

/// The trees of the labels while sweeps make them anew, by their numbers in one table of shared nodes, and which labels are due. Nothing is promised of the trees,
/// since nothing is promised of what sweeps over loops propose. A label past the end has no claim.
#[derive(Drop)]
pub struct LabelTrees<R: Rank> {
    pub(crate) forest: Forest<R>,
    alloc: Global,
    trees: Vec<usize>,
    /// Whether the tree at its place may differ from what is made anew.
    due: Vec<bool>,
    /// Whether trees at heads of loops are widened.
    widens: bool,
    /// The number of no claim.
    none: usize,
    /// How many nodes all trees may have together where nothing is shared.
    most: u64,
}

impl<R: Rank> LabelTrees<R> {
    /// The most nodes that the trees of all labels may have together by default.
    pub const MOST: u64 = 1 << 20;

    /// The trees in one table; all may have so many nodes together where nothing is shared. Each label at which something is done is due. The only error is want
    /// of memory.
    pub fn of(
        alloc: Global,
        transitions: &[Transition],
        trees: &[Tree<R>],
        most: u64,
    ) -> Result<LabelTrees<R>, AllocError> {
        let mut forest = Forest::new(alloc);
        let none = forest.bottom()?;
        let trees = all_put(alloc, &mut forest, trees)?;
        let mut due = Vec::with_capacity(alloc, transitions.len())?;
        for transition in transitions {
            due.push(!is_idle(transition))?;
        }
        Ok(LabelTrees {
            forest,
            alloc,
            trees,
            due,
            widens: false,
            none,
            most,
        })
    }

    /// The number of no claim.
    pub(crate) fn none(&self) -> usize {
        self.none
    }

    /// The number of the label's tree.
    fn tree(&self, label: usize) -> usize {
        number_at(&self.trees, label, self.none)
    }

    /// The tree of the label, in boxes. The only error is want of memory.
    pub fn take(&self, label: u32) -> Result<Tree<R>, AllocError> {
        self.taken(self.tree(label as usize))
    }

    /// The tree with the number, in boxes. The only error is want of memory.
    pub fn taken(&self, tree: usize) -> Result<Tree<R>, AllocError> {
        self.forest.take(self.alloc, tree)
    }

    /// The number of the tree, or of no claim with the cause for one that can't be made. The only error is want of memory.
    pub fn noted(&mut self, made: Result<usize, TreeFault>) -> Result<usize, AllocError> {
        match made {
            Ok(tree) => Ok(tree),
            Err(TreeFault::Full { count }) => self.too_large(count),
            Err(TreeFault::Wide(wide)) => self.forest.top(&Cause::Wide(wide)),
            Err(TreeFault::Memory(error)) => Err(error),
        }
    }

    /// The number of no claim in place of a tree with so many nodes.
    fn too_large(&mut self, nodes: u64) -> Result<usize, AllocError> {
        self.forest.top(&Cause::Nodes {
            count: u32::try_from(nodes).unwrap_or(u32::MAX),
        })
    }

    /// The number of the boxed tree, or of no claim with the cause for one that can't be made. The only error is want of memory.
    pub fn put(&mut self, made: Result<Tree<R>, TreeFault>) -> Result<usize, AllocError> {
        match made {
            Ok(tree) => self.forest.put(&tree),
            Err(fault) => self.noted(Err(fault)),
        }
    }

    /// The number of the tree before what is done at the label, for every next state, where no value is chosen there; no claim where one is. It fails where the
    /// tree or one on the way to it can't be made.
    pub fn moved_back(&mut self, label: u32, transition: &Transition) -> Result<usize, TreeFault> {
        match transition {
            Transition::End | Transition::Dead | Transition::Choose { .. } => Ok(self.none),
            Transition::Pass { to } => {
                let behind = self.tree(*to as usize);
                self.forest.back_skip(behind)
            }
            Transition::Assign { place, value, to } => {
                let behind = self.tree(*to as usize);
                self.forest.back_assign(behind, place.number, value, label)
            }
            Transition::Test {
                is_head: _,
                choice: _,
                holds,
                fails,
                yes,
                no,
            } => {
                let first = self.tree(*yes as usize);
                let second = self.tree(*no as usize);
                self.forest.back_test(first, second, holds, fails)
            }
        }
    }

    /// From now on the trees at heads of loops are widened: they are due.
    pub fn begin_widening(&mut self, transitions: &[Transition]) {
        self.widens = true;
        for (label, transition) in transitions.iter().enumerate() {
            if is_head(transition) {
                self.mark(label);
            }
        }
    }

    /// Whether the tree at which this is done is widened.
    pub fn is_widened(&self, transition: &Transition) -> bool {
        self.widens && is_head(transition)
    }

    /// Whether the label is due: its tree may differ from what is made anew. It isn't any more then.
    pub fn take_due(&mut self, label: u32) -> bool {
        match self.due.get_mut(label as usize) {
            Some(due) => {
                let was = *due;
                *due = false;
                was
            }
            None => false,
        }
    }

    /// Sets the tree of the label; true where it differs from what it was. Then the labels are due for which that matters. Where all trees have more nodes together
    /// than they may, the greatest ones of labels at which something is done are given up until they have no more, or no more can be given up. The only error is
    /// want of memory.
    pub fn set(
        &mut self,
        transitions: &[Transition],
        label: u32,
        tree: usize,
    ) -> Result<bool, AllocError> {
        let label = label as usize;
        if tree == self.tree(label) {
            return Ok(false);
        }
        self.change(transitions, label, tree);
        if let Some(transition) = transitions.get(label) {
            if self.is_widened(transition) {
                self.mark(label);
            }
        }
        self.give_up_greatest(transitions)?;
        Ok(true)
    }

    /// Sets the tree of the label. Each label from which a step leads to this one is due.
    fn change(&mut self, transitions: &[Transition], label: usize, tree: usize) {
        if let Some(place) = self.trees.get_mut(label) {
            *place = tree;
        }
        for (before, transition) in transitions.iter().enumerate() {
            if leads_to(transition, label) {
                self.mark(before);
            }
        }
    }

    /// Marks the label as due.
    fn mark(&mut self, label: usize) {
        if let Some(due) = self.due.get_mut(label) {
            *due = true;
        }
    }

    /// Gives up the greatest trees of labels at which something is done until all have no more nodes together than they may, or no more can be given up.
    fn give_up_greatest(&mut self, transitions: &[Transition]) -> Result<(), AllocError> {
        for _ in transitions {
            if self.total() <= self.most {
                return Ok(());
            }
            let Some(label) = self.greatest(transitions) else {
                return Ok(());
            };
            let nodes = self.forest.size(self.tree(label));
            let tree = self.too_large(nodes)?;
            self.change(transitions, label, tree);
            self.mark(label);
        }
        Ok(())
    }

    /// The label of the greatest tree, of those with two nodes and more at labels at which something is done.
    fn greatest(&self, transitions: &[Transition]) -> Option<usize> {
        let mut greatest = None;
        let mut most = 1;
        for (label, transition) in transitions.iter().enumerate() {
            let size = self.forest.size(self.tree(label));
            if size > most && !is_idle(transition) {
                greatest = Some(label);
                most = size;
            }
        }
        greatest
    }

    /// How many nodes all trees have together where nothing is shared, or the type's last value where that is less.
    fn total(&self) -> u64 {
        let mut total: u64 = 0;
        for tree in &self.trees {
            total = total.saturating_add(self.forest.size(*tree));
        }
        total
    }
}

/// The numbers of the trees.
pub(crate) fn all_put<R: Rank>(
    alloc: Global,
    forest: &mut Forest<R>,
    trees: &[Tree<R>],
) -> Result<Vec<usize>, AllocError> {
    let mut numbers = Vec::with_capacity(alloc, trees.len())?;
    for tree in trees {
        let number = forest.put(tree)?;
        numbers.push(number)?;
    }
    Ok(numbers)
}

/// The number at the label, or `none` where there is no such label.
pub(crate) fn number_at(numbers: &[usize], label: usize, none: usize) -> usize {
    match numbers.get(label) {
        Some(number) => *number,
        None => none,
    }
}

/// Whether a step leads to the label.
fn leads_to(transition: &Transition, label: usize) -> bool {
    match transition {
        Transition::End | Transition::Dead => false,
        Transition::Pass { to } | Transition::Assign { to, .. } | Transition::Choose { to, .. } =>
            *to as usize == label,
        Transition::Test { yes, no, .. } => *yes as usize == label || *no as usize == label,
    }
}
