//! How large the trees of a level may be.

ghost use Rattle.std.specs.Prelude.{◌≡◌, ℕ, suc, ◌<◌, ◌≤◌, length};
ghost use Rattle.step_meaning.specs.Syntax.{expression, statements};
ghost use Rattle.control_flow.specs.Actions.{AtAll, AtBehind, AtFirst, AtNext};
ghost use Rattle.control_flow.specs.Labels.{action_at, all_labels};
ghost use Rattle.control_flow.specs.Measures.{AreSizes, IsWeight, leaves_of_test, size_before, size_of_test};
ghost use Rattle.control_flow.specs.Sizing.{HasSizes, HoldsAt, held, held_at};

use crate::action::Action;
use crate::graph::{Graph, LABELS};
use step_meaning::Expr;

impl Graph {
    /// The most nodes of a tree of the level for so many tests, or the type's last value where that is less: 1 at label 0 and at a loop's
    /// test at level 0, and elsewhere what `size_before` tells. The test of a loop takes those of the level before.
    pub fn weight(&self, tests: u32) -> u128
        ensures { IsWeight (statements self.now.body) tests result }
    {
        let mut sizes = room(self);
        self.first_sizes(&mut sizes);
        for _ in 0..tests {
            let last = sizes;
            self.next_sizes(&last, &mut sizes);
        }
        self.weight_of(&sizes)
    }

    /// Puts the sizes of level 0 at their labels, each as long as the type holds it, and else as its last value.
    pub fn first_sizes(&self, sizes: &mut [u128])
        requires { length (all_labels (statements self.now.body)) ≤ length sizes.old }
        ensures sizes { HasSizes (statements self.now.body) 0 sizes.new }
        ensures count { length sizes.new ≡ length sizes.old }
    {
        fill_ones(self, sizes);
        fill(self, sizes);
    }

    /// Puts the sizes of the level behind the last one at their labels.
    pub fn next_sizes(&self, last: &[u128], sizes: &mut [u128])
        requires last { length (all_labels (statements self.now.body)) ≤ length last.now }
        requires room { length (all_labels (statements self.now.body)) ≤ length sizes.old }
        ensures sizes { (level : ℕ) → HasSizes (statements self.now.body) level last.now → HasSizes (statements self.now.body) (suc level) sizes.new }
        ensures count { length sizes.new ≡ length sizes.old }
    {
        fill_ones(self, sizes);
        fill_heads(self, last, sizes);
        fill(self, sizes);
    }

    /// The greatest of the sizes of a level, which is its weight.
    pub fn weight_of(&self, sizes: &[u128]) -> u128
        requires { length (all_labels (statements self.now.body)) ≤ length sizes.now }
        ensures { (level : ℕ) → HasSizes (statements self.now.body) level sizes.now → IsWeight (statements self.now.body) level result }
    {
        let mut most = 0;
        for label in 0..self.labels() {
            most = most.max(sizes[label as usize]);
        }
        most
    }

    /// The size of a tree of a level before the label's step by those at the labels that follow, each as long as the type holds it, and else its last
    /// value: 1 more than behind it for a step; for a whole `?` four times the product of the two sizes behind it, and for another test twice the sum
    /// of both and 1, times the most leaves that its rows make.
    pub fn size_before(&self, label: u32, behind: &[u128]) -> u128
        requires within { label < length (all_labels (statements self.now.body)) }
        requires count { length (all_labels (statements self.now.body)) ≤ length behind.now }
        ensures { (sizes : ℕ → ℕ) → AtNext (action_at (statements self.now.body) label) (HoldsAt sizes behind.now)
            → result ≡ held (size_before sizes (action_at (statements self.now.body) label)) }
    {
        match self.action(label) {
            Action::End => 1,
            Action::Assign { next, .. } => behind[next as usize].saturating_add(1),
            Action::Pass { next } => behind[next as usize].saturating_add(1),
            Action::Test { test, yes, no, .. } => {
                let first = behind[yes as usize];
                let second = behind[no as usize];
                size_of_test(test, self.leaves(label), first, second)
            }
        }
    }
}

// Room for a number at each label.
fn room(graph: &Graph) -> [u128; LABELS as usize]
    ensures { length (all_labels (statements graph.now.body)) ≤ length result }
{
    let labels = graph.labels();
    prove!(labels <= LABELS);
    [0; LABELS as usize]
}

// Puts in a 1 at each label.
fn fill_ones(graph: &Graph, sizes: &mut [u128])
    requires { length (all_labels (statements graph.now.body)) ≤ length sizes.old }
    ensures ones { (label : ℕ) → label < length (all_labels (statements graph.now.body)) → held_at sizes.new label ≡ 1 }
    ensures count { length sizes.new ≡ length sizes.old }
{
    for label in 0..graph.labels() {
        sizes[label as usize] = 1;
    }
}

// Puts in the sizes at the labels of loops' tests, by those of the last level.
fn fill_heads(graph: &Graph, last: &[u128], sizes: &mut [u128])
    requires last_count { length (all_labels (statements graph.now.body)) ≤ length last.now }
    requires count { length (all_labels (statements graph.now.body)) ≤ length sizes.old }
    ensures exact { (each : ℕ → ℕ → ℕ) (level : ℕ) → AreSizes (statements graph.now.body) each
        → AtAll (statements graph.now.body) (HoldsAt (each level) last.now)
        → AtFirst (statements graph.now.body) 1 (HoldsAt (each (suc level)) sizes.old)
        → AtFirst (statements graph.now.body) (length (all_labels (statements graph.now.body))) (HoldsAt (each (suc level)) sizes.new) }
    ensures count { length sizes.new ≡ length sizes.old }
{
    for label in 1..graph.labels() {
        fill_head(graph, label, last, sizes);
    }
}

// Puts in the size at the label, where it is that of a loop's test.
fn fill_head(graph: &Graph, label: u32, last: &[u128], sizes: &mut [u128])
    requires some { 0 < label }
    requires within { label < length (all_labels (statements graph.now.body)) }
    requires last_count { length (all_labels (statements graph.now.body)) ≤ length last.now }
    requires count { length (all_labels (statements graph.now.body)) ≤ length sizes.old }
    ensures exact { (each : ℕ → ℕ → ℕ) (level : ℕ) → AreSizes (statements graph.now.body) each
        → AtAll (statements graph.now.body) (HoldsAt (each level) last.now)
        → AtFirst (statements graph.now.body) label (HoldsAt (each (suc level)) sizes.old)
        → AtFirst (statements graph.now.body) (suc label) (HoldsAt (each (suc level)) sizes.new) }
    ensures count { length sizes.new ≡ length sizes.old }
{
    if graph.is_head(label) {
        sizes[label as usize] = graph.size_before(label, last);
    }
}

// Puts in the sizes at the labels but label 0 and those of loops' tests, from the last on.
fn fill(graph: &Graph, sizes: &mut [u128])
    requires count { length (all_labels (statements graph.now.body)) ≤ length sizes.old }
    ensures exact { (each : ℕ → ℕ → ℕ) (level : ℕ) → AreSizes (statements graph.now.body) each
        → AtFirst (statements graph.now.body) (length (all_labels (statements graph.now.body))) (HoldsAt (each level) sizes.old)
        → AtAll (statements graph.now.body) (HoldsAt (each level) sizes.new) }
    ensures count { length sizes.new ≡ length sizes.old }
{
    for label in (1..graph.labels()).rev() {
        fill_one(graph, label, sizes);
    }
}

// Puts in the size at the label, unless it is that of a loop's test.
fn fill_one(graph: &Graph, label: u32, sizes: &mut [u128])
    requires some { 0 < label }
    requires within { label < length (all_labels (statements graph.now.body)) }
    requires count { length (all_labels (statements graph.now.body)) ≤ length sizes.old }
    ensures exact { (each : ℕ → ℕ → ℕ) (level : ℕ) → AreSizes (statements graph.now.body) each
        → AtBehind (statements graph.now.body) (suc label) (HoldsAt (each level) sizes.old)
        → AtBehind (statements graph.now.body) label (HoldsAt (each level) sizes.new) }
    ensures count { length sizes.new ≡ length sizes.old }
{
    if !graph.is_head(label) {
        sizes[label as usize] = graph.size_before(label, sizes);
    }
}

// The size at a test with the most leaves of its rows, between trees of these sizes.
fn size_of_test(test: &Expr, leaves: u128, first: u128, second: u128) -> u128
    ensures { (a b : ℕ) → leaves ≡ held (leaves_of_test (expression test.now)) → first ≡ held a → second ≡ held b
        → result ≡ held (size_of_test (expression test.now) a b) }
{
    match test {
        Expr::Free => first.saturating_mul(second).saturating_mul(4),
        _ => first
            .saturating_add(second)
            .saturating_add(1)
            .saturating_mul(leaves)
            .saturating_mul(2),
    }
}
