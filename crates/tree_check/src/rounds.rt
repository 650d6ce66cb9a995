//! The rounds: refuted leaves are given up until none is left.
ghost use Rattle.std.specs.Prelude.{◌≡◌, ◌⊎◌, ℕ, ◌-◌, ◌^◌, ◌<◌, ◌++◌, ◌∷◌, [], true, false, length, map, slice_index_or, All, Option, None, Some, IfOk, OnOk, OnErr};
ghost use Rattle.step_meaning.specs.Syntax.{statements};
ghost use Rattle.control_flow.specs.Labels.{all_labels};
ghost use Rattle.ctl_formula.specs.Mirror.{ctl};
ghost use Rattle.decision_tree.specs.Paths.{path_of};
ghost use Rattle.decision_tree.specs.Plans.{leaves_of, plan_of};
ghost use Rattle.tree_support.specs.declared.dropped.Dropped.{Dropped};
ghost use Rattle.tree_support.specs.Setting.{trees_in};
ghost use Rattle.tree_support.specs.Support.{IsSupported};
ghost use Rattle.constraint_stack.specs.Searches.{WhereAsked};
ghost use Rattle.tree_check.specs.Narrowing.{HoldsPath, PicksNoValue, speaks_of_some};
ghost use Rattle.tree_check.specs.Rounds.{Advances, AreElsewhere, IsReady, IsSupportedAt, LeadsElsewhere, dropped_by, is_dead, setting_on, target_of, without_refuted};
ghost use Rattle.tree_check.specs.Surveys.{AreApart, IsFirst, IsFound, IsReviewed};
ghost use Rattle.tree_check.specs.Telling.{AreCleared, AreSame, AreTold, AreToldBeside, IsSameAround, IsTold};

use crate::giving::{Place, give_up_within};
use crate::narrow::{add_path, sets};
use crate::survey::{Refuted, Span, Survey};
use constraint_stack::ConstraintStack;
use control_flow::{Choice, Edge, Graph, Transition};
use ctl_formula::Formula;
use decision_tree::{Family, Rank, Tree};
use forward_inv::Inv;
use leaf_search::{Part, Stand, UNEDGED, Way};
use linear_cons::Row;
use num_domain::NumDomain;
use std::alloc::{AllocError, Global};
use tree_support::Dropped;

/// A tree that has so many leaves for each drop is rather looked at behind the drops, one by one, than surveyed.
const LEAVES_TO_A_DROP: u64 = 8;

/// Of more drops than these a label is never told one by one, since for each the trees of both labels are walked over.
const MOST_TOLD: usize = 64;

/// What the leaves of a family are held against: a graph with its invariants and what is done at its labels over them, a formula, and the
/// families of its operands.
#[derive(Drop)]
pub(crate) struct Premises<'a, D: NumDomain, R: Rank> {
    pub(crate) alloc: Global,
    pub(crate) graph: &'a Graph,
    pub(crate) inv: &'a Inv<D>,
    pub(crate) transitions: &'a [Transition],
    pub(crate) formula: &'a Formula,
    pub(crate) parts: &'a [Family<R>],
}

impl<'a, D: NumDomain, R: Rank> Premises<'a, D, R> {
    /// Gives up refuted leaves until none is left, and lists them.
    pub(crate) fn settle(
        &self,
        trees: &mut [Tree<R>],
        drops: &mut Vec<Dropped>,
    ) -> Result<(), AllocError>
        requires trees { length trees.old ≡ length (all_labels (statements self.now.graph.now.body)) }
        requires ready { IsReady D.NumDomain.own self.now }
        requires leaves { (label : ℕ) → leaves_of (trees_in (map plan_of trees.old) label) < 2 ^ 64 - 1 }
        ensures advances { Advances R.Rank.own (setting_on D.NumDomain.own self.now) (map plan_of trees.old) drops.old.items
            (map plan_of trees.new) drops.new.items }
        ensures supported { OnOk result (IsSupported R.Rank.own (setting_on D.NumDomain.own self.now) (trees_in (map plan_of trees.new))) }
    {
        let mut told = untold(self.alloc, self.graph.labels())?;
        self.settle_told(trees, drops, &mut told)?;
        Ok(())
    }

    /// The same of trees beside others that are supported: a label whose own tree and whose successors' trees are those isn't looked at before one of them changes.
    pub(crate) fn settle_beside(
        &self,
        known: &[Tree<R>],
        trees: &mut [Tree<R>],
        drops: &mut Vec<Dropped>,
    ) -> Result<(), AllocError>
        requires trees { length trees.old ≡ length (all_labels (statements self.now.graph.now.body)) }
        requires ready { IsReady D.NumDomain.own self.now }
        requires leaves { (label : ℕ) → leaves_of (trees_in (map plan_of trees.old) label) < 2 ^ 64 - 1 }
        requires labels { length known.now ≡ length trees.old }
        requires known { IsSupported R.Rank.own (setting_on D.NumDomain.own self.now) (trees_in (map plan_of known.now)) }
        ensures advances { Advances R.Rank.own (setting_on D.NumDomain.own self.now) (map plan_of trees.old) drops.old.items
            (map plan_of trees.new) drops.new.items }
        ensures supported { OnOk result (IsSupported R.Rank.own (setting_on D.NumDomain.own self.now) (trees_in (map plan_of trees.new))) }
    {
        let same = same_trees(self.alloc, known, trees)?;
        let mut told = self.told_beside(&same, drops.len())?;
        self.settle_told(trees, drops, &mut told)?;
        Ok(())
    }

    /// For each label whether it was told of so many drops: so it is where its own tree and those of its successors are the same as others, which are supported.
    fn told_beside(&self, same: &[bool], number: usize) -> Result<Vec<Option<usize>>, AllocError>
        ensures labels { IfOk result (λ told. length told.items ≡ length (all_labels (statements self.now.graph.now.body))) }
        ensures told { IfOk result (λ told. AreToldBeside (setting_on D.NumDomain.own self.now) same.now number told.items) }
    {
        let mut told = Vec::new(self.alloc);
        for label in 0..self.graph.labels() {
            let heard = if self.is_same_around(label, same) {
                Some(number)
            } else {
                None
            };
            told.push(heard)?;
        }
        Ok(told)
    }

    /// Whether the label's own tree and those to which its edges lead are the same.
    fn is_same_around(&self, label: u32, same: &[bool]) -> bool
        requires label { label < length (all_labels (statements self.now.graph.now.body)) }
        ensures { result ≡ true → IsSameAround (setting_on D.NumDomain.own self.now) same.now label }
    {
        let edges = self.graph.edges(label);
        if !is_same(same, target(&edges[0])) {
            return false;
        }
        if !is_same(same, target(&edges[1])) {
            return false;
        }
        is_same(same, label)
    }

    /// The same. For each label it says of how many of the drops the label was told, whose leaves had no others against them then.
    fn settle_told(
        &self,
        trees: &mut [Tree<R>],
        drops: &mut Vec<Dropped>,
        told: &mut [Option<usize>],
    ) -> Result<(), AllocError>
        requires trees { length trees.old ≡ length (all_labels (statements self.now.graph.now.body)) }
        requires ready { IsReady D.NumDomain.own self.now }
        requires leaves { (label : ℕ) → leaves_of (trees_in (map plan_of trees.old) label) < 2 ^ 64 - 1 }
        requires labels { length told.old ≡ length (all_labels (statements self.now.graph.now.body)) }
        requires told { AreTold R.Rank.own (setting_on D.NumDomain.own self.now) (trees_in (map plan_of trees.old)) drops.old.items told.old }
        ensures advances { Advances R.Rank.own (setting_on D.NumDomain.own self.now) (map plan_of trees.old) drops.old.items
            (map plan_of trees.new) drops.new.items }
        ensures supported { OnOk result (IsSupported R.Rank.own (setting_on D.NumDomain.own self.now) (trees_in (map plan_of trees.new))) }
    {
        loop {
            let before = drops.len();
            self.settle_each(trees, drops, told)?;
            if drops.len() == before {
                return Ok(());
            }
        }
    }

    /// Goes through the labels, the greatest first, since edges mostly lead to greater ones.
    fn settle_each(
        &self,
        trees: &mut [Tree<R>],
        drops: &mut Vec<Dropped>,
        told: &mut [Option<usize>],
    ) -> Result<(), AllocError>
        requires trees { length trees.old ≡ length (all_labels (statements self.now.graph.now.body)) }
        requires ready { IsReady D.NumDomain.own self.now }
        requires leaves { (label : ℕ) → leaves_of (trees_in (map plan_of trees.old) label) < 2 ^ 64 - 1 }
        requires labels { length told.old ≡ length (all_labels (statements self.now.graph.now.body)) }
        requires told { AreTold R.Rank.own (setting_on D.NumDomain.own self.now) (trees_in (map plan_of trees.old)) drops.old.items told.old }
        ensures advances { Advances R.Rank.own (setting_on D.NumDomain.own self.now) (map plan_of trees.old) drops.old.items
            (map plan_of trees.new) drops.new.items }
        ensures told { OnOk result (AreTold R.Rank.own (setting_on D.NumDomain.own self.now)
            (trees_in (map plan_of trees.new)) drops.new.items told.new) }
        ensures supported { OnOk result (drops.new.items ≡ drops.old.items
            → IsSupported R.Rank.own (setting_on D.NumDomain.own self.now) (trees_in (map plan_of trees.new))) }
    {
        for label in (0..self.graph.labels()).rev() {
            self.visit(label, trees, drops, told)?;
        }
        Ok(())
    }

    /// Tells a label of the drops that it wasn't told of yet. It is surveyed where it never was, where more of them matter to it than a
    /// survey costs, and where its own tree matters to it.
    fn visit(
        &self,
        label: u32,
        trees: &mut [Tree<R>],
        drops: &mut Vec<Dropped>,
        told: &mut [Option<usize>],
    ) -> Result<(), AllocError>
        requires label { label < length (all_labels (statements self.now.graph.now.body)) }
        requires trees { length trees.old ≡ length (all_labels (statements self.now.graph.now.body)) }
        requires ready { IsReady D.NumDomain.own self.now }
        requires leaves { (label : ℕ) → leaves_of (trees_in (map plan_of trees.old) label) < 2 ^ 64 - 1 }
        requires labels { length told.old ≡ length (all_labels (statements self.now.graph.now.body)) }
        requires told { AreTold R.Rank.own (setting_on D.NumDomain.own self.now) (trees_in (map plan_of trees.old)) drops.old.items told.old }
        ensures advances { Advances R.Rank.own (setting_on D.NumDomain.own self.now) (map plan_of trees.old) drops.old.items
            (map plan_of trees.new) drops.new.items }
        ensures told { OnOk result (AreTold R.Rank.own (setting_on D.NumDomain.own self.now)
            (trees_in (map plan_of trees.new)) drops.new.items told.new) }
        ensures supported { OnOk result (drops.new.items ≡ drops.old.items
            → IsSupportedAt R.Rank.own (setting_on D.NumDomain.own self.now) (trees_in (map plan_of trees.new)) label) }
    {
        let Some(from) = told[label as usize] else {
            return self.survey(label, trees, drops, told);
        };
        let leading = self.leading(label, from, drops);
        if leading == 0 {
            told[label as usize] = Some(drops.len());
            return Ok(());
        }
        if self.leads(label, label) || is_many(leading, &trees[label as usize]) {
            return self.survey(label, trees, drops, told);
        }
        let number = self.tell_each(label, from, trees, drops)?;
        told[label as usize] = Some(number);
        Ok(())
    }

    /// How many of the drops from a number on are at labels to which an edge of this one leads.
    fn leading(&self, label: u32, from: usize, drops: &[Dropped]) -> usize
        requires label { label < length (all_labels (statements self.now.graph.now.body)) }
        ensures { result ≡ 0 → AreElsewhere (setting_on D.NumDomain.own self.now) label from drops.now }
    {
        let mut count = 0;
        for number in from..drops.len() {
            if self.leads(label, drops[number].label) {
                count += 1;
            }
        }
        count
    }

    /// Surveys a label. Where each of its leaves is supported then it was told of all drops.
    fn survey(
        &self,
        label: u32,
        trees: &mut [Tree<R>],
        drops: &mut Vec<Dropped>,
        told: &mut [Option<usize>],
    ) -> Result<(), AllocError>
        requires label { label < length (all_labels (statements self.now.graph.now.body)) }
        requires trees { length trees.old ≡ length (all_labels (statements self.now.graph.now.body)) }
        requires ready { IsReady D.NumDomain.own self.now }
        requires leaves { (label : ℕ) → leaves_of (trees_in (map plan_of trees.old) label) < 2 ^ 64 - 1 }
        requires labels { length told.old ≡ length (all_labels (statements self.now.graph.now.body)) }
        requires told { AreTold R.Rank.own (setting_on D.NumDomain.own self.now) (trees_in (map plan_of trees.old)) drops.old.items told.old }
        ensures advances { Advances R.Rank.own (setting_on D.NumDomain.own self.now) (map plan_of trees.old) drops.old.items
            (map plan_of trees.new) drops.new.items }
        ensures told { OnOk result (AreTold R.Rank.own (setting_on D.NumDomain.own self.now)
            (trees_in (map plan_of trees.new)) drops.new.items told.new) }
        ensures supported { OnOk result (drops.new.items ≡ drops.old.items
            → IsSupportedAt R.Rank.own (setting_on D.NumDomain.own self.now) (trees_in (map plan_of trees.new)) label) }
    {
        if !self.settle_label(label, trees, drops)? {
            told[label as usize] = None;
            return Ok(());
        }
        told[label as usize] = Some(drops.len());
        Ok(())
    }

    /// Tells a label of the drops from a number on, also of those that come by it, and answers how many these are.
    fn tell_each(
        &self,
        label: u32,
        from: usize,
        trees: &mut [Tree<R>],
        drops: &mut Vec<Dropped>,
    ) -> Result<usize, AllocError>
        requires label { label < length (all_labels (statements self.now.graph.now.body)) }
        requires trees { length trees.old ≡ length (all_labels (statements self.now.graph.now.body)) }
        requires ready { IsReady D.NumDomain.own self.now }
        requires leaves { (label : ℕ) → leaves_of (trees_in (map plan_of trees.old) label) < 2 ^ 64 - 1 }
        requires elsewhere { LeadsElsewhere (setting_on D.NumDomain.own self.now) label label }
        requires told { IsTold R.Rank.own (setting_on D.NumDomain.own self.now) (trees_in (map plan_of trees.old)) drops.old.items from label }
        ensures advances { Advances R.Rank.own (setting_on D.NumDomain.own self.now) (map plan_of trees.old) drops.old.items
            (map plan_of trees.new) drops.new.items }
        ensures told { IfOk result (λ number. (number ≡ length drops.new.items)
            × IsTold R.Rank.own (setting_on D.NumDomain.own self.now) (trees_in (map plan_of trees.new)) drops.new.items number label) }
    {
        let mut number = from;
        while number < drops.len() {
            let dropped = drops[number];
            self.tell(label, &dropped, trees, drops)?;
            number += 1;
        }
        Ok(number)
    }

    /// Tells a label of a drop: gives up the leaves that are refuted by what the drop made new.
    fn tell(
        &self,
        label: u32,
        dropped: &Dropped,
        trees: &mut [Tree<R>],
        drops: &mut Vec<Dropped>,
    ) -> Result<(), AllocError>
        requires label { label < length (all_labels (statements self.now.graph.now.body)) }
        requires trees { length trees.old ≡ length (all_labels (statements self.now.graph.now.body)) }
        requires ready { IsReady D.NumDomain.own self.now }
        requires leaves { (label : ℕ) → leaves_of (trees_in (map plan_of trees.old) label) < 2 ^ 64 - 1 }
        requires elsewhere { LeadsElsewhere (setting_on D.NumDomain.own self.now) label label }
        ensures advances { Advances R.Rank.own (setting_on D.NumDomain.own self.now) (map plan_of trees.old) drops.old.items
            (map plan_of trees.new) drops.new.items }
        ensures cleared { OnOk result (AreCleared R.Rank.own (setting_on D.NumDomain.own self.now)
            (trees_in (map plan_of trees.new)) (Some dropped.now) label []) }
    {
        if !self.leads(label, dropped.label) {
            return Ok(());
        }
        if is_dead(&self.transitions[label as usize]) {
            return Ok(());
        }
        let rows = self.inv.at(label).rows(self.alloc)?;
        self.renew(label, dropped, &rows, trees, drops)
    }

    /// The same for a label at which a store may be, with what its invariant says, where an edge may lead to the drop.
    fn renew(
        &self,
        label: u32,
        dropped: &Dropped,
        rows: &[Row],
        trees: &mut [Tree<R>],
        drops: &mut Vec<Dropped>,
    ) -> Result<(), AllocError>
        requires label { label < length (all_labels (statements self.now.graph.now.body)) }
        requires trees { length trees.old ≡ length (all_labels (statements self.now.graph.now.body)) }
        requires leaves { (label : ℕ) → leaves_of (trees_in (map plan_of trees.old) label) < 2 ^ 64 - 1 }
        requires elsewhere { LeadsElsewhere (setting_on D.NumDomain.own self.now) label label }
        requires ready { IsReady D.NumDomain.own self.now }
        requires alive { (setting_on D.NumDomain.own self.now).dead label ≡ false }
        requires rows { (setting_on D.NumDomain.own self.now).rows label ≡ rows.now }
        ensures advances { Advances R.Rank.own (setting_on D.NumDomain.own self.now) (map plan_of trees.old) drops.old.items
            (map plan_of trees.new) drops.new.items }
        ensures cleared { OnOk result (AreCleared R.Rank.own (setting_on D.NumDomain.own self.now)
            (trees_in (map plan_of trees.new)) (Some dropped.now) label []) }
    {
        let narrow = self.path_to(label, dropped, trees)?;
        let span = Span {
            first: 0,
            collects: true,
            narrows: true,
        };
        let found = self.refuted(label, span, narrow, rows, trees)?;
        self.give_up_each(label, &found, trees, drops)?;
        Ok(())
    }

    /// The rows of the dropped leaf's path, moved back over what is done at the label. Without rows where a leaf of the label may put a
    /// value of its own.
    fn path_to(
        &self,
        label: u32,
        dropped: &Dropped,
        trees: &[Tree<R>],
    ) -> Result<ConstraintStack, AllocError>
        requires label { label < length (all_labels (statements self.now.graph.now.body)) }
        requires ready { IsReady D.NumDomain.own self.now }
        requires alive { (setting_on D.NumDomain.own self.now).dead label ≡ false }
        ensures { IfOk result (λ stack. HoldsPath (setting_on D.NumDomain.own self.now) label stack
            (path_of (trees_in (map plan_of trees.now) dropped.now.label) dropped.now.leaf)) }
    {
        let mut stack = ConstraintStack::new(self.alloc);
        if self.picks_values(label) {
            return Ok(stack);
        }
        let Some(tree) = trees.get(dropped.label as usize) else {
            return Ok(stack);
        };
        let way = Way {
            edge: UNEDGED,
            sets: sets(&self.transitions[label as usize]),
            limit: None,
        };
        let mut left = dropped.leaf;
        let _ = add_path(tree, &way, &mut left, &mut stack)?;
        Ok(stack)
    }

    /// Whether a leaf of the label may put a value of its own: some successor is spoken of, and a value may be chosen.
    fn picks_values(&self, label: u32) -> bool
        requires label { label < length (all_labels (statements self.now.graph.now.body)) }
        ensures { result ≡ false → PicksNoValue (setting_on D.NumDomain.own self.now) label }
    {
        match self.graph.choice(label) {
            Choice::Range { lo: _, hi: _ } => is_existential(self.formula),
            _ => false,
        }
    }

    /// Whether an edge leads from a label to another.
    fn leads(&self, label: u32, other: u32) -> bool
        requires label { label < length (all_labels (statements self.now.graph.now.body)) }
        ensures { result ≡ false → LeadsElsewhere (setting_on D.NumDomain.own self.now) label other }
    {
        let edges = self.graph.edges(label);
        target(&edges[0]) == other || target(&edges[1]) == other
    }

    /// Goes once through the leaves at a label. True where each is supported then, as it is where nothing is given up.
    fn settle_label(
        &self,
        label: u32,
        trees: &mut [Tree<R>],
        drops: &mut Vec<Dropped>,
    ) -> Result<bool, AllocError>
        requires label { label < length (all_labels (statements self.now.graph.now.body)) }
        requires trees { length trees.old ≡ length (all_labels (statements self.now.graph.now.body)) }
        requires ready { IsReady D.NumDomain.own self.now }
        requires leaves { (label : ℕ) → leaves_of (trees_in (map plan_of trees.old) label) < 2 ^ 64 - 1 }
        ensures advances { Advances R.Rank.own (setting_on D.NumDomain.own self.now) (map plan_of trees.old) drops.old.items
            (map plan_of trees.new) drops.new.items }
        ensures supported { IfOk result (λ whole. (whole ≡ true) ⊎ (drops.new.items ≡ drops.old.items)
            → IsSupportedAt R.Rank.own (setting_on D.NumDomain.own self.now) (trees_in (map plan_of trees.new)) label) }
    {
        if is_dead(&self.transitions[label as usize]) {
            return Ok(true);
        }
        let rows = self.inv.at(label).rows(self.alloc)?;
        self.settle_alive(label, &rows, trees, drops)
    }

    /// The same for a label at which a store may be, with what its invariant says.
    fn settle_alive(
        &self,
        label: u32,
        rows: &[Row],
        trees: &mut [Tree<R>],
        drops: &mut Vec<Dropped>,
    ) -> Result<bool, AllocError>
        requires label { label < length (all_labels (statements self.now.graph.now.body)) }
        requires trees { length trees.old ≡ length (all_labels (statements self.now.graph.now.body)) }
        requires leaves { (label : ℕ) → leaves_of (trees_in (map plan_of trees.old) label) < 2 ^ 64 - 1 }
        requires ready { IsReady D.NumDomain.own self.now }
        requires alive { (setting_on D.NumDomain.own self.now).dead label ≡ false }
        requires rows { (setting_on D.NumDomain.own self.now).rows label ≡ rows.now }
        ensures advances { Advances R.Rank.own (setting_on D.NumDomain.own self.now) (map plan_of trees.old) drops.old.items
            (map plan_of trees.new) drops.new.items }
        ensures supported { IfOk result (λ whole. (whole ≡ true) ⊎ (drops.new.items ≡ drops.old.items)
            → IsSupportedAt R.Rank.own (setting_on D.NumDomain.own self.now) (trees_in (map plan_of trees.new)) label) }
    {
        if self.leads(label, label) {
            return self.settle_in_turn(label, rows, trees, drops);
        }
        self.settle_at_once(label, rows, trees, drops)
    }

    /// The same of a label whose systems read its own tree: each leaf that is given up may change what is to be shown at the others.
    fn settle_in_turn(
        &self,
        label: u32,
        rows: &[Row],
        trees: &mut [Tree<R>],
        drops: &mut Vec<Dropped>,
    ) -> Result<bool, AllocError>
        requires label { label < length (all_labels (statements self.now.graph.now.body)) }
        requires trees { length trees.old ≡ length (all_labels (statements self.now.graph.now.body)) }
        requires leaves { (label : ℕ) → leaves_of (trees_in (map plan_of trees.old) label) < 2 ^ 64 - 1 }
        requires ready { IsReady D.NumDomain.own self.now }
        requires alive { (setting_on D.NumDomain.own self.now).dead label ≡ false }
        requires rows { (setting_on D.NumDomain.own self.now).rows label ≡ rows.now }
        ensures advances { Advances R.Rank.own (setting_on D.NumDomain.own self.now) (map plan_of trees.old) drops.old.items
            (map plan_of trees.new) drops.new.items }
        ensures supported { IfOk result (λ whole. (whole ≡ true) ⊎ (drops.new.items ≡ drops.old.items)
            → IsSupportedAt R.Rank.own (setting_on D.NumDomain.own self.now) (trees_in (map plan_of trees.new)) label) }
    {
        let mut first = 0;
        while let Some(refuted) = self.first_refuted(label, first, rows, trees)? {
            give_up(self.alloc, trees, label, &refuted, drops)?;
            first = refuted.leaf + 1;
        }
        Ok(first == 0)
    }

    /// The same of a label whose systems don't read its own tree: one survey finds all the leaves to be given up.
    fn settle_at_once(
        &self,
        label: u32,
        rows: &[Row],
        trees: &mut [Tree<R>],
        drops: &mut Vec<Dropped>,
    ) -> Result<bool, AllocError>
        requires label { label < length (all_labels (statements self.now.graph.now.body)) }
        requires trees { length trees.old ≡ length (all_labels (statements self.now.graph.now.body)) }
        requires leaves { (label : ℕ) → leaves_of (trees_in (map plan_of trees.old) label) < 2 ^ 64 - 1 }
        requires ready { IsReady D.NumDomain.own self.now }
        requires alive { (setting_on D.NumDomain.own self.now).dead label ≡ false }
        requires rows { (setting_on D.NumDomain.own self.now).rows label ≡ rows.now }
        requires elsewhere { LeadsElsewhere (setting_on D.NumDomain.own self.now) label label }
        ensures advances { Advances R.Rank.own (setting_on D.NumDomain.own self.now) (map plan_of trees.old) drops.old.items
            (map plan_of trees.new) drops.new.items }
        ensures supported { IfOk result (λ whole. (whole ≡ true) ⊎ (drops.new.items ≡ drops.old.items)
            → IsSupportedAt R.Rank.own (setting_on D.NumDomain.own self.now) (trees_in (map plan_of trees.new)) label) }
    {
        let nothing = ConstraintStack::new(self.alloc);
        let span = Span {
            first: 0,
            collects: true,
            narrows: false,
        };
        let found = self.refuted(label, span, nothing, rows, trees)?;
        self.give_up_each(label, &found, trees, drops)?;
        Ok(true)
    }

    /// Gives up the leaves that a survey found.
    fn give_up_each(
        &self,
        label: u32,
        found: &[Refuted],
        trees: &mut [Tree<R>],
        drops: &mut Vec<Dropped>,
    ) -> Result<(), AllocError>
        requires label { label < length trees.old }
        requires elsewhere { LeadsElsewhere (setting_on D.NumDomain.own self.now) label label }
        requires found { All (λ refuted. IsFound R.Rank.own (setting_on D.NumDomain.own self.now) (trees_in (map plan_of trees.old)) label refuted)
            found.now }
        requires apart { AreApart found.now }
        requires leaves { leaves_of (trees_in (map plan_of trees.old) label) < 2 ^ 64 - 1 }
        ensures advances { Advances R.Rank.own (setting_on D.NumDomain.own self.now) (map plan_of trees.old) drops.old.items
            (map plan_of trees.new) drops.new.items }
        ensures cleared { OnOk result ((told : Option Dropped)
            → AreCleared R.Rank.own (setting_on D.NumDomain.own self.now) (trees_in (map plan_of trees.old)) told label found.now
            → AreCleared R.Rank.own (setting_on D.NumDomain.own self.now) (trees_in (map plan_of trees.new)) told label []) }
    {
        if found.is_empty() {
            return Ok(());
        }
        let mut at = Place { passed: 0, next: 0 };
        give_up_within(
            self.alloc,
            &mut trees[label as usize],
            label,
            found,
            &mut at,
            drops,
        )?;
        Ok(())
    }

    /// The first refuted leaf at the label from a number on.
    fn first_refuted(
        &self,
        label: u32,
        first: u64,
        rows: &[Row],
        trees: &[Tree<R>],
    ) -> Result<Option<Refuted>, AllocError>
        requires label { label < length (all_labels (statements self.now.graph.now.body)) }
        requires leaves { leaves_of (trees_in (map plan_of trees.now) label) < 2 ^ 64 - 1 }
        requires ready { IsReady D.NumDomain.own self.now }
        requires alive { (setting_on D.NumDomain.own self.now).dead label ≡ false }
        requires rows { (setting_on D.NumDomain.own self.now).rows label ≡ rows.now }
        ensures { IfOk result (λ refuted.
            IsFirst R.Rank.own (setting_on D.NumDomain.own self.now) (trees_in (map plan_of trees.now)) label first refuted) }
    {
        let nothing = ConstraintStack::new(self.alloc);
        let span = Span {
            first,
            collects: false,
            narrows: false,
        };
        let refuted = self.refuted(label, span, nothing, rows, trees)?;
        match refuted.first() {
            Some(refuted) => Ok(Some(*refuted)),
            None => Ok(None),
        }
    }

    /// The refuted leaves at the label among those that the survey looks at.
    fn refuted(
        &self,
        label: u32,
        span: Span,
        narrow: ConstraintStack,
        rows: &[Row],
        trees: &[Tree<R>],
    ) -> Result<Vec<Refuted>, AllocError>
        requires label { label < length (all_labels (statements self.now.graph.now.body)) }
        requires leaves { leaves_of (trees_in (map plan_of trees.now) label) < 2 ^ 64 - 1 }
        requires ready { IsReady D.NumDomain.own self.now }
        requires alive { (setting_on D.NumDomain.own self.now).dead label ≡ false }
        requires rows { (setting_on D.NumDomain.own self.now).rows label ≡ rows.now }
        ensures { IfOk result (λ refuted. WhereAsked narrow (λ within. IsReviewed R.Rank.own (setting_on D.NumDomain.own self.now)
            (trees_in (map plan_of trees.now)) label span within refuted.items)) }
    {
        let survey = Survey {
            stand: Stand {
                part: Part::of(self.formula),
                label,
                choice: self.graph.choice(label),
                transition: &self.transitions[label as usize],
                family: trees,
                parts: self.parts,
            },
            span,
        };
        let refuted = survey.refuted(self.alloc, rows, narrow)?;
        Ok(refuted)
    }
}

/// Where the edge leads, and label 0 where there is none.
fn target(edge: &Option<Edge>) -> u32
    ensures { result ≡ target_of edge.now }
{
    match edge {
        Some(edge) => edge.to,
        None => 0,
    }
}

/// No run comes to the label.
fn is_dead(transition: &Transition) -> bool
    ensures { result ≡ is_dead transition.now }
{
    match transition {
        Transition::Dead => true,
        _ => false,
    }
}

/// So many labels, none of which was told of anything.
fn untold(alloc: Global, labels: u32) -> Result<Vec<Option<usize>>, AllocError>
    ensures labels { IfOk result (λ told. length told.items ≡ labels) }
    ensures told { IfOk result (λ told. (label : ℕ) → slice_index_or told.items label None ≡ None) }
{
    let mut told = Vec::new(alloc);
    for _ in 0..labels {
        told.push(None)?;
    }
    Ok(told)
}

/// For each label whether the trees are the same there.
fn same_trees<R: Rank>(
    alloc: Global,
    known: &[Tree<R>],
    trees: &[Tree<R>],
) -> Result<Vec<bool>, AllocError>
    requires labels { length known.now ≡ length trees.now }
    ensures { IfOk result (λ same. AreSame (map plan_of known.now) (map plan_of trees.now) same.items) }
{
    let mut same = Vec::with_capacity(alloc, trees.len())?;
    for label in 0..trees.len() {
        let is_same = trees[label] == known[label];
        same.push(is_same)?;
    }
    Ok(same)
}

/// Whether the label is marked; past the end none is.
fn is_same(same: &[bool], label: u32) -> bool
    ensures { result ≡ slice_index_or same.now label false }
{
    match same.get(label as usize) {
        Some(is_same) => *is_same,
        None => false,
    }
}

/// Whether to look behind so many drops one by one costs more than a survey of the tree.
fn is_many<R: Rank>(drops: usize, tree: &Tree<R>) -> bool {
    drops > MOST_TOLD || drops as u64 > tree.leaves() / LEAVES_TO_A_DROP
}

/// Whether the formula speaks of some successor.
fn is_existential(formula: &Formula) -> bool
    ensures { result ≡ speaks_of_some (ctl formula.now) }
{
    match formula {
        Formula::Next { all, part: _ } => !*all,
        Formula::Until {
            all,
            keep: _,
            goal: _,
        } => !*all,
        Formula::Weak {
            all,
            keep: _,
            goal: _,
        } => !*all,
        Formula::True
        | Formula::False
        | Formula::Exit
        | Formula::NotExit
        | Formula::Holds(_)
        | Formula::Not(_)
        | Formula::And(_, _)
        | Formula::Or(_, _) => false,
    }
}

/// Gives up the leaf and lists it. After want of memory nothing has changed.
fn give_up<R: Rank>(
    alloc: Global,
    trees: &mut [Tree<R>],
    label: u32,
    refuted: &Refuted,
    drops: &mut Vec<Dropped>,
) -> Result<(), AllocError>
    requires label { label < length trees.old }
    requires leaf { refuted.now.leaf < leaves_of (trees_in (map plan_of trees.old) label) }
    ensures dropped { OnOk result (drops.new.items ≡ drops.old.items ++ dropped_by label refuted.now ∷ []) }
    ensures given { OnOk result (map plan_of trees.new ≡ without_refuted (map plan_of trees.old) label refuted.now) }
    ensures listed { OnErr result (drops.new.items ≡ drops.old.items) }
    ensures same { OnErr result (map plan_of trees.new ≡ map plan_of trees.old) }
{
    let cause = refuted.held_cause(alloc)?;
    drops.push(refuted.dropped(label))?;
    trees[label as usize].undefine(refuted.leaf, cause);
    Ok(())
}
