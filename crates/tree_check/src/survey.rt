//! The leaves of a label's tree, one after the other.
ghost use Rattle.std.specs.Prelude.{◌≡◌, List, ◌+◌, ◌-◌, ◌^◌, ◌<◌, ◌≤◌, ◌++◌, ◌∷◌, [], true, false, IfOk, OnOk, map};
ghost use Rattle.decision_tree.specs.Plans.{leaf, leaves_of, plan_of};
ghost use Rattle.constraint_stack.specs.Forming.{Formed, given};
ghost use Rattle.tree_support.specs.Elimination.{cause_of};
ghost use Rattle.tree_support.specs.Setting.{trees_in};
ghost use Rattle.constraint_stack.specs.Stacks.{IsMetNowhere, all_asked};
ghost use Rattle.leaf_search.specs.Ahead.{IsAhead};
ghost use Rattle.leaf_search.specs.Leaves.{WhereStood};
ghost use Rattle.constraint_stack.specs.Searches.{Holds, IsLonger, IsSame, WhereAsked};
ghost use Rattle.tree_check.specs.Rounds.{dropped_by};
ghost use Rattle.tree_check.specs.Surveys.{IsReviewed, IsSurveyed, LooksOn};
ghost use Rattle.leaf_search.specs.Walks.{side_of};

use constraint_stack::{ConstraintStack, Finding, Reason};
use decision_tree::{Cause, HeldCause, HeldWhy, Rank, Shared, Tree};
use leaf_search::{Ahead, Stand, UNEDGED, Way, add_rows};
use linear_cons::Row;
use std::alloc::{AllocError, Global};
use tree_support::Dropped;

/// A leaf, by its number at its label, and the reason against it.
#[derive(Clone, Copy)]
pub(crate) struct Refuted {
    pub(crate) leaf: u64,
    pub(crate) finding: Finding,
}

impl Refuted {
    /// The leaf at the label, as it is listed once it is given up.
    pub(crate) fn dropped(&self, label: u32) -> Dropped
        ensures { result ≡ dropped_by label self.now }
    {
        Dropped {
            label,
            leaf: self.leaf,
            edge: self.finding.edge,
            reason: self.finding.reason,
        }
    }

    /// The cause that the leaf has once it is given up, as it holds it. The only error is want of memory.
    pub(crate) fn held_cause(&self, alloc: Global) -> Result<HeldCause, AllocError>
        ensures { IfOk result (λ cause. cause ≡ cause_of self.now.finding.reason) }
    {
        let cause = self.cause();
        let held = HeldCause::of(alloc, &cause)?;
        Ok(held)
    }

    /// The cause.
    fn cause(&self) -> Cause
        ensures { result ≡ cause_of self.now.finding.reason }
    {
        match &self.finding.reason {
            Reason::Point { num, den } => Cause::Point {
                num: *num,
                den: *den,
            },
            Reason::Wide(wide) => Cause::Wide(*wide),
            Reason::Rows { count } => Cause::Rows { count: *count },
        }
    }
}

/// Which leaves a survey looks at: those from a number on, all of them or up to the first with a reason against it, and where it is
/// narrowed only those whose paths and the rows on a second stack may be met together.
#[derive(Clone, Copy)]
pub(crate) struct Span {
    pub(crate) first: u64,
    pub(crate) collects: bool,
    pub(crate) narrows: bool,
}

/// How far a survey came: how many leaves it passed, the rows on the stack before the next, those in the second stack where it is narrowed, the
/// leaves with a reason against them, and how far the rows on the stack have led into the trees ahead. One thing, so that a call of the walk takes little of the stack.
#[derive(Drop)]
struct Progress<'a, R: Rank> {
    passed: u64,
    stack: ConstraintStack,
    narrow: ConstraintStack,
    refuted: Vec<Refuted>,
    ahead: Ahead<'a, R>,
}

/// A survey of the leaves of a label's tree.
#[derive(Drop)]
pub(crate) struct Survey<'a, R: Rank> {
    pub(crate) stand: Stand<'a, R>,
    pub(crate) span: Span,
}

impl<'a, R: Rank> Survey<'a, R> {
    /// The leaves with a reason against them, where the rows are what the label's invariant says.
    pub(crate) fn refuted(
        &self,
        alloc: Global,
        rows: &[Row],
        narrow: ConstraintStack,
    ) -> Result<Vec<Refuted>, AllocError>
        requires few { leaves_of (trees_in (map plan_of self.now.stand.family.now) self.now.stand.label) < 2 ^ 64 - 1 }
        ensures { IfOk result (λ refuted. WhereStood self.now.stand (λ at. at.dead self.now.stand.label ≡ false
            → at.rows self.now.stand.label ≡ rows.now → WhereAsked narrow (λ within.
            IsReviewed R.Rank.own at (trees_in (map plan_of self.now.stand.family.now)) self.now.stand.label self.now.span within refuted.items))) }
    {
        let refuted = Vec::new(alloc);
        let Some(tree) = self.stand.family.get(self.stand.label as usize) else {
            return Ok(refuted);
        };
        let mut stack = ConstraintStack::new(alloc);
        if !add_rows(rows, &mut stack)? {
            return Ok(refuted);
        }
        let whole = self.stand.ahead();
        let ahead = self.stand.led(&whole, &stack);
        let mut progress = Progress {
            passed: 0,
            stack,
            narrow,
            refuted,
            ahead,
        };
        if let Tree::Leaf { why, rank } = tree {
            self.refute_leaf(why, rank, &mut progress)?;
            return Ok(progress.refuted);
        }
        self.refute(tree, &mut progress)?;
        Ok(progress.refuted)
    }

    /// Lists the leaves of the tree with a reason against them, behind the rows on the stack, and counts the leaves that it passes.
    #[cycle(survey)]
    #[inline(always)]
    fn refute(&self, tree: &Tree<R>, progress: &mut Progress<'a, R>) -> Result<(), AllocError>
        requires few { progress.old.passed + leaves_of (plan_of tree.now) < 2 ^ 64 - 1 }
        requires ahead { IsAhead self.now.stand progress.old.stack.rows progress.old.ahead }
        ensures same { OnOk result (IsSame progress.old.stack progress.new.stack) }
        ensures narrow { OnOk result (IsSame progress.old.narrow progress.new.narrow) }
        ensures ahead { OnOk result (progress.new.ahead ≡ progress.old.ahead) }
        ensures passed { OnOk result (progress.new.passed ≡ progress.old.passed + leaves_of (plan_of tree.now)) }
        ensures surveyed { OnOk result (WhereStood self.now.stand (λ at.
            WhereAsked progress.old.stack (λ asks. WhereAsked progress.old.narrow (λ within.
            IsSurveyed R.Rank.own at (trees_in (map plan_of self.now.stand.family.now)) self.now.stand.label self.now.span
            (plan_of tree.now) asks within progress.old.passed progress.old.refuted.items progress.new.refuted.items)))) }
    {
        match tree {
            Tree::Node { row, yes, no } => {
                self.refute_behind(row, true, yes, progress)?;
                self.refute_behind(row, false, no, progress)?;
                Ok(())
            }
            Tree::Leaf { why, rank } => {
                self.refute_leaf(why, rank, progress)?;
                progress.passed += 1;
                Ok(())
            }
            Tree::Bottom | Tree::Top(_) => {
                progress.passed += 1;
                Ok(())
            }
        }
    }

    /// Looks for a reason against a defined leaf, if it is one of those that are looked at.
    #[inline(never)]
    fn refute_leaf(
        &self,
        why: &HeldWhy,
        rank: &Shared<R>,
        progress: &mut Progress<'a, R>,
    ) -> Result<(), AllocError>
        requires { IsAhead self.now.stand progress.old.stack.rows progress.old.ahead }
        ensures same { OnOk result (IsSame progress.old.stack progress.new.stack) }
        ensures narrow { OnOk result (IsSame progress.old.narrow progress.new.narrow) }
        ensures ahead { OnOk result (progress.new.ahead ≡ progress.old.ahead) }
        ensures passed { OnOk result (progress.new.passed ≡ progress.old.passed) }
        ensures surveyed { OnOk result (WhereStood self.now.stand (λ at. WhereAsked progress.old.stack (λ asks. (within : List Formed)
            → IsSurveyed R.Rank.own at (trees_in (map plan_of self.now.stand.family.now)) self.now.stand.label self.now.span
            (leaf why.now rank.now) asks within progress.old.passed progress.old.refuted.items progress.new.refuted.items))) }
    {
        if progress.passed < self.span.first {
            return Ok(());
        }
        if self.is_done(&progress.refuted) {
            return Ok(());
        }
        let reason = why.why();
        let rank: &R = rank;
        let mut found = None;
        let ahead = progress.ahead;
        if !self
            .stand
            .refute_leaf(&reason, rank, &ahead, &mut progress.stack, &mut found)?
        {
            return Ok(());
        }
        let Some(finding) = found else {
            return Ok(());
        };
        let leaf = Refuted {
            leaf: progress.passed,
            finding,
        };
        progress.refuted.push(leaf)?;
        Ok(())
    }

    /// Whether no further leaf is looked at, since one was refuted and others aren't collected.
    fn is_done(&self, refuted: &[Refuted]) -> bool
        ensures { result ≡ true → ¬ LooksOn self.now.span refuted.now }
    {
        !self.span.collects && !refuted.is_empty()
    }

    /// Whether none of a side's leaves is looked at, where so many were passed before it.
    #[inline(never)]
    fn skips(&self, side: &Tree<R>, passed: u64, refuted: &[Refuted]) -> bool
        requires few { passed + leaves_of (plan_of side.now) < 2 ^ 64 - 1 }
        ensures before { result ≡ true → LooksOn self.now.span refuted.now → passed + leaves_of (plan_of side.now) ≤ self.now.span.first }
    {
        if self.is_done(refuted) {
            return true;
        }
        if passed >= self.span.first {
            return false;
        }
        let after = passed + side.leaves();
        after <= self.span.first
    }

    /// Looks at the leaves of a side, behind the row where it holds and its complement where it doesn't. A side that is skipped is only
    /// counted, and so is an undefined leaf, against which there is nothing.
    #[cycle(survey)]
    fn refute_behind(
        &self,
        row: &Shared<Row>,
        holds: bool,
        side: &Tree<R>,
        progress: &mut Progress<'a, R>,
    ) -> Result<(), AllocError>
        requires few { progress.old.passed + leaves_of (plan_of side.now) < 2 ^ 64 - 1 }
        requires ahead { IsAhead self.now.stand progress.old.stack.rows progress.old.ahead }
        ensures same { OnOk result (IsSame progress.old.stack progress.new.stack) }
        ensures narrow { OnOk result (IsSame progress.old.narrow progress.new.narrow) }
        ensures ahead { OnOk result (progress.new.ahead ≡ progress.old.ahead) }
        ensures passed { OnOk result (progress.new.passed ≡ progress.old.passed + leaves_of (plan_of side.now)) }
        ensures surveyed { OnOk result (WhereStood self.now.stand (λ at.
            WhereAsked progress.old.stack (λ asks. WhereAsked progress.old.narrow (λ within.
            IsSurveyed R.Rank.own at (trees_in (map plan_of self.now.stand.family.now)) self.now.stand.label self.now.span (plan_of side.now)
            (asks ++ given (side_of row.now.affine holds) ∷ []) (within ++ given (side_of row.now.affine holds) ∷ [])
            progress.old.passed progress.old.refuted.items progress.new.refuted.items)))) }
    {
        if let Tree::Bottom | Tree::Top(_) = side {
            progress.passed += 1;
            return Ok(());
        }
        if self.skips(side, progress.passed, &progress.refuted) {
            progress.passed += side.leaves();
            return Ok(());
        }
        let checkpoint = progress.stack.checkpoint();
        if !self.enter(row, holds, &mut progress.stack)? {
            progress.passed += side.leaves();
            return Ok(());
        }
        let before = progress.ahead;
        progress.ahead = self.stand.led(&before, &progress.stack);
        self.refute_within(row, holds, side, progress)?;
        progress.ahead = before;
        progress.stack.restore(checkpoint);
        Ok(())
    }

    /// The same with the row on the stack, and where the survey is narrowed behind it in the second stack too.
    #[cycle(survey)]
    fn refute_within(
        &self,
        row: &Shared<Row>,
        holds: bool,
        side: &Tree<R>,
        progress: &mut Progress<'a, R>,
    ) -> Result<(), AllocError>
        requires few { progress.old.passed + leaves_of (plan_of side.now) < 2 ^ 64 - 1 }
        requires ahead { IsAhead self.now.stand progress.old.stack.rows progress.old.ahead }
        ensures same { OnOk result (IsSame progress.old.stack progress.new.stack) }
        ensures narrow { OnOk result (IsSame progress.old.narrow progress.new.narrow) }
        ensures ahead { OnOk result (progress.new.ahead ≡ progress.old.ahead) }
        ensures passed { OnOk result (progress.new.passed ≡ progress.old.passed + leaves_of (plan_of side.now)) }
        ensures surveyed { OnOk result (WhereStood self.now.stand (λ at.
            WhereAsked progress.old.stack (λ asks. WhereAsked progress.old.narrow (λ within.
            IsSurveyed R.Rank.own at (trees_in (map plan_of self.now.stand.family.now)) self.now.stand.label self.now.span (plan_of side.now)
            asks (within ++ given (side_of row.now.affine holds) ∷ [])
            progress.old.passed progress.old.refuted.items progress.new.refuted.items)))) }
    {
        if !self.span.narrows {
            self.refute(side, progress)?;
            return Ok(());
        }
        let checkpoint = progress.narrow.checkpoint();
        if !self.enter(row, holds, &mut progress.narrow)? {
            progress.passed += side.leaves();
            return Ok(());
        }
        self.refute(side, progress)?;
        progress.narrow.restore(checkpoint);
        Ok(())
    }

    /// Adds the row of a side.
    #[inline(never)]
    fn enter(
        &self,
        row: &Shared<Row>,
        holds: bool,
        stack: &mut ConstraintStack,
    ) -> Result<bool, AllocError>
        ensures same { IfOk result (λ entered. entered ≡ false → IsSame stack.old stack.new) }
        ensures longer { IfOk result (λ entered. IsLonger stack.old stack.new) }
        ensures held { IfOk result (λ entered. entered ≡ true → WhereAsked stack.old (λ asks.
            Holds stack.new (all_asked (asks ++ given (side_of row.now.affine holds) ∷ [])))) }
        ensures nowhere { IfOk result (λ entered. entered ≡ false → WhereAsked stack.old (λ asks.
            IsMetNowhere (all_asked (asks ++ given (side_of row.now.affine holds) ∷ [])))) }
    {
        let way: Way<R> = Way {
            edge: UNEDGED,
            sets: None,
            limit: None,
        };
        let entered = way.enter(row, holds, stack)?;
        Ok(entered)
    }
}
