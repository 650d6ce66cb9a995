//! Two trees moved back over a test.
ghost use Rattle.std.specs.Prelude.{◌≡◌, ℕ, ◌<◌, ◌≤◌, ⊤, true, [], ◌++◌, Err, IfOk, OnOk};
ghost use Rattle.linear_cons.specs.Exact.{IsOutside};
ghost use Rattle.linear_cons.specs.declared.exact.Wide.{Wide};
ghost use Rattle.decision_tree.specs.Plans.{plan_of, size_of};
ghost use Rattle.tree_unify.specs.Builds.{Builds};
ghost use Rattle.tree_unify.specs.Shapes.{TrimFits, trimmed};
ghost use Rattle.tree_unify.specs.declared.fault.TreeFault.TheVariants.{Full as TooFull, Wide as TooWide};
ghost use Rattle.backward_transfer.specs.Tests.{ComplementFits, EnabledFits, IsLaterSmall, TestAsks, tested};
ghost use Rattle.backward_transfer.specs.Tests.{all_held, asking, enabling, not_refuted, one_held, one_refuted, settling, trying};

use crate::ranging::join_later;
use crate::stepping::{none, step};
use decision_tree::{Pick, Rank, Trail, Tree};
use linear_cons::{Row, Rows};
use std::alloc::{AllocError, Global};
use tree_unify::{Stopped, TreeFault, Walk, trim};

/// The tree before a test, with the trees behind its two outcomes given. An outcome is possible at the stores
/// that meet one of its conjunctions; these are asked row by row until one holds or all fail, first those of
/// the test, then those of its failure that its own rows leave open, and a row that those before it settle
/// isn't asked. Where one outcome is possible its tree stands, where both are the later of the two, and else
/// nothing is claimed. Each defined leaf has one more step, for every next state, and the whole is trimmed.
/// `Full` comes exactly where it would have more than 65,536 nodes before it is trimmed, or the later of both
/// trees, where it is formed; `Wide` exactly where a rank with one more, a difference of ranks that it
/// compares, or a complement of a row that it asks, has a number outside `i128`; where both stand, either may
/// come. `Memory` says nothing.
pub fn back_test<R: Rank>(
    alloc: Global,
    yes: &Tree<R>,
    no: &Tree<R>,
    yes_rows: &[Rows],
    no_rows: &[Rows],
) -> Result<Tree<R>, TreeFault>
    ensures tree { IfOk result (λ made. plan_of made ≡ trimmed R.eq [] (tested R.eq R.where_greater R.greater_fits R.one_more
        (plan_of yes.now) (plan_of no.now) yes_rows.now no_rows.now)) }
    ensures small { OnOk result (size_of (tested R.eq R.where_greater R.greater_fits R.one_more (plan_of yes.now) (plan_of no.now)
        yes_rows.now no_rows.now) ≤ 65536) }
    ensures later { OnOk result (TestAsks (λ row. ⊤) (IsLaterSmall R.eq R.where_greater R.greater_fits (plan_of yes.now) (plan_of
        no.now)) no_rows.now yes_rows.now) }
    ensures fits { OnOk result (TestAsks ComplementFits (EnabledFits R.eq R.where_greater R.greater_fits R.one_more R.add_one_fits
        (plan_of yes.now) (plan_of no.now)) no_rows.now yes_rows.now) }
    ensures rows { OnOk result (TrimFits R.eq [] (tested R.eq R.where_greater R.greater_fits R.one_more (plan_of yes.now) (plan_of
        no.now) yes_rows.now no_rows.now)) }
    ensures full { (count : ℕ) → result ≡ Err (TooFull count) → (65536 < count)
        × (TestAsks (λ row. ⊤) (IsLaterSmall R.eq R.where_greater R.greater_fits (plan_of yes.now) (plan_of no.now)) no_rows.now
        yes_rows.now
        → size_of (tested R.eq R.where_greater R.greater_fits R.one_more (plan_of yes.now) (plan_of no.now) yes_rows.now no_rows.now)
        ≤ 65536 → ⊥) }
    ensures wide { (w : Wide) → result ≡ Err (TooWide w)
        → TestAsks ComplementFits (EnabledFits R.eq R.where_greater R.greater_fits R.one_more R.add_one_fits (plan_of yes.now)
        (plan_of no.now)) no_rows.now yes_rows.now
        → TrimFits R.eq [] (tested R.eq R.where_greater R.greater_fits R.one_more (plan_of yes.now) (plan_of no.now) yes_rows.now
        no_rows.now) → ⊥ }
    ensures operands { (w : Wide) → result ≡ Err (TooWide w) → IsOutside w }
{
    let test = Test { yes, no, no_rows };
    let mut walk = Walk::new(alloc);
    match test.ask_next(alloc, &mut walk, yes_rows, None) {
        Ok(moved) => trim(alloc, &moved, &[]),
        Err(_) => Err(walk.fault),
    }
}

/// The trees behind the two outcomes of a test, and the conjunctions of its failure.
#[derive(Clone, Copy)]
struct Test<'a, R: Rank> {
    yes: &'a Tree<R>,
    no: &'a Tree<R>,
    no_rows: &'a [Rows],
}

impl<'a, R: Rank> Test<'a, R> {
    /// What stands where the rows of a conjunction are left to ask, and behind them other conjunctions. Where
    /// it is settled whether the test may hold, they are those of its failure.
    #[cycle(asking)]
    fn ask_rows(
        &self,
        alloc: Global,
        walk: &mut Walk,
        rows: &[Row],
        rest: &[Rows],
        holds: Option<bool>,
    ) -> Result<Box<Tree<R>>, Stopped>
        ensures { Builds (asking R.eq R.Rank.own (plan_of self.now.yes.now) (plan_of self.now.no.now) self.now.no_rows.now holds rows.now rest.now
            walk.old.trail) walk.old walk.new result }
    {
        let Some((row, others)) = rows.split_first() else {
            return self.settle(alloc, walk, holds, true);
        };
        match walk.trail.settles(row) {
            Some(true) => self.ask_rows(alloc, walk, others, rest, holds),
            Some(false) => self.ask_next(alloc, walk, rest, holds),
            None => {
                walk.down_by(row)?;
                let first = self.ask_rows(alloc, walk, others, rest, holds)?;
                let size = walk.size;
                if let Err(stopped) = walk.turn() {
                    Tree::discard(first);
                    return Err(stopped);
                }
                match self.ask_next(alloc, walk, rest, holds) {
                    Ok(other) => {
                        walk.trail.up();
                        walk.join_by(alloc, row, first, other, size)
                    }
                    Err(stopped) => {
                        Tree::discard(first);
                        Err(stopped)
                    }
                }
            }
        }
    }

    /// What stands where the conjunctions are left to try.
    #[cycle(asking)]
    fn ask_next(
        &self,
        alloc: Global,
        walk: &mut Walk,
        rest: &[Rows],
        holds: Option<bool>,
    ) -> Result<Box<Tree<R>>, Stopped>
        ensures { Builds (trying R.eq R.Rank.own (plan_of self.now.yes.now) (plan_of self.now.no.now) self.now.no_rows.now holds rest.now walk.old.trail)
            walk.old walk.new result }
    {
        match rest.split_first() {
            Some((rows, others)) => self.ask_rows(alloc, walk, rows.items(), others, holds),
            None => self.settle(alloc, walk, holds, false),
        }
    }

    /// What stands where a conjunction was found to hold, or all to fail.
    #[cycle(asking)]
    fn settle(
        &self,
        alloc: Global,
        walk: &mut Walk,
        holds: Option<bool>,
        found: bool,
    ) -> Result<Box<Tree<R>>, Stopped>
        ensures { Builds (settling R.eq R.Rank.own (plan_of self.now.yes.now) (plan_of self.now.no.now) self.now.no_rows.now holds found walk.old.trail)
            walk.old walk.new result }
    {
        match holds {
            Some(holds) => self.take(alloc, walk, holds, found),
            None => {
                if one_held(&walk.trail, self.no_rows) {
                    return self.take(alloc, walk, found, true);
                }
                match not_refuted(alloc, &walk.trail, self.no_rows) {
                    Ok(left) => self.ask_next(alloc, walk, &left, Some(found)),
                    Err(error) => Err(walk.stop(TreeFault::Memory(error))),
                }
            }
        }
    }

    /// The tree of the outcomes that are possible, with one more step at each defined leaf.
    #[inline(never)]
    fn take(
        &self,
        alloc: Global,
        walk: &mut Walk,
        holds: bool,
        fails: bool,
    ) -> Result<Box<Tree<R>>, Stopped>
        ensures { Builds (enabling R.eq R.Rank.own (plan_of self.now.yes.now) (plan_of self.now.no.now) holds fails) walk.old walk.new result }
    {
        match (holds, fails) {
            (true, true) => self.take_both(alloc, walk),
            (true, false) => step(alloc, walk, &Pick::All, self.yes),
            (false, true) => step(alloc, walk, &Pick::All, self.no),
            (false, false) => none(alloc, walk),
        }
    }

    /// The later of both trees, with one more step at each defined leaf.
    #[inline(never)]
    fn take_both(&self, alloc: Global, walk: &mut Walk) -> Result<Box<Tree<R>>, Stopped>
        ensures { Builds (enabling R.eq R.Rank.own (plan_of self.now.yes.now) (plan_of self.now.no.now) true true) walk.old walk.new result }
    {
        let both = join_later(alloc, walk, self.yes, self.no)?;
        step(alloc, walk, &Pick::All, &both)
    }
}

/// Whether the rows of the way settle that one of the conjunctions holds.
fn one_held(trail: &Trail, conjunctions: &[Rows]) -> bool
    ensures { result ≡ one_held trail.now conjunctions.now }
{
    match conjunctions.split_first() {
        None => false,
        Some((rows, rest)) => all_held(trail, rows.items()) || one_held(trail, rest),
    }
}

/// Whether the rows of the way settle that each of the rows holds.
fn all_held(trail: &Trail, rows: &[Row]) -> bool
    ensures { result ≡ all_held trail.now rows.now }
{
    match rows.split_first() {
        None => true,
        Some((row, rest)) => trail.settles(row) == Some(true) && all_held(trail, rest),
    }
}

/// Whether the rows of the way settle that one of the rows fails.
fn one_refuted(trail: &Trail, rows: &[Row]) -> bool
    ensures { result ≡ one_refuted trail.now rows.now }
{
    match rows.split_first() {
        None => false,
        Some((row, rest)) => trail.settles(row) == Some(false) || one_refuted(trail, rest),
    }
}

/// Copies of the conjunctions of which the rows of the way refute no row.
fn not_refuted(alloc: Global, trail: &Trail, conjunctions: &[Rows]) -> Result<Vec<Rows>, AllocError>
    ensures { IfOk result (λ left. left.items ≡ not_refuted trail.now conjunctions.now) }
{
    let mut left = Vec::new(alloc);
    add_not_refuted(alloc, trail, conjunctions, &mut left)?;
    Ok(left)
}

/// Adds copies of the conjunctions of which the rows of the way refute no row.
fn add_not_refuted(
    alloc: Global,
    trail: &Trail,
    conjunctions: &[Rows],
    left: &mut Vec<Rows>,
) -> Result<(), AllocError>
    ensures { OnOk result (left.new.items ≡ left.old.items ++ not_refuted trail.now conjunctions.now) }
{
    let Some((rows, rest)) = conjunctions.split_first() else {
        return Ok(());
    };
    if !one_refuted(trail, rows.items()) {
        let twin = copied(alloc, rows.items())?;
        left.push(twin)?;
    }
    add_not_refuted(alloc, trail, rest, left)?;
    Ok(())
}

/// A copy of the rows.
fn copied(alloc: Global, rows: &[Row]) -> Result<Rows, AllocError>
    ensures { IfOk result (λ twin. twin ≡ rows.now) }
{
    let mut twin = Vec::new(alloc);
    twin.extend_from_slice(rows)?;
    Ok(Rows::of(twin))
}
