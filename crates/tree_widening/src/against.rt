//! Whether a newer tree tells against a claim.
ghost use Rattle.std.specs.Prelude.{◌≡◌, ◌+◌, ◌<◌, IfOk, OnErr, OnOk, drop};
ghost use Rattle.linear_cons.specs.Exact.{IsOutside};
ghost use Rattle.linear_cons.specs.declared.exact.Wide.{Wide};
ghost use Rattle.decision_tree.specs.Alternatives.{part_at};
ghost use Rattle.decision_tree.specs.Plans.{plan_of};
ghost use Rattle.decision_tree.specs.declared.path.PathFault.TheVariants.{Wide as TooWide};
ghost use Rattle.tree_unify.specs.Shapes.{TrimWithFits};
ghost use Rattle.tree_widening.specs.Judging.{IsBehindDecided, IsDecided, IsJudged, IsKindDecided, IsLeafJudged, IsOneDecided};
ghost use Rattle.tree_widening.specs.Widening.{ExceedFits};

use crate::walk::{Stopped, Walk};
use decision_tree::{Comparison, PathFault, Rank, Shared, Trail, Tree};
use linear_cons::{MOST_ROWS, RowKind};
use linear_solve::{Answer, decide_tightest};
use std::alloc::{AllocError, Global};

/// Whether a leaf of the newer tree on the way of the walk tells against a claim of the rank: one
/// without a claim, or one whose rank exceeds it at a point that the solver finds, or where the solver
/// doesn't decide. The walk is where it was.
pub(crate) fn tells_against<R: Rank>(
    alloc: Global,
    walk: &mut Walk,
    rank: &R,
    new: &Tree<R>,
) -> Result<bool, Stopped>
    ensures judged { IfOk result (λ against. IsJudged R.Rank.own rank.now walk.old.trail (plan_of new.now) against) }
    ensures trail { OnOk result (walk.new.trail ≡ walk.old.trail) }
    ensures wide { OnErr result ((w : Wide) → walk.new.fault ≡ TooWide w
        → TrimWithFits R.eq (ExceedFits R.greater_fits rank.now) walk.old.trail (plan_of new.now) → ⊥) }
    ensures operands { OnErr result ((w : Wide) → walk.new.fault ≡ TooWide w → IsOutside w) }
{
    match new {
        Tree::Bottom | Tree::Top(_) => Ok(true),
        Tree::Leaf { why: _, rank: next } => exceeds(alloc, walk, next, rank),
        Tree::Node { row, yes, no } => match walk.settles(row) {
            Some(true) => tells_against(alloc, walk, rank, yes),
            Some(false) => tells_against(alloc, walk, rank, no),
            None => {
                walk.down(row)?;
                if tells_against(alloc, walk, rank, yes)? {
                    walk.trail.up();
                    return Ok(true);
                }
                walk.turn()?;
                let against = tells_against(alloc, walk, rank, no)?;
                walk.trail.up();
                Ok(against)
            }
        },
    }
}

/// Whether the newer rank may exceed the rank at a point on the way of the walk. The walk is where it was.
#[inline(never)]
fn exceeds<R: Rank>(
    alloc: Global,
    walk: &mut Walk,
    next: &Shared<R>,
    rank: &R,
) -> Result<bool, Stopped>
    ensures judged { IfOk result (λ exceeds. IsLeafJudged R.Rank.own rank.now walk.old.trail next.now exceeds) }
    ensures trail { OnOk result (walk.new.trail ≡ walk.old.trail) }
    ensures wide { OnErr result ((w : Wide) → walk.new.fault ≡ TooWide w → R.greater_fits next.now rank.now → ⊥) }
    ensures operands { OnErr result ((w : Wide) → walk.new.fault ≡ TooWide w → IsOutside w) }
{
    let next: &R = next;
    match next.greater(rank, 0) {
        Ok(first) => exceeds_from(alloc, walk, next, rank, 0, &first),
        Err(wide) => Err(walk.stop(PathFault::Wide(wide))),
    }
}

/// Whether a point on the way of the walk may meet one of the alternatives from that with the number on, whose part is known. The walk is where it
/// was.
#[cycle(comparing)]
fn exceeds_from<R: Rank>(
    alloc: Global,
    walk: &mut Walk,
    next: &R,
    rank: &R,
    number: u8,
    part: &Comparison,
) -> Result<bool, Stopped>
    requires told { R.greater_fits next.now rank.now }
    requires number { number < R.PARTS }
    requires part { part.now ≡ part_at (R.where_greater next.now rank.now) number }
    ensures decided { IfOk result (λ met. IsOneDecided walk.old.trail (drop number (R.where_greater next.now rank.now)) met) }
    ensures trail { OnOk result (walk.new.trail ≡ walk.old.trail) }
    ensures wide { OnErr result ((w : Wide) → walk.new.fault ≡ TooWide w → ⊥) }
{
    if may_meet(alloc, walk, &part.more)? {
        return Ok(true);
    }
    match &part.same {
        Some(same) => exceeds_behind(alloc, walk, next, rank, number, same),
        None => exceeds_behind(alloc, walk, next, rank, number, &[]),
    }
}

/// Whether a point on the way of the walk may meet each of the constraints and one of the alternatives behind that with the number. The walk is
/// where it was.
#[cycle(comparing)]
fn exceeds_behind<R: Rank>(
    alloc: Global,
    walk: &mut Walk,
    next: &R,
    rank: &R,
    number: u8,
    same: &[RowKind],
) -> Result<bool, Stopped>
    requires told { R.greater_fits next.now rank.now }
    requires number { number < R.PARTS }
    ensures decided { IfOk result (λ met. IsBehindDecided walk.old.trail same.now (drop (number + 1) (R.where_greater next.now rank.now)) met) }
    ensures trail { OnOk result (walk.new.trail ≡ walk.old.trail) }
    ensures wide { OnErr result ((w : Wide) → walk.new.fault ≡ TooWide w → ⊥) }
{
    let parts = R::PARTS;
    let after = number + 1;
    if after == parts {
        return Ok(false);
    }
    let Some((first, rest)) = same.split_first() else {
        return match next.greater(rank, after) {
            Ok(told) => exceeds_from(alloc, walk, next, rank, after, &told),
            Err(wide) => Err(walk.stop(PathFault::Wide(wide))),
        };
    };
    match first {
        RowKind::Always => exceeds_behind(alloc, walk, next, rank, number, rest),
        RowKind::Never => Ok(false),
        RowKind::Row(row) => {
            if let Some(false) = walk.trail.settles(row) {
                return Ok(false);
            }
            walk.down_by(row)?;
            let met = exceeds_behind(alloc, walk, next, rank, number, rest)?;
            walk.trail.up();
            Ok(met)
        }
    }
}

/// Whether a point on the way of the walk may meet the constraint. The solver is asked only where no row of the way is opposed to it. The walk is
/// where it was.
fn may_meet(alloc: Global, walk: &mut Walk, kind: &RowKind) -> Result<bool, Stopped>
    ensures decided { IfOk result (λ met. IsKindDecided walk.old.trail kind.now met) }
    ensures trail { OnOk result (walk.new.trail ≡ walk.old.trail) }
    ensures wide { OnErr result ((w : Wide) → walk.new.fault ≡ TooWide w → ⊥) }
{
    match kind {
        RowKind::Always => walk.may_be_met(alloc),
        RowKind::Never => Ok(false),
        RowKind::Row(row) => {
            if let Some(false) = walk.trail.settles(row) {
                return Ok(false);
            }
            walk.down_by(row)?;
            let met = walk.may_be_met(alloc)?;
            walk.trail.up();
            Ok(met)
        }
    }
}

impl Walk {
    /// Whether a point may meet the rows on the way.
    fn may_be_met(&mut self, alloc: Global) -> Result<bool, Stopped>
        ensures decided { IfOk result (λ met. IsDecided self.old.trail met) }
        ensures trail { self.new.trail ≡ self.old.trail }
        ensures wide { OnErr result ((w : Wide) → self.new.fault ≡ TooWide w → ⊥) }
    {
        match is_met_somewhere(alloc, &self.trail) {
            Ok(met) => Ok(met),
            Err(error) => Err(self.stop(PathFault::Memory(error))),
        }
    }
}

/// Whether a point may meet the rows of the trail.
fn is_met_somewhere(alloc: Global, trail: &Trail) -> Result<bool, AllocError>
    ensures { IfOk result (λ met. IsDecided trail.now met) }
{
    let rows = trail.rows();
    if rows.len() > MOST_ROWS {
        return Ok(true);
    }
    match decide_tightest(alloc, rows)? {
        Answer::Empty => Ok(false),
        Answer::Point { .. } => Ok(true),
        Answer::Wide(_) => Ok(true),
        Answer::Rows { .. } => Ok(true),
    }
}
