//! What stands in place of a leaf that makes no claim yet.
ghost use Rattle.std.specs.Prelude.{◌≡◌, IfErr, IfOk, OkIff, OnErr, OnOk};
ghost use Rattle.linear_cons.specs.Exact.{IsOutside};
ghost use Rattle.linear_cons.specs.declared.exact.Wide.{Wide};
ghost use Rattle.decision_tree.specs.Plans.{plan_of};
ghost use Rattle.decision_tree.specs.declared.path.PathFault.TheVariants.{Wide as TooWide};
ghost use Rattle.tree_widening.specs.Judging.{claim_of};
ghost use Rattle.tree_widening.specs.Leaves.{first_claim, first_left};
ghost use Rattle.tree_widening.specs.Widening.{BesideFits, ExtrapolatedFits, GrownFits, LeftFits, extrapolated, grown, raised_beside};

use crate::extrapolates::Extrapolates;
use crate::walk::{Stopped, Walk};
use decision_tree::{HeldWhy, PathFault, Rank, Shared, Tree};
use linear_cons::{Row, Wide};
use std::alloc::Global;

/// What a leaf claims, with its reason.
#[derive(Clone, Copy)]
pub(crate) struct Claim<'a, R: Rank> {
    pub(crate) why: &'a HeldWhy,
    pub(crate) rank: &'a Shared<R>,
}

/// What stands in place of a leaf without a claim on the side of the node above it, or where the whole
/// tree is that leaf. The walk is where it was.
#[inline(never)]
pub(crate) fn grow<R: Extrapolates>(
    alloc: Global,
    walk: &mut Walk,
    above: &Tree<R>,
    holds: bool,
    new: &Tree<R>,
) -> Result<Box<Tree<R>>, Stopped>
    ensures tree { IfOk result (λ made. plan_of made.value ≡ grown R.raised (plan_of above.now) holds walk.old.trail (plan_of new.now)) }
    ensures trail { OnOk result (walk.new.trail ≡ walk.old.trail) }
    ensures wide { OnErr result ((w : Wide) → walk.new.fault ≡ TooWide w
        → GrownFits R.eq R.raised_fits (plan_of above.now) holds walk.old.trail (plan_of new.now) → ⊥) }
    ensures operands { OnErr result ((w : Wide) → walk.new.fault ≡ TooWide w → IsOutside w) }
{
    match above {
        Tree::Bottom | Tree::Top(_) | Tree::Leaf { .. } => walk.nothing(alloc),
        Tree::Node { row, yes, no } => {
            let first = first_left(walk, new)?;
            let row: &Row = row;
            if holds {
                extrapolate(alloc, walk, row, no, first)
            } else {
                match row.not() {
                    Ok(complement) => extrapolate(alloc, walk, &complement, yes, first),
                    Err(wide) => Err(walk.stop(PathFault::Wide(wide))),
                }
            }
        }
    }
}

/// The first claim of the newer tree on the way of the walk. The walk is where it was.
fn first_left<'a, R: Rank>(
    walk: &mut Walk,
    new: &'a Tree<R>,
) -> Result<Option<Claim<'a, R>>, Stopped>
    ensures first { IfOk result (λ first. claim_of first ≡ first_left walk.old.trail (plan_of new.now)) }
    ensures trail { OnOk result (walk.new.trail ≡ walk.old.trail) }
    ensures wide { OnErr result ((w : Wide) → walk.new.fault ≡ TooWide w → LeftFits R.eq walk.old.trail (plan_of new.now) → ⊥) }
    ensures operands { OnErr result ((w : Wide) → walk.new.fault ≡ TooWide w → IsOutside w) }
{
    match new {
        Tree::Bottom | Tree::Top(_) => Ok(None),
        Tree::Leaf { why, rank } => Ok(Some(Claim { why, rank })),
        Tree::Node { row, yes, no } => match walk.settles(row) {
            Some(true) => first_left(walk, yes),
            Some(false) => first_left(walk, no),
            None => {
                walk.down(row)?;
                if let Some(first) = first_left(walk, yes)? {
                    walk.trail.up();
                    return Ok(Some(first));
                }
                walk.turn()?;
                let first = first_left(walk, no)?;
                walk.trail.up();
                Ok(first)
            }
        },
    }
}

/// The first claim of the tree.
fn first_claim<'a, R: Rank>(tree: &'a Tree<R>) -> Option<Claim<'a, R>>
    ensures { claim_of result ≡ first_claim (plan_of tree.now) }
{
    match tree {
        Tree::Bottom | Tree::Top(_) => None,
        Tree::Leaf { why, rank } => Some(Claim { why, rank }),
        Tree::Node { row: _, yes, no } => match first_claim(yes) {
            Some(first) => Some(first),
            None => first_claim(no),
        },
    }
}

/// The newer claim, extrapolated along the row from the first claim of the tree beside it.
#[inline(never)]
fn extrapolate<R: Extrapolates>(
    alloc: Global,
    walk: &mut Walk,
    row: &Row,
    beside: &Tree<R>,
    first: Option<Claim<R>>,
) -> Result<Box<Tree<R>>, Stopped>
    ensures tree { IfOk result (λ made. plan_of made.value ≡ extrapolated R.raised row.now (first_claim (plan_of beside.now)) (claim_of first.entry)) }
    ensures trail { walk.new.trail ≡ walk.old.trail }
    ensures wide { OnErr result ((w : Wide) → walk.new.fault ≡ TooWide w
        → ExtrapolatedFits R.raised_fits row.now (first_claim (plan_of beside.now)) (claim_of first.entry) → ⊥) }
    ensures operands { OnErr result ((w : Wide) → walk.new.fault ≡ TooWide w → IsOutside w) }
{
    let Some(claim) = first else {
        return walk.nothing(alloc);
    };
    match raised_beside(row, first_claim(beside), claim.rank) {
        Ok(raised) => walk.claim_of(alloc, claim.why, &raised),
        Err(wide) => Err(walk.stop(PathFault::Wide(wide))),
    }
}

/// The rank, raised along the row from the claim beside it, where there is one.
fn raised_beside<R: Extrapolates>(row: &Row, beside: Option<Claim<R>>, rank: &R) -> Result<R, Wide>
    ensures exact { OkIff result (BesideFits R.raised_fits row.now (claim_of beside.entry) rank.now) (raised_beside R.raised row.now (claim_of beside.entry) rank.now) }
    ensures wide { IfErr result IsOutside }
{
    match beside {
        Some(below) => rank.raise(row, below.rank),
        None => Ok(*rank),
    }
}
