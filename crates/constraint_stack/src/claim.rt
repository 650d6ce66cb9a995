//! The alternatives of a claim.
ghost use Rattle.std.specs.Prelude.{◌≡◌, ◌⊎◌, ◌<◌, ◌∷◌, ◌++◌, [], drop, length, true, false, IfOk, OkIff, OnOk, IfErr, Result};
ghost use Rattle.linear_cons.specs.Exact.{IsOutside};
ghost use Rattle.constraint_stack.specs.Stacks.{IsMetNowhere, IsTried, all_chosen, unformed};
ghost use Rattle.linear_cons.specs.declared.exact.Wide.{Wide};
ghost use Rattle.decision_tree.specs.Alternatives.{Alternatives, lists_of, part_at, rows_of};
ghost use Rattle.constraint_stack.specs.Searches.{AreTold, Holds, IsClaimTried, IsLonger, IsSame, IsToldAs, IsTriedWith, WhereHeld, alternatives_of};

use crate::finding::Finding;
use crate::stack::ConstraintStack;
use decision_tree::{Comparison, Rank};
use linear_cons::{RowKind, Wide};
use std::alloc::AllocError;

/// What a system asks of ranks.
#[derive(Clone, Copy)]
pub enum Asked<'r, R: Rank> {
    /// The rank is no natural.
    Negative(&'r R),
    /// The first rank exceeds the second.
    Greater(&'r R, &'r R),
}

impl<'r, R: Rank> Asked<'r, R> {
    /// The alternative with the number, as a part. Those behind the first are asked for where the first was told.
    fn part(&self, number: u8) -> Result<Comparison, Wide>
        requires { (number ≡ 0) ⊎ AreTold R.Rank.own self.now }
        ensures exact { OkIff result (AreTold R.Rank.own self.now) (part_at (alternatives_of R.Rank.own self.now) number) }
        ensures wide { IfErr result IsOutside }
    {
        match self {
            Asked::Negative(rank) => rank.negative(number),
            Asked::Greater(rank, other) => rank.greater(other, number),
        }
    }
}

/// Looks for a reason against a system of the edge, whose other rows are on the stack, with each alternative of what it asks of ranks.
#[inline(never)]
pub fn try_claim<R: Rank>(
    asked: &Asked<'_, R>,
    edge: u32,
    stack: &mut ConstraintStack,
    found: &mut Option<Finding>,
) -> Result<bool, AllocError>
    ensures same { OnOk result (IsSame stack.old stack.new) }
    ensures tried { IfOk result (λ refuted. (told : Result Alternatives Wide) × IsToldAs R.Rank.own asked.now told
        × WhereHeld stack.old (λ items. IsClaimTried items told edge refuted found.new)) }
{
    match asked.part(0) {
        Ok(first) => try_from(asked, 0, &first, edge, stack, found),
        Err(wide) => try_unformed(wide, edge, stack, found),
    }
}

/// Tries the alternatives from that with the number on, whose part is known, beside the constraints on the stack.
fn try_from<R: Rank>(
    asked: &Asked<'_, R>,
    number: u8,
    part: &Comparison,
    edge: u32,
    stack: &mut ConstraintStack,
    found: &mut Option<Finding>,
) -> Result<bool, AllocError>
    requires told { AreTold R.Rank.own asked.now }
    requires number { number < R.PARTS }
    requires part { part.now ≡ part_at (alternatives_of R.Rank.own asked.now) number }
    requires parts { length (alternatives_of R.Rank.own asked.now) ≡ R.PARTS }
    ensures same { OnOk result (IsSame stack.old stack.new) }
    ensures tried { IfOk result (λ refuted. WhereHeld stack.old (λ items.
        IsTriedWith items (lists_of (drop number (alternatives_of R.Rank.own asked.now))) edge refuted found.new)) }
{
    if try_one(&part.more, edge, stack, found)? {
        return Ok(true);
    }
    let parts = R::PARTS;
    let next = number + 1;
    if next == parts {
        return Ok(false);
    }
    let Ok(told) = asked.part(next) else {
        return Ok(false);
    };
    let checkpoint = stack.checkpoint();
    let refuted = add_same(&part.same, stack)? && try_from(asked, next, &told, edge, stack, found)?;
    stack.restore(checkpoint);
    Ok(refuted)
}

/// Tries the alternative with the constraint beside those on the stack.
fn try_one(
    kind: &RowKind,
    edge: u32,
    stack: &mut ConstraintStack,
    found: &mut Option<Finding>,
) -> Result<bool, AllocError>
    ensures same { OnOk result (IsSame stack.old stack.new) }
    ensures tried { IfOk result (λ refuted. WhereHeld stack.old (λ items.
        IsTried (items ++ all_chosen (kind.now ∷ [])) edge refuted found.new)) }
{
    let checkpoint = stack.checkpoint();
    if !stack.add(Ok(*kind))? {
        stack.restore(checkpoint);
        return Ok(false);
    }
    let refuted = stack.check(edge, found)?;
    stack.restore(checkpoint);
    Ok(refuted)
}

/// Adds the constraints by which a part is left, where there are some. False where no store meets the rows with them.
fn add_same(same: &Option<[RowKind; 2]>, stack: &mut ConstraintStack) -> Result<bool, AllocError>
    ensures longer { IfOk result (λ added. IsLonger stack.old stack.new) }
    ensures held { IfOk result (λ added. added ≡ true → WhereHeld stack.old (λ items.
        Holds stack.new (items ++ all_chosen (rows_of same.now)))) }
    ensures nowhere { IfOk result (λ added. added ≡ false → WhereHeld stack.old (λ items.
        IsMetNowhere (items ++ all_chosen (rows_of same.now)))) }
{
    match same {
        Some(kinds) => add_each(kinds, stack),
        None => Ok(true),
    }
}

/// Adds each of the constraints. False where no store meets the rows with them.
fn add_each(kinds: &[RowKind], stack: &mut ConstraintStack) -> Result<bool, AllocError>
    ensures longer { IfOk result (λ added. IsLonger stack.old stack.new) }
    ensures held { IfOk result (λ added. added ≡ true → WhereHeld stack.old (λ items.
        Holds stack.new (items ++ all_chosen kinds.now))) }
    ensures nowhere { IfOk result (λ added. added ≡ false → WhereHeld stack.old (λ items.
        IsMetNowhere (items ++ all_chosen kinds.now))) }
{
    for kind in kinds {
        if !stack.add(Ok(*kind))? {
            return Ok(false);
        }
    }
    Ok(true)
}

/// Looks for a reason against a system of the edge, whose other rows are on the stack, without its alternatives, which can't be formed.
#[inline(never)]
pub fn try_unformed(
    wide: Wide,
    edge: u32,
    stack: &mut ConstraintStack,
    found: &mut Option<Finding>,
) -> Result<bool, AllocError>
    requires { IsOutside wide }
    ensures same { OnOk result (IsSame stack.old stack.new) }
    ensures tried { IfOk result (λ refuted. WhereHeld stack.old (λ items. IsTried (items ++ unformed ∷ []) edge refuted found.new)) }
{
    let checkpoint = stack.checkpoint();
    let _ = stack.add(Err(wide))?;
    let refuted = stack.check(edge, found)?;
    stack.restore(checkpoint);
    Ok(refuted)
}
