//! Ranks that are affine functions in order.
ghost use Rattle.std.specs.Prelude.{◌≡◌, ◌<◌, OkIff, IfErr, pos, []};
ghost use Rattle.linear_cons.specs.Functions.{NumbersFit, complement_of, constant_of, difference_of, sum_of};
ghost use Rattle.linear_cons.specs.Exact.{IsOutside};
ghost use Rattle.decision_tree.specs.Trend.{EndFits, put_end};
ghost use Rattle.decision_tree.specs.AffineRanks.{ExcessFits, excess_of, part_of};
ghost use Rattle.decision_tree.specs.Alternatives.{part_at};
ghost use Rattle.ordinal_rank.specs.Parts.{AreNatural, Exceeds, ExcessesFit, NegativesFit, Numbers, SubstitutionsFit, compared, excesses, negatives, trend_of_parts, trend_of_sign, values_at};

use decision_tree::{Comparison, Rank, Tree, Why};
use linear_cons::{Affine, Linear, Row, RowKind, Wide};
use std::alloc::{AllocError, Global};

/// Five affine functions as a rank below ω^5: ω^4 times `fourth`, plus ω^3 times `third`, and so on to ω times `first`, plus `finite`. It exceeds
/// another by the first function in this order in which they differ; it is a natural where all are at least 0. A rank of fewer parts has the function 0 in front.
#[derive(Clone, Copy, PartialEq, Eq, Hash, Debug)]
pub struct OrdinalRank {
    pub fourth: Affine,
    pub third: Affine,
    pub second: Affine,
    pub first: Affine,
    pub finite: Affine,
}

impl Rank for OrdinalRank {
    ghost use Rattle.ordinal_rank.specs.Ordinals.{one_more_rank, parts_of, put_in_rank};
    ghost use Rattle.std.proofs.Common.{refl};
    ghost use Rattle.ordinal_rank.specs.Laws.PartLaws.{chain_is, equal_is, excess_is, more_exceeds, more_keeps, negative_is, one_way_is, substituted_is, trend_is};

    const PARTS: u8 = 5;

    ghost PARTS = { 5 };

    ghost Value = { Numbers 4 };

    ghost rank_value = { λ rank store. values_at 4 (parts_of rank) store };

    ghost exceeds = { λ v w. Exceeds 4 v w };

    ghost is_natural = { λ v. AreNatural 4 v };

    ghost trend = { λ rank place. trend_of_parts 4 (parts_of rank) place };

    ghost substituted = { λ rank place by. put_in_rank rank place by };

    ghost subst_fits = { λ rank place by. SubstitutionsFit 4 (parts_of rank) place by };

    ghost one_more = { λ rank. one_more_rank rank };

    ghost add_one_fits = { λ rank. NumbersFit (sum_of rank.finite (constant_of (pos 1))) };

    ghost where_greater = { λ rank other. excesses 4 (parts_of rank) (parts_of other) };

    ghost greater_fits = { λ rank other. ExcessesFit 4 (parts_of rank) (parts_of other) };

    ghost where_negative = { λ rank. negatives 4 (parts_of rank) };

    ghost negative_fits = { λ rank. NegativesFit 4 (parts_of rank) };

    ghost equal_law = { λ rank other. equal_is rank other };

    ghost one_way_law = { λ v w. one_way_is 4 v w };

    ghost chain_law = { λ u v w. chain_is 4 u v w };

    ghost subst_law = { λ rank place by store low long. substituted_is 4 (parts_of rank) place by store low long };

    ghost more_law = { λ rank store. more_exceeds 4 (parts_of rank) store };

    ghost order_law = { λ rank other store next. more_keeps 4 (parts_of rank) (parts_of other) store next };

    ghost greater_length_law = { λ rank other. refl };

    ghost negative_length_law = { λ rank. refl };

    ghost greater_law = { λ rank other store. excess_is 4 (parts_of rank) (parts_of other) store };

    ghost negative_law = { λ rank store. negative_is 4 (parts_of rank) store };

    ghost trend_law = { λ rank place store z w low long runs. trend_is 4 (parts_of rank) place store z w low long runs };

    fn subst(&self, place: u8, by: &Affine) -> Result<OrdinalRank, Wide> {
        let fourth = self.fourth.subst(place, by)?;
        let third = self.third.subst(place, by)?;
        let second = self.second.subst(place, by)?;
        let first = self.first.subst(place, by)?;
        let finite = self.finite.subst(place, by)?;
        Ok(OrdinalRank {
            fourth,
            third,
            second,
            first,
            finite,
        })
    }

    fn add_one(&self) -> Result<OrdinalRank, Wide> {
        let finite = self.finite.plus(1)?;
        Ok(OrdinalRank {
            fourth: self.fourth,
            third: self.third,
            second: self.second,
            first: self.first,
            finite,
        })
    }

    fn greater(&self, other: &OrdinalRank, part: u8) -> Result<Comparison, Wide> {
        match part {
            0 => self.first_compared(other),
            1 => compared(&self.third, &other.third),
            2 => compared(&self.second, &other.second),
            3 => compared(&self.first, &other.first),
            4 => exceeds(&self.finite, &other.finite),
            _ => Ok(never()),
        }
    }

    fn negative(&self, part: u8) -> Result<Comparison, Wide> {
        match part {
            0 => self.first_negative(),
            1 => below_nought(&self.third),
            2 => below_nought(&self.second),
            3 => below_nought(&self.first),
            4 => below_nought(&self.finite),
            _ => Ok(never()),
        }
    }

    fn greatest(&self, place: u8, range: &Linear) -> Result<Option<OrdinalRank>, Wide> {
        let leading = self.leading(place);
        if leading > 0 {
            self.with_end(place, range, range.hi)
        } else if leading < 0 {
            self.with_end(place, range, range.lo)
        } else {
            Ok(Some(*self))
        }
    }
}

/// How a function compares with another, and the next parts decide where they are equal.
#[inline(never)]
fn compared(a: &Affine, b: &Affine) -> Result<Comparison, Wide>
    ensures exact { OkIff result (ExcessFits a.now b.now × NumbersFit (difference_of b.now a.now)) (compared a.now b.now) }
    ensures wide { IfErr result IsOutside }
{
    let rise = a.sub(b)?;
    let excess = rise.plus(-1)?;
    let fall = b.sub(a)?;
    Ok(Comparison {
        more: Row::of(excess),
        same: Some([Row::of(rise), Row::of(fall)]),
    })
}

/// That the one function exceeds the other.
#[inline(never)]
fn exceeds(a: &Affine, b: &Affine) -> Result<Comparison, Wide>
    ensures exact { OkIff result (ExcessFits a.now b.now) (part_of (excess_of a.now b.now)) }
    ensures wide { IfErr result IsOutside }
{
    let difference = a.sub(b)?;
    let excess = difference.plus(-1)?;
    Ok(Comparison::only(excess))
}

/// That the function is below 0.
#[inline(never)]
fn below_nought(a: &Affine) -> Result<Comparison, Wide>
    ensures exact { OkIff result (NumbersFit (complement_of a.now)) (part_of (complement_of a.now)) }
    ensures wide { IfErr result IsOutside }
{
    let complement = Affine::constant(-1).sub(a)?;
    Ok(Comparison::only(complement))
}

/// That which no store meets.
fn never() -> Comparison
    ensures { result ≡ part_at [] 0 }
{
    Comparison {
        more: RowKind::Never,
        same: None,
    }
}

impl OrdinalRank {
    ghost use Rattle.ordinal_rank.specs.Ordinals.{functions_of, parts_of, put_in_rank};

    /// The rank of the functions, the highest first.
    pub(crate) fn of(functions: &[Affine; 5]) -> OrdinalRank {
        let [fourth, third, second, first, finite] = *functions;
        OrdinalRank {
            fourth,
            third,
            second,
            first,
            finite,
        }
    }

    /// How the highest functions compare, where all numbers fit that the others' comparisons form.
    fn first_compared(&self, other: &OrdinalRank) -> Result<Comparison, Wide>
        ensures exact { OkIff result (ExcessesFit 4 (parts_of self.now) (parts_of other.now)) (compared self.now.fourth other.now.fourth) }
        ensures wide { IfErr result IsOutside }
    {
        compared(&self.third, &other.third)?;
        compared(&self.second, &other.second)?;
        compared(&self.first, &other.first)?;
        exceeds(&self.finite, &other.finite)?;
        let first = compared(&self.fourth, &other.fourth)?;
        Ok(first)
    }

    /// That the highest function is below 0, where all numbers fit that say so of the others.
    fn first_negative(&self) -> Result<Comparison, Wide>
        ensures exact { OkIff result (NegativesFit 4 (parts_of self.now)) (part_of (complement_of self.now.fourth)) }
        ensures wide { IfErr result IsOutside }
    {
        below_nought(&self.third)?;
        below_nought(&self.second)?;
        below_nought(&self.first)?;
        below_nought(&self.finite)?;
        let first = below_nought(&self.fourth)?;
        Ok(first)
    }

    /// The functions, the highest first.
    pub fn functions(&self) -> [Affine; 5]
        ensures { result ≡ functions_of self.now }
    {
        [
            self.fourth,
            self.third,
            self.second,
            self.first,
            self.finite,
        ]
    }

    /// The coefficient at the place of the first function that mentions it, or 0 where none does.
    fn leading(&self, place: u8) -> i128
        requires { place < 16 }
        ensures { trend_of_sign result ≡ trend_of_parts 4 (parts_of self.now) place }
    {
        let fourth = self.fourth.coef[place as usize];
        if fourth != 0 {
            return fourth;
        }
        let third = self.third.coef[place as usize];
        if third != 0 {
            return third;
        }
        let second = self.second.coef[place as usize];
        if second != 0 {
            return second;
        }
        let first = self.first.coef[place as usize];
        if first != 0 {
            return first;
        }
        self.finite.coef[place as usize]
    }

    /// The rank with the range's function plus the end put in for the variable at the place, where
    /// there is that end.
    fn with_end(
        &self,
        place: u8,
        range: &Linear,
        end: Option<i128>,
    ) -> Result<Option<OrdinalRank>, Wide>
        requires { place < 16 }
        ensures exact { OkIff result (EndFits range.now (λ by. SubstitutionsFit 4 (parts_of self.now) place by) end)
            (put_end range.now (λ by. put_in_rank self.now place by) end) }
        ensures wide { IfErr result IsOutside }
    {
        match end {
            None => Ok(None),
            Some(number) => {
                let by = range.affine.plus(number)?;
                let rank = self.subst(place, &by)?;
                Ok(Some(rank))
            }
        }
    }
}

/// A claim of rank 0 for the reason.
pub(crate) fn at_once(alloc: Global, why: Why) -> Result<Tree<OrdinalRank>, AllocError> {
    let nought = Affine::constant(0);
    let rank = OrdinalRank::of(&[nought; 5]);
    Tree::claim(alloc, &why, &rank)
}
