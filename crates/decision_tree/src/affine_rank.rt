//! Ranks that are affine functions.
ghost use Rattle.std.specs.Prelude.{◌≡◌, ◌<◌, OkIff, IfErr, ℤ, ◌≤ℤ◌, ◌<ℤ◌, pos, []};
ghost use Rattle.linear_cons.specs.Functions.{NumbersFit, SubstitutionFits, complement_of, constant_of, sum_of, substituted as put_in};
ghost use Rattle.linear_cons.specs.Functions.{value_at};
ghost use Rattle.linear_cons.specs.Exact.{IsOutside};
ghost use Rattle.decision_tree.specs.Trend.{EndFits, put_end};
ghost use Rattle.decision_tree.specs.AffineRanks.{ExcessFits, excess_of, only, part_of, trend_of};
ghost use Rattle.decision_tree.specs.Alternatives.{part_at};

use crate::rank::{Comparison, Rank};
use linear_cons::{Affine, Linear, Row, RowKind, Wide};

/// An affine function as a rank: it exceeds another where its value is greater, and is a natural
/// where its value is at least 0.
#[derive(Clone, Copy, PartialEq, Eq, Hash, Debug)]
pub struct AffineRank {
    pub value: Affine,
}

impl Rank for AffineRank {
    ghost use Rattle.decision_tree.specs.Laws.AffineLaws.{chain_is, equal_is, excess_is, more_exceeds, more_keeps, negative_is, trend_is};
    ghost use Rattle.linear_cons.proofs.Forms.{value_substituted};
    ghost use Rattle.std.proofs.lemmas.Int.{ints};
    ghost use Rattle.std.proofs.Common.{arith, refl};

    const PARTS: u8 = 1;

    ghost PARTS = { 1 };

    ghost Value = { ℤ };

    ghost rank_value = { λ rank store. value_at rank.value store };

    ghost exceeds = { λ v w. w <ℤ v };

    ghost is_natural = { λ v. pos 0 ≤ℤ v };

    ghost trend = { λ rank place. trend_of rank.value place };

    ghost substituted = { λ rank place by. record { value = put_in rank.value place by } };

    ghost subst_fits = { λ rank place by. SubstitutionFits rank.value place by };

    ghost one_more = { λ rank. record { value = sum_of rank.value (constant_of (pos 1)) } };

    ghost add_one_fits = { λ rank. NumbersFit (sum_of rank.value (constant_of (pos 1))) };

    ghost where_greater = { λ rank other. only (excess_of rank.value other.value) };

    ghost greater_fits = { λ rank other. ExcessFits rank.value other.value };

    ghost where_negative = { λ rank. only (complement_of rank.value) };

    ghost negative_fits = { λ rank. NumbersFit (complement_of rank.value) };

    ghost equal_law = { λ rank other. equal_is rank other };

    ghost one_way_law = { λ v w more less. Prim.omega (arith, ints) };

    ghost chain_law = { chain_is };

    ghost subst_law = { λ rank place by store low long. value_substituted rank.value place by store low (Prim.omega arith) };

    ghost more_law = { λ rank store. more_exceeds rank.value store };

    ghost order_law = { λ rank other store next. more_keeps rank.value other.value store next };

    ghost greater_length_law = { λ rank other. refl };

    ghost negative_length_law = { λ rank. refl };

    ghost greater_law = { λ rank other store. excess_is rank.value other.value store };

    ghost negative_law = { λ rank store. negative_is rank.value store };

    ghost trend_law = { λ rank place store z w low long runs. trend_is rank.value place store z w low long runs };

    fn subst(&self, place: u8, by: &Affine) -> Result<AffineRank, Wide> {
        let value = self.value.subst(place, by)?;
        Ok(AffineRank { value })
    }

    fn add_one(&self) -> Result<AffineRank, Wide> {
        let value = self.value.plus(1)?;
        Ok(AffineRank { value })
    }

    fn greater(&self, other: &AffineRank, part: u8) -> Result<Comparison, Wide> {
        if part > 0 {
            return Ok(Comparison::never());
        }
        let difference = self.value.sub(&other.value)?;
        let excess = difference.plus(-1)?;
        Ok(Comparison::only(excess))
    }

    fn negative(&self, part: u8) -> Result<Comparison, Wide> {
        if part > 0 {
            return Ok(Comparison::never());
        }
        let complement = Affine::constant(-1).sub(&self.value)?;
        Ok(Comparison::only(complement))
    }

    fn greatest(&self, place: u8, range: &Linear) -> Result<Option<AffineRank>, Wide> {
        let coefficient = self.value.coef[place as usize];
        if coefficient > 0 {
            self.with_end(place, range, range.hi)
        } else if coefficient < 0 {
            self.with_end(place, range, range.lo)
        } else {
            Ok(Some(*self))
        }
    }
}

impl AffineRank {
    /// The rank with the range's function plus the end put in for the variable at the place, where
    /// there is that end.
    fn with_end(
        &self,
        place: u8,
        range: &Linear,
        end: Option<i128>,
    ) -> Result<Option<AffineRank>, Wide>
        requires { place < 16 }
        ensures exact { OkIff result (EndFits range.now (λ by. SubstitutionFits self.now.value place by) end)
            (put_end range.now (λ by. record { value = put_in self.now.value place by }) end) }
        ensures wide { IfErr result IsOutside }
    {
        match end {
            None => Ok(None),
            Some(number) => {
                let by = range.affine.plus(number)?;
                let rank = self.subst(place, &by)?;
                Ok(Some(rank))
            }
        }
    }
}

impl Comparison {
    /// The one constraint `a >= 0`.
    pub fn only(a: Affine) -> Comparison
        ensures { result ≡ part_of a }
    {
        Comparison {
            more: Row::of(a),
            same: None,
        }
    }

    /// That which no store meets.
    fn never() -> Comparison
        ensures { result ≡ part_at [] 0 }
    {
        Comparison {
            more: RowKind::Never,
            same: None,
        }
    }
}
