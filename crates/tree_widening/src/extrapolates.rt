//! Ranks that can be extrapolated.
ghost use Rattle.std.specs.Prelude.{List, IfErr, OkIff};
ghost use Rattle.linear_cons.specs.Exact.{IsOutside};
ghost use Rattle.linear_cons.specs.declared.row.Row.{Row};
ghost use Rattle.tree_widening.specs.Along.{AlongFits, along};
ghost use Rattle.tree_widening.specs.Meeting.{MayBeMetWithOne};

use decision_tree::{AffineRank, Rank};
use linear_cons::{Affine, Row, RowKind, Wide};

/// A rank that can be extrapolated along a row. What it becomes is a guess: nothing is asked of it but that it is a function of its arguments.
pub trait Extrapolates: Rank {
    // The rank, extrapolated along the row from the one below, which stands on the row's other side.
    ghost raised: { Row → Self → Self → Self };

    // Where the numbers that are formed for it fit.
    ghost raised_fits: { Row → Self → Self → Type 0 };

    /// The rank, extrapolated along the row from the rank below, which stands on the row's other side.
    fn raise(&self, row: &Row, below: &Self) -> Result<Self, Wide>
        ensures exact { OkIff result (raised_fits row.now below.now self.now) (raised row.now below.now self.now) }
        ensures wide { IfErr result IsOutside };

    // No point is found at which a rank exceeds itself.
    ghost itself_law: { (path : List Row) (rank : Self) → MayBeMetWithOne path (Self.Rank.where_greater rank rank) → ⊥ };
}

impl Extrapolates for AffineRank {
    ghost use Rattle.tree_widening.specs.Laws.RaisingLaws.{exceeds_itself_nowhere};

    ghost raised = { λ row below rank. record { value = along row below.value rank.value } };

    ghost raised_fits = { λ row below rank. AlongFits row below.value rank.value };

    ghost itself_law = { λ path rank. exceeds_itself_nowhere path rank.value };

    fn raise(&self, row: &Row, below: &AffineRank) -> Result<AffineRank, Wide> {
        let value = along(row, &below.value, &self.value)?;
        Ok(AffineRank { value })
    }
}

/// The function plus d times the row's where it is the one below plus a constant d of at least 0, else the function. `Wide` comes exactly where
/// a number that it forms lies outside `i128`.
pub fn along(row: &Row, below: &Affine, function: &Affine) -> Result<Affine, Wide>
    ensures exact { OkIff result (AlongFits row.now below.now function.now) (along row.now below.now function.now) }
    ensures wide { IfErr result IsOutside }
{
    let difference = function.sub(below)?;
    match Row::of(difference) {
        RowKind::Always => {
            let rise = row.affine.scale(difference.constant)?;
            let raised = function.add(&rise)?;
            Ok(raised)
        }
        RowKind::Never | RowKind::Row(_) => Ok(*function),
    }
}
