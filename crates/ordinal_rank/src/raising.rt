//! Ordinal ranks that are extrapolated.
use crate::ordinal::OrdinalRank;
use linear_cons::{Row, Wide};
use tree_widening::{Extrapolates, along};

/// The first function that differs is extrapolated, or the last where all before it are equal.
impl Extrapolates for OrdinalRank {
    ghost use Rattle.ordinal_rank.specs.Ordinals.{parts_of, rank_of};
    ghost use Rattle.ordinal_rank.specs.Raising.{RaisedFits, raised};
    ghost use Rattle.ordinal_rank.specs.Laws.RaisingLaws.{exceeds_itself_nowhere};

    ghost raised = { λ row below rank. rank_of (raised 4 row (parts_of below) (parts_of rank)) };

    ghost raised_fits = { λ row below rank. RaisedFits 4 row (parts_of below) (parts_of rank) };

    ghost itself_law = { λ path rank. exceeds_itself_nowhere 4 path (parts_of rank) };

    fn raise(&self, row: &Row, below: &OrdinalRank) -> Result<OrdinalRank, Wide> {
        let mut raised = *self;
        if self.fourth != below.fourth {
            raised.fourth = along(row, &below.fourth, &self.fourth)?;
        } else if self.third != below.third {
            raised.third = along(row, &below.third, &self.third)?;
        } else if self.second != below.second {
            raised.second = along(row, &below.second, &self.second)?;
        } else if self.first != below.first {
            raised.first = along(row, &below.first, &self.first)?;
        } else {
            raised.finite = along(row, &below.finite, &self.finite)?;
        }
        Ok(raised)
    }
}
