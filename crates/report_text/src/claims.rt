//! What leaves claim by their ranks.
ghost use Rattle.std.specs.Prelude.{◌≡◌};
ghost use Rattle.line_text.specs.declared.claim.Claim.{Claim};
ghost use Rattle.report_text.specs.declared.line.Top.{Top};

use crate::line::Top;
use decision_tree::{AffineRank, Rank};
use line_text::Claim;
use ordinal_rank::OrdinalRank;

/// A rank by which a leaf claims something.
pub(crate) trait Claims: Rank {
    // What a leaf of the rank claims, where affine functions count or bound as is said.
    ghost claim_of: { Top → Self → Claim };

    /// What a leaf of the rank claims.
    fn claim(&self, top: &Top) -> Claim
        ensures { result ≡ claim_of top.now self.now };
}

impl Claims for AffineRank {
    ghost use Rattle.report_text.specs.Leaves.{claim_of};

    ghost claim_of = { λ claims rank. claim_of claims rank };

    fn claim(&self, top: &Top) -> Claim {
        top.claim(self)
    }
}

impl Claims for OrdinalRank {
    ghost use Rattle.report_text.specs.Ranked.{ordinal_claim};

    ghost claim_of = { λ claims rank. ordinal_claim rank };

    fn claim(&self, _top: &Top) -> Claim {
        Claim::Ranked(self.functions())
    }
}
