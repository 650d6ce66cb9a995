//! Lines of a report: a condition and what is claimed of the inputs that meet it.
use decision_tree::AffineRank;
use line_text::Claim;
use linear_cons::Rows;

/// What the defined leaves of a tree claim.
#[derive(Clone, Copy, PartialEq, Eq, Debug)]
pub enum Top {
    /// The longest run has exactly the rank's number of steps.
    Exact,
    /// Every run has at most the rank's value of steps.
    Bound,
    /// The formula holds.
    Plain,
    /// No number of a run leaves 32 bits.
    Fits,
}

impl Top {
    ghost use Rattle.std.specs.Prelude.{◌≡◌};
    ghost use Rattle.report_text.specs.Leaves.{claim_of};

    /// What a defined leaf of the rank claims.
    pub fn claim(&self, rank: &AffineRank) -> Claim
        ensures { result ≡ claim_of self.now rank.now }
    {
        match self {
            Top::Exact => Claim::Exactly(rank.value.constant),
            Top::Bound => Claim::Within(rank.value),
            Top::Plain => Claim::Holds,
            Top::Fits => Claim::Fits,
        }
    }
}

/// One line: the claim on the stores that meet every row. No row says `always`.
#[derive(Drop)]
pub struct Line {
    pub rows: Rows,
    pub claim: Claim,
}
