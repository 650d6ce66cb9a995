//! Laws of widening, each the contract of a function that does nothing.
ghost use Rattle.std.specs.Prelude.{◌≡◌, ℤ, List};
ghost use Rattle.linear_cons.specs.declared.row.Row.{Row};
ghost use Rattle.decision_tree.specs.Evaluation.{eval};
ghost use Rattle.decision_tree.specs.Plans.{Plan, leaf, top};
ghost use Rattle.decision_tree.specs.declared.reason.Cause.{Cause};
ghost use Rattle.decision_tree.specs.declared.reason.Why.{Why};
ghost use Rattle.tree_unify.specs.Shapes.{trimmed};
ghost use Rattle.tree_widening.specs.Leaves.{first_claim, first_left};
ghost use Rattle.tree_widening.specs.Places.{IsAtMost, rows_to};
ghost use Rattle.tree_widening.specs.Widening.{IsHeld, IsWideningOf};

use crate::extrapolates::Extrapolates;
use decision_tree::Rank;

/// At each store where the old tree makes a claim, it stands there or is given up, by the leaves of the newer
/// tree on the store's way; and a leaf that was given up stays.
pub fn claims_are_held_at_each_store<R: Extrapolates>()
    ensures claims { (old new made : Plan R) (store : List ℤ) (why : Why) (rank : R) → IsWideningOf R.eq R.Rank.own R.raised old new made
        → eval old store ≡ leaf why rank → IsHeld R.Rank.own why rank (rows_to old store) new (eval made store) }
    ensures given_up { (old new made : Plan R) (store : List ℤ) (cause : Cause) → IsWideningOf R.eq R.Rank.own R.raised old new made
        → eval old store ≡ top cause → eval made store ≡ top cause }
{}

/// A claim stays where the newer tree, trimmed by its path, is that same claim.
pub fn a_claim_stays_where_the_newer_tree_makes_it<R: Extrapolates>()
    ensures { (why : Why) (rank : R) (path : List Row) (new made : Plan R) → IsHeld R.Rank.own why rank path new made
        → trimmed R.eq path new ≡ leaf why rank → made ≡ leaf why rank }
{}

/// Where a claim stays, the newer tree makes one too, of at most that rank.
pub fn a_claim_that_stays_bounds_the_newer_one<R: Extrapolates>()
    ensures { (old new made : Plan R) (store : List ℤ) (why : Why) (rank : R) → IsWideningOf R.eq R.Rank.own R.raised old new made
        → eval old store ≡ leaf why rank → eval made store ≡ leaf why rank → IsAtMost R.Rank.own rank store (eval new store) }
{}

/// The first claim that a path leaves of the newer tree is the first one of that tree trimmed by the path.
pub fn the_first_claim_is_that_of_the_trimmed_tree<R: Rank>()
    ensures { (path : List Row) (new : Plan R) → first_left path new ≡ first_claim (trimmed R.eq path new) }
{}
