//! Laws, each the contract of a function that does nothing.
ghost use Rattle.std.specs.Prelude.{◌≡◌, ◌<◌, ◌≤◌, ℕ, suc, ℤ, List, length, slice_set};
ghost use Rattle.linear_cons.specs.Bounds.{Covers};
ghost use Rattle.linear_cons.specs.declared.bounds.Linear.{Linear};
ghost use Rattle.decision_tree.specs.Evaluation.{eval};
ghost use Rattle.decision_tree.specs.Plans.{Plan, leaf};
ghost use Rattle.decision_tree.specs.declared.reason.Why.{Why};
ghost use Rattle.ordinal_rank.specs.Jumps.{IsExceeded, jumped, ordinals};
ghost use Rattle.step_meaning.specs.Step.{Configuration, Step};
ghost use Rattle.step_meaning.specs.Syntax.{Statements};
ghost use Rattle.step_meaning.specs.Valid.{IsBody};
ghost use Rattle.control_flow.specs.Told.{IsTrueOfReached, Told};
ghost use Rattle.tree_support.specs.Setting.{Trees};
ghost use Rattle.ordinal_rank.specs.Ends.{EndsAfter};
ghost use Rattle.ordinal_rank.specs.Families.{IsBounded, IsRanked};
ghost use Rattle.ordinal_rank.specs.declared.ordinal.OrdinalRank.{OrdinalRank};
ghost use Rattle.ordinal_rank.specs.declared.jump.Power.{Power};

use crate::ordinal::OrdinalRank;
use backward_transfer::laws::a_range_bounds_each_value;

/// Where ends are bounded one after the other no run goes on for ever, whatever it does; and where they are so bounded a bound more may be known, or
/// bounds of a greater order.
pub fn bounded_ends_come()
    ensures comes { (order k : ℕ) (run : ℕ → Configuration) → EndsAfter order k (run 0) → ((n : ℕ) → Step (run n) (run (suc n))) → ⊥ }
    ensures more { (order k : ℕ) (c : Configuration) → EndsAfter order k c → EndsAfter order (suc k) c }
    ensures higher { (order k : ℕ) (c : Configuration) → EndsAfter order k c → EndsAfter (suc order) 0 c }
{}

/// Before a jump: where a leaf is defined at a store, each value of the range leads to a defined leaf, whose rank the one before exceeds.
pub fn a_jump_exceeds_each_value()
    ensures { (highest : Power) (plan : Plan OrdinalRank) (place : ℕ) (range : Linear) (store : List ℤ) (z : ℤ) (why : Why) (rank : OrdinalRank) → place < 16
        → length store ≡ 16 → Covers range store z → eval (jumped highest place range plan) store ≡ leaf why rank
        → IsExceeded (slice_set store place z) (ordinals.rank_value rank store) (eval plan (slice_set store place z)) }
{
    a_range_bounds_each_value::<OrdinalRank>();
}

/// Where a family of ordinal ranks that is supported for `AF exit` is defined, every run ends, bounded one after the other.
pub fn ranked_families_bound_ends()
    ensures { (vars : ℕ) (body : Statements) (told : Told) → vars ≤ 15 → IsBody vars body → IsTrueOfReached vars body told
        → (parts : ℕ → Trees OrdinalRank) (family : Trees OrdinalRank) → IsRanked body told parts family → IsBounded vars body family }
{}
