//! Laws of ways through trees, each the contract of a function that does nothing.
ghost use Rattle.std.specs.Prelude.{ℕ, List, ◌≤◌, ◌^◌};
ghost use Rattle.decision_tree.specs.Plans.{Plan};
ghost use Rattle.decision_tree.specs.declared.affine_rank.AffineRank.{AffineRank};
ghost use Rattle.step_meaning.specs.Syntax.{Statements};
ghost use Rattle.step_meaning.specs.Valid.{IsBody};
ghost use Rattle.control_flow.specs.Labels.{entry_of};
ghost use Rattle.tree_support.specs.Setting.{trees_in};
ghost use Rattle.count_down.specs.Candidates.{IsCandidate};
ghost use Rattle.unroll.specs.Levels.{RowsAtMost};
ghost use Rattle.fitting_ways.specs.Factors.{HasSmallFactors};
ghost use Rattle.fitting_ways.specs.Ways.{SmallWaysFit};

/// Where no number in a row of the tree is above 2^60 in size, as in a level of no larger growth, the way of an input with numbers below 2^63 in size
/// through it is found within 128 bits.
pub fn ways_through_small_rows_fit()
    ensures { (most : ℕ) (tree : Plan AffineRank) → most ≤ 2 ^ 60 → RowsAtMost most tree → SmallWaysFit tree }
{}

/// So is its way through the tree at the entry of a countdown program's candidate, where the program has no loop, or the factors of the assignments in
/// front of the loop have a product of at most 2^28.
pub fn ways_through_small_candidates_fit()
    ensures { (vars : ℕ) (body : Statements) (trees : List (Plan AffineRank)) → vars ≤ 15 → IsBody vars body → IsCandidate trees body
        → HasSmallFactors body → SmallWaysFit (trees_in trees (entry_of body)) }
{}
