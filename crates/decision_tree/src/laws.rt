//! Laws of the definitions, each the contract of a function that does nothing.
ghost use Rattle.std.specs.Prelude.{◌≡◌, ◌≢◌, ℕ, ◌<◌, ◌↔◌, ℤ, List, Some, IsTrue, length, map, slice_set};
ghost use Rattle.linear_cons.specs.Bounds.{Covers};
ghost use Rattle.linear_cons.specs.declared.bounds.Linear.{Linear};
ghost use Rattle.linear_cons.specs.declared.row.Row.{Row};
ghost use Rattle.decision_tree.specs.Equality.{same_cause, same_pick, same_plan, same_reason, same_row};
ghost use Rattle.decision_tree.specs.Evaluation.{eval};
ghost use Rattle.decision_tree.specs.Lending.{with_trees};
ghost use Rattle.decision_tree.specs.Paths.{MeetsPath, leaf_numbered, number_met, path_of, with_leaf};
ghost use Rattle.decision_tree.specs.Plans.{IsEnd, Plan, leaves_of, plan_of, size_of};
ghost use Rattle.decision_tree.specs.Trend.{greatest_of};
ghost use Rattle.decision_tree.specs.declared.reason.Cause.{Cause};
ghost use Rattle.decision_tree.specs.declared.reason.Pick.{Pick};
ghost use Rattle.decision_tree.specs.declared.reason.Why.{Why};
ghost use Rattle.decision_tree.specs.declared.tree.Tree.{Tree};

use crate::rank::Rank;

/// Each store stands at one leaf, and at a leaf exactly where it meets the leaf's path.
pub fn stores_stand_where_they_meet_the_path<R: Rank>()
    ensures numbered { (plan : Plan R) (store : List ℤ) → number_met plan store < leaves_of plan }
    ensures leaf { (plan : Plan R) (store : List ℤ) → eval plan store ≡ leaf_numbered plan (number_met plan store) }
    ensures path { (plan : Plan R) (number : ℕ) (store : List ℤ) → number < leaves_of plan → (number_met plan store ≡ number)
        ↔ MeetsPath store (path_of plan number) }
{}

/// To put another leaf in place of a leaf changes that leaf alone: the tree has as many nodes and leaves
/// as before, and every other leaf, every path and the number of each store's leaf are as they were.
pub fn a_leaf_replaced_changes_no_other<R: Rank>()
    ensures size { (plan other : Plan R) (number : ℕ) → IsEnd other → size_of (with_leaf plan number other) ≡ size_of plan }
    ensures leaves { (plan other : Plan R) (number : ℕ) → IsEnd other → leaves_of (with_leaf plan number other) ≡ leaves_of plan }
    ensures here { (plan other : Plan R) (number : ℕ) → IsEnd other → leaf_numbered (with_leaf plan number other) number ≡ other }
    ensures elsewhere { (plan other : Plan R) (number next : ℕ) → IsEnd other → number < leaves_of plan → next < leaves_of plan
        → next ≢ number → leaf_numbered (with_leaf plan number other) next ≡ leaf_numbered plan next }
    ensures paths { (plan other : Plan R) (number next : ℕ) → IsEnd other → path_of (with_leaf plan number other) next ≡ path_of plan next }
    ensures stores { (plan other : Plan R) (number : ℕ) (store : List ℤ) → IsEnd other
        → number_met (with_leaf plan number other) store ≡ number_met plan store }
{}

/// A slice that a list of trees lends keeps its length: once it is given back, the list is the plans of the
/// trees in it.
pub fn a_list_is_what_is_left_in_its_slice<R: Rank>()
    ensures { (plans : List (Plan R)) (trees : List (Tree R)) → length trees ≡ length plans → with_trees plans trees ≡ map plan_of trees }
{}

/// What `Rank::greatest` answers is exceeded nowhere in the range: the rank with a number that the
/// range has at the store, put at the place, never exceeds the answer at that store.
pub fn nothing_in_the_range_exceeds_the_greatest<R: Rank>()
    ensures { (rank best : R) (place : ℕ) (range : Linear) (store : List ℤ) (z : ℤ) → place < 16 → length store ≡ 16
        → greatest_of rank (R.trend rank place) range (R.substituted rank place) ≡ Some best → Covers range store z
        → R.exceeds (R.rank_value rank (slice_set store place z)) (R.rank_value best store) → ⊥ }
{}

/// `==` holds exactly between identical rows, picks, reasons and causes, and between trees of one plan.
pub fn equality_is_identity<R: Rank>()
    ensures rows { (row other : Row) → IsTrue (same_row row other) ↔ (row ≡ other) }
    ensures picks { (pick other : Pick) → IsTrue (same_pick pick other) ↔ (pick ≡ other) }
    ensures reasons { (why other : Why) → IsTrue (same_reason why other) ↔ (why ≡ other) }
    ensures causes { (cause other : Cause) → IsTrue (same_cause cause other) ↔ (cause ≡ other) }
    ensures trees { (plan other : Plan R) → IsTrue (same_plan R.eq plan other) ↔ (plan ≡ other) }
{}
