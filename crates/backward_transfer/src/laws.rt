//! Laws of the shapes, each the contract of a function that does nothing.
ghost use Rattle.std.specs.Prelude.{◌≡◌, ◌⊎◌, ℕ, ◌<◌, ℤ, List, [], Option, false, length, slice_set};
ghost use Rattle.linear_cons.specs.Bounds.{Covers};
ghost use Rattle.linear_cons.specs.Functions.{value_at};
ghost use Rattle.linear_cons.specs.declared.affine.Affine.{Affine};
ghost use Rattle.linear_cons.specs.declared.bounds.Linear.{Linear};
ghost use Rattle.linear_cons.specs.declared.row.Row.{Row};
ghost use Rattle.linear_forms.specs.Meeting.{MeetsOne};
ghost use Rattle.decision_tree.specs.Evaluation.{eval};
ghost use Rattle.decision_tree.specs.Plans.{Plan, bottom, is_defined, leaf};
ghost use Rattle.decision_tree.specs.declared.reason.Why.{Why};
ghost use Rattle.tree_unify.specs.Shapes.{trimmed};
ghost use Rattle.decision_tree.specs.declared.reason.Pick.TheVariants.{No, Yes};
ghost use Rattle.backward_transfer.specs.Chosen.{LeadsToClaim, with_some};
ghost use Rattle.backward_transfer.specs.Mentions.{IsAtMost, IsWithout};
ghost use Rattle.backward_transfer.specs.Picks.{picked};
ghost use Rattle.backward_transfer.specs.Ranges.{later_of, ranged};
ghost use Rattle.backward_transfer.specs.Steps.{assigned, step_by, step_to, stepped};
ghost use Rattle.backward_transfer.specs.Tests.{tested};
ghost use Rattle.backward_transfer.specs.Values.{tried_values};

use decision_tree::Rank;
use decision_tree::laws::nothing_in_the_range_exceeds_the_greatest;
use tree_unify::laws::{either_has_the_first_defined_leaf, later_has_the_greater_rank};

/// Before a step that changes nothing stands at each store the leaf of the tree behind it, with a step
/// more where that is defined.
pub fn a_step_adds_one<R: Rank>()
    ensures defined { (plan : Plan R) (store : List ℤ) (why : Why) (rank : R) → eval plan store ≡ leaf why rank
        → eval (trimmed R.eq [] (stepped R.eq R.one_more plan)) store ≡ step_to (R.one_more rank) }
    ensures undefined { (plan : Plan R) (store : List ℤ) → is_defined (eval plan store) ≡ false
        → eval (trimmed R.eq [] (stepped R.eq R.one_more plan)) store ≡ eval plan store }
{}

/// Before an assignment stands at each store the leaf at which the store after it stands in the tree behind
/// it; where that is defined its rank is a step more than the function's value makes it, and that rank has
/// before the assignment the value that the leaf's has behind it.
pub fn an_assignment_moves_each_store<R: Rank>()
    ensures defined { (plan : Plan R) (place : ℕ) (value : Affine) (store : List ℤ) (why : Why) (rank : R) → place < 16
        → length store ≡ 16 → eval plan (slice_set store place (value_at value store)) ≡ leaf why rank
        → eval (trimmed R.eq [] (assigned R.eq R.substituted R.one_more place value plan)) store
        ≡ step_to (R.one_more (R.substituted rank place value)) }
    ensures undefined { (plan : Plan R) (place : ℕ) (value : Affine) (store : List ℤ) → place < 16 → length store ≡ 16
        → is_defined (eval plan (slice_set store place (value_at value store))) ≡ false
        → eval (trimmed R.eq [] (assigned R.eq R.substituted R.one_more place value plan)) store
        ≡ eval plan (slice_set store place (value_at value store)) }
    ensures rank { (rank : R) (place : ℕ) (value : Affine) (store : List ℤ) → place < 16 → length store ≡ 16
        → R.rank_value (R.substituted rank place value) store ≡ R.rank_value rank (slice_set store place (value_at value store)) }
{}

/// Before the assignment of a value in a range: where a leaf is defined at a store, each value of the range
/// leads to a defined leaf, whose rank with one more doesn't exceed the one before.
pub fn a_range_bounds_each_value<R: Rank>()
    ensures { (plan : Plan R) (place : ℕ) (range : Linear) (store : List ℤ) (z : ℤ) (why : Why) (rank : R) → place < 16
        → length store ≡ 16 → Covers range store z
        → eval (trimmed R.eq [] (ranged R.eq R.where_greater R.greater_fits R.trend R.substituted R.one_more place range plan)) store
        ≡ leaf why rank
        → IsAtMost R.rank_value R.exceeds R.one_more (slice_set store place z) (R.rank_value rank store)
        (eval plan (slice_set store place z)) }
{
    nothing_in_the_range_exceeds_the_greatest::<R>();
}

/// Of a tree that doesn't mention the place nothing is lost: before the assignment of a value in a range at
/// the place it is the tree before a step that changes nothing.
pub fn a_range_elsewhere_is_a_step<R: Rank>()
    ensures { (plan : Plan R) (place : ℕ) (range : Linear) → IsWithout R.trend place plan
        → ranged R.eq R.where_greater R.greater_fits R.trend R.substituted R.one_more place range plan ≡ stepped R.eq R.one_more plan }
{}

/// Before the assignment of a number of a range of which one is picked: each claim is of a value that lies in the
/// range and leads to a claim, whose rank it has with one step more.
pub fn a_picked_value_leads_to_a_claim<R: Rank>()
    ensures { (plan : Plan R) (place : ℕ) (lo hi : Option ℤ) (store : List ℤ) (why : Why) (rank : R) → place < 16 → length store ≡ 16
        → eval (trimmed R.eq [] (with_some R.eq R.where_greater R.greater_fits R.substituted R.one_more lo hi place plan
        (tried_values lo hi place plan))) store ≡ leaf why rank
        → LeadsToClaim R.substituted R.one_more lo hi place plan store why rank }
{
    either_has_the_first_defined_leaf::<R>();
}

/// Before a free test of which one outcome is picked stands the claim behind the outcome that holds, with one step
/// more, and where there is none that behind the one that fails; where neither tree claims anything none does.
pub fn a_picked_outcome_is_the_first_that_claims<R: Rank>()
    ensures holds { (this that : Plan R) (store : List ℤ) (why : Why) (rank : R) → eval this store ≡ leaf why rank
        → eval (trimmed R.eq [] (picked R.eq R.where_greater R.greater_fits R.one_more this that)) store ≡ step_by Yes (R.one_more rank) }
    ensures fails { (this that : Plan R) (store : List ℤ) (why : Why) (rank : R) → is_defined (eval this store) ≡ false
        → eval that store ≡ leaf why rank
        → eval (trimmed R.eq [] (picked R.eq R.where_greater R.greater_fits R.one_more this that)) store ≡ step_by No (R.one_more rank) }
    ensures neither { (this that : Plan R) (store : List ℤ) → is_defined (eval this store) ≡ false → is_defined (eval that store) ≡ false
        → is_defined (eval (trimmed R.eq [] (picked R.eq R.where_greater R.greater_fits R.one_more this that)) store) ≡ false }
{
    either_has_the_first_defined_leaf::<R>();
}

/// Before a test stands, at a store that meets a conjunction of the test and none of its failure, the leaf
/// of the tree behind the test that holds, with one more step; at one that meets the failure alone that of the
/// tree behind the test that fails; at one that meets both that of the later of the two; and elsewhere none.
pub fn a_test_asks_its_outcomes<R: Rank>()
    ensures holds { (this that : Plan R) (holds fails : List (List Row)) (store : List ℤ) → MeetsOne store holds
        → (MeetsOne store fails → ⊥)
        → eval (trimmed R.eq [] (tested R.eq R.where_greater R.greater_fits R.one_more this that holds fails)) store
        ≡ stepped R.eq R.one_more (eval this store) }
    ensures fails { (this that : Plan R) (holds fails : List (List Row)) (store : List ℤ) → (MeetsOne store holds → ⊥)
        → MeetsOne store fails
        → eval (trimmed R.eq [] (tested R.eq R.where_greater R.greater_fits R.one_more this that holds fails)) store
        ≡ stepped R.eq R.one_more (eval that store) }
    ensures both { (this that : Plan R) (holds fails : List (List Row)) (store : List ℤ) → MeetsOne store holds → MeetsOne store fails
        → eval (trimmed R.eq [] (tested R.eq R.where_greater R.greater_fits R.one_more this that holds fails)) store
        ≡ stepped R.eq R.one_more (eval (later_of R.eq R.where_greater R.greater_fits this that) store) }
    ensures neither { (this that : Plan R) (holds fails : List (List Row)) (store : List ℤ) → (MeetsOne store holds → ⊥)
        → (MeetsOne store fails → ⊥)
        → eval (trimmed R.eq [] (tested R.eq R.where_greater R.greater_fits R.one_more this that holds fails)) store ≡ bottom }
{}

/// Where both outcomes of a test are possible it claims something only where both trees do, and then its rank
/// is one more than the greater of theirs.
pub fn a_free_test_has_the_greater_rank<R: Rank>()
    ensures first { (this that : Plan R) (holds fails : List (List Row)) (store : List ℤ) (why other : Why) (rank next : R)
        → MeetsOne store holds → MeetsOne store fails → eval this store ≡ leaf why rank → eval that store ≡ leaf other next
        → (R.exceeds (R.rank_value next store) (R.rank_value rank store) → ⊥)
        → eval (trimmed R.eq [] (tested R.eq R.where_greater R.greater_fits R.one_more this that holds fails)) store
        ≡ step_to (R.one_more rank) }
    ensures second { (this that : Plan R) (holds fails : List (List Row)) (store : List ℤ) (why other : Why) (rank next : R)
        → MeetsOne store holds → MeetsOne store fails → eval this store ≡ leaf why rank → eval that store ≡ leaf other next
        → R.exceeds (R.rank_value next store) (R.rank_value rank store)
        → eval (trimmed R.eq [] (tested R.eq R.where_greater R.greater_fits R.one_more this that holds fails)) store
        ≡ step_to (R.one_more next) }
    ensures undefined { (this that : Plan R) (holds fails : List (List Row)) (store : List ℤ) → MeetsOne store holds
        → MeetsOne store fails → (is_defined (eval this store) ≡ false) ⊎ (is_defined (eval that store) ≡ false)
        → is_defined (eval (trimmed R.eq [] (tested R.eq R.where_greater R.greater_fits R.one_more this that holds fails)) store)
        ≡ false }
{
    a_test_asks_its_outcomes::<R>();
    later_has_the_greater_rank::<R>();
}
