//! Ranks: what a leaf promises, as functions of the store.
ghost use Rattle.std.specs.Prelude.{◌≡◌, ◌⊎◌, ℕ, ◌<◌, ◌↔◌, ℤ, List, Option, length, slice_set, IsTrue, OkIff, IfErr};
ghost use Rattle.linear_cons.specs.Exact.{IsOutside};
ghost use Rattle.linear_cons.specs.Functions.{value_at};
ghost use Rattle.linear_cons.specs.declared.affine.Affine.{Affine};
ghost use Rattle.decision_tree.specs.Alternatives.{Alternatives, MeetsAny, part_at};
ghost use Rattle.decision_tree.specs.Trend.{GreatestFits, RunsWith, Trend, greatest_of};

use linear_cons::{Affine, Linear, RowKind, Wide};
use std::hash::Hash;

/// How one part of two ranks compares: the first rank is the greater where a store meets `more`, and the next part decides where it meets each of
/// `same`. Where there is no `same` the next part decides beside it.
#[derive(Clone, Copy, PartialEq, Eq, Debug)]
pub struct Comparison {
    pub more: RowKind,
    pub same: Option<[RowKind; 2]>,
}

/// A function of the store whose values are compared: how many steps a leaf promises at most.
///
/// `Wide` comes from a call exactly where the exact answer has a number outside `i128`, or forms one
/// on the way; what each call answers is a function of its arguments.
pub trait Rank: Copy + Eq + Hash {
    /// How many parts are compared, the highest first.
    const PARTS: u8;

    ghost PARTS: { ℕ };

    // What ranks have at stores.
    ghost Value: { Type 0 };

    // The rank's value at the store.
    ghost rank_value: { Self → List ℤ → Value };

    // The one value exceeds the other.
    ghost exceeds: { Value → Value → Type 0 };

    // The value counts steps.
    ghost is_natural: { Value → Type 0 };

    // How the value moves with the number at the place.
    ghost trend: { Self → ℕ → Trend };

    // The exact answers of the calls, and where their numbers fit.
    ghost substituted: { Self → ℕ → Affine → Self };

    ghost subst_fits: { Self → ℕ → Affine → Type 0 };

    ghost one_more: { Self → Self };

    ghost add_one_fits: { Self → Type 0 };

    ghost where_greater: { Self → Self → Alternatives };

    ghost greater_fits: { Self → Self → Type 0 };

    ghost where_negative: { Self → Alternatives };

    ghost negative_fits: { Self → Type 0 };

    /// The rank with `by` put in for the variable at the place.
    fn subst(&self, place: u8, by: &Affine) -> Result<Self, Wide>
        requires { place < 16 }
        ensures exact { OkIff result (subst_fits self.now place by.now) (substituted self.now place by.now) }
        ensures wide { IfErr result IsOutside };

    /// A rank that exceeds this one at each store.
    fn add_one(&self) -> Result<Self, Wide>
        ensures exact { OkIff result (add_one_fits self.now) (one_more self.now) }
        ensures wide { IfErr result IsOutside };

    /// By its part with the number, the stores at which this rank exceeds the other. The parts behind the first are asked for where the first was told.
    fn greater(&self, other: &Self, part: u8) -> Result<Comparison, Wide>
        requires { (part ≡ 0) ⊎ greater_fits self.now other.now }
        ensures exact { OkIff result (greater_fits self.now other.now) (part_at (where_greater self.now other.now) part) }
        ensures wide { IfErr result IsOutside };

    /// By its part with the number, the stores at which this rank is no natural. The parts behind the first are asked for where the first was told.
    fn negative(&self, part: u8) -> Result<Comparison, Wide>
        requires { (part ≡ 0) ⊎ negative_fits self.now }
        ensures exact { OkIff result (negative_fits self.now) (part_at (where_negative self.now) part) }
        ensures wide { IfErr result IsOutside };

    /// The greatest that the rank becomes as the number at the place runs over the range: the rank
    /// itself where it does not depend on the place, and else the rank with the range's upper or
    /// lower end put in. `None` comes exactly where that end is not known.
    fn greatest(&self, place: u8, range: &Linear) -> Result<Option<Self>, Wide>
        requires { place < 16 }
        ensures exact { OkIff result (GreatestFits (trend self.now place) range.now (subst_fits self.now place))
            (greatest_of self.now (trend self.now place) range.now (substituted self.now place)) }
        ensures wide { IfErr result IsOutside };

    // Equality holds exactly between identical ranks.
    ghost equal_law: { (rank other : Self) → IsTrue (Self.PartialEq.eq rank other) ↔ (rank ≡ other) };

    // Of two values at most one exceeds the other.
    ghost one_way_law: { (v w : Value) → exceeds v w → exceeds w v → ⊥ };

    // Where a first doesn't exceed a second nor the second a third, the first doesn't exceed the third.
    ghost chain_law: { (u v w : Value) → (exceeds u v → ⊥) → (exceeds v w → ⊥) → exceeds u w → ⊥ };

    // A function put in acts as its value at the place.
    ghost subst_law: { (rank : Self) (place : ℕ) (by : Affine) (store : List ℤ) → place < 16 → length store ≡ 16
        → rank_value (substituted rank place by) store ≡ rank_value rank (slice_set store place (value_at by store)) };

    // One more exceeds the rank itself, and keeps the order.
    ghost more_law: { (rank : Self) (store : List ℤ) → exceeds (rank_value (one_more rank) store) (rank_value rank store) };

    ghost order_law: { (rank other : Self) (store next : List ℤ)
        → exceeds (rank_value (one_more rank) store) (rank_value (one_more other) next)
        ↔ exceeds (rank_value rank store) (rank_value other next) };

    // There are as many alternatives as parts.
    ghost greater_length_law: { (rank other : Self) → length (where_greater rank other) ≡ PARTS };

    ghost negative_length_law: { (rank : Self) → length (where_negative rank) ≡ PARTS };

    // The alternatives are exact.
    ghost greater_law: { (rank other : Self) (store : List ℤ) → MeetsAny store (where_greater rank other)
        ↔ exceeds (rank_value rank store) (rank_value other store) };

    ghost negative_law: { (rank : Self) (store : List ℤ) → MeetsAny store (where_negative rank)
        ↔ (is_natural (rank_value rank store) → ⊥) };

    // The value moves with the number at the place as its trend says.
    ghost trend_law: { (rank : Self) (place : ℕ) (store : List ℤ) (z w : ℤ) → place < 16 → length store ≡ 16
        → RunsWith (trend rank place) z w
        → exceeds (rank_value rank (slice_set store place z)) (rank_value rank (slice_set store place w)) → ⊥ };
}
