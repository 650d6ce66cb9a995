//! Laws of the definitions, each the contract of a function that does nothing: why what a supported family says is true.
ghost use Rattle.std.specs.Prelude.{◌≡◌, ◌<◌, ◌≤◌, ℕ, Bool, List, All, AllPairs};
ghost use Rattle.step_meaning.specs.Syntax.{Statements};
ghost use Rattle.step_meaning.specs.Valid.{IsBody};
ghost use Rattle.ctl_formula.specs.Formulas.{Ctl, until};
ghost use Rattle.decision_tree.specs.declared.affine_rank.AffineRank.{AffineRank};
ghost use Rattle.decision_tree.specs.Paths.{leaf_numbered, path_of};
ghost use Rattle.decision_tree.specs.Plans.{leaves_of, top};
ghost use Rattle.control_flow.specs.Invariants.{AreInvariants};
ghost use Rattle.tree_support.specs.Certificates.{IsShown, SmallerAreShown, operands_from};
ghost use Rattle.tree_support.specs.Elimination.{AreTold, EachOfSet, Eliminates, IsByPoint, IsByStore, IsElsewhere, KeepsSet, cause_of, within};
ghost use Rattle.tree_support.specs.Setting.{Setting, Trees};
ghost use Rattle.tree_support.specs.Soundness.{IsSound, IsSoundWithin};
ghost use Rattle.tree_support.specs.declared.dropped.Dropped.{Dropped};
ghost use Rattle.tree_support.specs.Support.{IsFirm, IsSupported};
ghost use Rattle.control_flow.specs.Told.{IsTrueOfReached, Told, told_by};

use decision_tree::Rank;
use num_domain::NumDomain;

/// What invariants tell by their bounds, their rows and whether they are empty is true of each state that is reached.
pub fn invariants_tell_the_truth<D: NumDomain>()
    ensures { (vars : ℕ) (body : Statements) (states : List D) → AreInvariants D.has vars body states
        → IsTrueOfReached vars body (told_by D.told_bounds D.told_rows D.seen_empty states) }
{}

/// Families that show the parts of a formula speak the truth: where a family of the formula is defined, which shows it over the families of
/// its operands, each state that is reached satisfies the formula, and an until within the value of the leaf's rank, which is a natural; and so
/// does the start with each input. The numbers of the parts may begin anywhere.
pub fn shown_formulas_hold()
    ensures satisfied { (vars : ℕ) (body : Statements) (told : Told) → vars ≤ 15 → IsBody vars body → IsTrueOfReached vars body told
        → (families : ℕ → Trees AffineRank) (k : ℕ) (f : Ctl) → SmallerAreShown body told families k f
        → (family : Trees AffineRank) → IsShown body told f (operands_from families k f) family → IsSound vars body f family }
    ensures bounded { (vars : ℕ) (body : Statements) (told : Told) → vars ≤ 15 → IsBody vars body → IsTrueOfReached vars body told
        → (families : ℕ → Trees AffineRank) (k : ℕ) (all : Bool) (keep goal : Ctl) → SmallerAreShown body told families k (until all keep goal)
        → (family : Trees AffineRank) → IsShown body told (until all keep goal) (operands_from families k (until all keep goal)) family
        → IsSoundWithin vars body (until all keep goal) family }
{}

/// A legal elimination gives up each leaf that it lists, for the reason that it names, and lists none twice; all other leaves, all paths
/// and the number of leaves are as before.
pub fn eliminations_give_up_what_they_list<R: Rank>()
    ensures listed { (at : Setting R) (old new : Trees R) (drops : List Dropped) → Eliminates R.Rank.own at old drops new
        → All (λ dropped. leaf_numbered (new dropped.label) dropped.leaf ≡ top (cause_of dropped.reason)) drops }
    ensures once { (at : Setting R) (old new : Trees R) (drops : List Dropped) → Eliminates R.Rank.own at old drops new
        → AllPairs (λ dropped later. IsElsewhere dropped.label dropped.leaf later) drops }
    ensures others { (at : Setting R) (old new : Trees R) (drops : List Dropped) → Eliminates R.Rank.own at old drops new
        → (label place : ℕ) → place < leaves_of (old label) → All (IsElsewhere label place) drops
        → leaf_numbered (new label) place ≡ leaf_numbered (old label) place }
    ensures paths { (at : Setting R) (old new : Trees R) (drops : List Dropped) → Eliminates R.Rank.own at old drops new
        → (label place : ℕ) → path_of (new label) place ≡ path_of (old label) place }
    ensures leaves { (at : Setting R) (old new : Trees R) (drops : List Dropped) → Eliminates R.Rank.own at old drops new
        → (label : ℕ) → leaves_of (new label) ≡ leaves_of (old label) }
{}

/// A firmly supported set of leaves is kept whole by each legal elimination in which every drop of a leaf of the set shows a point: only
/// numbers outside 128 bits and too many rows cost more. A set that is supported, firmly or not, is kept whole where every such drop
/// shows a store, a point with denominator 1: where the first of its leaves to be dropped shows a point, that is none. And it is kept whole where every such
/// drop shows a point while splits at fractions tell of each system of the leaf whether a store meets it.
pub fn what_supports_itself_is_kept<R: Rank>()
    ensures firm { (at : Setting R) (set : ℕ → ℕ → Bool) (old new : Trees R) (drops : List Dropped) → Eliminates R.Rank.own at old drops new
        → EachOfSet set IsByPoint drops → IsFirm R.Rank.own at (within set old) → KeepsSet set old new }
    ensures supported { (at : Setting R) (set : ℕ → ℕ → Bool) (old new : Trees R) (drops : List Dropped) → Eliminates R.Rank.own at old drops new
        → EachOfSet set IsByStore drops → IsSupported R.Rank.own at (within set old) → KeepsSet set old new }
    ensures told { (at : Setting R) (set : ℕ → ℕ → Bool) (old new : Trees R) (drops : List Dropped) → Eliminates R.Rank.own at old drops new
        → AreTold R.Rank.own at set old drops → IsSupported R.Rank.own at (within set old) → KeepsSet set old new }
{}
