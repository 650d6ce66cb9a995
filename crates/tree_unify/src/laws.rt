//! Laws of the shapes, each the contract of a function that does nothing.
ghost use Rattle.std.specs.Prelude.{◌≡◌, ℤ, List, true, false};
ghost use Rattle.linear_cons.specs.Rows.{MeetsAll};
ghost use Rattle.linear_cons.specs.declared.row.Row.{Row};
ghost use Rattle.decision_tree.specs.Evaluation.{eval};
ghost use Rattle.decision_tree.specs.Plans.{Plan, is_defined, leaf};
ghost use Rattle.decision_tree.specs.declared.reason.Why.{Why};
ghost use Rattle.tree_unify.specs.Shapes.{joined, trimmed};
ghost use Rattle.tree_unify.specs.declared.join.Join.TheVariants.{Both, Either, Later};

use decision_tree::Rank;

/// A trimmed tree has the tree's own leaf at each store that meets the path.
pub fn trimming_keeps_the_leaves_on_the_path<R: Rank>()
    ensures { (path : List Row) (plan : Plan R) (store : List ℤ) → MeetsAll store path
        → eval (trimmed R.eq path plan) store ≡ eval plan store }
{}

/// At each store `either` has the first tree's leaf where that is defined or the second's is not, else
/// the second's.
pub fn either_has_the_first_defined_leaf<R: Rank>()
    ensures first { (a b : Plan R) (store : List ℤ) → is_defined (eval a store) ≡ true
        → eval (joined R.eq R.where_greater R.greater_fits Either a b) store ≡ eval a store }
    ensures second { (a b : Plan R) (store : List ℤ) → is_defined (eval a store) ≡ false → is_defined (eval b store) ≡ true
        → eval (joined R.eq R.where_greater R.greater_fits Either a b) store ≡ eval b store }
    ensures neither { (a b : Plan R) (store : List ℤ) → is_defined (eval a store) ≡ false → is_defined (eval b store) ≡ false
        → eval (joined R.eq R.where_greater R.greater_fits Either a b) store ≡ eval a store }
{}

/// At each store `both` has the second tree's leaf where the first's is defined, else the first's, which
/// is undefined.
pub fn both_has_the_second_leaf<R: Rank>()
    ensures second { (a b : Plan R) (store : List ℤ) → is_defined (eval a store) ≡ true
        → eval (joined R.eq R.where_greater R.greater_fits Both a b) store ≡ eval b store }
    ensures first { (a b : Plan R) (store : List ℤ) → is_defined (eval a store) ≡ false
        → eval (joined R.eq R.where_greater R.greater_fits Both a b) store ≡ eval a store }
{}

/// At each store where both leaves are defined `later` has the one of the greater rank, the first tree's
/// on a tie; elsewhere an undefined one of theirs.
pub fn later_has_the_greater_rank<R: Rank>()
    ensures second { (a b : Plan R) (store : List ℤ) (why other : Why) (rank next : R) → eval a store ≡ leaf why rank
        → eval b store ≡ leaf other next
        → R.exceeds (R.rank_value next store) (R.rank_value rank store)
        → eval (joined R.eq R.where_greater R.greater_fits Later a b) store ≡ leaf other next }
    ensures first { (a b : Plan R) (store : List ℤ) (why other : Why) (rank next : R) → eval a store ≡ leaf why rank
        → eval b store ≡ leaf other next
        → (R.exceeds (R.rank_value next store) (R.rank_value rank store) → ⊥)
        → eval (joined R.eq R.where_greater R.greater_fits Later a b) store ≡ leaf why rank }
    ensures first_undefined { (a b : Plan R) (store : List ℤ) → is_defined (eval a store) ≡ false
        → eval (joined R.eq R.where_greater R.greater_fits Later a b) store ≡ eval a store }
    ensures second_undefined { (a b : Plan R) (store : List ℤ) → is_defined (eval a store) ≡ true → is_defined (eval b store) ≡ false
        → eval (joined R.eq R.where_greater R.greater_fits Later a b) store ≡ eval b store }
{}
