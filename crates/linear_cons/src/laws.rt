//! Laws of the definitions, each the contract of a function that does nothing: the values of
//! combined functions, and which stores and points meet which rows.
ghost use Rattle.std.specs.Prelude.{◌≡◌, IsTrue, Some, true, false, ℕ, ◌<◌, ◌↔◌, ℤ, pos, ◌+ℤ◌, ◌-ℤ◌, ◌*ℤ◌, ◌≤ℤ◌, ◌<ℤ◌, List, length};
ghost use Rattle.std.specs.Prelude.{slice_set};
ghost use Rattle.linear_cons.specs.declared.affine.Affine.{Affine};
ghost use Rattle.linear_cons.specs.declared.bounds.Bounds.{Bounds};
ghost use Rattle.linear_cons.specs.declared.bounds.Linear.{Linear};
ghost use Rattle.linear_cons.specs.declared.row.Row.{Row};
ghost use Rattle.linear_cons.specs.declared.row.RowKind.{RowKind};
ghost use Rattle.linear_cons.specs.Bounds.{Covers, IsFrom, IsUpTo, LiesIn};
ghost use Rattle.linear_cons.specs.Ends.{greatest_value, least_value};
ghost use Rattle.linear_cons.specs.Functions.{complement_of, constant_of, difference_of, form_at, multiple_of, substituted, sum_of};
ghost use Rattle.linear_cons.specs.Functions.{value_at, variable_at};
ghost use Rattle.linear_cons.specs.Numbers.{number_at};
ghost use Rattle.linear_cons.specs.Rows.{AreOpposed, IsRowOf, Meets, MeetsAll, PointMeets, complement, row_kind_of};
ghost use Rattle.linear_cons.specs.Settling.{settles, tells};

/// The forms of combined functions at each point, and so, with the denominator 1, their values.
pub fn forms_of_combinations()
    ensures constant { (c : ℤ) (num : List ℤ) (den : ℤ) → form_at (constant_of c) num den ≡ c *ℤ den }
    ensures variable { (place : ℕ) (num : List ℤ) (den : ℤ) → place < 16 → form_at (variable_at place) num den ≡ number_at num place }
    ensures sum { (a b : Affine) (num : List ℤ) (den : ℤ) → form_at (sum_of a b) num den ≡ form_at a num den +ℤ form_at b num den }
    ensures difference { (a b : Affine) (num : List ℤ) (den : ℤ)
        → form_at (difference_of a b) num den ≡ form_at a num den -ℤ form_at b num den }
    ensures multiple { (a : Affine) (by : ℤ) (num : List ℤ) (den : ℤ) → form_at (multiple_of a by) num den ≡ by *ℤ form_at a num den }
{}

/// To put a function in for a variable is to set the variable's place to the function's value.
pub fn substitution_sets_the_place()
    ensures { (a : Affine) (place : ℕ) (by : Affine) (store : List ℤ) → place < 16 → length store ≡ 16
        → value_at (substituted a place by) store ≡ value_at a (slice_set store place (value_at by store)) }
{}

/// Functions of sixteen places with the same value at each store are one.
pub fn functions_are_their_values()
    ensures { (a b : Affine) → length a.coef ≡ 16 → length b.coef ≡ 16
        → ((store : List ℤ) → length store ≡ 16 → value_at a store ≡ value_at b store) → a ≡ b }
{}

/// A store meets exactly one of a constraint and its complement.
pub fn complements_split_the_stores()
    ensures { (e : Affine) (store : List ℤ) → (pos 0 ≤ℤ value_at (complement_of e) store) ↔ (pos 0 ≤ℤ value_at e store → ⊥) }
{}

/// No point meets two opposed rows.
pub fn opposed_rows_exclude_each_other()
    ensures { (row other : Row) → AreOpposed row other → (num : List ℤ) (den : ℤ) → pos 0 <ℤ den → PointMeets num den row
        → PointMeets num den other → ⊥ }
{}

/// A row that other rows settle to hold is met by each store that meets them, one that they settle to
/// fail by none.
pub fn settled_rows_hold_or_fail()
    ensures holds { (rows : List Row) (row : Row) (store : List ℤ) → settles rows row ≡ Some true → MeetsAll store rows → Meets store row }
    ensures fails { (rows : List Row) (row : Row) (store : List ℤ) → settles rows row ≡ Some false → MeetsAll store rows → Meets store row
        → ⊥ }
{}

/// A row tells the complement of another exactly where the two are opposed; so rows that tell a row
/// and its complement have two opposed rows among them.
pub fn opposed_rows_tell_complements()
    ensures opposed { (given row : Row) → length given.affine.coef ≡ 16
        → IsTrue (tells given.affine (complement row).affine) ↔ AreOpposed given row }
    ensures both { (given other row : Row) → length other.affine.coef ≡ 16 → IsTrue (tells given.affine row.affine)
        → IsTrue (tells other.affine (complement row).affine) → AreOpposed given other }
{}

/// Two rows with one function are one row.
pub fn rows_are_their_functions()
    ensures { (row other : Row) → row.affine ≡ other.affine → row ≡ other }
{}

/// What a constraint is as a row: it is that kind, and no other.
pub fn constraints_have_one_kind()
    ensures is { (a : Affine) → IsRowOf a (row_kind_of a) }
    ensures one { (a : Affine) (kind : RowKind) → IsRowOf a kind → kind ≡ row_kind_of a }
{}

/// Over bounds, each number that a linear form covers at a store in them is at least the form's least value, and at most its greatest.
pub fn values_lie_between_their_ends()
    ensures least { (form : Linear) (bounds : Bounds) (store : List ℤ) (z : ℤ) → LiesIn bounds store → Covers form store z
        → IsFrom (least_value form bounds) z }
    ensures greatest { (form : Linear) (bounds : Bounds) (store : List ℤ) (z : ℤ) → LiesIn bounds store → Covers form store z
        → IsUpTo (greatest_value form bounds) z }
{}
