//! Laws of the texts, each the contract of a function that does nothing.
ghost use Rattle.std.specs.Prelude.{◌≡◌, ◌≢◌, ℕ, ◌<◌, ◌^◌, ◌↔◌, ℤ, List, All};
ghost use Rattle.std.specs.Fmt.{decimal};
ghost use Rattle.std.specs.Str.Parse.{IsNumeral, digits_value};
ghost use Rattle.linear_cons.specs.declared.affine.Affine.{Affine};
ghost use Rattle.linear_cons.specs.declared.row.Row.{Row};
ghost use Rattle.linear_cons.specs.Rows.{MeetsAll};
ghost use Rattle.line_text.specs.declared.claim.Claim.{Claim};
ghost use Rattle.line_text.specs.AffineText.{affine_text};
ghost use Rattle.line_text.specs.LineText.{functions_of, row_text};
ghost use Rattle.line_text.specs.Names.{AreNames, IsOver};
ghost use Rattle.line_text.specs.Numeral.{numeral};
ghost use Rattle.line_text.specs.Spells.{MeetsCondition, OpensAsLine, Spells};

/// Over names no two of which are equal, a line spells at most one condition and claim, whatever the names are and however large its
/// numbers.
pub fn a_line_spells_at_most_one_claim()
    ensures { (names : List (List ℕ)) (line : List ℕ) (condition other : List Affine) (claim claim' : Claim) → AreNames names →
        Spells names line condition claim → Spells names line other claim' → (condition ≡ other) × (claim ≡ claim') }
{}

/// Over such names, functions with one text are one, and so are the functions of rows with one text.
pub fn texts_tell_their_functions()
    ensures functions { (names : List (List ℕ)) (a b : Affine) → AreNames names → IsOver names a → IsOver names b →
        affine_text names a ≡ affine_text names b → a ≡ b }
    ensures rows { (names : List (List ℕ)) (a b : Affine) → AreNames names → IsOver names a → IsOver names b →
        row_text names a ≡ row_text names b → a ≡ b }
{}

/// A line's text lacks the newline byte that ends it, and it begins with `always: ` or has the byte `>`.
pub fn lines_have_their_own_form()
    ensures newline { (names : List (List ℕ)) (line : List ℕ) (condition : List Affine) (claim : Claim) → AreNames names →
        Spells names line condition claim → All (λ byte. byte ≢ 10) line }
    ensures opening { (names : List (List ℕ)) (line : List ℕ) (condition : List Affine) (claim : Claim) →
        Spells names line condition claim → OpensAsLine line }
{}

/// A numeral has digits alone, and they say the number; below 10^64 it is what the standard library writes.
pub fn numerals_say_their_numbers()
    ensures digits { (n : ℕ) → IsNumeral 10 (numeral n) }
    ensures value { (n : ℕ) → digits_value 10 (numeral n) ≡ n }
    ensures decimal { (n : ℕ) → n < 10 ^ 64 → numeral n ≡ decimal n }
{}

/// A store meets rows exactly where it meets the condition of their functions.
pub fn rows_are_met_as_conditions()
    ensures { (store : List ℤ) (rows : List Row) → MeetsAll store rows ↔ MeetsCondition store (functions_of rows) }
{}
