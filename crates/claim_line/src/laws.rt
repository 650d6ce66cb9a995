//! Laws of lines that are a claim alone, each the contract of a function that does nothing.
ghost use Rattle.std.specs.Prelude.{◌≡◌, ◌≢◌, ℕ, List, All};
ghost use Rattle.linear_cons.specs.declared.affine.Affine.{Affine};
ghost use Rattle.line_text.specs.declared.claim.Claim.{Claim};
ghost use Rattle.line_text.specs.Names.{AreNames};
ghost use Rattle.line_text.specs.Spells.{Spells};
ghost use Rattle.claim_line.specs.Tells.{Tells};

/// Over names no two of which are equal, a line tells at most one claim.
pub fn a_line_tells_at_most_one_claim()
    ensures { (names : List (List ℕ)) (line : List ℕ) (claim other : Claim) → AreNames names → Tells names line claim → Tells names line other
        → claim ≡ other }
{}

/// A line that tells a claim lacks the newline byte that ends it; it is no line of a condition and a claim; and no byte of it is a colon, code 58.
pub fn claims_have_their_own_form()
    ensures newline { (names : List (List ℕ)) (line : List ℕ) (claim : Claim) → AreNames names → Tells names line claim → All (λ byte. byte ≢ 10) line }
    ensures apart { (names : List (List ℕ)) (line : List ℕ) (condition : List Affine) (claim other : Claim) → AreNames names → Tells names line claim
        → ¬ Spells names line condition other }
    ensures colon { (names : List (List ℕ)) (line : List ℕ) (claim : Claim) → AreNames names → Tells names line claim → All (λ byte. byte ≢ 58) line }
{}
