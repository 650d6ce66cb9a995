//! The law of the definitions, the contract of a function that does nothing: each value has a case.
ghost use Rattle.std.specs.Prelude.{◌≡◌, ℕ, ◌<◌, ℤ, List};
ghost use Rattle.step_meaning.specs.Syntax.{Expression};
ghost use Rattle.step_meaning.specs.Naming.{NamesBelow};
ghost use Rattle.step_meaning.specs.Outcome.{May};
ghost use Rattle.linear_cons.specs.declared.bounds.Bounds.{Bounds};
ghost use Rattle.linear_cons.specs.Bounds.{LiesIn};
ghost use Rattle.linear_cons.specs.Numbers.{number_at};
ghost use Rattle.linear_forms.specs.Meeting.{MeetsOne};
ghost use Rattle.quotient_cases.specs.Cases.{value_rows};

/// A store in the bounds that has at a place a value which an expression may have there meets each row of one of the conjunctions of the value.
pub fn each_value_has_a_case()
    ensures { (bounds : Bounds) (store : List ℤ) → LiesIn bounds store → (e : Expression) → NamesBelow 16 e → (place : ℕ) → place < 16 → (v : ℤ)
        → May e store v → number_at store place ≡ v → MeetsOne store (value_rows bounds place e) }
{}
