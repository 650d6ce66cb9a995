//! Laws of the definitions, each the contract of a function that does nothing: linear forms and spreadings cover every outcome, and are
//! exact for affine expressions and tests whose numbers fit.
ghost use Rattle.std.specs.Prelude.{◌≡◌, ℕ, ◌<◌, ◌≤◌, ◌↔◌, ℤ, pos, Bool, not, List, length};
ghost use Rattle.step_meaning.specs.Syntax.{Expression};
ghost use Rattle.step_meaning.specs.Naming.{IsUnnamed, NamesBelow};
ghost use Rattle.step_meaning.specs.AffineExpressions.{ExpressionFits, IsAffine, IsAffineTest, TestFits};
ghost use Rattle.step_meaning.specs.Outcome.{May, MayTest};
ghost use Rattle.step_meaning.specs.Valid.{IsNumber, IsTest};
ghost use Rattle.linear_cons.specs.declared.bounds.Bounds.{Bounds};
ghost use Rattle.linear_cons.specs.Bounds.{Covers, LiesIn};
ghost use Rattle.linear_cons.specs.Functions.{coefficient, value_at};
ghost use Rattle.linear_forms.specs.Counting.{conjunctions};
ghost use Rattle.linear_forms.specs.Duality.{AreDual};
ghost use Rattle.linear_cons.specs.Ends.{exactly};
ghost use Rattle.linear_forms.specs.Linearising.{linear_of};
ghost use Rattle.step_meaning.specs.Countdown.{form_of};
ghost use Rattle.linear_forms.specs.Meeting.{MeetsOne};
ghost use Rattle.linear_forms.specs.Spreading.{spread_of};

/// The names of an expression or a test over at most as many variables lie below a number of places.
pub fn names_lie_below()
    ensures numbers { (vars places : ℕ) → vars ≤ places → (e : Expression) → IsNumber vars e → NamesBelow places e }
    ensures tests { (vars places : ℕ) → vars ≤ places → (c : Expression) → IsTest vars c → NamesBelow places c }
{}

/// An affine expression gives at each store the value of its function, and nothing else.
pub fn affine_expressions_give_their_values()
    ensures { (store : List ℤ) (e : Expression) → NamesBelow 16 e → IsAffine e → (v : ℤ)
        → May e store v ↔ (v ≡ value_at (form_of e) store) }
{}

/// A linear form over bounds covers each number that its expression may give at a store in the bounds, is exactly the function of an
/// affine expression whose numbers fit, and mentions only places that the expression names.
pub fn linear_forms_cover()
    ensures cover { (bounds : Bounds) (store : List ℤ) → LiesIn bounds store → (e : Expression) → NamesBelow 16 e → (v : ℤ) → May e store v
        → Covers (linear_of bounds e) store v }
    ensures exact { (bounds : Bounds) (e : Expression) → IsAffine e → ExpressionFits e → linear_of bounds e ≡ exactly (form_of e) }
    ensures named { (place : ℕ) → place < 16 → (bounds : Bounds) (e : Expression) → IsUnnamed place e
        → coefficient (linear_of bounds e).affine place ≡ pos 0 }
{}

/// A store in the bounds at which a test may have an outcome meets a conjunction of its spreading for it; where the test is affine, has
/// no `?`, and its numbers fit, a store that meets one, in the bounds or not, is such a store.
pub fn spreadings_cover()
    ensures cover { (bounds : Bounds) (store : List ℤ) → LiesIn bounds store → (c : Expression) → NamesBelow 16 c → (outcome : Bool)
        → MayTest c store outcome → MeetsOne store (spread_of bounds c outcome) }
    ensures exact { (store : List ℤ) (vars : ℕ) → vars ≤ 16 → (bounds : Bounds) (c : Expression) → IsTest vars c → IsAffineTest c
        → TestFits c → (outcome : Bool) → MeetsOne store (spread_of bounds c outcome) → MayTest c store outcome }
    ensures count { (bounds : Bounds) (c : Expression) (outcome : Bool) → length (spread_of bounds c outcome) ≤ conjunctions c outcome }
{}

/// The spreadings of an affine test without `?`, whose numbers fit, for an outcome and for the other are dual.
pub fn spreadings_are_dual()
    ensures { (vars : ℕ) (bounds : Bounds) (c : Expression) → IsTest vars c → IsAffineTest c → TestFits c → (outcome : Bool)
        → AreDual (spread_of bounds c outcome) (spread_of bounds c (not outcome)) }
{}
