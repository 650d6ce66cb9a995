//! Laws of certificates, each the contract of a function that does nothing.
ghost use Rattle.std.specs.Prelude.{◌≡◌, ℕ, ◌≤◌, ◌++◌, Bool, true, List};
ghost use Rattle.step_meaning.specs.Outcome.{Store};
ghost use Rattle.step_meaning.specs.Syntax.{Statements};
ghost use Rattle.step_meaning.specs.Valid.{IsBody};
ghost use Rattle.ctl_formula.specs.Formulas.{Ctl, af_exit, until};
ghost use Rattle.decision_tree.specs.declared.affine_rank.AffineRank.{AffineRank};
ghost use Rattle.decision_tree.specs.declared.family.Family.{Family};
ghost use Rattle.decision_tree.specs.Extent.{ComplementsFit, IsTreeOver};
ghost use Rattle.decision_tree.specs.Evaluation.{eval};
ghost use Rattle.decision_tree.specs.Plans.{Plan, is_defined};
ghost use Rattle.control_flow.specs.Told.{IsTrueOfReached, Told};
ghost use Rattle.ctl_rounds.specs.Bounds.{BoundsInputs, SatisfiesInputs, SatisfiesWithin};
ghost use Rattle.ctl_rounds.specs.Certified.{Certifies};
ghost use Rattle.ctl_rounds.specs.Covers.{IsCover};

use ctl_formula::af_exit_is_that_runs_end;
use decision_tree::AffineRank;
use tree_support::laws::shown_formulas_hold;
use tree_unify::laws::either_has_the_first_defined_leaf;

/// Where the cover of a certificate is defined at an input, the start with it satisfies the formula, and an until within the value of the
/// leaf's rank, which is a natural; for `AF exit` every run ends within it.
pub fn covers_hold()
    ensures satisfied { (vars : ℕ) (body : Statements) (told : Told) → vars ≤ 15 → IsBody vars body → IsTrueOfReached vars body told
        → (formula : Ctl) (parts tops : List (Family AffineRank)) → Certifies vars body told formula parts tops
        → (cover : Plan AffineRank) → IsCover body tops cover → SatisfiesInputs vars body formula cover }
    ensures bounded { (vars : ℕ) (body : Statements) (told : Told) → vars ≤ 15 → IsBody vars body → IsTrueOfReached vars body told
        → (all : Bool) (keep goal : Ctl) (parts tops : List (Family AffineRank)) → Certifies vars body told (until all keep goal) parts tops
        → (cover : Plan AffineRank) → IsCover body tops cover → SatisfiesWithin vars body (until all keep goal) cover }
    ensures ending { (vars : ℕ) (body : Statements) (told : Told) → vars ≤ 15 → IsBody vars body → IsTrueOfReached vars body told
        → (parts tops : List (Family AffineRank)) → Certifies vars body told af_exit parts tops
        → (cover : Plan AffineRank) → IsCover body tops cover → BoundsInputs vars body cover }
{
    either_has_the_first_defined_leaf::<AffineRank>();
    shown_formulas_hold();
    af_exit_is_that_runs_end();
}

/// Families behind others take nothing away: where the cover of the first of them claims something, that of all claims the same.
pub fn covers_keep_their_claims()
    ensures { (body : Statements) (tops more : List (Family AffineRank)) (old new : Plan AffineRank) → IsCover body tops old
        → IsCover body (tops ++ more) new → (store : Store) → is_defined (eval old store) ≡ true → eval new store ≡ eval old store }
{
    either_has_the_first_defined_leaf::<AffineRank>();
}

/// The rows and ranks of a certificate's cover are over the variables, and the complements of its rows fit 128 bits.
pub fn covers_can_be_printed()
    ensures { (vars : ℕ) (body : Statements) (told : Told) (formula : Ctl) (parts tops : List (Family AffineRank))
        → Certifies vars body told formula parts tops → (cover : Plan AffineRank) → IsCover body tops cover
        → IsTreeOver vars cover × ComplementsFit cover }
{}
