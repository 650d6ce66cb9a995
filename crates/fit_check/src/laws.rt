//! Laws of the definitions, each the contract of a function that does nothing.
ghost use Rattle.std.specs.Prelude.{◌≡◌, ◌≤◌, ℕ, true};
ghost use Rattle.ctl_formula.specs.Formulas.{Ctl, weak};
ghost use Rattle.control_flow.specs.Told.{IsTrueOfReached, Told};
ghost use Rattle.decision_tree.specs.declared.affine_rank.AffineRank.{AffineRank};
ghost use Rattle.decision_tree.specs.Plans.{bottom};
ghost use Rattle.tree_support.specs.Certificates.{IsShown};
ghost use Rattle.tree_support.specs.Setting.{Trees};
ghost use Rattle.step_meaning.specs.Valid.{IsBody};
ghost use Rattle.step_meaning.specs.Syntax.{Statements};
ghost use Rattle.fit_check.specs.Safety.{AreSafe, TellsFit};

/// A law: the runs from where a family is defined fit, if it shows a weak until for every run, with safe trees for what is kept and nothing for
/// the goal.
pub fn checked_families_tell_what_fits()
    ensures { (vars : ℕ) (body : Statements) (told : Told) → vars ≤ 15 → IsBody vars body → IsTrueOfReached vars body told
        → (safe : Trees AffineRank) → AreSafe vars body told.bounds safe
        → (f g : Ctl) (parts : ℕ → Trees AffineRank) → parts 0 ≡ safe → ((label : ℕ) → parts 1 label ≡ bottom)
        → (family : Trees AffineRank) → IsShown body told (weak true f g) parts family → TellsFit vars body family }
{}
