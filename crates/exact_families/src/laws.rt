//! Laws of families in plain programs without loops, each the contract of a function that does nothing.
ghost use Rattle.std.specs.Prelude.{◌≡◌, ◌≤◌, ℕ, [], List, length, ⊤};
ghost use Rattle.step_meaning.specs.Syntax.{Statements};
ghost use Rattle.step_meaning.specs.Valid.{IsBody};
ghost use Rattle.control_flow.specs.Labels.{all_labels};
ghost use Rattle.control_flow.specs.Told.{Told};
ghost use Rattle.control_flow.specs.Transitions.{AreTold};
ghost use Rattle.control_flow.specs.declared.transition.Transition.{Transition};
ghost use Rattle.ctl_formula.specs.declared.formula.Formula.{Formula};
ghost use Rattle.ctl_formula.specs.Mirror.{ctl};
ghost use Rattle.decision_tree.specs.declared.affine_rank.AffineRank.{AffineRank};
ghost use Rattle.decision_tree.specs.Plans.{Plan};
ghost use Rattle.backward_transfer.specs.AffineShapes.{tree_at};
ghost use Rattle.part_trees.specs.Proposed.{AreProposed};
ghost use Rattle.tree_support.specs.Certificates.{affine_ranks};
ghost use Rattle.tree_support.specs.Elimination.{Eliminates};
ghost use Rattle.tree_support.specs.Setting.{Setting, Trees, setting_of};
ghost use Rattle.tree_support.specs.declared.dropped.Dropped.{Dropped};
ghost use Rattle.exact_families.specs.Completeness.{EachPart, IsComplete, IsLoopless, NoneGivenUp, two_parts};
ghost use Rattle.exact_families.specs.Shut.{AllShut, AllWhole};

/// Trees that are proposed for a formula in a plain program without loops, of which no leaf is given up, are defined wherever the formula
/// holds, if those of its parts are; the parts' invariants may be any that tell of the program.
pub fn proposed_trees_are_complete()
    ensures { (vars : ℕ) (body : Statements) → vars ≤ 15 → IsBody vars body → IsLoopless body → (told : Told) (transitions : List Transition)
        → length transitions ≡ length (all_labels body) → AreTold body told transitions → (formula : Formula) (first second trees : List (Plan AffineRank))
        → length trees ≡ length (all_labels body) → AreProposed formula transitions first second trees
        → ((label : ℕ) → NoneGivenUp (tree_at trees label)) → EachPart (IsComplete body) (ctl formula) (two_parts first second)
        → IsComplete body (ctl formula) (tree_at trees) }
{}

/// In each system of their leaves two constraints clash, whatever alternative is taken.
pub fn proposed_trees_are_shut()
    ensures { (vars : ℕ) (body : Statements) → vars ≤ 15 → IsBody vars body → IsLoopless body → (told : Told) (transitions : List Transition)
        → length transitions ≡ length (all_labels body) → AreTold body told transitions → (formula : Formula) (first second trees : List (Plan AffineRank))
        → length trees ≡ length (all_labels body) → AreProposed formula transitions first second trees
        → ((label : ℕ) → NoneGivenUp (tree_at trees label)) → EachPart (λ f part. ⊤) (ctl formula) (two_parts first second)
        → AllShut (setting_of body told (ctl formula) (two_parts first second)) (tree_at trees) }
{}

/// Where two constraints clash in each system of a family, and each system is formed within 128 bits, a legal elimination gives no leaf up.
pub fn shut_families_are_kept()
    ensures { (at : Setting AffineRank) (family new : Trees AffineRank) (drops : List Dropped) → AllShut at family → AllWhole at family
        → Eliminates affine_ranks at family drops new → drops ≡ [] }
{}
