//! Laws of candidates, each the contract of a function that does nothing.
ghost use Rattle.std.specs.Prelude.{◌≡◌, ℕ, ◌<◌, ◌≤◌, pos, List, [], Some};
ghost use Rattle.step_meaning.specs.Counts.{HasNoLoop};
ghost use Rattle.step_meaning.specs.Syntax.{Statements, size_of, statements};
ghost use Rattle.step_meaning.specs.Valid.{IsBody};
ghost use Rattle.step_meaning.specs.declared.statement.Block.{Block};
ghost use Rattle.decision_tree.specs.Paths.{PathFits};
ghost use Rattle.linear_cons.specs.Functions.{constant_of};
ghost use Rattle.control_flow.specs.Labels.{entry_of};
ghost use Rattle.decision_tree.specs.Plans.{Plan, leaves_of, rank_of};
ghost use Rattle.decision_tree.specs.declared.affine_rank.AffineRank.{AffineRank};
ghost use Rattle.ctl_formula.specs.Formulas.{af_exit};
ghost use Rattle.tree_support.specs.declared.dropped.Dropped.{Dropped};
ghost use Rattle.tree_support.specs.Certificates.{SparesPlace, affine_ranks};
ghost use Rattle.tree_support.specs.Elimination.{Eliminates};
ghost use Rattle.control_flow.specs.Told.{chosen_place, Told};
ghost use Rattle.tree_support.specs.Setting.{Setting, Trees, setting_of, trees_in};
ghost use Rattle.tree_support.specs.Support.{IsSupported};
ghost use Rattle.count_down.specs.Blocking.{AllBlocked, IsGround};
ghost use Rattle.count_down.specs.Candidates.{IsCandidate, last_steps};
ghost use Rattle.count_down.specs.Trees.{ranked};
ghost use Rattle.decision_tree.specs.Extent.{ComplementsFit, IsTreeOver};

/// A family all of whose systems are blocked is supported, and no legal elimination gives up a leaf of it.
pub fn blocked_families_are_kept()
    ensures kept { (at : Setting AffineRank) (family new : Trees AffineRank) (drops : List Dropped) → AllBlocked at family
        → Eliminates affine_ranks at family drops new → drops ≡ [] }
    ensures supported { (at : Setting AffineRank) (family : Trees AffineRank) → AllBlocked at family → IsSupported affine_ranks at family }
{}

/// All systems of a candidate are blocked, for the part `AF exit` and whatever is told of the stores.
pub fn candidates_are_blocked()
    ensures { (vars : ℕ) (block : Block) (told : Told) (parts : ℕ → Trees AffineRank) (trees : List (Plan AffineRank)) → IsGround vars block parts
        → IsCandidate trees (statements block) → AllBlocked (setting_of (statements block) told af_exit parts) (trees_in trees) }
{}

/// So no legal elimination gives up a leaf of a candidate, and it is supported.
pub fn candidates_are_kept()
    ensures kept { (vars : ℕ) (block : Block) (told : Told) (parts : ℕ → Trees AffineRank) (trees : List (Plan AffineRank)) → IsGround vars block parts
        → IsCandidate trees (statements block) → (drops : List Dropped) (new : Trees AffineRank)
        → Eliminates affine_ranks (setting_of (statements block) told af_exit parts) (trees_in trees) drops new → drops ≡ [] }
    ensures supported { (vars : ℕ) (block : Block) (told : Told) (parts : ℕ → Trees AffineRank) (trees : List (Plan AffineRank)) → IsGround vars block parts
        → IsCandidate trees (statements block) → IsSupported affine_ranks (setting_of (statements block) told af_exit parts) (trees_in trees) }
{}

/// The rows, ranks and picks of a candidate's trees are over the program's variables, and so leave alone the place where values are chosen;
/// the complements of the rows fit 128 bits, and so do those on each path; and no tree has more than two leaves.
pub fn candidates_are_over_the_variables()
    ensures over { (vars : ℕ) (body : Statements) (trees : List (Plan AffineRank)) → vars ≤ 15 → IsBody vars body → size_of body < 1024 → IsCandidate trees body
        → (label : ℕ) → IsTreeOver vars (trees_in trees label) }
    ensures spares { (vars : ℕ) (body : Statements) (trees : List (Plan AffineRank)) → vars ≤ 15 → IsBody vars body → size_of body < 1024 → IsCandidate trees body
        → (label : ℕ) → SparesPlace chosen_place (trees_in trees label) }
    ensures complements { (vars : ℕ) (body : Statements) (trees : List (Plan AffineRank)) → vars ≤ 15 → IsBody vars body → size_of body < 1024 → IsCandidate trees body
        → (label : ℕ) → ComplementsFit (trees_in trees label) }
    ensures paths { (vars : ℕ) (body : Statements) (trees : List (Plan AffineRank)) → vars ≤ 15 → IsBody vars body → size_of body < 1024 → IsCandidate trees body
        → (label leaf : ℕ) → PathFits (trees_in trees label) leaf }
    ensures leaves { (vars : ℕ) (body : Statements) (trees : List (Plan AffineRank)) → vars ≤ 15 → IsBody vars body → size_of body < 1024 → IsCandidate trees body
        → (label : ℕ) → leaves_of (trees_in trees label) ≤ 2 }
{}

/// In a program without loops the leaf at the entry promises the most steps of a path.
pub fn loopless_candidates_promise_the_most_steps()
    ensures { (trees : List (Plan AffineRank)) (body : Statements) → HasNoLoop body → IsCandidate trees body
        → rank_of (trees_in trees (entry_of body)) ≡ Some (ranked (constant_of (pos (last_steps body)))) }
{}
