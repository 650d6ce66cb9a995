//! A law of legal eliminations, the contract of a function that does nothing.
ghost use Rattle.std.specs.Prelude.{ℕ, List};
ghost use Rattle.decision_tree.specs.declared.affine_rank.AffineRank.{AffineRank};
ghost use Rattle.tree_support.specs.Certificates.{SparesPlace, affine_ranks};
ghost use Rattle.tree_support.specs.Elimination.{Eliminates};
ghost use Rattle.tree_support.specs.Setting.{Setting, Trees};
ghost use Rattle.tree_support.specs.declared.dropped.Dropped.{Dropped};

/// A legal elimination leads from a family whose trees leave a place alone to one whose trees do so too.
pub fn eliminations_spare_places()
    ensures { (at : Setting AffineRank) (old new : Trees AffineRank) (drops : List Dropped) → Eliminates affine_ranks at old drops new
        → (place : ℕ) → ((label : ℕ) → SparesPlace place (old label)) → (label : ℕ) → SparesPlace place (new label) }
{}
