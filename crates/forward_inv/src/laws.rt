//! Laws of the definitions, each the contract of a function that does nothing.
ghost use Rattle.std.specs.Prelude.{◌≡◌, Bool};
ghost use Rattle.linear_cons.specs.declared.bounds.Bounds.{Bounds};
ghost use Rattle.step_meaning.specs.AffineExpressions.{ComparisonFits, IsAffine};
ghost use Rattle.step_meaning.specs.Countdown.{form_of};
ghost use Rattle.step_meaning.specs.Syntax.{Expression, pair};
ghost use Rattle.step_meaning.specs.declared.expression.Op2.{Op2};
ghost use Rattle.linear_forms.specs.Spreading.{spread_of};
ghost use Rattle.forward_inv.specs.Behind.{IsInequality, compared};

/// An outcome of a comparison by `<`, `<=`, `>` or `>=` of affine expressions whose numbers fit comes down to the same rows whatever the
/// bounds are: those of the functions of its sides. So a label behind the edge of such an outcome lies behind its row, if that is plain.
pub fn comparisons_come_down_to_the_same_rows()
    ensures { (bounds : Bounds) (op : Op2) (l r : Expression) (outcome : Bool) → IsInequality op → IsAffine l → IsAffine r → ComparisonFits l r
        → spread_of bounds (pair op l r) outcome ≡ compared op (form_of l) (form_of r) outcome }
{}
