//! How large the numbers in the rows of a formula's trees may be.

ghost use Rattle.std.specs.Prelude.{◌≡◌, ◌-◌, ◌^◌, length};
ghost use Rattle.step_meaning.specs.Plain.{IsPlain};
ghost use Rattle.step_meaning.specs.Syntax.{statements};
ghost use Rattle.control_flow.specs.Fitting.{IsFitting};
ghost use Rattle.control_flow.specs.Growth.{factor_at, product_below};
ghost use Rattle.control_flow.specs.Labels.{all_labels};
ghost use Rattle.control_flow.specs.Sizing.{held};
ghost use Rattle.ctl_formula.specs.Mirror.{ctl};
ghost use Rattle.formula_measures.specs.Measures.{atom_size, ctl_growth};

use control_flow::{Graph, greatest_number};
use ctl_formula::Formula;
use linear_cons::RowKind;

/// The size that no number in a row of the formula's trees passes, or the type's last value where that is less, and where a number of what the
/// program assigns or compares doesn't fit `i128`: 1 more than the greatest number in a row of a test or an atom, times, for each assignment, 1 more
/// than the sum of the sizes of the numbers of its function. The program is plain.
pub fn growth(graph: &Graph, formula: &Formula) -> u128
    requires { IsPlain (statements graph.now.body) }
    ensures fits { IsFitting (statements graph.now.body) → result ≡ held (ctl_growth (statements graph.now.body) (ctl formula.now)) }
    ensures wide { (IsFitting (statements graph.now.body) → ⊥) → result ≡ 2 ^ 128 - 1 }
{
    let of_tests = graph.growth(0);
    let of_atoms = atom_size(formula)
        .saturating_add(1)
        .saturating_mul(product(graph));
    of_tests.max(of_atoms)
}

// The product of the factors of the labels.
fn product(graph: &Graph) -> u128
    requires { IsPlain (statements graph.now.body) }
    ensures { IsFitting (statements graph.now.body)
        → result ≡ held (product_below (factor_at (statements graph.now.body)) (length (all_labels (statements graph.now.body)))) }
{
    let mut product = 1u128;
    for label in 0..graph.labels() {
        product = product.saturating_mul(graph.factor(label));
    }
    product
}

// The greatest size of a number in an atom.
fn atom_size(formula: &Formula) -> u128
    ensures { result ≡ atom_size (ctl formula.now) }
{
    match formula {
        Formula::True | Formula::False | Formula::Exit | Formula::NotExit => 0,
        Formula::Holds(RowKind::Row(row)) => greatest_number(&row.affine),
        Formula::Holds(RowKind::Always | RowKind::Never) => 0,
        Formula::Not(part) => atom_size(part),
        Formula::Next { all: _, part } => atom_size(part),
        Formula::And(left, right) | Formula::Or(left, right) => {
            atom_size(left).max(atom_size(right))
        }
        Formula::Until { all: _, keep, goal } | Formula::Weak { all: _, keep, goal } => {
            atom_size(keep).max(atom_size(goal))
        }
    }
}
