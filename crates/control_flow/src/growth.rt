//! How large the numbers in the rows of a level may be.

ghost use Rattle.std.specs.Prelude.{◌≡◌, ℕ, ◌+◌, ◌-◌, ◌^◌, ◌<◌, length};
ghost use Rattle.step_meaning.specs.Plain.{IsPlain};
ghost use Rattle.step_meaning.specs.Syntax.{statements};
ghost use Rattle.control_flow.specs.Fitting.{ActionFits, IsFitting};
ghost use Rattle.control_flow.specs.Growth.{factor, growth_of};
ghost use Rattle.control_flow.specs.Labels.{action_at, all_labels};
ghost use Rattle.control_flow.specs.Sizing.{held};

use crate::action::Action;
use crate::graph::Graph;
use linear_forms::affine_of;
use step_meaning::total_size;

impl Graph {
    /// The size that no number in a row of the level for so many tests passes, or the type's last value where that is less, and where a
    /// number of what the program assigns or compares doesn't fit `i128`: 1 more than the greatest number in a row of a test, times, for
    /// each assignment, `tests` times and once more, 1 more than the sum of the sizes of the numbers of its function. The program is plain.
    pub fn growth(&self, tests: u32) -> u128
        requires { IsPlain (statements self.now.body) }
        ensures fits { IsFitting (statements self.now.body) → result ≡ held (growth_of (statements self.now.body) tests) }
        ensures wide { (IsFitting (statements self.now.body) → ⊥) → result ≡ 2 ^ 128 - 1 }
    {
        match self.check_numbers() {
            Ok(()) => growth_of(self, tests),
            Err(_) => u128::MAX,
        }
    }

    /// How many times as large the label's assignment makes the numbers of a row, which is 1 more than the sum of the sizes of the numbers of its
    /// function, and 1 where there is none, or the type's last value where that is less. The program is plain.
    pub fn factor(&self, label: u32) -> u128
        requires plain { IsPlain (statements self.now.body) }
        requires within { label < length (all_labels (statements self.now.body)) }
        ensures { ActionFits (action_at (statements self.now.body) label) → result ≡ held (factor (action_at (statements self.now.body) label)) }
    {
        match self.action(label) {
            Action::Assign {
                place: _,
                value,
                ..
            } => match affine_of(value) {
                Ok(function) => total_size(&function).saturating_add(1),
                Err(_) => 1,
            },
            _ => 1,
        }
    }
}

// The same where all numbers of what the program assigns or compares fit.
fn growth_of(graph: &Graph, tests: u32) -> u128
    requires { IsFitting (statements graph.now.body) }
    ensures { result ≡ held (growth_of (statements graph.now.body) tests) }
{
    let mut product = 1u128;
    for label in 0..graph.labels() {
        product = product.saturating_mul(power(graph.factor(label), tests));
    }
    graph
        .greatest_of_tests()
        .saturating_add(1)
        .saturating_mul(product)
}

// The power of the base with one more than the exponent.
fn power(base: u128, exponent: u32) -> u128
    ensures { (n : ℕ) → base ≡ held n → result ≡ held (n ^ (exponent + 1)) }
{
    let mut power = base;
    for _ in 0..exponent {
        power = power.saturating_mul(base);
    }
    power
}
