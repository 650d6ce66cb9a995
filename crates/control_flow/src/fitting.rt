//! Whether the numbers of what a program assigns and compares fit 128 bits.

ghost use Rattle.std.specs.Prelude.{◌<◌, pos, IfErr, OnErr, OnOk, length};
ghost use Rattle.linear_cons.specs.Exact.{IsOutside};
ghost use Rattle.linear_cons.specs.Functions.{NumbersFit, constant_of, difference_of};
ghost use Rattle.step_meaning.specs.AffineExpressions.{ComparisonFits, IsAffine, TestFits};
ghost use Rattle.step_meaning.specs.Naming.{NamesBelow};
ghost use Rattle.step_meaning.specs.Syntax.{expression, statements};
ghost use Rattle.control_flow.specs.Labels.{action_at, all_labels};
ghost use Rattle.step_meaning.specs.Plain.{IsPlain, IsPlainTest};
ghost use Rattle.control_flow.specs.Fitting.{ActionFits, IsFitting};

use crate::action::Action;
use crate::graph::Graph;
use linear_cons::{Affine, Wide};
use linear_forms::affine_of;
use step_meaning::{Expr, Op2};

impl Graph {
    /// `Wide` exactly where a number of what is assigned or compared at some label doesn't fit `i128`. The program is plain.
    pub fn check_numbers(&self) -> Result<(), Wide>
        requires { IsPlain (statements self.now.body) }
        ensures fits { OnOk result (IsFitting (statements self.now.body)) }
        ensures wide { OnErr result (IsFitting (statements self.now.body) → ⊥) }
        ensures operands { IfErr result IsOutside }
    {
        for label in 0..self.labels() {
            check_label(self, label)?;
        }
        Ok(())
    }
}

/// `Wide` exactly where a number of what is assigned or compared at the label doesn't fit.
fn check_label(graph: &Graph, label: u32) -> Result<(), Wide>
    requires plain { IsPlain (statements graph.now.body) }
    requires within { label < length (all_labels (statements graph.now.body)) }
    ensures fits { OnOk result (ActionFits (action_at (statements graph.now.body) label)) }
    ensures wide { OnErr result (ActionFits (action_at (statements graph.now.body) label) → ⊥) }
    ensures operands { IfErr result IsOutside }
{
    match graph.action(label) {
        Action::Assign {
            place: _,
            value,
            ..
        } => {
            let _ = affine_of(value)?;
        }
        Action::Test { test, .. } => check_test(test)?,
        Action::End | Action::Pass { .. } => {}
    }
    Ok(())
}

/// `Wide` exactly where a number of a comparison in the test doesn't fit.
fn check_test(test: &Expr) -> Result<(), Wide>
    requires plain { IsPlainTest (expression test.now) }
    requires names { NamesBelow 16 (expression test.now) }
    ensures fits { OnOk result (TestFits (expression test.now)) }
    ensures wide { OnErr result (TestFits (expression test.now) → ⊥) }
    ensures operands { IfErr result IsOutside }
{
    match test {
        Expr::Not(operand) => check_test(operand),
        Expr::Pair { op, left, right } => match op {
            Op2::And | Op2::Or => {
                check_test(left)?;
                check_test(right)?;
                Ok(())
            }
            _ => check_comparison(left, right),
        },
        _ => Ok(()),
    }
}

/// `Wide` exactly where a number of the comparison doesn't fit.
fn check_comparison(left: &Expr, right: &Expr) -> Result<(), Wide>
    requires first { IsAffine (expression left.now) }
    requires second { IsAffine (expression right.now) }
    requires first_names { NamesBelow 16 (expression left.now) }
    requires second_names { NamesBelow 16 (expression right.now) }
    ensures fits { OnOk result (ComparisonFits (expression left.now) (expression right.now)) }
    ensures wide { OnErr result (ComparisonFits (expression left.now) (expression right.now) → ⊥) }
    ensures operands { IfErr result IsOutside }
{
    let first = affine_of(left)?;
    let second = affine_of(right)?;
    check_difference(&first, &second)?;
    check_difference(&second, &first)?;
    Ok(())
}

/// `Wide` exactly where a number of the difference, or of the difference less 1, doesn't fit.
fn check_difference(first: &Affine, second: &Affine) -> Result<(), Wide>
    ensures difference { OnOk result (NumbersFit (difference_of first.now second.now)) }
    ensures strict { OnOk result (NumbersFit (difference_of (difference_of first.now second.now) (constant_of (pos 1)))) }
    ensures wide { OnErr result (NumbersFit (difference_of first.now second.now)
        → NumbersFit (difference_of (difference_of first.now second.now) (constant_of (pos 1))) → ⊥) }
    ensures operands { IfErr result IsOutside }
{
    let difference = first.sub(second)?;
    let _ = difference.sub(&Affine::constant(1))?;
    Ok(())
}
