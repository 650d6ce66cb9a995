//! The tree before a step, by the trees behind it.
ghost use Rattle.std.specs.Prelude.{◌≡◌, ℕ, suc, ◌+◌, ◌*◌, ◌<◌, ◌≤◌, Err, IfErr, IfOk, length, slice_set};
ghost use Rattle.linear_cons.specs.Functions.{IsOver, value_at};
ghost use Rattle.linear_cons.specs.declared.exact.Wide.{Wide as Operands};
ghost use Rattle.linear_forms.specs.Meeting.{MeetsOne};
ghost use Rattle.decision_tree.specs.Evaluation.{eval};
ghost use Rattle.decision_tree.specs.Plans.{plan_of, size_of};
ghost use Rattle.linear_cons.specs.Sizes.{total_size};
ghost use Rattle.step_meaning.specs.Outcome.{Store};
ghost use Rattle.step_meaning.specs.Syntax.{Expression};
ghost use Rattle.step_meaning.specs.Valid.{IsTest};
ghost use Rattle.decision_tree.specs.Extent.{IsTreeOver, ComplementsFit};
ghost use Rattle.unroll.specs.Building.{IsBefore, IsBeforeBoth};
ghost use Rattle.unroll.specs.Doing.{AreOf};
ghost use Rattle.control_flow.specs.Growth.{greatest_of_conjunctions};
ghost use Rattle.unroll.specs.Levels.{RanksCount};
ghost use Rattle.control_flow.specs.Measures.{size_of_test};
ghost use Rattle.unroll.specs.Plain.{IsFittingTest};
ghost use Rattle.unroll.specs.Within.{AreWithin, IsNarrow};
ghost use Rattle.tree_unify.specs.declared.fault.TreeFault.TheVariants.{Full, Wide as TooLarge};
ghost use Rattle.unroll.specs.Refusals.{IsRefusal};

use backward_transfer::{back_assign, back_skip, back_test};
use control_flow::Place;
use decision_tree::{AffineRank, Tree};
use linear_cons::{Affine, Rows};
use std::alloc::Global;
use tree_unify::TreeFault;

/// The tree before the function's value is assigned to the variable at the place: a step more than where the store behind it stands.
pub(crate) fn assigned(
    alloc: Global,
    place: Place,
    value: &Affine,
    behind: &Tree<AffineRank>,
) -> Result<Tree<AffineRank>, TreeFault>
    ensures variables { (vars : ℕ) → IsOver vars value.now → RanksCount (plan_of behind.now) → IsTreeOver vars (plan_of behind.now)
        → IfOk result (λ tree. IsTreeOver vars (plan_of tree)) }
    ensures before { IfOk result (λ tree. (s : Store) → length s ≡ 16
        → IsBefore (eval (plan_of behind.now) (slice_set s place.number (value_at value.now s))) (eval (plan_of tree) s)) }
    ensures ranks { RanksCount (plan_of behind.now) → IfOk result (λ tree. RanksCount (plan_of tree)) }
    ensures complements { IfOk result (λ tree. ComplementsFit (plan_of tree)) }
    ensures small { IfOk result (λ tree. size_of (plan_of tree) ≤ size_of (plan_of behind.now)) }
    ensures full { (count : ℕ) → result ≡ Err (Full count) → 65536 < size_of (plan_of behind.now) }
    ensures within { (k most steps : ℕ) → AreWithin ((1 + total_size value.now) * k) most steps (plan_of behind.now)
        → IfOk result (λ tree. AreWithin k most (suc steps) (plan_of tree)) }
    ensures wide { (operands : Operands) (k most steps : ℕ) → IsNarrow k most steps
        → AreWithin ((1 + total_size value.now) * k) most steps (plan_of behind.now) → result ≡ Err (TooLarge operands) → ⊥ }
    ensures refusal { IfErr result IsRefusal }
{
    let tree = back_assign(alloc, behind, place.number, value)?;
    Ok(tree)
}

/// The tree before a step that changes nothing: a step more.
pub(crate) fn passed(
    alloc: Global,
    behind: &Tree<AffineRank>,
) -> Result<Tree<AffineRank>, TreeFault>
    ensures variables { (vars : ℕ) → RanksCount (plan_of behind.now) → IsTreeOver vars (plan_of behind.now)
        → IfOk result (λ tree. IsTreeOver vars (plan_of tree)) }
    ensures before { IfOk result (λ tree. (s : Store) → IsBefore (eval (plan_of behind.now) s) (eval (plan_of tree) s)) }
    ensures ranks { RanksCount (plan_of behind.now) → IfOk result (λ tree. RanksCount (plan_of tree)) }
    ensures complements { IfOk result (λ tree. ComplementsFit (plan_of tree)) }
    ensures small { IfOk result (λ tree. size_of (plan_of tree) ≤ size_of (plan_of behind.now)) }
    ensures full { (count : ℕ) → result ≡ Err (Full count) → 65536 < size_of (plan_of behind.now) }
    ensures within { (k most steps : ℕ) → AreWithin k most steps (plan_of behind.now) → IfOk result (λ tree. AreWithin k most (suc steps) (plan_of tree)) }
    ensures wide { (operands : Operands) (k most steps : ℕ) → IsNarrow k most steps → AreWithin k most steps (plan_of behind.now)
        → result ≡ Err (TooLarge operands) → ⊥ }
    ensures refusal { IfErr result IsRefusal }
{
    let tree = back_skip(alloc, behind)?;
    Ok(tree)
}

/// The tree before a test whose outcomes are the conjunctions, with the trees behind them: a step more than behind the one that is possible, or
/// than the greater where both are.
pub(crate) fn tested(
    alloc: Global,
    holds: &[Rows],
    fails: &[Rows],
    yes: &Tree<AffineRank>,
    no: &Tree<AffineRank>,
) -> Result<Tree<AffineRank>, TreeFault>
    ensures variables { (c : Expression) (vars : ℕ) → AreOf c holds.now fails.now → IsTest vars c → RanksCount (plan_of yes.now)
        → RanksCount (plan_of no.now) → IsTreeOver vars (plan_of yes.now) → IsTreeOver vars (plan_of no.now)
        → IfOk result (λ tree. IsTreeOver vars (plan_of tree)) }
    ensures both { IfOk result (λ tree. (s : Store) → MeetsOne s holds.now → MeetsOne s fails.now
        → IsBeforeBoth (eval (plan_of yes.now) s) (eval (plan_of no.now) s) (eval (plan_of tree) s)) }
    ensures holds { IfOk result (λ tree. (s : Store) → MeetsOne s holds.now → (MeetsOne s fails.now → ⊥)
        → IsBefore (eval (plan_of yes.now) s) (eval (plan_of tree) s)) }
    ensures fails { IfOk result (λ tree. (s : Store) → (MeetsOne s holds.now → ⊥) → MeetsOne s fails.now
        → IsBefore (eval (plan_of no.now) s) (eval (plan_of tree) s)) }
    ensures ranks { RanksCount (plan_of yes.now) → RanksCount (plan_of no.now) → IfOk result (λ tree. RanksCount (plan_of tree)) }
    ensures complements { IfOk result (λ tree. ComplementsFit (plan_of tree)) }
    ensures small { (c : Expression) → AreOf c holds.now fails.now → IsFittingTest c → RanksCount (plan_of yes.now) → RanksCount (plan_of no.now)
        → IfOk result (λ tree. size_of (plan_of tree) ≤ size_of_test c (size_of (plan_of yes.now)) (size_of (plan_of no.now))) }
    ensures full { (c : Expression) (count : ℕ) → AreOf c holds.now fails.now → IsFittingTest c → RanksCount (plan_of yes.now)
        → RanksCount (plan_of no.now) → result ≡ Err (Full count) → 65536 < size_of_test c (size_of (plan_of yes.now)) (size_of (plan_of no.now)) }
    ensures within { (c : Expression) (k most steps : ℕ) → AreOf c holds.now fails.now → IsFittingTest c → greatest_of_conjunctions holds.now * k ≤ most
        → AreWithin k most steps (plan_of yes.now) → AreWithin k most steps (plan_of no.now)
        → IfOk result (λ tree. AreWithin k most (suc steps) (plan_of tree)) }
    ensures wide { (c : Expression) (operands : Operands) (k most steps : ℕ) → AreOf c holds.now fails.now → IsFittingTest c → IsNarrow k most steps
        → greatest_of_conjunctions holds.now * k ≤ most → AreWithin k most steps (plan_of yes.now) → AreWithin k most steps (plan_of no.now)
        → result ≡ Err (TooLarge operands) → ⊥ }
    ensures refusal { IfErr result IsRefusal }
{
    let tree = back_test(alloc, yes, no, holds, fails)?;
    Ok(tree)
}
