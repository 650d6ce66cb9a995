//! What is told of one input.

ghost use Rattle.std.specs.Prelude.{◌≡◌, ◌≤◌, ◌∷◌, ◌++◌, ℕ, List, [], IfOk, IfNone, IfSome, length};
ghost use Rattle.decision_tree.specs.declared.affine_rank.AffineRank.{AffineRank};
ghost use Rattle.decision_tree.specs.Plans.{plan_of};
ghost use Rattle.line_text.specs.declared.claim.Claim.{Claim};
ghost use Rattle.claim_line.specs.Tells.{Tells};
ghost use Rattle.function_top.specs.OneInput.{AreToldAs, IsTold, IsToldAs, IsToldOf, LeadsExactly, LeadsTo};
ghost use Rattle.function_top.specs.Printable.{IsFoundPrintable};

use crate::found::{Exact, Found};
use crate::output::Output;
use crate::status::Status;
use decision_tree::{AffineRank, Rank, Tree};
use line_text::{Claim, push_claim};
use linear_cons::Affine;
use std::alloc::{AllocError, Global};
use step_meaning::Names;

/// The line of what is told of an input by what was found of a program with these names, and its status: `AllInputs` where something is claimed of
/// it. The only error is want of memory.
pub(crate) fn answer_at(
    alloc: Global,
    found: &Found,
    input: &[i128; 16],
    names: &Names,
) -> Result<Output, AllocError>
    requires few { length names.now ≤ 15 }
    requires printable { IsFoundPrintable (length names.now) found.now }
    ensures told { IfOk result (λ due. (claim : Claim) × IsToldOf found.now input.now due.status claim
        × ((line : List ℕ) × Tells names.now line claim × (due.bytes.items ≡ line ++ 10 ∷ []))) }
    ensures turns { IfOk result (λ due. due.turns ≡ found.now.turns) }
{
    let (claim, status) = told(found, input);
    let mut bytes = Vec::new(alloc);
    push_claim(&mut bytes, &claim, names)?;
    bytes.push(b'\n')?;
    Ok(Output {
        bytes,
        status,
        turns: found.turns,
    })
}

/// What is told of the input, and whether anything is claimed of it.
fn told(found: &Found, input: &[i128; 16]) -> (Claim, Status)
    ensures { IsToldOf found.now input.now result.1 result.0 }
{
    if let Some(rank) = exact_rank(&found.exact, input) {
        return (Claim::Exactly(rank.value.constant), Status::AllInputs);
    }
    if let Some(rank) = rank_at(&found.cover, input) {
        let claim = found.claims.claim(rank);
        return (claim_told(&claim, input), Status::AllInputs);
    }
    match rank_at(&found.ranked, input) {
        Some(rank) => {
            let claim = Claim::Ranked(rank.functions());
            (claim_told(&claim, input), Status::AllInputs)
        }
        None => (Claim::Unknown, Status::SomeInputs),
    }
}

/// What a leaf claims, as it is told of the input.
fn claim_told(claim: &Claim, input: &[i128; 16]) -> Claim
    ensures { IsTold claim.now input.now result }
{
    match claim {
        Claim::Within(bound) => Claim::Within(bound_told(bound, input)),
        Claim::Ranked(functions) => Claim::Ranked(functions_told(functions, input)),
        Claim::Exactly(_) | Claim::Holds | Claim::Fits | Claim::Unknown => *claim,
    }
}

/// A function by its value at the input, where that is found within 128 bits.
fn bound_told(bound: &Affine, input: &[i128; 16]) -> Affine
    ensures { IsToldAs bound.now input.now result }
{
    match bound.value(input) {
        Ok(value) => Affine::constant(value),
        Err(_) => *bound,
    }
}

/// The functions of a rank so, one by one.
fn functions_told(functions: &[Affine; 5], input: &[i128; 16]) -> [Affine; 5]
    ensures { AreToldAs functions.now input.now result }
{
    let [fourth, third, second, first, finite] = functions;
    [
        bound_told(fourth, input),
        bound_told(third, input),
        bound_told(second, input),
        bound_told(first, input),
        bound_told(finite, input),
    ]
}

/// The rank at the leaf of the exact part where the input stands, if there is one.
fn exact_rank<'e>(exact: &'e Exact, input: &[i128; 16]) -> Option<&'e AffineRank>
    ensures some { IfSome result (λ rank. LeadsExactly exact.now input.now rank.now) }
    ensures none { IfNone result ((rank : AffineRank) → ¬ LeadsExactly exact.now input.now rank) }
{
    match exact {
        Exact::Made { tree, .. } => rank_at(tree, input),
        Exact::Unasked | Exact::Unmade(_) => None,
    }
}

/// The rank at the leaf of the tree where the input stands, if it is defined and found within 128 bits.
fn rank_at<'t, R: Rank>(tree: &'t Tree<R>, input: &[i128; 16]) -> Option<&'t R>
    ensures some { IfSome result (λ rank. LeadsTo (plan_of tree.now) input.now rank.now) }
    ensures none { IfNone result ((rank : R) → ¬ LeadsTo (plan_of tree.now) input.now rank) }
{
    match tree.leaf_at(input) {
        Ok(Tree::Leaf { rank, .. }) => Some(rank),
        _ => None,
    }
}
