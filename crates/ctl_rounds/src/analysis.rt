//! The analysis of a formula over a program.
ghost use Rattle.std.specs.Prelude.{◌≡◌, ◌↔◌, ◌<◌, ◌≤◌, ◌⊎◌, ◌^◌, ◌++◌, All, IfNone, IfOk, IfSome, IsTrue, None, Some, length, option_map, pos};
ghost use Rattle.linear_cons.specs.Functions.{constant_of};
ghost use Rattle.step_meaning.specs.Countdown.{IsCountdown};
ghost use Rattle.step_meaning.specs.Counts.{HasNoLoop};
ghost use Rattle.step_meaning.specs.Syntax.{statements};
ghost use Rattle.count_down.specs.Candidates.{IsCandidate, last_steps};
ghost use Rattle.count_down.specs.Trees.{ranked};
ghost use Rattle.ctl_formula.specs.Formulas.{af_exit, exit, truth};
ghost use Rattle.ctl_formula.specs.Mirror.{ctl};
ghost use Rattle.decision_tree.specs.declared.affine_rank.AffineRank.{AffineRank};
ghost use Rattle.decision_tree.specs.Extent.{IsWhole};
ghost use Rattle.decision_tree.specs.Plans.{Plan, plan_of, rank_of};
ghost use Rattle.control_flow.specs.Labels.{entry_of};
ghost use Rattle.control_flow.specs.Invariants.{AreInvariants};
ghost use Rattle.tree_support.specs.Setting.{trees_in};
ghost use Rattle.control_flow.specs.Told.{told_by};
ghost use Rattle.fitting_ways.specs.Factors.{HasSmallFactors};
ghost use Rattle.fitting_ways.specs.Ways.{SmallWaysFit};
ghost use Rattle.part_families.specs.Knowing.{told_on};
ghost use Rattle.part_families.specs.Showing.{all_of};
ghost use Rattle.ctl_rounds.specs.Asked.{AreAskedAlike, IsAdvised};
ghost use Rattle.ctl_rounds.specs.Certified.{Certifies};
ghost use Rattle.ctl_rounds.specs.Covers.{Covers, IsCover, IsFitToBegin, at_entry, claims_of};
ghost use Rattle.ctl_rounds.specs.Finding.{AreFoundSoFar, CoversExactly, FirstIs, IsInquiry};
ghost use Rattle.ctl_rounds.specs.Bounds.{CoversInputs, FindsInputs};
ghost use Rattle.part_families.specs.Families.{HasRowsWithin, IsUncut, IsWithin};
ghost use Rattle.exact_families.specs.Completeness.{IsLoopless};
ghost use Rattle.formula_measures.specs.Measures.{ctl_growth};
ghost use Rattle.normal_form.specs.Operators.{HasNoNegation};

use crate::certificate::Certificate;
use crate::inquiry::Inquiry;
use crate::tops::Tops;
use advice::Adviser;
use control_flow::Graph;
use count_down::candidate;
use count_down::laws::{
    candidates_are_kept, candidates_are_over_the_variables,
    loopless_candidates_promise_the_most_steps,
};
use ctl_formula::Formula;
use decision_tree::{AffineRank, Family};
use fitting_ways::laws::ways_through_small_candidates_fit;
use forward_inv::{Inv, transitions_of};
use loop_moves::Search;
use num_domain::NumDomain;
use part_families::Premises;
use std::alloc::{AllocError, Global};

/// A certificate of the formula: families of trees for its parts, each supported over those of its operands. The smaller parts have one family
/// each, and the whole at least one. For `AF exit` a countdown program has one family of the whole, its candidate, of which the check leaves
/// all; the cover of a program without loops is one leaf, the most steps of a path; and where the factors in front of the loop are small, the way of
/// an input of small numbers through the cover is found within 128 bits. For any other formula or program a family is proposed, by
/// sweeps that widen at the heads of loops after `max(delay, 1)` of them; and for an `A[f U g]`, as long as an input has no claim, the advisers
/// propose more, in eight turns. Of an until or a weak until, where there are advisers and the delay is 2 or more, linear programs propose further families.
/// Nothing is assumed of who proposes: a family is there because the check left it so.
///
/// In a plain program without loops each input from which the formula holds has a claim, where no leaf was given up and the first tree is small, and
/// within the measures of the two; then no number in a row of a family is above the growth of these, and where that is at most 2^60 its way there is found within 128 bits,
/// if its numbers are small.
///
/// The invariants have each state that is reached. The only error is want of memory, as for a formula of
/// more than 2^32 parts; the advisers may have been asked by then.
pub fn analyse<D: NumDomain>(
    alloc: Global,
    graph: &Graph,
    inv: &Inv<D>,
    formula: &Formula,
    advisers: &mut Vec<Box<dyn Adviser>>,
    delay: u32,
) -> Result<Certificate, AllocError>
    requires invariants { AreInvariants D.has (length graph.now.names) (statements graph.now.body) inv.now }
    requires patient { All (λ adviser. asked_of adviser ≤ 2 ^ 32) advisers.old.items }
    ensures certified { IfOk result (λ certificate. Certifies (length graph.now.names) (statements graph.now.body)
        (told_by D.told_bounds D.told_rows D.seen_empty inv.now) (ctl formula.now) certificate.parts certificate.tops) }
    ensures exact { IsLoopless (statements graph.now.body) → HasNoNegation (ctl formula.now) → IfOk result (λ certificate. All IsUncut certificate.parts
        → FirstIs (IsFitToBegin (statements graph.now.body)) certificate.tops → (cover : Plan AffineRank)
        → IsCover (statements graph.now.body) certificate.tops cover
        → CoversInputs (length graph.now.names) (statements graph.now.body) (ctl formula.now) cover) }
    ensures narrow { IsLoopless (statements graph.now.body) → HasNoNegation (ctl formula.now)
        → IsWithin (length graph.now.names) (statements graph.now.body) (ctl formula.now) → IfOk result (λ certificate. (cover : Plan AffineRank)
        → IsCover (statements graph.now.body) certificate.tops cover
        → CoversInputs (length graph.now.names) (statements graph.now.body) (ctl formula.now) cover) }
    ensures narrow_ways { IsLoopless (statements graph.now.body) → HasNoNegation (ctl formula.now)
        → IsWithin (length graph.now.names) (statements graph.now.body) (ctl formula.now) → ctl_growth (statements graph.now.body) (ctl formula.now) ≤ 2 ^ 60
        → IfOk result (λ certificate. (cover : Plan AffineRank) → IsCover (statements graph.now.body) certificate.tops cover
        → FindsInputs (length graph.now.names) (statements graph.now.body) (ctl formula.now) cover) }
    ensures numbers { IsLoopless (statements graph.now.body) → HasNoNegation (ctl formula.now)
        → IsWithin (length graph.now.names) (statements graph.now.body) (ctl formula.now) → IfOk result (λ certificate.
        All (HasRowsWithin (ctl_growth (statements graph.now.body) (ctl formula.now))) (certificate.parts ++ certificate.tops)) }
    ensures turns { IsAdvised (ctl formula.now) → IfOk result (λ certificate. (cover : Plan AffineRank)
        → IsCover (statements graph.now.body) certificate.tops cover → IsWhole cover ⊎ (certificate.turns ≡ 8)) }
    ensures unadvised { (IsAdvised (ctl formula.now) → ⊥) → IfOk result (λ certificate. certificate.turns ≡ 0) }
    ensures asked { AreAskedAlike (λ adviser. asked_of adviser) advisers.old.items advisers.new.items (λ times. IfOk result (λ certificate. certificate.turns ≡ times)) }
    ensures countdown { ctl formula.now ≡ af_exit → IsCountdown (statements graph.now.body) → IfOk result (λ certificate. (cover : Plan AffineRank)
        → IsCover (statements graph.now.body) certificate.tops cover → IsWhole cover) }
    ensures unasked { ctl formula.now ≡ af_exit → IsCountdown (statements graph.now.body) → IfOk result (λ certificate. certificate.turns ≡ 0) }
    ensures loopless { ctl formula.now ≡ af_exit → HasNoLoop (statements graph.now.body) → IfOk result (λ certificate. (cover : Plan AffineRank)
        → IsCover (statements graph.now.body) certificate.tops cover
        → rank_of cover ≡ Some (ranked (constant_of (pos (last_steps (statements graph.now.body)))))) }
    ensures ways { ctl formula.now ≡ af_exit → IsCountdown (statements graph.now.body) → HasSmallFactors (statements graph.now.body)
        → IfOk result (λ certificate. (cover : Plan AffineRank) → IsCover (statements graph.now.body) certificate.tops cover → SmallWaysFit cover) }
{
    let transitions = transitions_of(alloc, graph, inv)?;
    let premises = Premises {
        alloc,
        graph,
        inv,
        transitions: &transitions,
        labels: graph.labels(),
        delay,
        synthesises: synthesises(advisers.len(), delay),
    };
    let mut search = Search::new(alloc);
    let smaller = premises.smaller_parts(&mut search, formula, 0)?;
    let inquiry = Inquiry {
        premises: &premises,
        formula,
        smaller: &smaller,
    };
    let found = inquiry.found(&mut search, advisers)?;
    let parts = smaller.in_order()?;
    Ok(found.certificate(parts))
}

/// Whether linear programs may propose families: where there is an adviser, and more than one sweep comes before widening.
pub fn synthesises(advisers: usize, delay: u32) -> bool {
    advisers > 0 && delay > 1
}

impl<'a, D: NumDomain> Inquiry<'a, D> {
    /// What is found by the candidate of a countdown program, and of any other program or formula by proposals.
    fn found(
        &self,
        search: &mut Search,
        advisers: &mut Vec<Box<dyn Adviser>>,
    ) -> Result<Tops, AllocError>
        requires inquiry { IsInquiry D.NumDomain.own self.now }
        requires patient { All (λ adviser. asked_of adviser ≤ 2 ^ 32) advisers.old.items }
        ensures certified { IfOk result (λ found. Certifies (length self.now.premises.now.graph.now.names)
            (statements self.now.premises.now.graph.now.body) (told_on D.NumDomain.own self.now.premises.now) (ctl self.now.formula.now)
            (all_of self.now.smaller.now) found.tops.items) }
        ensures covers { IfOk result (λ found. Covers None (at_entry (statements self.now.premises.now.graph.now.body) found.tops.items)
            (option_map plan_of found.cover)) }
        ensures exact { IfOk result (λ found. CoversExactly self.now found.tops.items (option_map plan_of found.cover)) }
        ensures numbers { IsLoopless (statements self.now.premises.now.graph.now.body) → HasNoNegation (ctl self.now.formula.now)
            → IsWithin (length self.now.premises.now.graph.now.names) (statements self.now.premises.now.graph.now.body) (ctl self.now.formula.now)
            → IfOk result (λ found. All (HasRowsWithin (ctl_growth (statements self.now.premises.now.graph.now.body) (ctl self.now.formula.now)))
            found.tops.items) }
        ensures turns { IsAdvised (ctl self.now.formula.now) → IfOk result (λ found.
            IsWhole (claims_of (option_map plan_of found.cover)) ⊎ (found.turns ≡ 8)) }
        ensures unadvised { (IsAdvised (ctl self.now.formula.now) → ⊥) → IfOk result (λ found. found.turns ≡ 0) }
        ensures asked { AreAskedAlike (λ adviser. asked_of adviser) advisers.old.items advisers.new.items (λ times. IfOk result (λ found. found.turns ≡ times)) }
        ensures countdown { ctl self.now.formula.now ≡ af_exit → IsCountdown (statements self.now.premises.now.graph.now.body)
            → IfOk result (λ found. IsWhole (claims_of (option_map plan_of found.cover))) }
        ensures unasked { ctl self.now.formula.now ≡ af_exit → IsCountdown (statements self.now.premises.now.graph.now.body)
            → IfOk result (λ found. found.turns ≡ 0) }
        ensures loopless { ctl self.now.formula.now ≡ af_exit → HasNoLoop (statements self.now.premises.now.graph.now.body)
            → IfOk result (λ found. rank_of (claims_of (option_map plan_of found.cover))
            ≡ Some (ranked (constant_of (pos (last_steps (statements self.now.premises.now.graph.now.body)))))) }
        ensures ways { ctl self.now.formula.now ≡ af_exit → IsCountdown (statements self.now.premises.now.graph.now.body)
            → HasSmallFactors (statements self.now.premises.now.graph.now.body)
            → IfOk result (λ found. SmallWaysFit (claims_of (option_map plan_of found.cover))) }
    {
        match self.candidate()? {
            Some(family) => Ok(self.counted(family)?),
            None => Ok(self.sought(search, advisers)?),
        }
    }

    /// The candidate of a countdown program where the formula is `AF exit`.
    fn candidate(&self) -> Result<Option<Family<AffineRank>>, AllocError>
        requires inquiry { IsInquiry D.NumDomain.own self.now }
        ensures formula { IfOk result (λ found. IfSome found (λ family. ctl self.now.formula.now ≡ af_exit)) }
        ensures candidate { IfOk result (λ found. IfSome found (λ family.
            IsCandidate family.trees (statements self.now.premises.now.graph.now.body))) }
        ensures labels { IfOk result (λ found. IfSome found (λ family. length family.trees ≡ self.now.premises.now.labels)) }
        ensures entry { IfOk result (λ found. IfSome found (λ family.
            IsWhole (trees_in family.trees (entry_of (statements self.now.premises.now.graph.now.body))))) }
        ensures none { IfOk result (λ found. IfNone found (ctl self.now.formula.now ≡ af_exit
            → IsCountdown (statements self.now.premises.now.graph.now.body) → ⊥)) }
    {
        if is_af_exit(self.formula) {
            let found = candidate(self.premises.alloc, self.premises.graph)?;
            Ok(found)
        } else {
            Ok(None)
        }
    }

    /// What the check leaves of a candidate: all of it.
    fn counted(&self, family: Family<AffineRank>) -> Result<Tops, AllocError>
        requires inquiry { IsInquiry D.NumDomain.own self.now }
        requires formula { ctl self.now.formula.now ≡ af_exit }
        requires candidate { IsCandidate family.trees (statements self.now.premises.now.graph.now.body) }
        requires labels { length family.trees ≡ self.now.premises.now.labels }
        requires entry { IsWhole (trees_in family.trees (entry_of (statements self.now.premises.now.graph.now.body))) }
        ensures found { IfOk result (λ found. AreFoundSoFar D.NumDomain.own self.now found.tops.items (option_map plan_of found.cover)) }
        ensures some { IfOk result (λ found. 0 < length found.tops.items) }
        ensures turns { IfOk result (λ found. found.turns ≡ 0) }
        ensures whole { IfOk result (λ found. IsWhole (claims_of (option_map plan_of found.cover))) }
        ensures numbers { HasNoLoop (statements self.now.premises.now.graph.now.body) → IfOk result (λ found. All (HasRowsWithin 0) found.tops.items) }
        ensures loopless { HasNoLoop (statements self.now.premises.now.graph.now.body) → IfOk result (λ found.
            rank_of (claims_of (option_map plan_of found.cover))
            ≡ Some (ranked (constant_of (pos (last_steps (statements self.now.premises.now.graph.now.body)))))) }
        ensures ways { HasSmallFactors (statements self.now.premises.now.graph.now.body) → IfOk result (λ found.
            SmallWaysFit (claims_of (option_map plan_of found.cover))) }
    {
        candidates_are_kept();
        candidates_are_over_the_variables();
        loopless_candidates_promise_the_most_steps();
        ways_through_small_candidates_fit();
        let family = self
            .premises
            .checked(self.formula, self.smaller, family.trees)?;
        let mut found = Tops::none(self.premises.alloc);
        self.keep(family, &mut found)?;
        Ok(found)
    }
}

/// Whether the formula is `AF exit`.
pub fn is_af_exit(formula: &Formula) -> bool
    ensures { IsTrue result ↔ (ctl formula.now ≡ af_exit) }
{
    match formula {
        Formula::Until {
            all: true,
            keep,
            goal,
        } => is_truth(keep) && is_exit(goal),
        _ => false,
    }
}

/// Whether it is the truth.
fn is_truth(formula: &Formula) -> bool
    ensures { IsTrue result ↔ (ctl formula.now ≡ truth) }
{
    matches!(formula, Formula::True)
}

/// Whether it is `exit`.
fn is_exit(formula: &Formula) -> bool
    ensures { IsTrue result ↔ (ctl formula.now ≡ exit) }
{
    matches!(formula, Formula::Exit)
}
