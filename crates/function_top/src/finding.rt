//! From a program and a formula to what is found of them.

ghost use Rattle.std.specs.Prelude.{◌≡◌, ◌≤◌, ◌^◌, ◌⊎◌, ◌↔◌, Bool, All, IfOk, IsSome, IsTrue, Some, length, ℕ, List};
ghost use Rattle.step_meaning.specs.Syntax.{statements};
ghost use Rattle.ctl_formula.specs.Formulas.{Ctl, normal, until};
ghost use Rattle.ctl_formula.specs.Mirror.{ctl};
ghost use Rattle.decision_tree.specs.Extent.{IsWhole};
ghost use Rattle.decision_tree.specs.declared.affine_rank.AffineRank.{AffineRank};
ghost use Rattle.decision_tree.specs.Plans.{Plan, bottom, plan_of};
ghost use Rattle.control_flow.specs.Invariants.{AreInvariants};
ghost use Rattle.ordinal_rank.specs.Families.{BoundsEnds, IsFit};
ghost use Rattle.control_flow.specs.Told.{told_by};
ghost use Rattle.ctl_rounds.specs.Asked.{AreAskedAlike, IsAdvised};
ghost use Rattle.ctl_rounds.specs.Certified.{Certifies};
ghost use Rattle.ctl_rounds.specs.Covers.{IsCover};
ghost use Rattle.normal_form.specs.Operators.{HasNoNegation};
ghost use Rattle.normal_form.specs.Rows.{RowsAreOver};
ghost use Rattle.exact_families.specs.Completeness.{IsLoopless};
ghost use Rattle.formula_measures.specs.Measures.{ctl_growth};
ghost use Rattle.ctl_rounds.specs.Bounds.{CoversInputs, FindsInputs, SatisfiesInputs, SatisfiesWithin};
ghost use Rattle.part_families.specs.Families.{IsWithin};
ghost use Rattle.function_top.specs.Found.{IsAdvisedFor, IsExactPart, IsFound, IsStrongCover, claims_for};
ghost use Rattle.command_words.specs.Order.{task_of};
ghost use Rattle.function_top.specs.Printable.{IsExactPrintable, IsFoundPrintable, IsPrintable};
ghost use Rattle.function_top.specs.Subject.{subject_of};

use crate::exact::exactly;
use crate::found::{Exact, Found};
use advice::Adviser;
use command_words::Query;
use control_flow::Graph;
use ctl_formula::{Formula, normal_forms_mean_the_same};
use ctl_rounds::laws::{covers_can_be_printed, covers_hold};
use ctl_rounds::{Certificate, analyse, cover, synthesises};
use decision_tree::{AffineRank, Tree};
use forward_inv::{Inv, invariants};
use num_domain::NumDomain;
use ordinal_rank::{OrdinalRank, ranked};
use report_text::Top;
use split_rounds::refine;
use std::alloc::{AllocError, Global};
use tree_support::laws::invariants_tell_the_truth;

/// What is found of a program with its graph and of a formula in normal form over its variables, over one kind of sets, by what is asked. The only
/// error is want of memory; the advisers may have been asked by then.
pub(crate) fn find<D: NumDomain>(
    alloc: Global,
    query: &Query,
    formula: &Formula,
    graph: &Graph,
    advisers: &mut Vec<Box<dyn Adviser>>,
) -> Result<Found, AllocError>
    requires over { RowsAreOver (length graph.now.names) (ctl formula.now) }
    requires patient { All (λ adviser. asked_of adviser ≤ 2 ^ 32) advisers.old.items }
    ensures finds { IfOk result (λ found. (own : List (List ℕ)) (meant : Ctl) → ctl formula.now ≡ normal meant
        → IsFound (task_of query.now) (subject_of graph.now own meant) found) }
    ensures printable { IfOk result (λ found. IsFoundPrintable (length graph.now.names) found) }
    ensures asked { AreAskedAlike (λ adviser. asked_of adviser) advisers.old.items advisers.new.items (λ times. IfOk result (λ found. found.turns ≡ times)) }
{
    normal_forms_mean_the_same();
    let exact = exact_part(alloc, query, graph)?;
    let (cover, turns, families, ranked) = covered::<D>(alloc, query, formula, graph, advisers)?;
    Ok(Found {
        exact,
        claims: claims_for(formula),
        cover,
        ranked,
        families,
        turns,
    })
}

/// What is known exactly of a program with its graph, where no formula is asked about.
fn exact_part(alloc: Global, query: &Query, graph: &Graph) -> Result<Exact, AllocError>
    ensures exact { IfOk result (λ exact. (own : List (List ℕ)) (meant : Ctl)
        → IsExactPart (task_of query.now).formula (subject_of graph.now own meant) query.now.delay exact) }
    ensures printable { IfOk result (λ exact. IsExactPrintable (length graph.now.names) exact) }
{
    match query.formula {
        Some(_) => Ok(Exact::Unasked),
        None => Ok(exactly(alloc, query.delay, graph)?),
    }
}

/// What is claimed of a formula in normal form.
fn claims_for(formula: &Formula) -> Top
    ensures { result ≡ claims_for (ctl formula.now) }
{
    match formula {
        Formula::Until { .. } => Top::Bound,
        _ => Top::Plain,
    }
}

/// The cover of a certificate of the formula, over one kind of sets, how often each adviser was asked for it, and how many families it was joined from;
/// and what ordinal ranks say of inputs that it leaves open.
fn covered<D: NumDomain>(
    alloc: Global,
    query: &Query,
    formula: &Formula,
    graph: &Graph,
    advisers: &mut Vec<Box<dyn Adviser>>,
) -> Result<(Tree<AffineRank>, u32, u32, Tree<OrdinalRank>), AllocError>
    requires patient { All (λ adviser. asked_of adviser ≤ 2 ^ 32) advisers.old.items }
    ensures satisfied { IfOk result (λ covered. SatisfiesInputs (length graph.now.names) (statements graph.now.body) (ctl formula.now)
        (plan_of covered.0)) }
    ensures bounded { (all : Bool) (keep goal : Ctl) → ctl formula.now ≡ until all keep goal → IfOk result (λ covered.
        SatisfiesWithin (length graph.now.names) (statements graph.now.body) (until all keep goal) (plan_of covered.0)) }
    ensures narrow { IsLoopless (statements graph.now.body) → HasNoNegation (ctl formula.now)
        → IsWithin (length graph.now.names) (statements graph.now.body) (ctl formula.now) → IfOk result (λ covered.
        CoversInputs (length graph.now.names) (statements graph.now.body) (ctl formula.now) (plan_of covered.0)) }
    ensures narrow_ways { IsLoopless (statements graph.now.body) → HasNoNegation (ctl formula.now)
        → IsWithin (length graph.now.names) (statements graph.now.body) (ctl formula.now) → ctl_growth (statements graph.now.body) (ctl formula.now) ≤ 2 ^ 60
        → IfOk result (λ covered. FindsInputs (length graph.now.names) (statements graph.now.body) (ctl formula.now) (plan_of covered.0)) }
    ensures printable { IfOk result (λ covered. IsPrintable (length graph.now.names) (plan_of covered.0)) }
    ensures ends { IfOk result (λ covered. BoundsEnds (length graph.now.names) (statements graph.now.body) (plan_of covered.3)) }
    ensures fit { IfOk result (λ covered. IsFit (length graph.now.names) (plan_of covered.3)) }
    ensures unranked { IfOk result (λ covered. IsSome (task_of query.now).formula ⊎ IsWhole (plan_of covered.0) → plan_of covered.3 ≡ bottom) }
    ensures asked { AreAskedAlike (λ adviser. asked_of adviser) advisers.old.items advisers.new.items (λ times. IfOk result (λ covered. covered.1 ≡ times)) }
    ensures advised { IfOk result (λ covered. IsAdvisedFor (ctl formula.now) (plan_of covered.0) covered.1) }
    ensures strong { IfOk result (λ covered. IsStrongCover (ctl formula.now) (statements graph.now.body) (plan_of covered.0)) }
{
    let inv: Inv<D> = invariants(alloc, graph)?;
    let certificate = certified(alloc, query, formula, graph, &inv, advisers)?;
    invariants_tell_the_truth::<D>();
    covers_hold();
    covers_can_be_printed();
    let cover = cover(alloc, &certificate, graph)?;
    let families = counted(certificate.tops.items().len());
    let may = synthesises(advisers.len(), query.delay);
    let ranked = ranked_beyond(alloc, query, graph, &inv, &cover, may)?;
    Ok((cover, certificate.turns, families, ranked))
}

/// A certificate of the formula, with the families that are added by splits where this is asked for.
fn certified<D: NumDomain>(
    alloc: Global,
    query: &Query,
    formula: &Formula,
    graph: &Graph,
    inv: &Inv<D>,
    advisers: &mut Vec<Box<dyn Adviser>>,
) -> Result<Certificate, AllocError>
    requires invariants { AreInvariants D.has (length graph.now.names) (statements graph.now.body) inv.now }
    requires patient { All (λ adviser. asked_of adviser ≤ 2 ^ 32) advisers.old.items }
    ensures certified { IfOk result (λ certificate. Certifies (length graph.now.names) (statements graph.now.body)
        (told_by D.told_bounds D.told_rows D.seen_empty inv.now) (ctl formula.now) certificate.parts certificate.tops) }
    ensures narrow { IsLoopless (statements graph.now.body) → HasNoNegation (ctl formula.now)
        → IsWithin (length graph.now.names) (statements graph.now.body) (ctl formula.now) → IfOk result (λ certificate. (cover : Plan AffineRank)
        → IsCover (statements graph.now.body) certificate.tops cover
        → CoversInputs (length graph.now.names) (statements graph.now.body) (ctl formula.now) cover) }
    ensures narrow_ways { IsLoopless (statements graph.now.body) → HasNoNegation (ctl formula.now)
        → IsWithin (length graph.now.names) (statements graph.now.body) (ctl formula.now) → ctl_growth (statements graph.now.body) (ctl formula.now) ≤ 2 ^ 60
        → IfOk result (λ certificate. (cover : Plan AffineRank) → IsCover (statements graph.now.body) certificate.tops cover
        → FindsInputs (length graph.now.names) (statements graph.now.body) (ctl formula.now) cover) }
    ensures asked { AreAskedAlike (λ adviser. asked_of adviser) advisers.old.items advisers.new.items (λ times. IfOk result (λ certificate. certificate.turns ≡ times)) }
    ensures turns { IsAdvised (ctl formula.now) → IfOk result (λ certificate. (cover : Plan AffineRank)
        → IsCover (statements graph.now.body) certificate.tops cover → IsWhole cover ⊎ (certificate.turns ≡ 8)) }
    ensures unadvised { (IsAdvised (ctl formula.now) → ⊥) → IfOk result (λ certificate. certificate.turns ≡ 0) }
    ensures strong { IfOk result (λ certificate. (cover : Plan AffineRank) → IsCover (statements graph.now.body) certificate.tops cover
        → IsStrongCover (ctl formula.now) (statements graph.now.body) cover) }
{
    let mut certificate = analyse(alloc, graph, inv, formula, advisers, query.delay)?;
    if !query.refine {
        return Ok(certificate);
    }
    refine(alloc, graph, inv, formula, &mut certificate)?;
    Ok(certificate)
}

/// The tree of ordinal ranks at the entry of the program, where no formula is asked about and the cover leaves some input open, and else one that makes no
/// claim.
fn ranked_beyond<D: NumDomain>(
    alloc: Global,
    query: &Query,
    graph: &Graph,
    inv: &Inv<D>,
    cover: &Tree<AffineRank>,
    synthesises: bool,
) -> Result<Tree<OrdinalRank>, AllocError>
    requires { AreInvariants D.has (length graph.now.names) (statements graph.now.body) inv.now }
    ensures ends { IfOk result (λ tree. BoundsEnds (length graph.now.names) (statements graph.now.body) (plan_of tree)) }
    ensures fit { IfOk result (λ tree. IsFit (length graph.now.names) (plan_of tree)) }
    ensures unranked { IfOk result (λ tree. IsSome (task_of query.now).formula ⊎ IsWhole (plan_of cover.now) → plan_of tree ≡ bottom) }
{
    if query.formula.is_some() || is_whole(cover) {
        return Ok(Tree::Bottom);
    }
    let tree = ranked(alloc, graph, inv, cover, query.delay, synthesises)?;
    Ok(tree)
}

/// Whether no leaf of the tree is undefined.
fn is_whole(tree: &Tree<AffineRank>) -> bool
    ensures { IsTrue result ↔ IsWhole (plan_of tree.now) }
{
    match tree {
        Tree::Bottom | Tree::Top(_) => false,
        Tree::Leaf { .. } => true,
        Tree::Node { row: _, yes, no } => is_whole(yes) && is_whole(no),
    }
}

/// A number of families; for more than the type has room for its last value stands.
fn counted(families: usize) -> u32 {
    match u32::try_from(families) {
        Ok(families) => families,
        Err(_) => u32::MAX,
    }
}
