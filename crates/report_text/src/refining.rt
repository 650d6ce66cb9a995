//! Lines of which nothing is claimed, and what a tree of ordinal ranks claims at their stores.
ghost use Rattle.std.specs.Prelude.{◌≡◌, ℤ, List, false, IfOk, OnOk};
ghost use Rattle.linear_cons.specs.declared.row.Row.{Row};
ghost use Rattle.decision_tree.specs.Evaluation.{eval};
ghost use Rattle.decision_tree.specs.Extent.{ComplementsFit};
ghost use Rattle.decision_tree.specs.Plans.{is_defined, plan_of};
ghost use Rattle.report_text.specs.Ranked.{AreRefined, IsTrimmedBy};
ghost use Rattle.report_text.specs.Walk.{IsRefinedOnto};

use crate::leaves::add_lines;
use crate::line::{Line, Top};
use crate::line_list::Lines;
use decision_tree::{Trail, Tree};
use line_text::Claim;
use linear_cons::{Row, Rows};
use ordinal_rank::OrdinalRank;
use std::alloc::{AllocError, Global};
use tree_unify::{TreeFault, trim};

/// What stands for lines of which nothing is claimed, by a tree of ordinal ranks. The tree is trimmed by the rows of each; where it makes
/// a claim then, the lines of its leaves stand behind these rows, an undefined leaf's without a claim, and else the line stays. The
/// only error is want of memory.
pub fn refined(
    alloc: Global,
    unclaimed: &Lines,
    ranked: &Tree<OrdinalRank>,
) -> Result<Lines, AllocError>
    requires { ComplementsFit (plan_of ranked.now) }
    ensures { IfOk result (λ lines. AreRefined (plan_of ranked.now) unclaimed.now lines) }
{
    let mut lines = Vec::new(alloc);
    for line in unclaimed.items() {
        refine(alloc, line, ranked, &mut lines)?;
    }
    Ok(Lines::of(lines))
}

/// Appends what stands for the line.
fn refine(
    alloc: Global,
    line: &Line,
    ranked: &Tree<OrdinalRank>,
    lines: &mut Vec<Line>,
) -> Result<(), AllocError>
    requires { ComplementsFit (plan_of ranked.now) }
    ensures { OnOk result (IsRefinedOnto (plan_of ranked.now) line.now lines.old.items lines.new.items) }
{
    match trim(alloc, ranked, line.rows.items()) {
        Ok(tree) => refine_by(alloc, line, ranked, &tree, lines),
        Err(TreeFault::Memory(error)) => Err(error),
        // It doesn't come: trimming makes no tree larger, and the complements fit.
        Err(_) => refine_by(alloc, line, ranked, ranked, lines),
    }
}

/// Appends what stands for the line, by the tree that is trimmed by its rows.
fn refine_by(
    alloc: Global,
    line: &Line,
    ranked: &Tree<OrdinalRank>,
    tree: &Tree<OrdinalRank>,
    lines: &mut Vec<Line>,
) -> Result<(), AllocError>
    requires trimmed { IsTrimmedBy line.now.rows (plan_of ranked.now) (plan_of tree.now) }
    requires fits { ComplementsFit (plan_of ranked.now) }
    ensures { OnOk result (IsRefinedOnto (plan_of ranked.now) line.now lines.old.items lines.new.items) }
{
    if !makes_claims(tree) {
        let rows = Rows::of(line.rows.items().to_vec(alloc)?);
        let claim = Claim::Unknown;
        lines.push(Line { rows, claim })?;
        return Ok(());
    }
    let mut trail = trail_of(alloc, line.rows.items())?;
    add_lines(alloc, tree, &Top::Bound, &mut trail, lines)
}

/// False only where the tree makes no claim at any store.
fn makes_claims(tree: &Tree<OrdinalRank>) -> bool
    ensures { result ≡ false → (store : List ℤ) → is_defined (eval (plan_of tree.now) store) ≡ false }
{
    match tree {
        Tree::Bottom | Tree::Top(_) => false,
        Tree::Leaf { .. } => true,
        Tree::Node { row: _, yes, no } => makes_claims(yes) || makes_claims(no),
    }
}

/// The walk down the rows.
pub(crate) fn trail_of(alloc: Global, rows: &[Row]) -> Result<Trail, AllocError>
    ensures { IfOk result (λ trail. trail ≡ rows.now) }
{
    let mut trail = Trail::new(alloc);
    for row in rows {
        trail.down(row)?;
    }
    Ok(trail)
}
