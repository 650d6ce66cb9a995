//! The lines of a tree's leaves, and those behind a line of which nothing is claimed.
ghost use Rattle.std.specs.Prelude.{◌≡◌, List, [], ◌∷◌, ◌++◌, IfOk, OnOk};
ghost use Rattle.linear_cons.specs.Functions.{NumbersFit, complement_of};
ghost use Rattle.linear_cons.specs.Tightest.{AreTightest};
ghost use Rattle.decision_tree.specs.Plans.{plan_of};
ghost use Rattle.report_text.specs.declared.line.Top.{Top};
ghost use Rattle.report_text.specs.Leaves.{AreLinesOf, HasConstantRanks, claim_of, leaves_below};
ghost use Rattle.decision_tree.specs.Extent.{ComplementsFit};
ghost use Rattle.report_text.specs.Walk.{AreAdded};
ghost use Rattle.decision_tree.specs.Trails.{IsTurned};
ghost use Rattle.line_text.specs.LineText.{functions_of};
ghost use Rattle.line_text.specs.declared.claim.Claim.TheVariants.{Unknown as Unclaimed};
ghost use Rattle.linear_cons.specs.declared.row.Row.{Row};

use crate::claims::Claims;
use crate::line::{Line, Top};
use crate::line_list::Lines;
use decision_tree::{AffineRank, PathFault, Shared, Trail, Tree};
use integer_point::has_no_store;
use line_text::Claim;
use linear_cons::{Row, Rows};
use std::alloc::{AllocError, Global};

/// One line for each leaf of the tree whose condition isn't seen to have no store, in the order of
/// the leaves. The condition is the tightest rows of the leaf's path. A defined leaf claims
/// what `top` says, an undefined one nothing. The only error is want of memory.
pub fn lines(alloc: Global, tree: &Tree<AffineRank>, top: Top) -> Result<Lines, AllocError>
    requires fits { ComplementsFit (plan_of tree.now) }
    requires constants { top ≡ Top.Exact → HasConstantRanks (plan_of tree.now) }
    ensures { IfOk result (λ lines. AreLinesOf top (plan_of tree.now) lines) }
{
    let mut trail = Trail::new(alloc);
    let mut added = Vec::new(alloc);
    add_lines(alloc, tree, &top, &mut trail, &mut added)?;
    Ok(Lines::of(added))
}

// The recursion holds references alone, and each row and line is made in a call of its own: so a
// level takes a few words of stack.
/// Appends the lines of the tree's leaves behind the rows of the trail, and comes back to where it was.
pub(crate) fn add_lines<R: Claims>(
    alloc: Global,
    tree: &Tree<R>,
    top: &Top,
    trail: &mut Trail,
    lines: &mut Vec<Line>,
) -> Result<(), AllocError>
    requires { ComplementsFit (plan_of tree.now) }
    ensures trail { OnOk result (trail.new ≡ trail.old) }
    ensures added { OnOk result (AreAdded (leaves_below (R.claim_of top.now) (functions_of trail.old) (plan_of tree.now))
        lines.old.items lines.new.items) }
{
    match tree {
        Tree::Bottom | Tree::Top(_) => add_undefined(alloc, trail, lines),
        Tree::Leaf { why: _, rank } => add_defined(alloc, trail, rank, top, lines),
        Tree::Node { row, yes, no } => {
            down(trail, row)?;
            add_lines(alloc, yes, top, trail, lines)?;
            turn(trail)?;
            add_lines(alloc, no, top, trail, lines)?;
            trail.up();
            Ok(())
        }
    }
}

/// Goes down to the yes side of a node with the row.
#[inline(never)]
fn down(trail: &mut Trail, row: &Shared<Row>) -> Result<(), AllocError>
    ensures down { OnOk result (trail.new ≡ trail.old ++ row.now ∷ []) }
{
    trail.down(row)?;
    Ok(())
}

/// Goes over to the no side of the last node, where the complement of its row fits.
#[inline(never)]
fn turn(trail: &mut Trail) -> Result<(), AllocError>
    requires { (front : List Row) (row : Row) → trail.old ≡ front ++ row ∷ [] → NumbersFit (complement_of row.affine) }
    ensures { OnOk result (IsTurned trail.old trail.new) }
{
    match trail.turn() {
        Ok(()) => Ok(()),
        Err(PathFault::Memory(error)) => Err(error),
        // It doesn't come: the complement fits.
        Err(PathFault::Wide(_)) => Ok(()),
    }
}

/// Appends the line of a defined leaf, where its condition may have stores.
#[inline(never)]
fn add_defined<R: Claims>(
    alloc: Global,
    trail: &Trail,
    rank: &Shared<R>,
    top: &Top,
    lines: &mut Vec<Line>,
) -> Result<(), AllocError>
    ensures { OnOk result (AreAdded ((functions_of trail.now, R.claim_of top.now rank.now) ∷ []) lines.old.items lines.new.items) }
{
    add_line(alloc, trail, rank.claim(top), lines)
}

/// Appends the line of an undefined leaf, where its condition may have stores.
#[inline(never)]
fn add_undefined(alloc: Global, trail: &Trail, lines: &mut Vec<Line>) -> Result<(), AllocError>
    ensures { OnOk result (AreAdded ((functions_of trail.now, Unclaimed) ∷ []) lines.old.items lines.new.items) }
{
    add_line(alloc, trail, Claim::Unknown, lines)
}

/// Appends the line with the claim and the tightest rows of the way, where they may have stores.
fn add_line(
    alloc: Global,
    trail: &Trail,
    claim: Claim,
    lines: &mut Vec<Line>,
) -> Result<(), AllocError>
    ensures { OnOk result (AreAdded ((functions_of trail.now, claim) ∷ []) lines.old.items lines.new.items) }
{
    let rows = condition(alloc, trail)?;
    if has_no_store(alloc, rows.items())? {
        return Ok(());
    }
    lines.push(Line { rows, claim })?;
    Ok(())
}

/// The tightest rows of the way.
pub(crate) fn condition(alloc: Global, trail: &Trail) -> Result<Rows, AllocError>
    ensures { IfOk result (λ rows. AreTightest (functions_of trail.now) rows) }
{
    let rows = trail.rows().to_vec(alloc)?;
    Ok(Rows::of(rows))
}
