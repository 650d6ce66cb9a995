//! The lines of a tree that tells where runs fit 32 bits.
ghost use Rattle.std.specs.Prelude.{◌≡◌, ◌<◌, ◌≤◌, ℤ, List, true, IfOk, OnOk, pos, ◌≤ℤ◌};
ghost use Rattle.linear_cons.specs.Functions.{value_at};
ghost use Rattle.linear_cons.specs.Numbers.{number_at};
ghost use Rattle.linear_cons.specs.Rows.{MeetsAll};
ghost use Rattle.decision_tree.specs.Extent.{ComplementsFit};
ghost use Rattle.decision_tree.specs.Plans.{leaf, plan_of};
ghost use Rattle.decision_tree.specs.declared.affine_rank.AffineRank.{AffineRank};
ghost use Rattle.decision_tree.specs.declared.reason.Why.{Why};
ghost use Rattle.int_fit.specs.Fitting.{AreInts, FitsInt};
ghost use Rattle.report_text.specs.Fitting.{AreFitLines, AreLeft, IsAddedIfMet, IsMadeOf, ListsFit, plain};

use crate::leaves::{condition, lines};
use crate::line::{Line, Top};
use crate::line_list::Lines;
use crate::refining::trail_of;
use decision_tree::{AffineRank, Tree, Why};
use integer_point::has_no_store;
use linear_cons::{Affine, Row, RowKind, Rows, Wide};
use std::alloc::{AllocError, Global};
use tree_unify::laws::trimming_keeps_the_leaves_on_the_path;
use tree_unify::{TreeFault, trim};

/// The lines of a tree that is defined where runs fit, of a program with so many variables: those of its defined leaves, and those of its undefined ones
/// that an input of 32-bit numbers may meet. Neighbouring leaves that claim alike make one line. The only error is want of memory.
pub fn fit_lines(
    alloc: Global,
    tree: Tree<AffineRank>,
    vars: u8,
) -> Result<(Lines, Lines), AllocError>
    requires few { vars ≤ 16 }
    requires complements { ComplementsFit (plan_of tree) }
    ensures { IfOk result (λ parts. AreFitLines vars (plan_of tree) parts.0 parts.1) }
{
    let merged = merged(alloc, tree)?;
    let parts = listed(alloc, &merged, vars)?;
    Ok(parts)
}

/// The tree with one and the same claim in place of each, and leaves that then claim alike made one.
fn merged(alloc: Global, tree: Tree<AffineRank>) -> Result<Tree<AffineRank>, AllocError>
    requires { ComplementsFit (plan_of tree) }
    ensures made { IfOk result (λ made. IsMadeOf (plan_of made) (plan_of tree)) }
    ensures complements { IfOk result (λ made. ComplementsFit (plan_of made)) }
{
    trimming_keeps_the_leaves_on_the_path::<AffineRank>();
    let mut tree = tree;
    make_plain(alloc, &mut tree)?;
    match trim(alloc, &tree, &[]) {
        Ok(trimmed) => Ok(trimmed),
        Err(TreeFault::Memory(error)) => Err(error),
        // It doesn't come: trimming makes no tree larger, and the complements fit.
        Err(_) => Ok(tree),
    }
}

/// The lines of the tree as it stands.
fn listed(alloc: Global, tree: &Tree<AffineRank>, vars: u8) -> Result<(Lines, Lines), AllocError>
    requires few { vars ≤ 16 }
    requires complements { ComplementsFit (plan_of tree.now) }
    ensures { IfOk result (λ parts. ListsFit vars (plan_of tree.now) parts.0 parts.1) }
{
    let (fits, open) = lines(alloc, tree, Top::Fits)?.parted(alloc)?;
    let unknown = left(alloc, &open, vars)?;
    Ok((fits, unknown))
}

/// Puts one and the same claim in place of each, and takes the causes away where nothing is claimed.
fn make_plain(alloc: Global, tree: &mut Tree<AffineRank>) -> Result<(), AllocError>
    ensures { OnOk result (plan_of tree.new ≡ plain (plan_of tree.old)) }
{
    match tree {
        Tree::Bottom => Ok(()),
        Tree::Top(_) => {
            *tree = Tree::Bottom;
            Ok(())
        }
        Tree::Leaf { .. } => {
            become_plain(alloc, tree)?;
            Ok(())
        }
        Tree::Node { row: _, yes, no } => {
            make_plain(alloc, yes)?;
            make_plain(alloc, no)
        }
    }
}

/// Puts the claim in place of another.
#[inline(never)]
fn become_plain(alloc: Global, tree: &mut Tree<AffineRank>) -> Result<(), AllocError>
    ensures { OnOk result ((why : Why) (rank : AffineRank) → plan_of tree.new ≡ plain (leaf why rank)) }
{
    let rank = AffineRank {
        value: Affine::constant(0),
    };
    *tree = Tree::claim(alloc, &Why::Atom, &rank)?;
    Ok(())
}

/// Of the lines those that an input of 32-bit numbers may meet.
fn left(alloc: Global, lines: &Lines, vars: u8) -> Result<Lines, AllocError>
    requires { vars ≤ 16 }
    ensures { IfOk result (AreLeft vars lines.now) }
{
    let ranges = ranges(alloc, vars)?;
    let mut left = Vec::new(alloc);
    for line in lines.items() {
        add_if_met(alloc, line, &ranges, &mut left)?;
    }
    Ok(Lines::of(left))
}

/// Appends the line, if a store may meet its rows and the ranges.
fn add_if_met(
    alloc: Global,
    line: &Line,
    ranges: &[Row],
    left: &mut Vec<Line>,
) -> Result<(), AllocError>
    ensures { OnOk result (IsAddedIfMet line.now ranges.now left.old.items left.new.items) }
{
    if is_met_nowhere(alloc, line.rows.items(), ranges)? {
        return Ok(());
    }
    let rows = Rows::of(line.rows.items().to_vec(alloc)?);
    let claim = line.claim;
    left.push(Line { rows, claim })?;
    Ok(())
}

/// True only where no store meets all these rows and those.
fn is_met_nowhere(alloc: Global, rows: &[Row], ranges: &[Row]) -> Result<bool, AllocError>
    ensures { IfOk result (λ nowhere. nowhere ≡ true → (store : List ℤ) → MeetsAll store rows.now → ¬ MeetsAll store ranges.now) }
{
    let mut trail = trail_of(alloc, rows)?;
    for row in ranges {
        trail.down(row)?;
    }
    let tightest = condition(alloc, &trail)?;
    let nowhere = has_no_store(alloc, tightest.items())?;
    Ok(nowhere)
}

/// Rows that a store meets whose first variables are numbers of 32 bits.
fn ranges(alloc: Global, vars: u8) -> Result<Vec<Row>, AllocError>
    requires { vars ≤ 16 }
    ensures { IfOk result (λ rows. (store : List ℤ) → AreInts vars store → MeetsAll store rows.items) }
{
    let mut rows = Vec::new(alloc);
    for place in 0..vars {
        add_range(place, &mut rows)?;
    }
    Ok(rows)
}

/// Adds the rows that a store meets whose variable at the place is such a number.
fn add_range(place: u8, rows: &mut Vec<Row>) -> Result<(), AllocError>
    requires { place < 16 }
    ensures { OnOk result ((store : List ℤ) → FitsInt (number_at store place) → MeetsAll store rows.old.items → MeetsAll store rows.new.items) }
{
    let variable = Affine::var(place);
    add_row(variable.plus(2_147_483_648), rows)?;
    add_row(Affine::constant(2_147_483_647).sub(&variable), rows)?;
    Ok(())
}

/// Adds the row that the function is at least 0, if there is one.
fn add_row(function: Result<Affine, Wide>, rows: &mut Vec<Row>) -> Result<(), AllocError>
    ensures { OnOk result ((store : List ℤ) → IfOk function (λ a. pos 0 ≤ℤ value_at a store) → MeetsAll store rows.old.items
        → MeetsAll store rows.new.items) }
{
    let Ok(function) = function else {
        return Ok(());
    };
    if let RowKind::Row(row) = Row::of(function) {
        rows.push(row)?;
    }
    Ok(())
}
