//! The leaf of the greater rank.
ghost use Rattle.std.specs.Prelude.{◌≡◌, ◌+◌, ◌<◌, Err, IfOk, OnOk, drop, length};
ghost use Rattle.linear_cons.specs.Exact.{IsOutside};
ghost use Rattle.linear_cons.specs.declared.exact.Wide.{Wide};
ghost use Rattle.decision_tree.specs.Alternatives.{Alternatives, part_at, rows_of};
ghost use Rattle.decision_tree.specs.Plans.{plan_of};
ghost use Rattle.decision_tree.specs.declared.path.PathFault.TheVariants.{Wide as TooWide};
ghost use Rattle.tree_unify.specs.Choosing.{ChosenFits, all_asked, any_asked, chosen, only_row};

use decision_tree::{Comparison, PathFault, Rank, Tree};
use linear_cons::{Row, RowKind};
use std::alloc::{AllocError, Global};

/// The greater leaf where the next rank exceeds the other, else the other leaf, as a tree. `Wide` comes exactly
/// where a number of the comparison lies outside `i128`, or where that is one row alone whose complement has such a number.
pub(crate) fn choose<R: Rank>(
    alloc: Global,
    next: &R,
    rank: &R,
    greater: &Tree<R>,
    other: &Tree<R>,
) -> Result<Box<Tree<R>>, PathFault>
    ensures tree { IfOk result (λ tree. plan_of tree.value
        ≡ chosen R.eq (R.where_greater next.now rank.now) (plan_of greater.now) (plan_of other.now)) }
    ensures told { OnOk result (R.greater_fits next.now rank.now) }
    ensures fits { OnOk result (ChosenFits (R.where_greater next.now rank.now)) }
    ensures wide { (w : Wide) → result ≡ Err (TooWide w) → R.greater_fits next.now rank.now
        → ChosenFits (R.where_greater next.now rank.now) → ⊥ }
    ensures operands { (w : Wide) → result ≡ Err (TooWide w) → IsOutside w }
{
    let first = next.greater(rank, 0)?;
    let Some(row) = only_row::<R>(&first) else {
        let tree = ask_from(alloc, next, rank, 0, &first, greater, other)?;
        return Ok(tree);
    };
    let complement = row.not()?;
    let yes = other.boxed(alloc)?;
    let no = greater.boxed(alloc)?;
    let tree = Tree::boxed_node(alloc, &complement, yes, no)?;
    Ok(tree)
}

/// The row of the first part, where there is no other part and it is a row.
fn only_row<R: Rank>(first: &Comparison) -> Option<Row>
    ensures { (alternatives : Alternatives) → length alternatives ≡ R.PARTS → first.now ≡ part_at alternatives 0 → result ≡ only_row alternatives }
{
    match first.more {
        RowKind::Row(row) if R::PARTS == 1 => Some(row),
        _ => None,
    }
}

/// The alternatives asked from that with the number on, whose part is known: the one tree where one of them holds, else the other.
#[cycle(asking)]
fn ask_from<R: Rank>(
    alloc: Global,
    next: &R,
    rank: &R,
    number: u8,
    part: &Comparison,
    met: &Tree<R>,
    other: &Tree<R>,
) -> Result<Box<Tree<R>>, AllocError>
    requires told { R.greater_fits next.now rank.now }
    requires number { number < R.PARTS }
    requires part { part.now ≡ part_at (R.where_greater next.now rank.now) number }
    ensures { IfOk result (λ tree. plan_of tree.value
        ≡ any_asked R.eq (drop number (R.where_greater next.now rank.now)) (plan_of met.now) (plan_of other.now)) }
{
    match &part.more {
        RowKind::Always => met.boxed(alloc),
        RowKind::Never => ask_behind(alloc, next, rank, number, part, met, other),
        RowKind::Row(row) => {
            let yes = met.boxed(alloc)?;
            let no = ask_behind(alloc, next, rank, number, part, met, other)?;
            Tree::boxed_node(alloc, row, yes, no)
        }
    }
}

/// What is asked where the part with the number doesn't tell: the next ones where it is left, else the other tree.
#[cycle(asking)]
fn ask_behind<R: Rank>(
    alloc: Global,
    next: &R,
    rank: &R,
    number: u8,
    part: &Comparison,
    met: &Tree<R>,
    other: &Tree<R>,
) -> Result<Box<Tree<R>>, AllocError>
    requires told { R.greater_fits next.now rank.now }
    requires number { number < R.PARTS }
    requires part { part.now ≡ part_at (R.where_greater next.now rank.now) number }
    ensures { IfOk result (λ tree. plan_of tree.value
        ≡ all_asked R.eq (rows_of part.now.same) (any_asked R.eq (drop (number + 1) (R.where_greater next.now rank.now)) (plan_of met.now) (plan_of other.now))
        (plan_of other.now)) }
{
    let rest = ask_next(alloc, next, rank, number, met, other)?;
    match &part.same {
        Some(same) => ask_all(alloc, same, rest, other),
        None => Ok(rest),
    }
}

/// The alternatives asked behind that with the number: the one tree where one of them holds, else the other.
#[cycle(asking)]
fn ask_next<R: Rank>(
    alloc: Global,
    next: &R,
    rank: &R,
    number: u8,
    met: &Tree<R>,
    other: &Tree<R>,
) -> Result<Box<Tree<R>>, AllocError>
    requires told { R.greater_fits next.now rank.now }
    requires number { number < R.PARTS }
    ensures { IfOk result (λ tree. plan_of tree.value
        ≡ any_asked R.eq (drop (number + 1) (R.where_greater next.now rank.now)) (plan_of met.now) (plan_of other.now)) }
{
    let parts = R::PARTS;
    let after = number + 1;
    if after == parts {
        return other.boxed(alloc);
    }
    let Ok(told) = next.greater(rank, after) else {
        return other.boxed(alloc);
    };
    ask_from(alloc, next, rank, after, &told, met, other)
}

/// The constraints asked one by one: the one tree where all hold, else the other.
fn ask_all<R: Rank>(
    alloc: Global,
    kinds: &[RowKind],
    met: Box<Tree<R>>,
    other: &Tree<R>,
) -> Result<Box<Tree<R>>, AllocError>
    ensures { IfOk result (λ tree. plan_of tree.value ≡ all_asked R.eq kinds.now (plan_of met.value) (plan_of other.now)) }
{
    let Some((first, rest)) = kinds.split_first() else {
        return Ok(met);
    };
    match first {
        RowKind::Always => ask_all(alloc, rest, met, other),
        RowKind::Never => other.boxed(alloc),
        RowKind::Row(row) => {
            let yes = ask_all(alloc, rest, met, other)?;
            let no = other.boxed(alloc)?;
            Tree::boxed_node(alloc, row, yes, no)
        }
    }
}
