//! The numbers of parts in tables that hold each part once.
ghost use Rattle.std.specs.Prelude.{◌≡◌, IfOk, OnErr};
ghost use Rattle.tree_arena.specs.Noting.{IsNoted, IsNotedWith};

use crate::node::{End, Entry, RowKey};
use decision_tree::Rank;
use indexmap::{IndexMap, IndexSet};
use std::alloc::AllocError;

/// The number of the row, which is noted where it wasn't.
#[inline(never)]
pub(crate) fn row_number(rows: &mut IndexSet<RowKey>, row: RowKey) -> Result<usize, AllocError>
    ensures noted { IfOk result (λ place. IsNoted rows.old.keys rows.new.keys row place) }
    ensures stays { OnErr result (rows.new.keys ≡ rows.old.keys) }
{
    if let Some(place) = rows.get_index_of(&row) {
        return Ok(place);
    }
    let (place, _) = rows.insert_full(row)?;
    Ok(place)
}

/// The number of the leaf, which is noted where it wasn't.
#[inline(never)]
pub(crate) fn end_number<R: Rank>(
    ends: &mut IndexSet<End<R>>,
    end: End<R>,
) -> Result<usize, AllocError>
    ensures noted { IfOk result (λ place. IsNoted ends.old.keys ends.new.keys end place) }
    ensures stays { OnErr result (ends.new.keys ≡ ends.old.keys) }
{
    if let Some(place) = ends.get_index_of(&end) {
        return Ok(place);
    }
    let (place, _) = ends.insert_full(end)?;
    Ok(place)
}

/// The place of the node, which is noted with the size where it wasn't.
#[inline(never)]
pub(crate) fn place_of(
    nodes: &mut IndexMap<Entry, u64>,
    entry: Entry,
    size: u64,
) -> Result<usize, AllocError>
    ensures noted { IfOk result (λ place. IsNotedWith nodes.old.entries nodes.new.entries entry size place) }
    ensures stays { OnErr result (nodes.new.entries ≡ nodes.old.entries) }
{
    if let Some(place) = nodes.get_index_of(&entry) {
        return Ok(place);
    }
    let (place, _) = nodes.insert_full(entry, size)?;
    Ok(place)
}
