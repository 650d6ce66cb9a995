//! Guesses at the sets with which the labels are reached, by sweeps along the edges. Nothing is said of them: what is kept of a guess is
//! shown to be so afterwards.
ghost use Rattle.std.specs.Prelude.{◌<◌, length};
ghost use Rattle.step_meaning.specs.Syntax.{statements};
ghost use Rattle.control_flow.specs.Labels.{all_labels};

use crate::transfer::flow;
use control_flow::{Edge, Graph, Transition};
use linear_cons::{Affine, Row, RowKind};
use num_domain::NumDomain;
use std::alloc::{AllocError, Global};

/// The most sweeps in which sets grow.
const GROWING: u32 = 14;

/// How many of them are made before loops are widened.
const PLAIN: u32 = 2;

/// The sweeps after a widening, in which sets shrink.
const SHRINKING: u32 = 2;

/// The sets that a sweep found, one for each label that it reached, and whether it left those of all loops as they were.
#[derive(Drop)]
struct Swept<D: NumDomain> {
    sets: Vec<Option<D>>,
    is_stable: bool,
}

/// A set for each label: a guess at the stores with which it is reached, and no store where no sweep reaches it. Where there are several
/// loops, what was lost by widening one of them while another one was still too large is found by sweeps that begin anew and go no further.
pub(crate) fn guesses<D: NumDomain>(alloc: Global, graph: &Graph) -> Result<Vec<D>, AllocError> {
    let ends = loop_ends(alloc, graph)?;
    let free: Vec<Option<D>> = Vec::new(alloc);
    let mut sets = found(alloc, graph, &ends, &free)?;
    if ends.iter().filter(|end| **end > 0).count() > 1 {
        let smaller = found(alloc, graph, &ends, &sets)?;
        sets = smaller;
    }
    filled(alloc, sets)
}

/// The sets that sweeps find: they grow until they are stable, and shrink again. A widened set keeps to the limit at its label.
fn found<D: NumDomain>(
    alloc: Global,
    graph: &Graph,
    ends: &[u32],
    limits: &[Option<D>],
) -> Result<Vec<Option<D>>, AllocError> {
    let mut sets: Vec<Option<D>> = unreached(alloc, graph)?;
    let mut shrinking = 0;
    for turn in 0..GROWING {
        let widens = turn >= PLAIN;
        let next = sweep(alloc, graph, ends, &sets, limits, widens)?;
        sets = next.sets;
        if next.is_stable {
            break;
        }
        if widens {
            shrinking = SHRINKING;
        }
    }
    for _ in 0..shrinking {
        let next = sweep(alloc, graph, ends, &sets, limits, false)?;
        sets = next.sets;
    }
    Ok(sets)
}

/// For each label the last one of the loop that it begins: an edge leads back from there. It is 0 where the label begins none.
fn loop_ends(alloc: Global, graph: &Graph) -> Result<Vec<u32>, AllocError> {
    let mut ends = Vec::with_capacity(alloc, graph.labels() as usize)?;
    for _ in 0..graph.labels() {
        ends.push(0)?;
    }
    for label in 0..graph.labels() {
        for edge in graph.edges(label) {
            if let Some(edge) = edge {
                if leads_back(&edge, label) {
                    if let Some(end) = ends.get_mut(edge.to as usize) {
                        *end = label;
                    }
                }
            }
        }
    }
    Ok(ends)
}

/// The label's edge leads to the label or one before it, but not to the end.
fn leads_back(edge: &Edge, label: u32) -> bool {
    0 < edge.to && edge.to <= label
}

/// No set for any label.
fn unreached<D: NumDomain>(alloc: Global, graph: &Graph) -> Result<Vec<Option<D>>, AllocError> {
    let mut sets = Vec::with_capacity(alloc, graph.labels() as usize)?;
    for _ in 0..graph.labels() {
        sets.push(None)?;
    }
    Ok(sets)
}

/// What flows into each label: every store into the entry, along edges that lead back from the old sets, and along the others from those of
/// this sweep, in the order of labels. On the way loops are widened, where that is asked, but for those in a loop that still grows.
fn sweep<D: NumDomain>(
    alloc: Global,
    graph: &Graph,
    ends: &[u32],
    old: &[Option<D>],
    limits: &[Option<D>],
    widens: bool,
) -> Result<Swept<D>, AllocError> {
    let mut sets = unreached(alloc, graph)?;
    pour(alloc, &mut sets, graph.entry(), D::top(alloc)?)?;
    for label in 0..graph.labels() {
        let flowed = flowed(alloc, graph, label, true, old)?;
        pour_all(alloc, &mut sets, flowed)?;
    }
    let mut grows_to = 0;
    for label in 0..graph.labels() {
        let end = match ends.get(label as usize) {
            Some(end) => *end,
            None => 0,
        };
        if end > 0 {
            let is_free = label > grows_to;
            let grows = grown(alloc, &mut sets, label, old, limits, widens && is_free)?;
            if grows && is_free {
                grows_to = end;
            }
        }
        let flowed = flowed(alloc, graph, label, false, &sets)?;
        pour_all(alloc, &mut sets, flowed)?;
    }
    Ok(Swept {
        sets,
        is_stable: grows_to == 0,
    })
}

/// The targets of the label's edges that lead back, or of its others, each with what flows into it.
fn flowed<D: NumDomain>(
    alloc: Global,
    graph: &Graph,
    label: u32,
    back: bool,
    sets: &[Option<D>],
) -> Result<Vec<(u32, D)>, AllocError>
    requires { label < length (all_labels (statements graph.now.body)) }
{
    let mut flowed = Vec::new(alloc);
    let edges = graph.edges(label);
    if !leads(&edges[0], label, back) && !leads(&edges[1], label, back) {
        return Ok(flowed);
    }
    let Some(Some(set)) = sets.get(label as usize) else {
        return Ok(flowed);
    };
    let transition = Transition::of(alloc, graph.action(label), &set.bounds())?;
    for edge in edges.iter().flatten() {
        if leads_back(edge, label) != back {
            continue;
        }
        if let Some(moved) = flow(alloc, &transition, edge.kind, set)? {
            if !moved.is_empty() {
                flowed.push((edge.to, moved))?;
            }
        }
    }
    Ok(flowed)
}

/// There is an edge, and it leads back or not as is asked.
fn leads(edge: &Option<Edge>, label: u32, back: bool) -> bool {
    match edge {
        Some(edge) => leads_back(edge, label) == back,
        None => false,
    }
}

/// Each label's set gets the members of the one that flows into it too.
fn pour_all<D: NumDomain>(
    alloc: Global,
    sets: &mut [Option<D>],
    flowed: Vec<(u32, D)>,
) -> Result<(), AllocError> {
    for (to, moved) in flowed {
        pour(alloc, sets, to, moved)?;
    }
    Ok(())
}

/// The label's set gets the members of another one too.
fn pour<D: NumDomain>(
    alloc: Global,
    sets: &mut [Option<D>],
    label: u32,
    more: D,
) -> Result<(), AllocError> {
    let Some(place) = sets.get_mut(label as usize) else {
        return Ok(());
    };
    match place {
        Some(set) => set.join(alloc, &more),
        None => {
            *place = Some(more);
            Ok(())
        }
    }
}

/// Whether the label's set tells other rows than the old one, which it widens first, up to its limit, where that is asked.
fn grown<D: NumDomain>(
    alloc: Global,
    sets: &mut [Option<D>],
    label: u32,
    old: &[Option<D>],
    limits: &[Option<D>],
    widens: bool,
) -> Result<bool, AllocError> {
    let Some(Some(set)) = sets.get_mut(label as usize) else {
        return Ok(false);
    };
    let Some(Some(before)) = old.get(label as usize) else {
        return Ok(true);
    };
    if widens {
        let mut wide = before.copy(alloc)?;
        wide.widen(alloc, set)?;
        if let Some(Some(limit)) = limits.get(label as usize) {
            wide.meet_rows(alloc, &limit.rows(alloc)?)?;
        }
        *set = wide;
    }
    Ok(set.rows(alloc)? != before.rows(alloc)?)
}

/// The sets, with an empty one at each label that has none.
fn filled<D: NumDomain>(alloc: Global, sets: Vec<Option<D>>) -> Result<Vec<D>, AllocError> {
    let mut all = Vec::with_capacity(alloc, sets.len())?;
    for set in sets {
        let set = match set {
            Some(set) => set,
            None => nothing(alloc)?,
        };
        all.push(set)?;
    }
    Ok(all)
}

/// A set that is met with two rows that exclude each other.
fn nothing<D: NumDomain>(alloc: Global) -> Result<D, AllocError> {
    let mut set = D::top(alloc)?;
    let mut above = Affine::var(0);
    above.constant = -1;
    let mut below = Affine::constant(0);
    below.coef[0] = -1;
    for function in [above, below] {
        if let RowKind::Row(row) = Row::of(function) {
            set.meet_row(alloc, &row)?;
        }
    }
    Ok(set)
}
