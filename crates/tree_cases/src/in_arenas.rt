//! The calls of joins and of moves over an arena, behind the word `arena`: those that trim, prune and join, and `skip`, `assign` and `test`. Their words and their
//! answers are those of the calls in boxes: the trees are put into an arena without trees, and what is made there is taken out.
ghost use Rattle.std.specs.Prelude.{◌<◌, IfOk, length};

use crate::arenas::read_put;
use crate::joins::{Made, members, push_made};
use crate::moves::read_outcome;
use arena_builders::{
    back_assign_in, back_range_in, back_skip_in, back_test_in, both_in, either_in, later_in,
    prune_in, trim_in,
};
use case_text::{Answer, Words, read_linear, read_rows};
use decision_tree::{AffineRank, MOST_NODES};
use interval_dom::Boxes;
use linear_cons::Linear;
use num_domain::NumDomain;
use octagon_dom::Octagon;
use poly_dom::Poly;
use std::alloc::{AllocError, Global};
use tree_arena::{Arena, TreeRef};
use tree_unify::TreeFault;

/// Makes the call of that name and writes its answer; false where none has the name.
pub fn answers(
    alloc: Global,
    name: &str,
    words: &mut Words<'_>,
    answer: &mut Answer,
) -> Result<bool, AllocError> {
    if name != "arena" {
        return Ok(false);
    }
    let name = words.take();
    let made = match name {
        "trim" => trimmed(alloc, words),
        "prune" => pruned(alloc, words),
        "either" | "both" | "later" => joined(alloc, name, words),
        "skip" => skipped(alloc, words),
        "assign" => assigned(alloc, words),
        "test" => tested(alloc, words),
        _ => return Ok(false),
    };
    push_made(alloc, made?, words, answer)?;
    Ok(true)
}

/// What was made, taken out of the arena; `Full` with a count that is none where it has more nodes than it may have.
fn taken(
    alloc: Global,
    arena: &Arena<AffineRank>,
    made: Result<TreeRef, TreeFault>,
) -> Result<Made, AllocError>
    requires { IfOk made (λ tree. tree.place < length arena.now) }
{
    match made {
        Ok(tree) if arena.size(tree) <= MOST_NODES => {
            let tree = arena.take(alloc, tree)?;
            Ok(Ok(tree))
        }
        Ok(_) => Ok(Err(TreeFault::Full { count: 0 })),
        Err(fault) => Ok(Err(fault)),
    }
}

/// Reads rows and a tree behind `in`, and trims it by them.
fn trimmed(alloc: Global, words: &mut Words<'_>) -> Result<Made, AllocError> {
    let mut arena = Arena::new(alloc);
    let rows = read_rows(alloc, words)?;
    words.expect("in");
    let tree = read_put(alloc, &mut arena, words)?;
    let made = trim_in(alloc, &mut arena, tree, &rows);
    taken(alloc, &arena, made)
}

/// Reads the name of a domain, where one stands there, rows and a tree behind `in`, and prunes it by what the domain keeps of the rows.
fn pruned(alloc: Global, words: &mut Words<'_>) -> Result<Made, AllocError> {
    if words.takes("octagons") {
        return pruned_by::<Octagon>(alloc, words);
    }
    if words.takes("polyhedra") {
        return pruned_by::<Poly>(alloc, words);
    }
    pruned_by::<Boxes>(alloc, words)
}

/// The same under one domain.
fn pruned_by<D: NumDomain>(alloc: Global, words: &mut Words<'_>) -> Result<Made, AllocError> {
    let mut arena = Arena::new(alloc);
    let members: D = members(alloc, words)?;
    words.expect("in");
    let tree = read_put(alloc, &mut arena, words)?;
    let made = prune_in(alloc, &mut arena, tree, &members);
    taken(alloc, &arena, made)
}

/// Reads two trees and joins them.
fn joined(alloc: Global, name: &str, words: &mut Words<'_>) -> Result<Made, AllocError> {
    let mut arena = Arena::new(alloc);
    let first = read_put(alloc, &mut arena, words)?;
    words.expect("and");
    let second = read_put(alloc, &mut arena, words)?;
    let made = match name {
        "either" => either_in(alloc, &mut arena, first, second),
        "both" => both_in(alloc, &mut arena, first, second),
        _ => later_in(alloc, &mut arena, first, second),
    };
    taken(alloc, &arena, made)
}

/// Reads the tree behind what changes nothing.
fn skipped(alloc: Global, words: &mut Words<'_>) -> Result<Made, AllocError> {
    let mut arena = Arena::new(alloc);
    let tree = read_put(alloc, &mut arena, words)?;
    let made = back_skip_in(alloc, &mut arena, tree);
    taken(alloc, &arena, made)
}

/// Reads an assignment and the tree behind it. An exact value is assigned, another one is chosen from its range.
fn assigned(alloc: Global, words: &mut Words<'_>) -> Result<Made, AllocError> {
    let mut arena = Arena::new(alloc);
    let place = words.place();
    words.expect("=");
    let value = read_linear(words);
    words.expect("before");
    let tree = read_put(alloc, &mut arena, words)?;
    let made = if value == Linear::exactly(value.affine) {
        back_assign_in(alloc, &mut arena, tree, place, &value.affine)
    } else {
        back_range_in(alloc, &mut arena, tree, place, &value)
    };
    taken(alloc, &arena, made)
}

/// Reads the outcomes of a test, and the trees behind its success and its failure.
fn tested(alloc: Global, words: &mut Words<'_>) -> Result<Made, AllocError> {
    let mut arena = Arena::new(alloc);
    let holds = read_outcome(alloc, words)?;
    words.expect("against");
    let fails = read_outcome(alloc, words)?;
    words.expect("before");
    let yes = read_put(alloc, &mut arena, words)?;
    words.expect("else");
    let no = read_put(alloc, &mut arena, words)?;
    let made = back_test_in(alloc, &mut arena, yes, no, &holds, &fails);
    taken(alloc, &arena, made)
}
