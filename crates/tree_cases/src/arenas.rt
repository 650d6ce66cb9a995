//! Calls on trees in an arena without trees. Where T is a tree, R a row and N a number, these are
//! - `shared T and T`: where each stands then, its nodes and what is taken out there, and how many trees the arena has;
//! - `entered T` for a tree without sides: the same of it; and `entered R yes T no T` for the node of a row: what is shown at the root, and how many trees the arena has;
//! - `doubled N of T under R`: the nodes of the tree that has the row and twice the one before, so many times over, and how many trees the arena has.
ghost use Rattle.std.specs.Prelude.{◌<◌, ◌≤◌, IfOk, length};

use case_text::{Answer, Words, read_leaf, read_row, read_tree};
use decision_tree::{AffineRank, MOST_NODES, Rank, Tree};
use linear_cons::Row;
use std::alloc::{AllocError, Global};
use tree_arena::{Arena, NodeView, TreeRef};

/// Makes the call of that name and writes its answer; false where none has the name.
pub fn answers(
    alloc: Global,
    name: &str,
    words: &mut Words<'_>,
    answer: &mut Answer,
) -> Result<bool, AllocError> {
    let mut arena = Arena::new(alloc);
    answers_in(alloc, &mut arena, name, words, answer)
}

/// The same in the arena, whose trees are counted behind.
fn answers_in(
    alloc: Global,
    arena: &mut Arena<AffineRank>,
    name: &str,
    words: &mut Words<'_>,
    answer: &mut Answer,
) -> Result<bool, AllocError> {
    let written = match name {
        "shared" => push_shared(alloc, arena, words, answer),
        "entered" => push_entered(alloc, arena, words, answer),
        "doubled" => push_doubled(alloc, arena, words, answer),
        _ => return Ok(false),
    };
    written?;
    answer.push(" ; ");
    answer.push_number(arena.entries() as i128);
    answer.push(" in all");
    Ok(true)
}

fn push_shared(
    alloc: Global,
    arena: &mut Arena<AffineRank>,
    words: &mut Words<'_>,
    answer: &mut Answer,
) -> Result<(), AllocError> {
    let first = read_put(alloc, arena, words)?;
    words.expect("and");
    let second = read_put(alloc, arena, words)?;
    push_taken(alloc, arena, first, answer)?;
    answer.push(" ; ");
    push_taken(alloc, arena, second, answer)
}

/// Reads a tree and puts it into the arena.
pub fn read_put(
    alloc: Global,
    arena: &mut Arena<AffineRank>,
    words: &mut Words<'_>,
) -> Result<TreeRef, AllocError>
    ensures kept { length arena.old ≤ length arena.new }
    ensures there { IfOk result (λ tree. tree.place < length arena.new) }
{
    let tree = read_tree(alloc, words)?;
    arena.put(&tree)
}

/// Writes where the tree stands, its nodes, and itself where it isn't larger than trees that are made.
fn push_taken(
    alloc: Global,
    arena: &Arena<AffineRank>,
    tree: TreeRef,
    answer: &mut Answer,
) -> Result<(), AllocError>
    requires { tree.place < length arena.now }
{
    answer.push("at ");
    answer.push_number(tree.place as i128);
    answer.push(", ");
    push_size(arena, tree, answer);
    if arena.size(tree) <= MOST_NODES {
        answer.push(", ");
        answer.push_tree(&arena.take(alloc, tree)?);
    }
    Ok(())
}

fn push_size(arena: &Arena<AffineRank>, tree: TreeRef, answer: &mut Answer)
    requires { tree.place < length arena.now }
{
    answer.push_number(i128::from(arena.size(tree)));
    answer.push(" nodes");
}

fn push_entered(
    alloc: Global,
    arena: &mut Arena<AffineRank>,
    words: &mut Words<'_>,
    answer: &mut Answer,
) -> Result<(), AllocError> {
    if let Some(leaf) = read_leaf(alloc, words)? {
        return push_leaf(alloc, arena, &leaf, words, answer);
    }
    push_node(alloc, arena, words, answer)
}

fn push_leaf(
    alloc: Global,
    arena: &mut Arena<AffineRank>,
    leaf: &Tree<AffineRank>,
    words: &mut Words<'_>,
    answer: &mut Answer,
) -> Result<(), AllocError> {
    if let Tree::Node { .. } = leaf {
        words.fail("a tree with sides");
        return Ok(());
    }
    let leaf = arena.leaf(leaf)?;
    push_root(alloc, arena, leaf, answer)
}

fn push_node(
    alloc: Global,
    arena: &mut Arena<AffineRank>,
    words: &mut Words<'_>,
    answer: &mut Answer,
) -> Result<(), AllocError> {
    let Some(row) = read_row(words) else {
        return Ok(());
    };
    words.expect("yes");
    let yes = read_put(alloc, arena, words)?;
    words.expect("no");
    let no = read_put(alloc, arena, words)?;
    let tree = arena.node(&row, yes, no)?;
    push_root(alloc, arena, tree, answer)
}

/// Writes what is shown at the root of the tree, and of a leaf itself.
fn push_root(
    alloc: Global,
    arena: &Arena<AffineRank>,
    tree: TreeRef,
    answer: &mut Answer,
) -> Result<(), AllocError>
    requires { tree.place < length arena.now }
{
    let Some((row, yes, no)) = root_of(arena, tree) else {
        return push_taken(alloc, arena, tree, answer);
    };
    answer.push_row(&row);
    answer.push(" yes at ");
    answer.push_number(yes.place as i128);
    answer.push(" no at ");
    answer.push_number(no.place as i128);
    Ok(())
}

/// The row at the root and the two sides, where the tree has sides.
fn root_of<R: Rank>(arena: &Arena<R>, tree: TreeRef) -> Option<(Row, TreeRef, TreeRef)>
    requires { tree.place < length arena.now }
{
    match arena.view(tree) {
        NodeView::Node { row, yes, no } => Some((*row, yes, no)),
        NodeView::Bottom | NodeView::Top(_) => None,
        NodeView::Leaf { .. } => None,
    }
}

fn push_doubled(
    alloc: Global,
    arena: &mut Arena<AffineRank>,
    words: &mut Words<'_>,
    answer: &mut Answer,
) -> Result<(), AllocError> {
    let times = words.count();
    words.expect("of");
    let tree = read_tree(alloc, words)?;
    words.expect("under");
    let Some(row) = read_row(words) else {
        return Ok(());
    };
    let mut tree = arena.put(&tree)?;
    for _ in 0..times {
        tree = arena.node(&row, tree, tree)?;
    }
    push_size(arena, tree, answer);
    Ok(())
}
