//! Decision trees, as lines say them.
use crate::functions::{read_function, read_row};
use crate::line::Line;
use crate::words::Words;
use decision_tree::{AffineRank, Cause, HeldCause, Pick, Tree, Why};
use std::alloc::{AllocError, Global};

/// How deep a tree may stand in a line.
const LEVELS: u32 = 64;

/// Reads a tree. It is one of
/// - `nothing`, which claims nothing; `given`, `nodes N` and `rows N`, which gave a claim up for that cause;
/// - `end F` and the like, a claim of the function's value for the reason, which is `step_value G, F` where the value of G is put;
/// - `R ? T : T`, the trees where the row's function is at least 0 and elsewhere;
/// - `line yes N R beside LEAF then T`, a line of so many rows that goes on down the yes sides, or `no` for the others, with a leaf beside each. In the row
///   and in the leaf `k` is the row's number: 1, 2, .. from the root down the yes sides, or from the end up the no sides;
/// - `without N for CAUSE T`, the tree with its leaf of that number given up for the cause;
/// - a tree in brackets.
pub fn read_tree(alloc: Global, words: &mut Words<'_>) -> Result<Tree<AffineRank>, AllocError> {
    read_part(alloc, words, LEVELS)
}

/// Reads a tree that goes at most so deep.
fn read_part(
    alloc: Global,
    words: &mut Words<'_>,
    levels: u32,
) -> Result<Tree<AffineRank>, AllocError> {
    let Some(below) = levels.checked_sub(1) else {
        words.fail("a tree that goes too deep");
        return Ok(Tree::Bottom);
    };
    if words.takes("(") {
        let tree = read_part(alloc, words, below)?;
        words.expect(")");
        return Ok(tree);
    }
    if words.takes("line") {
        let line = Line::read(alloc, words)?;
        let last = read_part(alloc, words, below)?;
        return line.before(alloc, last, words);
    }
    if words.takes("without") {
        let leaf = words.count();
        words.expect("for");
        let cause = read_cause(words);
        let mut tree = read_part(alloc, words, below)?;
        let cause = HeldCause::of(alloc, &cause)?;
        undefine(&mut tree, u64::from(leaf), cause, words);
        return Ok(tree);
    }
    if let Some(leaf) = read_leaf(alloc, words)? {
        return Ok(leaf);
    }
    let row = read_row(words);
    words.expect("?");
    let yes = read_part(alloc, words, below)?;
    words.expect(":");
    let no = read_part(alloc, words, below)?;
    match row {
        Some(row) => Tree::branch(alloc, row, yes, no),
        None => Ok(Tree::Bottom),
    }
}

/// Gives up the leaf of the number for the cause, where the tree has it.
fn undefine(tree: &mut Tree<AffineRank>, leaf: u64, cause: HeldCause, words: &mut Words<'_>) {
    if leaf < tree.leaves() {
        tree.undefine(leaf, cause);
    } else {
        words.fail("no such leaf");
    }
}

/// Reads a leaf, where one begins here.
pub fn read_leaf(
    alloc: Global,
    words: &mut Words<'_>,
) -> Result<Option<Tree<AffineRank>>, AllocError> {
    let Some(word) = words.peek() else {
        return Ok(None);
    };
    if word == "nothing" {
        words.take();
        return Ok(Some(Tree::Bottom));
    }
    if matches!(word, "given" | "nodes" | "rows") {
        let tree = Tree::given_up(alloc, &read_cause(words))?;
        return Ok(Some(tree));
    }
    let Some(why) = read_why(word, words) else {
        return Ok(None);
    };
    let value = read_function(words);
    let tree = Tree::claim(alloc, &why, &AffineRank { value })?;
    Ok(Some(tree))
}

/// Reads the cause for which a leaf is given up.
fn read_cause(words: &mut Words<'_>) -> Cause {
    match words.take() {
        "given" => Cause::Given,
        "nodes" => Cause::Nodes {
            count: words.count(),
        },
        "rows" => Cause::Rows {
            count: words.count(),
        },
        _ => {
            words.fail("no cause for which a leaf is given up");
            Cause::Given
        }
    }
}

/// Reads the reason for which a leaf claims something, where this is its first word.
fn read_why(word: &str, words: &mut Words<'_>) -> Option<Why> {
    if word == "step_value" {
        words.take();
        let value = read_function(words);
        words.expect(",");
        return Some(Why::Step(Pick::Value(value)));
    }
    let why = why_of(word)?;
    words.take();
    Some(why)
}

/// The reason that the word names alone.
fn why_of(word: &str) -> Option<Why> {
    match word {
        "end" => Some(Why::End),
        "atom" => Some(Why::Atom),
        "both" => Some(Why::Both),
        "left" => Some(Why::Left),
        "right" => Some(Why::Right),
        "now" => Some(Why::Now),
        "dead" => Some(Why::Dead),
        "step" => Some(Why::Step(Pick::All)),
        "step_yes" => Some(Why::Step(Pick::Yes)),
        "step_no" => Some(Why::Step(Pick::No)),
        _ => None,
    }
}
