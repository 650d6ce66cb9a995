//! Calls on trees themselves. Where T is a tree, R a row and N a number, these are
//! - `tree T`, `size T`, `leaf at N of T` for the store with x = N and 0 elsewhere, `path N of T` for the rows that lead to the leaf of that number;
//! - `copies T ; T ..` and `distinct T ; T ..`: whether each tree is equal to its copies, and to no other one;
//! - `node R yes T no T` and `node boxed R yes T no T`;
//! - `trail` with steps `down R`, `turn` and `up`, for the tightest rows on the way, and `settles R` behind them for what these say of a row;
//! - `trees T ; T ..` for a list whose trees change, and `family N of T ; T ..` for a list of one family.
use case_text::{Answer, Words, read_row, read_tree};
use decision_tree::{AffineRank, Family, FamilyList, HeldCause, PathFault, Trail, Tree, TreeList};
use linear_cons::{PLACES, Row};
use std::alloc::{AllocError, Global};

/// Makes the call of that name and writes its answer; false where none has the name.
pub fn answers(
    alloc: Global,
    name: &str,
    words: &mut Words<'_>,
    answer: &mut Answer,
) -> Result<bool, AllocError> {
    let written = match name {
        "tree" => push_read(alloc, words, answer),
        "size" => push_size(alloc, words, answer),
        "leaf" => push_leaf(alloc, words, answer),
        "path" => push_path(alloc, words, answer),
        "node" => push_node(alloc, words, answer),
        "trail" => push_trail(alloc, words, answer),
        "distinct" => push_distinct(alloc, words, answer),
        "copies" => push_copied(alloc, words, answer),
        "trees" => push_changed_list(alloc, words, answer),
        "family" => push_family(alloc, words, answer),
        _ => return Ok(false),
    };
    written?;
    Ok(true)
}

fn push_read(alloc: Global, words: &mut Words<'_>, answer: &mut Answer) -> Result<(), AllocError> {
    let tree = read_tree(alloc, words)?;
    answer.push_tree(&tree);
    Ok(())
}

fn push_size(alloc: Global, words: &mut Words<'_>, answer: &mut Answer) -> Result<(), AllocError> {
    let tree = read_tree(alloc, words)?;
    answer.push_number(i128::from(tree.size()));
    answer.push(" nodes, ");
    answer.push_number(i128::from(tree.leaves()));
    answer.push(" leaves");
    Ok(())
}

/// The leaf of the store with the number at place 0 and 0 elsewhere.
fn push_leaf(alloc: Global, words: &mut Words<'_>, answer: &mut Answer) -> Result<(), AllocError> {
    words.expect("at");
    let mut store = [0; PLACES];
    store[0] = words.number();
    words.expect("of");
    let tree = read_tree(alloc, words)?;
    match tree.leaf_at(&store) {
        Ok(leaf) => answer.push_tree(leaf),
        Err(wide) => answer.push_wide(&wide),
    }
    Ok(())
}

/// The rows that lead to the leaf of the number.
fn push_path(alloc: Global, words: &mut Words<'_>, answer: &mut Answer) -> Result<(), AllocError> {
    let leaf = u64::from(words.count());
    words.expect("of");
    let tree = read_tree(alloc, words)?;
    if leaf >= tree.leaves() {
        words.fail("no such leaf");
        return Ok(());
    }
    match tree.path(alloc, leaf) {
        Ok(rows) => push_way(rows.items(), answer),
        Err(PathFault::Wide(wide)) => answer.push_wide(&wide),
        Err(PathFault::Memory(error)) => return Err(error),
    }
    Ok(())
}

/// Writes the rows, and a row that comes again and again once with its number.
fn push_way(rows: &[Row], answer: &mut Answer) {
    match rows.first() {
        Some(first) if rows.len() > 2 && rows.iter().all(|row| *row == *first) => {
            answer.push_number(rows.len() as i128);
            answer.push(" times ");
            answer.push_row(first);
        }
        _ => answer.push_rows(rows),
    }
}

/// The node of the row with the two sides, made of trees, or of trees in boxes.
fn push_node(alloc: Global, words: &mut Words<'_>, answer: &mut Answer) -> Result<(), AllocError> {
    let is_boxed = words.takes("boxed");
    let Some(row) = read_row(words) else {
        return Ok(());
    };
    words.expect("yes");
    let yes = read_tree(alloc, words)?;
    words.expect("no");
    let no = read_tree(alloc, words)?;
    let node = node(alloc, is_boxed, row, yes, no)?;
    answer.push_tree(&node);
    Ok(())
}

fn node(
    alloc: Global,
    is_boxed: bool,
    row: Row,
    yes: Tree<AffineRank>,
    no: Tree<AffineRank>,
) -> Result<Tree<AffineRank>, AllocError> {
    if !is_boxed {
        return Tree::node(alloc, row, yes, no);
    }
    let yes = Box::new(alloc, yes)?;
    let no = Box::new(alloc, no)?;
    Ok(Box::into_inner(Tree::boxed_node(alloc, &row, yes, no)?))
}

/// The tightest rows of the way, or how they settle the row behind `settles`.
fn push_trail(alloc: Global, words: &mut Words<'_>, answer: &mut Answer) -> Result<(), AllocError> {
    let mut trail = Trail::new(alloc);
    for _ in 0..words.len() {
        take_step(&mut trail, words)?;
    }
    if !words.takes("settles") {
        answer.push_rows(trail.rows());
    } else if let Some(row) = read_row(words) {
        answer.push(match trail.settles(&row) {
            Some(true) => "holds",
            Some(false) => "fails",
            None => "open",
        });
    }
    Ok(())
}

/// Takes a step, where one is next.
fn take_step(trail: &mut Trail, words: &mut Words<'_>) -> Result<(), AllocError> {
    if words.takes("down") {
        if let Some(row) = read_row(words) {
            trail.down(&row)?;
        }
    } else if words.takes("turn") {
        match trail.turn() {
            Ok(()) => {}
            Err(PathFault::Wide(_)) => words.fail("a row without a complement"),
            Err(PathFault::Memory(error)) => return Err(error),
        }
    } else if words.takes("up") {
        trail.up();
    }
    Ok(())
}

/// Reads trees that are parted by `;`.
fn read_trees(alloc: Global, words: &mut Words<'_>) -> Result<Vec<Tree<AffineRank>>, AllocError> {
    let mut trees = Vec::new(alloc);
    for _ in 0..words.len() {
        add_tree(alloc, &mut trees, words)?;
        if !words.takes(";") {
            return Ok(trees);
        }
    }
    Ok(trees)
}

fn add_tree(
    alloc: Global,
    trees: &mut Vec<Tree<AffineRank>>,
    words: &mut Words<'_>,
) -> Result<(), AllocError> {
    let tree = read_tree(alloc, words)?;
    trees.push(tree)?;
    Ok(())
}

fn push_distinct(
    alloc: Global,
    words: &mut Words<'_>,
    answer: &mut Answer,
) -> Result<(), AllocError> {
    let trees = read_trees(alloc, words)?;
    answer.push_yes_or_no(are_distinct(&trees));
    Ok(())
}

/// Whether each tree is equal to itself and to no other one.
fn are_distinct(trees: &[Tree<AffineRank>]) -> bool {
    for (index, tree) in trees.iter().enumerate() {
        for (other, twin) in trees.iter().enumerate() {
            if (tree == twin) != (index == other) {
                return false;
            }
        }
    }
    true
}

fn push_copied(
    alloc: Global,
    words: &mut Words<'_>,
    answer: &mut Answer,
) -> Result<(), AllocError> {
    let trees = read_trees(alloc, words)?;
    answer.push_yes_or_no(are_copied(alloc, &trees)?);
    Ok(())
}

/// Whether each tree is equal to its copies.
fn are_copied(alloc: Global, trees: &[Tree<AffineRank>]) -> Result<bool, AllocError> {
    for tree in trees {
        if !is_copied(alloc, tree)? {
            return Ok(false);
        }
    }
    Ok(true)
}

/// Whether the tree is equal to its copy and to its copy in a box.
fn is_copied(alloc: Global, tree: &Tree<AffineRank>) -> Result<bool, AllocError> {
    let copy = tree.copy(alloc)?;
    let boxed = tree.boxed(alloc)?;
    Ok(copy == *tree && *boxed == *tree)
}

/// The list of the trees, after each has given up its first leaf, and the last has become one that claims nothing.
fn push_changed_list(
    alloc: Global,
    words: &mut Words<'_>,
    answer: &mut Answer,
) -> Result<(), AllocError> {
    let mut list = TreeList::of(read_trees(alloc, words)?);
    for tree in list.items_mut().iter_mut() {
        if tree.leaves() > 0 {
            tree.undefine(0, HeldCause::given());
        }
    }
    if let Some(tree) = list.items_mut().last_mut() {
        *tree = Tree::Bottom;
    }
    for tree in list.items() {
        answer.part(" ; ");
        answer.push_tree(tree);
    }
    Ok(())
}

/// A list of the one family of the trees for a part, and the trees that it gives back.
fn push_family(
    alloc: Global,
    words: &mut Words<'_>,
    answer: &mut Answer,
) -> Result<(), AllocError> {
    let part = words.count();
    words.expect("of");
    let trees = TreeList::of(read_trees(alloc, words)?);
    let mut families = Vec::new(alloc);
    families.push(Family { part, trees })?;
    push_families(FamilyList::of(families), answer);
    Ok(())
}

fn push_families(families: FamilyList<AffineRank>, answer: &mut Answer) {
    for family in families.items() {
        answer.push("part ");
        answer.push_number(i128::from(family.part));
    }
    for family in families.into_vec() {
        for tree in family.trees.into_vec() {
            answer.push(" ; ");
            answer.push_tree(&tree);
        }
    }
}
