//! Trees of labels, and what they claim of values of x and y.
use case_text::{Answer, Words};
use decision_tree::{AffineRank, Tree};
use linear_cons::PLACES;

/// Adds the trees of the labels that the line asks for, each in a line, and those of all labels where it asks for none.
pub fn push_trees(trees: &[Tree<AffineRank>], words: &mut Words<'_>, answer: &mut Answer) {
    if words.peek() != Some("at") {
        for (label, tree) in trees.iter().enumerate() {
            push_at(label, tree, answer);
        }
        return;
    }
    for _ in 0..words.len() {
        if !words.takes("at") {
            break;
        }
        let label = words.count() as usize;
        match trees.get(label) {
            Some(tree) => push_at(label, tree, answer),
            None => words.fail("no such label"),
        }
    }
}

/// Adds a line with the tree of the label.
fn push_at(label: usize, tree: &Tree<AffineRank>, answer: &mut Answer) {
    answer.part("\n");
    answer.push("at ");
    answer.push_number(label as i128);
    answer.push(" ");
    answer.push_tree(tree);
}

/// Reads values of x and y, parted by `and`, and adds how many steps the tree claims there, or that it claims nothing.
pub fn push_claims(tree: &Tree<AffineRank>, words: &mut Words<'_>, answer: &mut Answer) {
    for _ in 0..words.len() {
        let mut store = [0; PLACES];
        store[0] = words.number();
        store[1] = words.number();
        answer.part(" and ");
        push_claim(tree, &store, answer);
        if !words.takes("and") {
            return;
        }
    }
}

/// Adds how many steps the tree claims at the store.
fn push_claim(tree: &Tree<AffineRank>, store: &[i128; PLACES], answer: &mut Answer) {
    let rank = match tree.leaf_at(store) {
        Ok(Tree::Leaf { why: _, rank }) => rank,
        Ok(_) => return answer.push("nothing"),
        Err(wide) => return answer.push_wide(&wide),
    };
    match rank.value.value(store) {
        Ok(steps) => answer.push_number(steps),
        Err(wide) => answer.push_wide(&wide),
    }
}
