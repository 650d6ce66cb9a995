//! Trees that are long lines.
use crate::functions::read_function;
use crate::trees::read_leaf;
use crate::words::Words;
use decision_tree::{AffineRank, Tree};
use linear_cons::{Affine, Row, RowKind};
use std::alloc::{AllocError, Global};

/// The place whose variable is the number of a row of a line.
const NUMBER: u8 = 15;

/// Rows that stand in a line, each with a leaf on its one side and the rest on the other.
#[derive(Drop)]
pub struct Line {
    count: u32,
    /// The line goes on down the yes sides.
    is_yes: bool,
    /// The function that is at least 0 on the yes side.
    asked: Affine,
    beside: Tree<AffineRank>,
}

impl Line {
    /// Reads a line up to what stands at its end.
    pub fn read(alloc: Global, words: &mut Words<'_>) -> Result<Line, AllocError> {
        let is_yes = words.takes("yes");
        if !is_yes {
            words.expect("no");
        }
        let count = words.count();
        let asked = read_function(words);
        words.expect(">=");
        words.expect("0");
        words.expect("beside");
        let beside = read_leaf(alloc, words)?;
        words.expect("then");
        Ok(Line {
            count,
            is_yes,
            asked,
            beside: beside.unwrap_or(Tree::Bottom),
        })
    }

    /// The line with the tree at its end.
    pub fn before(
        &self,
        alloc: Global,
        last: Tree<AffineRank>,
        words: &mut Words<'_>,
    ) -> Result<Tree<AffineRank>, AllocError> {
        let mut tree = last;
        for above in 0..self.count {
            let number = if self.is_yes {
                self.count - above
            } else {
                above + 1
            };
            tree = self.longer(alloc, number, tree, words)?;
        }
        Ok(tree)
    }

    /// The tree with the row of the number above it.
    fn longer(
        &self,
        alloc: Global,
        number: u32,
        tree: Tree<AffineRank>,
        words: &mut Words<'_>,
    ) -> Result<Tree<AffineRank>, AllocError> {
        let RowKind::Row(row) = Row::of(numbered(&self.asked, number)) else {
            words.fail("a line of what is no row");
            return Ok(tree);
        };
        let beside = self.beside(alloc, number)?;
        if self.is_yes {
            Tree::branch(alloc, row, tree, beside)
        } else {
            Tree::branch(alloc, row, beside, tree)
        }
    }

    /// The leaf beside the row with the number.
    fn beside(&self, alloc: Global, number: u32) -> Result<Tree<AffineRank>, AllocError> {
        match &self.beside {
            Tree::Leaf { why, rank } => {
                let value = numbered(&rank.value, number);
                Tree::claim(alloc, &why.why(), &AffineRank { value })
            }
            beside => beside.copy(alloc),
        }
    }
}

/// The function with the number for that of the row, where it has room.
fn numbered(function: &Affine, number: u32) -> Affine {
    match function.subst(NUMBER, &Affine::constant(i128::from(number))) {
        Ok(numbered) => numbered,
        Err(_) => *function,
    }
}
