//! The text of an answer.
use crate::words::NAMES;
use decision_tree::{AffineRank, Cause, Pick, Tree, Why};
use line_text::{is_over, push_affine, push_number};
use linear_cons::{Affine, Bounds, Linear, Op, PLACES, Row, RowKind, Wide};
use std::alloc::{AllocError, Global};
use step_meaning::Names;

/// The text of an answer, as far as it is written. It notes want of memory, and from then on takes no more: so who writes needs to look for that at the end
/// alone.
#[derive(Drop)]
pub struct Answer {
    names: Names,
    text: Vec<u8>,
    is_cut: bool,
}

impl Answer {
    /// The empty text.
    pub fn new(alloc: Global) -> Result<Answer, AllocError> {
        let mut names = Vec::new(alloc);
        for name in NAMES {
            names.push(name.as_bytes().to_vec(alloc)?)?;
        }
        Ok(Answer {
            names: Names::of(names),
            text: Vec::new(alloc),
            is_cut: false,
        })
    }

    /// What is written, unless memory ran out.
    pub fn whole(&self) -> Result<&[u8], AllocError> {
        if self.is_cut {
            return Err(AllocError);
        }
        Ok(&self.text)
    }

    pub fn push(&mut self, text: &str) {
        self.push_bytes(text.as_bytes());
    }

    pub fn push_bytes(&mut self, bytes: &[u8]) {
        if self.is_cut || self.text.extend_from_slice(bytes).is_err() {
            self.is_cut = true;
        }
    }

    /// Adds what parts two items of a list, but before the first one.
    pub fn part(&mut self, parting: &str) {
        if !self.text.is_empty() {
            self.push(parting);
        }
    }

    pub fn push_yes_or_no(&mut self, is_so: bool) {
        self.push(if is_so { "yes" } else { "no" });
    }

    pub fn push_number(&mut self, number: i128) {
        if push_number(&mut self.text, number).is_err() {
            self.is_cut = true;
        }
    }

    /// Adds the number, or the word for none.
    pub fn push_number_or(&mut self, number: Option<i128>, none: &str) {
        match number {
            Some(number) => self.push_number(number),
            None => self.push(none),
        }
    }

    pub fn push_function(&mut self, function: &Affine) {
        if !is_over(function, &self.names) {
            self.push("a variable without a name");
        } else if push_affine(&mut self.text, function, &self.names).is_err() {
            self.is_cut = true;
        }
    }

    /// Adds the linear expression, as `read_linear` reads it.
    pub fn push_linear(&mut self, value: &Linear) {
        self.push_function(&value.affine);
        if *value == Linear::exactly(value.affine) {
            return;
        }
        self.push(" + [");
        self.push_number_or(value.lo, "-inf");
        self.push(", ");
        self.push_number_or(value.hi, "inf");
        self.push("]");
    }

    pub fn push_row(&mut self, row: &Row) {
        self.push_function(&row.affine);
        self.push(" >= 0");
    }

    /// Adds the row, `always` or `never`.
    pub fn push_kind(&mut self, kind: &RowKind) {
        match kind {
            RowKind::Row(row) => self.push_row(row),
            RowKind::Always => self.push("always"),
            RowKind::Never => self.push("never"),
        }
    }

    /// Adds the rows in their order, or `always` where there is none.
    pub fn push_rows(&mut self, rows: &[Row]) {
        if rows.is_empty() {
            self.push("always");
        }
        for (number, row) in rows.iter().enumerate() {
            self.push(if number == 0 { "" } else { " and " });
            self.push_row(row);
        }
    }

    /// Adds what would have left the range of numbers.
    pub fn push_wide(&mut self, wide: &Wide) {
        self.push("wide: ");
        self.push_number(wide.left);
        self.push(match wide.op {
            Op::Add => " + ",
            Op::Sub => " - ",
            Op::Mul => " * ",
        });
        self.push_number(wide.right);
    }

    /// Adds the ends that there are, or `anywhere`.
    pub fn push_ends(&mut self, bounds: &Bounds) {
        let mut is_first = true;
        for place in 0..PLACES {
            let (low, high) = bounds.ends[place];
            if low.is_some() || high.is_some() {
                self.push(if is_first { "" } else { ", " });
                self.push(NAMES[place]);
                self.push_end(" from ", low);
                self.push_end(" to ", high);
                is_first = false;
            }
        }
        self.push(if is_first { "anywhere" } else { "" });
    }

    fn push_end(&mut self, word: &str, end: Option<i128>) {
        if let Some(number) = end {
            self.push(word);
            self.push_number(number);
        }
    }

    /// Adds the tree, as `read_tree` reads it, with brackets around a yes side that is no leaf.
    pub fn push_tree(&mut self, tree: &Tree<AffineRank>) {
        match tree {
            Tree::Bottom => self.push("nothing"),
            Tree::Top(cause) => self.push_cause(&cause.cause()),
            Tree::Leaf { why, rank } => self.push_leaf(&why.why(), rank),
            Tree::Node { row, yes, no } => {
                let is_leaf = !matches!(&**yes, Tree::Node { .. });
                self.push_row(row);
                self.push(if is_leaf { " ? " } else { " ? (" });
                self.push_tree(yes);
                self.push(if is_leaf { " : " } else { ") : " });
                self.push_tree(no);
            }
        }
    }

    /// Adds the leaf.
    fn push_leaf(&mut self, why: &Why, rank: &AffineRank) {
        self.push(word_of(why));
        self.push_put(why);
        self.push_function(&rank.value);
    }

    /// Adds the function whose value is put, where the reason is such a step.
    fn push_put(&mut self, why: &Why) {
        if let Why::Step(Pick::Value(value)) = why {
            self.push_function(value);
            self.push(", ");
        }
    }

    fn push_cause(&mut self, cause: &Cause) {
        match cause {
            Cause::Given => self.push("given"),
            Cause::Nodes { count } => {
                self.push("nodes ");
                self.push_number(i128::from(*count));
            }
            Cause::Rows { count } => {
                self.push("rows ");
                self.push_number(i128::from(*count));
            }
            Cause::Wide(wide) => self.push_wide(wide),
            Cause::Point { .. } => self.push("a point"),
        }
    }
}

/// The word of the reason, before its function.
fn word_of(why: &Why) -> &'static str {
    match why {
        Why::End => "end ",
        Why::Atom => "atom ",
        Why::Both => "both ",
        Why::Left => "left ",
        Why::Right => "right ",
        Why::Now => "now ",
        Why::Dead => "dead ",
        Why::Step(Pick::All) => "step ",
        Why::Step(Pick::Yes) => "step_yes ",
        Why::Step(Pick::No) => "step_no ",
        Why::Step(Pick::Value(_)) => "step_value ",
    }
}
