//! The rows on the way of a walk.
use crate::rows::RowFacts;
use std::alloc::{AllocError, Global};

/// The rows from the root of a tree to where a walk stands: of those with one linear part the least constant is held, by the number of the part.
#[derive(Drop)]
pub(crate) struct Way {
    held: Vec<Option<i128>>,
    steps: Vec<Step>,
}

/// One step of a walk: its row, and what was held for the row's linear part before.
#[derive(Clone, Copy)]
struct Step {
    row: usize,
    part: usize,
    before: Option<i128>,
}

impl Way {
    /// The start of a walk, at the root. It takes no memory.
    pub(crate) fn new(alloc: Global) -> Way {
        Way {
            held: Vec::new(alloc),
            steps: Vec::new(alloc),
        }
    }

    /// A way with the same constants, at the root.
    pub(crate) fn copy(&self, alloc: Global) -> Result<Way, AllocError> {
        let mut held = Vec::new(alloc);
        held.extend_from_slice(&self.held)?;
        Ok(Way {
            held,
            steps: Vec::new(alloc),
        })
    }

    /// The number of the row of the last step, where there is one.
    pub(crate) fn last(&self) -> Option<usize> {
        match self.steps.last() {
            Some(step) => Some(step.row),
            None => None,
        }
    }

    /// Goes down a row.
    #[inline(never)]
    pub(crate) fn down(&mut self, row: usize, facts: &RowFacts) -> Result<(), AllocError> {
        for _ in self.held.len()..=facts.part {
            self.held.push(None)?;
        }
        let before = self.least(facts.part);
        self.steps.push(Step {
            row,
            part: facts.part,
            before,
        })?;
        let least = match before {
            Some(least) if least <= facts.constant => least,
            _ => facts.constant,
        };
        self.hold(facts.part, Some(least));
        Ok(())
    }

    /// Goes up to the last node; at the root it stays.
    #[inline(never)]
    pub(crate) fn up(&mut self) {
        if let Some(step) = self.steps.pop() {
            self.hold(step.part, step.before);
        }
    }

    /// Whether the rows of the way settle one more by their linear parts: it holds behind a row with the same coefficients and a constant not greater, and fails
    /// behind an opposed one.
    #[inline(never)]
    pub(crate) fn settles(&self, facts: &RowFacts) -> Option<bool> {
        if self.tells(facts.part, facts.constant) {
            return Some(true);
        }
        match facts.opposed {
            Some(opposed) if self.tells(opposed, !facts.constant) => Some(false),
            _ => None,
        }
    }

    /// Whether a row of the way with the linear part has a constant that isn't greater.
    fn tells(&self, part: usize, constant: i128) -> bool {
        match self.least(part) {
            Some(least) => least <= constant,
            None => false,
        }
    }

    /// The least constant of the rows of the way with the linear part.
    fn least(&self, part: usize) -> Option<i128> {
        match self.held.get(part) {
            Some(least) => *least,
            None => None,
        }
    }

    /// Holds the constant for the linear part.
    fn hold(&mut self, part: usize, least: Option<i128>) {
        if part < self.held.len() {
            self.held[part] = least;
        }
    }
}
