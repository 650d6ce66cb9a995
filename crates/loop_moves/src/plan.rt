//! How choices are made for a formula about some run.
use control_flow::{Choice, Transition};
use std::alloc::{AllocError, Global};

/// Which choices a formula about some run makes wherever it may: the outcome of a test that is free, and an end of a range.
#[derive(Clone, Copy, PartialEq, Eq, Debug)]
pub struct Plan {
    /// The outcome of each free test.
    pub outcome: bool,
    /// Whether the least number of each range is picked, or the greatest. Where there is none, each number counts.
    pub is_least: bool,
}

impl Plan {
    /// The plans that are tried for what is done at the labels, in order: where all next states count or nothing can be chosen that there is
    /// none, and else each that differs from the others in a choice that there is. The only error is want of memory.
    pub fn tried(
        alloc: Global,
        transitions: &[Transition],
        all: bool,
    ) -> Result<Vec<Option<Plan>>, AllocError> {
        let has_branch = transitions.iter().any(|one| one.choice() == Choice::Branch);
        let has_range = transitions
            .iter()
            .any(|one| matches!(one.choice(), Choice::Range { .. }));
        let mut plans = Vec::new(alloc);
        if all || !has_branch && !has_range {
            plans.push(None)?;
            return Ok(plans);
        }
        for is_least in [true, false] {
            for outcome in [true, false] {
                if (outcome || has_branch) && (is_least || has_range) {
                    plans.push(Some(Plan { outcome, is_least }))?;
                }
            }
        }
        Ok(plans)
    }

    /// The end that is picked of a range with these ends.
    pub(crate) fn end(&self, lo: Option<i64>, hi: Option<i64>) -> Option<i64> {
        if self.is_least { lo } else { hi }
    }
}
