//! What arrows lead to.
use std::alloc::{AllocError, Global};

/// For each of some things, told by their numbers from 0 on, the things to which arrows lead from it.
#[derive(Drop)]
pub struct Arrows {
    heads: Vec<Vec<usize>>,
}

impl Arrows {
    /// No arrows between so many things. The only error is want of memory.
    pub fn none(alloc: Global, count: usize) -> Result<Arrows, AllocError> {
        let mut heads = Vec::with_capacity(alloc, count)?;
        for _ in 0..count {
            heads.push(Vec::new(alloc))?;
        }
        Ok(Arrows { heads })
    }

    /// Adds an arrow; one from a thing that isn't there isn't added. The only error is want of memory.
    pub fn add(&mut self, from: usize, to: usize) -> Result<(), AllocError> {
        if let Some(heads) = self.heads.get_mut(from) {
            heads.push(to)?;
        }
        Ok(())
    }

    /// For each thing whether arrows lead to it from the first, through none below the least; to the first itself they do. The only error is want
    /// of memory.
    pub fn reached(
        &self,
        alloc: Global,
        first: usize,
        least: usize,
    ) -> Result<Vec<bool>, AllocError> {
        let count = self.heads.len();
        let mut reached = vec![in alloc; false; count]?;
        let mut open = Vec::new(alloc);
        note(first, &mut reached, &mut open)?;
        for _ in 0..count {
            let Some(thing) = open.pop() else {
                return Ok(reached);
            };
            if let Some(heads) = self.heads.get(thing) {
                for head in heads {
                    if *head >= least {
                        note(*head, &mut reached, &mut open)?;
                    }
                }
            }
        }
        Ok(reached)
    }
}

/// Notes that the thing is reached, and opens it where that wasn't noted.
fn note(thing: usize, reached: &mut [bool], open: &mut Vec<usize>) -> Result<(), AllocError> {
    if let Some(is_reached) = reached.get_mut(thing) {
        if !*is_reached {
            *is_reached = true;
            open.push(thing)?;
        }
    }
    Ok(())
}
