//! Guesses at what bounds loops.
ghost use Rattle.std.specs.Prelude.{◌≤◌, length};

use crate::body::Body;
use advice::Hint;
use control_flow::{Graph, Transition};
use linear_cons::Row;
use std::alloc::{AllocError, Global};

/// The most guesses of a program.
const MOST_GUESSES: usize = 8;

/// A row of a loop's test, whose function may fall in each turn.
#[derive(Clone, Copy, PartialEq, Eq, Debug)]
pub struct Guess {
    /// The label of the loop's test.
    pub label: u32,
    pub row: Row,
}

impl Guess {
    /// The hint that where the row is met the loop makes at most as many turns as its function tells, and one. Nothing where a number passes
    /// 128 bits.
    pub fn hint(&self) -> Option<Hint> {
        let turns = self.row.affine.plus(1).ok()?;
        Some(Hint {
            label: self.label,
            split: [Some(self.row), None, None, None],
            turns,
        })
    }
}

/// The rows of the tests of loops without a loop in their body, the greatest label first, none twice at a label, and eight at most. The only error is want
/// of memory.
pub fn guesses(
    alloc: Global,
    graph: &Graph,
    transitions: &[Transition],
) -> Result<Vec<Guess>, AllocError>
    requires { length transitions.now ≤ 1024 }
{
    let mut found = Vec::new(alloc);
    for label in (0..transitions.len() as u32).rev() {
        add(alloc, graph, transitions, label, &mut found)?;
    }
    Ok(found)
}

/// Adds those at the label, if the test of such a loop is there.
fn add(
    alloc: Global,
    graph: &Graph,
    transitions: &[Transition],
    label: u32,
    found: &mut Vec<Guess>,
) -> Result<(), AllocError> {
    let Some(Transition::Test { holds, .. }) = transitions.get(label as usize) else {
        return Ok(());
    };
    let Some(body) = Body::of(alloc, graph, label)? else {
        return Ok(());
    };
    if body.has_loop {
        return Ok(());
    }
    for rows in holds {
        for row in rows.items() {
            let guess = Guess { label, row: *row };
            if found.len() < MOST_GUESSES && !found.contains(&guess) {
                found.push(guess)?;
            }
        }
    }
    Ok(())
}
