//! The rows by which the stores at a head are parted.
use crate::loops::{Head, Loops};
use crate::moves::{Move, Target, through};
use linear_cons::{Affine, Row, RowKind, Wide};
use std::alloc::{AllocError, Global};

/// The most rows that part the stores at one head.
const MOST_ROWS: usize = 256;

/// Which rows part the stores at a head, after those of its test.
#[derive(Clone, Copy, PartialEq, Eq, Debug)]
pub enum Parting {
    /// Those of the tests of the loops around it.
    Guards,
    /// Those of the goal, where rows of the test and of the goal come nearer to failing in a turn, and those of the paths.
    Falls,
    /// The same, and such rows of the next heads before the paths to them.
    Targets,
    /// Where rows of the test fall in one turn or two, and the rows so found in their turn.
    Deep,
    /// Where the rows so found don't fall in a turn, and the tests and paths of all loops.
    Kept,
}

impl Parting {
    /// All of them, in the order in which they are tried.
    pub const ALL: [Parting; 5] = [
        Parting::Guards,
        Parting::Falls,
        Parting::Targets,
        Parting::Deep,
        Parting::Kept,
    ];
}

/// Rows over the variables, no two the same or opposed.
#[derive(Drop)]
struct Splits {
    rows: Vec<Row>,
    variables: u32,
}

impl Splits {
    fn new(alloc: Global, variables: u32) -> Splits {
        Splits {
            rows: Vec::new(alloc),
            variables,
        }
    }

    /// Adds the row, if it is over the variables and new, and its complement fits.
    fn put(&mut self, row: &Row) -> Result<(), AllocError> {
        let Ok(other) = row.not() else {
            return Ok(());
        };
        let mut chosen = row.affine.coef.iter().skip(self.variables as usize);
        if self.rows.len() < MOST_ROWS
            && chosen.all(|number| *number == 0)
            && !self.rows.contains(row)
            && !self.rows.contains(&other)
        {
            self.rows.push(*row)?;
        }
        Ok(())
    }

    fn put_all(&mut self, rows: &[Row]) -> Result<(), AllocError> {
        for row in rows {
            self.put(row)?;
        }
        Ok(())
    }

    /// Adds the row of the function, where it has one and its numbers fit.
    fn add(&mut self, function: Result<Affine, Wide>) -> Result<(), AllocError> {
        if let Ok(function) = function {
            if let RowKind::Row(row) = Row::of(function) {
                self.put(&row)?;
            }
        }
        Ok(())
    }

    /// Adds where the function falls by at least 1 in a turn of the head's loop.
    fn add_falls(&mut self, head: &Head, function: &Affine) -> Result<(), AllocError> {
        for one in &head.moves {
            if is_turn(head, one) {
                self.add(fall(function, one))?;
            }
        }
        Ok(())
    }

    /// Adds where each of the test's rows falls in a turn.
    fn add_guard_falls(&mut self, head: &Head) -> Result<(), AllocError> {
        for row in &head.guards {
            self.add_falls(head, &row.affine)?;
        }
        Ok(())
    }

    /// Adds where the goal's rows are, where they are nearer than those of the test, and where their complements fall in a turn.
    fn add_goals(&mut self, head: &Head) -> Result<(), AllocError> {
        self.put_all(&head.goals)?;
        for guard in &head.guards {
            for goal in &head.goals {
                if let Ok(other) = goal.not() {
                    self.add(guard.affine.sub(&other.affine))?;
                    self.add_falls(head, &other.affine)?;
                }
            }
        }
        Ok(())
    }

    /// Adds where the rows that were found so far and aren't the test's come nearer to holding in a turn, and where rows of the test fall in
    /// two turns.
    fn add_deep(&mut self, alloc: Global, head: &Head) -> Result<(), AllocError> {
        for row in &self.others(alloc, head)? {
            if let Ok(other) = row.not() {
                self.add_falls(head, &other.affine)?;
            }
        }
        for row in &head.guards {
            for one in &head.moves {
                if is_turn(head, one) {
                    self.add(fall_in_two(&row.affine, one))?;
                }
            }
        }
        Ok(())
    }

    /// Adds where the rows that were found so far and aren't the test's don't fall in a turn.
    fn add_kept(&mut self, alloc: Global, head: &Head) -> Result<(), AllocError> {
        for row in &self.others(alloc, head)? {
            for one in &head.moves {
                if is_turn(head, one) {
                    self.add(rise(&row.affine, one))?;
                }
            }
        }
        Ok(())
    }

    /// The rows so far that aren't the test's.
    fn others(&self, alloc: Global, head: &Head) -> Result<Vec<Row>, AllocError> {
        let mut others = Vec::new(alloc);
        for row in &self.rows {
            if !head.guards.contains(row) {
                others.push(*row)?;
            }
        }
        Ok(others)
    }

    /// Adds the rows of the paths from the head.
    fn add_paths(&mut self, head: &Head) -> Result<(), AllocError> {
        for one in &head.moves {
            self.put_all(&one.rows)?;
        }
        Ok(())
    }
}

impl Loops {
    /// The rows that part the stores at the head. The only error is want of memory.
    pub fn rows(
        &self,
        alloc: Global,
        head: &Head,
        parting: Parting,
    ) -> Result<Vec<Row>, AllocError> {
        let mut splits = Splits::new(alloc, self.variables);
        splits.put_all(&head.guards)?;
        match parting {
            Parting::Guards => self.add_tests_around(&mut splits, head)?,
            Parting::Falls => add_falls_and_paths(&mut splits, head)?,
            Parting::Targets => {
                add_falls_and_paths(&mut splits, head)?;
                self.add_targets(alloc, &mut splits, head, Parting::Falls)?;
            }
            Parting::Deep => {
                splits.add_guard_falls(head)?;
                splits.add_deep(alloc, head)?;
                splits.add_paths(head)?;
                self.add_targets(alloc, &mut splits, head, Parting::Guards)?;
            }
            Parting::Kept => {
                splits.add_guard_falls(head)?;
                splits.add_kept(alloc, head)?;
                splits.add_paths(head)?;
                self.add_all_tests(&mut splits)?;
                self.add_targets(alloc, &mut splits, head, Parting::Guards)?;
                self.add_all_paths(&mut splits)?;
            }
        }
        Ok(splits.rows)
    }

    /// Adds the tests of the loops around the head's.
    fn add_tests_around(&self, splits: &mut Splits, head: &Head) -> Result<(), AllocError> {
        for index in self.around(head.label) {
            if let Some(outer) = self.heads.get(*index) {
                splits.put_all(&outer.guards)?;
            }
        }
        Ok(())
    }

    /// Adds the tests of all loops.
    fn add_all_tests(&self, splits: &mut Splits) -> Result<(), AllocError> {
        for head in &self.heads {
            splits.put_all(&head.guards)?;
        }
        Ok(())
    }

    /// Adds the rows of the paths from all heads, as they are.
    fn add_all_paths(&self, splits: &mut Splits) -> Result<(), AllocError> {
        for head in &self.heads {
            splits.add_paths(head)?;
        }
        Ok(())
    }

    /// Adds the rows of the next heads, by the parting `Guards` or `Falls`, before the paths to them.
    fn add_targets(
        &self,
        alloc: Global,
        splits: &mut Splits,
        head: &Head,
        parting: Parting,
    ) -> Result<(), AllocError> {
        for one in &head.moves {
            if let Target::Head(label) = one.to {
                if let Some(next) = self.head_at(label) {
                    let mut near = Splits::new(alloc, self.variables);
                    near.put_all(&next.guards)?;
                    if parting == Parting::Guards {
                        self.add_tests_around(&mut near, next)?;
                    } else {
                        add_falls_and_paths(&mut near, next)?;
                    }
                    for row in &near.rows {
                        splits.add(through(&row.affine, &one.after))?;
                    }
                }
            }
        }
        Ok(())
    }
}

/// Adds what the parting `Falls` has beside the test.
fn add_falls_and_paths(splits: &mut Splits, head: &Head) -> Result<(), AllocError> {
    splits.add_goals(head)?;
    splits.add_guard_falls(head)?;
    splits.add_paths(head)
}

/// Whether the move is a turn of the head's loop.
fn is_turn(head: &Head, one: &Move) -> bool {
    one.to == Target::Head(head.label)
}

/// At least 0 where the function falls by at least 1 along the move.
fn fall(function: &Affine, one: &Move) -> Result<Affine, Wide> {
    let behind = through(function, &one.after)?;
    function.sub(&behind)?.plus(-1)
}

/// At least 0 where the function falls by at least 1 along the move taken twice.
fn fall_in_two(function: &Affine, one: &Move) -> Result<Affine, Wide> {
    let behind = through(&through(function, &one.after)?, &one.after)?;
    function.sub(&behind)?.plus(-1)
}

/// At least 0 where the function doesn't fall along the move.
fn rise(function: &Affine, one: &Move) -> Result<Affine, Wide> {
    through(function, &one.after)?.sub(function)
}
