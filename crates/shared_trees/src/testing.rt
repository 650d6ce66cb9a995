//! Two trees moved backward over a test.
use crate::forest::Forest;
use crate::way::Way;
use decision_tree::Rank;
use linear_cons::{Row, Rows};
use std::alloc::AllocError;
use tree_unify::{Join, Stopped, TreeFault};

/// The trees behind the two outcomes of a test, and the conjunctions of its failure.
#[derive(Clone, Copy)]
struct Test<'a> {
    yes: usize,
    no: usize,
    fails: &'a [Rows],
}

/// Whether it is asked if the test may hold, or, once that is settled, if it may fail; then the way at which that began is known.
#[derive(Clone, Copy)]
enum Stage<'a> {
    Holding,
    Failing { holds: bool, start: &'a Way },
}

impl<R: Rank> Forest<R> {
    /// The tree before a test, with the trees behind its two outcomes given, as `back_test` makes it.
    pub fn back_test(
        &mut self,
        yes: usize,
        no: usize,
        yes_rows: &[Rows],
        no_rows: &[Rows],
    ) -> Result<usize, TreeFault> {
        let test = Test {
            yes,
            no,
            fails: no_rows,
        };
        let mut way = Way::new(self.alloc);
        match self.ask_next(&test, &mut way, yes_rows, Stage::Holding) {
            Ok(made) => self.trim(made),
            Err(_) => Err(self.fault),
        }
    }

    /// What stands where the conjunctions are left to try. Of those of the failure none is tried of which a row was refuted as that began.
    #[cycle(asking)]
    fn ask_next(
        &mut self,
        test: &Test<'_>,
        way: &mut Way,
        rest: &[Rows],
        stage: Stage<'_>,
    ) -> Result<usize, Stopped> {
        let Some((rows, others)) = rest.split_first() else {
            return self.settle(test, way, stage, false);
        };
        if self.is_refuted(stage, rows)? {
            return self.ask_next(test, way, others, stage);
        }
        self.ask_rows(test, way, rows.items(), others, stage)
    }

    /// What stands where the rows of a conjunction are left to ask, and behind them other conjunctions.
    #[cycle(asking)]
    fn ask_rows(
        &mut self,
        test: &Test<'_>,
        way: &mut Way,
        rows: &[Row],
        rest: &[Rows],
        stage: Stage<'_>,
    ) -> Result<usize, Stopped> {
        let Some((row, others)) = rows.split_first() else {
            return self.settle(test, way, stage, true);
        };
        let row = self.asked_row(row)?;
        match self.settled(way, row) {
            Some(true) => self.ask_rows(test, way, others, rest, stage),
            Some(false) => self.ask_next(test, way, rest, stage),
            None => {
                self.down(way, row)?;
                let yes = self.ask_rows(test, way, others, rest, stage)?;
                self.turn(way)?;
                let no = self.ask_next(test, way, rest, stage)?;
                way.up();
                self.join_sides(row, yes, no)
            }
        }
    }

    /// What stands where a conjunction was found to hold, or all to fail.
    #[cycle(asking)]
    fn settle(
        &mut self,
        test: &Test<'_>,
        way: &mut Way,
        stage: Stage<'_>,
        found: bool,
    ) -> Result<usize, Stopped> {
        match stage {
            Stage::Failing { holds, .. } => self.pass(test, holds, found),
            Stage::Holding => {
                if self.one_held(way, test.fails)? {
                    return self.pass(test, found, true);
                }
                let start = self.start_of(way)?;
                let stage = Stage::Failing {
                    holds: found,
                    start: &start,
                };
                self.ask_next(test, way, test.fails, stage)
            }
        }
    }

    /// The tree of the outcomes that are possible, with one more step at each claim.
    #[inline(never)]
    fn pass(&mut self, test: &Test<'_>, holds: bool, fails: bool) -> Result<usize, Stopped> {
        match (holds, fails) {
            (true, true) => self.pass_both(test),
            (true, false) => self.step(test.yes),
            (false, true) => self.step(test.no),
            (false, false) => match self.bottom() {
                Ok(none) => Ok(none),
                Err(error) => Err(self.stop(TreeFault::Memory(error))),
            },
        }
    }

    /// The later of both trees, with one more step at each claim.
    #[inline(never)]
    fn pass_both(&mut self, test: &Test<'_>) -> Result<usize, Stopped> {
        match self.join(Join::Later, test.yes, test.no) {
            Ok(both) => self.step(both),
            Err(fault) => Err(self.stop(fault)),
        }
    }

    /// The number of a row that is asked.
    #[inline(never)]
    fn asked_row(&mut self, row: &Row) -> Result<usize, Stopped> {
        match self.rows.number(row) {
            Ok(number) => Ok(number),
            Err(error) => Err(self.stop(TreeFault::Memory(error))),
        }
    }

    /// A way that settles what this one does.
    #[inline(never)]
    fn start_of(&mut self, way: &Way) -> Result<Way, Stopped> {
        match way.copy(self.alloc) {
            Ok(start) => Ok(start),
            Err(error) => Err(self.stop(TreeFault::Memory(error))),
        }
    }

    /// Whether a row of the conjunction was refuted as the stage began.
    #[inline(never)]
    fn is_refuted(&mut self, stage: Stage<'_>, rows: &Rows) -> Result<bool, Stopped> {
        let Stage::Failing { start, .. } = stage else {
            return Ok(false);
        };
        match self.one_refuted(start, rows.items()) {
            Ok(refuted) => Ok(refuted),
            Err(error) => Err(self.stop(TreeFault::Memory(error))),
        }
    }

    /// Whether the rows of the way settle that one of the conjunctions holds.
    #[inline(never)]
    fn one_held(&mut self, way: &Way, conjunctions: &[Rows]) -> Result<bool, Stopped> {
        for rows in conjunctions {
            match self.all_held(way, rows.items()) {
                Ok(false) => {}
                Ok(true) => return Ok(true),
                Err(error) => return Err(self.stop(TreeFault::Memory(error))),
            }
        }
        Ok(false)
    }

    /// Whether the rows of the way settle that each of the rows holds.
    fn all_held(&mut self, way: &Way, rows: &[Row]) -> Result<bool, AllocError> {
        for row in rows {
            let number = self.rows.number(row)?;
            if self.settled(way, number) != Some(true) {
                return Ok(false);
            }
        }
        Ok(true)
    }

    /// Whether the rows of the way settle that one of the rows fails.
    fn one_refuted(&mut self, way: &Way, rows: &[Row]) -> Result<bool, AllocError> {
        for row in rows {
            let number = self.rows.number(row)?;
            if self.settled(way, number) == Some(false) {
                return Ok(true);
            }
        }
        Ok(false)
    }
}
