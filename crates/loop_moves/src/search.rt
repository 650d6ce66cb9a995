//! The work that is left to a search.
use crate::stop::Stop;
use linear_cons::Row;
use linear_solve::{Answer, decide_tightest, tightest};
use std::alloc::Global;

/// The most tests whether rows are met. Thirty loops in a row get their ranks within them.
const MOST_TESTS: u32 = 65_536;

/// The most exchanges of all linear programs.
const MOST_EXCHANGES: u32 = 40_000;

/// The most rows that are tested. More count as met.
const MOST_ROWS: usize = 200;

/// Where a search has its memory from, and what work is left to it: tests whether rows are met, and exchanges of linear programs.
#[derive(Drop)]
pub struct Search {
    pub alloc: Global,
    pub tests: u32,
    pub exchanges: u32,
}

impl Search {
    /// A search with all its work before it.
    pub fn new(alloc: Global) -> Search {
        Search {
            alloc,
            tests: MOST_TESTS,
            exchanges: MOST_EXCHANGES,
        }
    }

    /// The tightest of the rows, or none where they are seen to be met nowhere. Given up where no test is left; the other error is want of memory.
    pub fn met(&mut self, rows: Vec<Row>) -> Result<Option<Vec<Row>>, Stop> {
        if self.tests == 0 {
            return Err(Stop::GivenUp);
        }
        self.tests = self.tests.saturating_sub(1);
        let rows = tightest(rows);
        if rows.len() > MOST_ROWS {
            return Ok(Some(rows));
        }
        match decide_tightest(self.alloc, &rows)? {
            Answer::Empty => Ok(None),
            _ => Ok(Some(rows)),
        }
    }
}
