//! The rows of a search, as a stack.
ghost use Rattle.std.specs.Prelude.{◌≡◌, [], true, IfOk, None, Ok, MatchOption, length, take};
ghost use Rattle.linear_cons.specs.declared.row.RowKind.TheVariants.{Row as Kept};
ghost use Rattle.linear_cons.specs.Settling.{settles};
ghost use Rattle.linear_solve.specs.Answers.{HasNoStore, IsPointOf};
ghost use Rattle.constraint_stack.specs.Stacks.{Adds, Gives, IsToldByOne, IsTried, is_there, restored};

use crate::finding::Finding;
use crate::reason::Reason;
use decision_tree::Trail;
use integer_point::{MOST_TO_SPLIT, Whole, decide_whole};
use linear_cons::{MOST_ROWS, Row, RowKind, Wide};
use linear_solve::{Answer, decide_tightest, opposes_one};
use std::alloc::{AllocError, Global};

/// The rows of a system as far as they could be formed, the first one first, and the first call that left 128 bits where one did.
#[derive(Drop)]
pub struct ConstraintStack {
    alloc: Global,
    pub rows: Trail,
    pub wide: Option<Wide>,
}

/// How far a stack was filled: how many rows it had, and whether a call had left 128 bits.
#[derive(Clone, Copy)]
pub struct Checkpoint {
    pub rows: usize,
    pub is_wide: bool,
}

impl ConstraintStack {
    ghost use Rattle.constraint_stack.specs.Searches.{WhereHeld};

    /// A stack without rows. It takes no memory.
    pub fn new(alloc: Global) -> ConstraintStack
        ensures rows { result.rows ≡ [] }
        ensures wide { result.wide ≡ None }
    {
        ConstraintStack {
            alloc,
            rows: Trail::new(alloc),
            wide: None,
        }
    }

    /// How far it is filled.
    pub fn checkpoint(&self) -> Checkpoint
        ensures rows { result.rows ≡ length self.now.rows }
        ensures wide { result.is_wide ≡ is_there self.now.wide }
    {
        Checkpoint {
            rows: self.rows.depth(),
            is_wide: self.wide.is_some(),
        }
    }

    /// Takes back what came after the checkpoint.
    pub fn restore(&mut self, checkpoint: Checkpoint)
        ensures rows { self.new.rows ≡ take checkpoint.rows self.old.rows }
        ensures wide { self.new.wide ≡ restored checkpoint.is_wide self.old.wide }
    {
        while self.rows.depth() > checkpoint.rows {
            self.rows.up();
        }
        if !checkpoint.is_wide {
            self.wide = None;
        }
    }

    /// Adds what was formed, a row or the operands of a call that left 128 bits. False where no store meets the rows with it, since it is
    /// never met or is opposed to one of them; then nothing is added. So no two of the rows are opposed. After want of memory the rows are
    /// as before.
    #[inline(never)]
    pub fn add(&mut self, formed: Result<RowKind, Wide>) -> Result<bool, AllocError>
        ensures { IfOk result (λ added. Adds formed self.old.rows self.old.wide added self.new.rows self.new.wide) }
    {
        match formed {
            Ok(RowKind::Always) => Ok(true),
            Ok(RowKind::Never) => Ok(false),
            Ok(RowKind::Row(row)) => self.add_row(&row),
            Err(wide) => {
                if self.wide.is_none() {
                    self.wide = Some(wide);
                }
                Ok(true)
            }
        }
    }

    /// Adds a row, unless it is opposed to one of those on the stack: then it is false. After want of memory the rows are as before.
    #[inline(never)]
    pub fn add_row(&mut self, row: &Row) -> Result<bool, AllocError>
        ensures { IfOk result (λ added. Adds (Ok (Kept row.now)) self.old.rows self.old.wide added self.new.rows self.new.wide) }
    {
        if opposes_one(row, self.rows.rows()) {
            return Ok(false);
        }
        self.rows.down(row)?;
        Ok(true)
    }

    /// Whether a row on the stack tells the row: then no store meets the rows on the stack with its complement, which needn't be formed to see that.
    pub fn tells(&self, row: &Row) -> bool
        ensures { result ≡ true → IsToldByOne row.now self.now.rows }
    {
        for given in self.rows.rows() {
            if given.tells(row) {
                return true;
            }
        }
        false
    }

    /// Whether the rows on the stack settle the row by their linear parts: that it holds, or that it fails.
    pub fn settles(&self, row: &Row) -> Option<bool>
        ensures { result ≡ settles self.now.rows row.now }
    {
        self.rows.settles(row)
    }

    /// Looks for a reason against a system of the edge whose rows these are. False where no store meets them.
    #[inline(never)]
    pub fn check(&self, edge: u32, found: &mut Option<Finding>) -> Result<bool, AllocError>
        ensures { IfOk result (λ refuted. WhereHeld self.now (λ items. IsTried items edge refuted found.new)) }
    {
        let Some(reason) = self.reason()? else {
            return Ok(false);
        };
        let reason = match self.wide {
            Some(wide) => Reason::Wide(wide),
            None => reason,
        };
        *found = Some(Finding { edge, reason });
        Ok(true)
    }

    /// What the rows alone give as a reason. `None` where no store meets them.
    fn reason(&self) -> Result<Option<Reason>, AllocError>
        ensures { IfOk result (λ found. MatchOption found (HasNoStore self.now.rows) (Gives self.now.rows)) }
    {
        let rows = self.rows.rows();
        if rows.len() > MOST_ROWS {
            let count = rows.len().try_into().unwrap_or(u32::MAX);
            return Ok(Some(Reason::Rows { count }));
        }
        match decide_tightest(self.alloc, rows)? {
            Answer::Empty => Ok(None),
            Answer::Point { num, den } => {
                let reason = by_point(self.alloc, rows, num, den)?;
                Ok(reason)
            }
            Answer::Wide(wide) => Ok(Some(Reason::Wide(wide))),
            Answer::Rows { count } => Ok(Some(Reason::Rows { count })),
        }
    }
}

/// What a point that meets the rows gives as a reason: where it is no store, one is looked for. `None` where no store meets the rows.
fn by_point(
    alloc: Global,
    rows: &[Row],
    num: [i128; 16],
    den: i128,
) -> Result<Option<Reason>, AllocError>
    requires { IsPointOf rows.now num den }
    ensures { IfOk result (λ found. MatchOption found (HasNoStore rows.now) (Gives rows.now)) }
{
    if den == 1 || rows.len() > MOST_TO_SPLIT {
        return Ok(Some(Reason::Point { num, den }));
    }
    match decide_whole(alloc, rows)? {
        Whole::Empty => Ok(None),
        Whole::Store(store) => Ok(Some(Reason::Point { num: store, den: 1 })),
        Whole::Deep { path: _ } => Ok(Some(Reason::Point { num, den })),
        Whole::Wide(_) => Ok(Some(Reason::Point { num, den })),
        Whole::Rows { count: _ } => Ok(Some(Reason::Point { num, den })),
    }
}
