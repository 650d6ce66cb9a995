//! Lists of rows.
ghost use Rattle.std.specs.Prelude.{◌≡◌};

use crate::row::Row;
use std::marker::Model;

/// The most rows that a system may have, and that an elimination may leave.
pub const MOST_ROWS: usize = 4096;

/// A list of rows; contracts see it as the list.
#[derive(Drop)]
pub struct Rows {
    rows: Vec<Row>,
}

impl Model for Rows {
    ghost use Rattle.std.specs.Prelude.{List};
    ghost use Rattle.linear_cons.specs.declared.row.Row.{Row};

    ghost Value = { List Row };

    ghost view = { λ inside. inside.rows.items };
}

impl Rows {
    /// The list of the vector's rows. It takes no memory.
    pub fn of(rows: Vec<Row>) -> Rows
        ensures { result ≡ rows.items }
    {
        Rows { rows }
    }

    /// The rows as a slice.
    pub fn items(&self) -> &[Row]
        ensures { result.now ≡ self.now }
    {
        &self.rows
    }

    /// The vector of the rows. It takes no memory.
    pub fn into_vec(self) -> Vec<Row>
        ensures { result.items ≡ self }
    {
        self.rows
    }
}
