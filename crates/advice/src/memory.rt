//! What an adviser remembers: the last fact of its kind.
ghost use Rattle.std.specs.Prelude.{◌≡◌, Some};
ghost use Rattle.linear_cons.specs.Rows.{row_kind_of};
ghost use Rattle.advice.specs.Hints.{IsHintOf, noted, of_turn, row_in};

use crate::fact::{FactKind, Hint, LoopFact};
use linear_cons::{Affine, Row, RowKind};

/// A fact, and the turn in which it was observed.
#[derive(Clone, Copy, PartialEq, Eq, Debug)]
pub struct Noted {
    pub turn: u32,
    pub fact: LoopFact,
}

/// Remembers the fact if it is of the kind.
pub(crate) fn note(last: &mut Option<Noted>, kind: FactKind, turn: u32, fact: &LoopFact)
    ensures { last.new ≡ noted kind turn fact.now last.old }
{
    if fact.kind == kind {
        *last = Some(Noted { turn, fact: *fact });
    }
}

/// What the fact remembered hints, if it is one of the turn.
pub(crate) fn hint(last: &Option<Noted>, turn: u32) -> Option<Hint>
    ensures { IsHintOf (of_turn turn last.now) result }
{
    match last {
        Some(noted) => {
            if noted.turn == turn {
                hint_of(&noted.fact)
            } else {
                None
            }
        }
        None => None,
    }
}

/// The loop makes one turn more than its measure has as value, where this falls.
fn hint_of(fact: &LoopFact) -> Option<Hint>
    ensures { IsHintOf (Some fact.now) result }
{
    match fact.measure.plus(1) {
        Ok(turns) => Some(Hint {
            label: fact.label,
            split: [
                row_of(&fact.measure),
                fact.falls[0],
                fact.falls[1],
                fact.falls[2],
            ],
            turns,
        }),
        Err(_) => None,
    }
}

/// The row that says that the function is at least 0; a constant has none.
fn row_of(function: &Affine) -> Option<Row>
    ensures { result ≡ row_in (row_kind_of function.now) }
{
    match Row::of(*function) {
        RowKind::Row(row) => Some(row),
        RowKind::Always | RowKind::Never => None,
    }
}
