//! Whether rows are met, seen without the solver where that is easy.
use linear_cons::{Affine, Row};
use linear_solve::{opposes_one, tightest};
use loop_moves::{Search, Stop};

/// Of so many rows each is held against each.
const FEW_ROWS: usize = 32;

/// What `Search::met` answers. The solver isn't asked where two of a few rows are opposed, nor where a store near 0 meets all; that counts as a test too.
pub(crate) fn met(search: &mut Search, rows: Vec<Row>) -> Result<Option<Vec<Row>>, Stop> {
    if search.tests > 0 && rows.len() <= FEW_ROWS && has_opposed(&rows) {
        search.tests = search.tests.saturating_sub(1);
        return Ok(None);
    }
    if search.tests > 0 && are_met_near(&rows) {
        search.tests = search.tests.saturating_sub(1);
        return Ok(Some(tightest(rows)));
    }
    search.met(rows)
}

/// Whether two of the rows are opposed.
fn has_opposed(rows: &[Row]) -> bool {
    rows.iter()
        .any(|row| row.affine.constant < 0 && opposes_one(row, rows))
}

/// Whether the rows are met where each variable is as near to 0 as the rows of it alone let it be.
fn are_met_near(rows: &[Row]) -> bool {
    let store = nearest(rows);
    rows.iter().all(|row| is_met(&row.affine, &store))
}

/// Whether the function is seen to be at least 0 there.
fn is_met(function: &Affine, store: &[i128; 16]) -> bool {
    match alone(function) {
        Some((place, number)) => match store.get(place) {
            Some(value) => beyond(*value, number, function.constant) == *value,
            None => false,
        },
        None => match function.value(store) {
            Ok(value) => value >= 0,
            Err(_) => false,
        },
    }
}

/// For each variable the number next to 0 to which the rows of it alone take it.
fn nearest(rows: &[Row]) -> [i128; 16] {
    let mut store = [0; 16];
    for row in rows {
        if row.affine.constant < 0 {
            if let Some((place, number)) = alone(&row.affine) {
                if let Some(value) = store.get_mut(place) {
                    *value = beyond(*value, number, row.affine.constant);
                }
            }
        }
    }
    store
}

/// The value, or the next one that meets the row of one variable with that coefficient, which is 1 or -1, and that constant.
fn beyond(value: i128, number: i128, constant: i128) -> i128 {
    if number < 0 {
        value.min(constant)
    } else {
        value.max(constant.saturating_neg())
    }
}

/// The only place where the function's coefficient isn't 0, with that, if there is only one.
fn alone(function: &Affine) -> Option<(usize, i128)> {
    let mut found = None;
    for (place, number) in function.coef.iter().enumerate() {
        if *number != 0 {
            if found.is_some() {
                return None;
            }
            found = Some((place, *number));
        }
    }
    found
}
