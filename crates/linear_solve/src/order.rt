//! Which place is eliminated next.
ghost use Rattle.std.specs.Prelude.{◌≡◌, ◌<◌, ◌+◌, ◌≤◌, ◌⊎◌, ℕ, IfSome, MatchOption, length, false, true};
ghost use Rattle.linear_cons.specs.Functions.{coefficient};
ghost use Rattle.linear_solve.specs.Counts.{AreRaised, HaveRoom, count_at};
ghost use Rattle.linear_solve.specs.Choices.{IsAmong};
ghost use Rattle.linear_solve.specs.Elimination.{IsNext, lowers_of, one_above, one_below, uppers_of};
ghost use Rattle.linear_solve.specs.Systems.{occurs};

use linear_cons::{PLACES, Row};

/// How many rows bound the place from below, and how many from above.
pub(crate) fn sides(rows: &[Row], place: u8) -> (usize, usize)
    requires { place < 16 }
    ensures lowers { result.0 ≡ lowers_of place rows.now }
    ensures uppers { result.1 ≡ uppers_of place rows.now }
    ensures together { result.0 + result.1 ≤ length rows.now }
{
    let mut lowers = 0;
    let mut uppers = 0;
    for row in rows {
        let coefficient = row.affine.coef[place as usize];
        if coefficient > 0 {
            lowers += 1;
        } else if coefficient < 0 {
            uppers += 1;
        }
    }
    (lowers, uppers)
}

/// How many rows bound each place from below, and how many from above.
#[derive(Clone, Copy, PartialEq, Eq, Debug)]
struct Counts {
    lowers: [usize; PLACES],
    uppers: [usize; PLACES],
}

impl Counts {
    /// Counts each row once for all places.
    fn of(rows: &[Row]) -> Counts
        ensures lowers { (place : ℕ) → place < 16 → count_at result.lowers place ≡ lowers_of place rows.now }
        ensures uppers { (place : ℕ) → place < 16 → count_at result.uppers place ≡ uppers_of place rows.now }
    {
        let mut counts = Counts {
            lowers: [0; PLACES],
            uppers: [0; PLACES],
        };
        for row in rows {
            counts.add(row);
        }
        counts
    }

    /// Counts one row more.
    fn add(&mut self, row: &Row)
        requires room { HaveRoom self.old.lowers × HaveRoom self.old.uppers }
        ensures lowers { AreRaised (λ place. one_above (coefficient row.now.affine place)) self.old.lowers self.new.lowers }
        ensures uppers { AreRaised (λ place. one_below (coefficient row.now.affine place)) self.old.uppers self.new.uppers }
    {
        for place in 0..PLACES {
            let coefficient = row.affine.coef[place];
            self.lowers[place] += above(coefficient);
            self.uppers[place] += below(coefficient);
        }
    }
}

/// A place, and how many pairs of a row from below and one from above it has.
#[derive(Clone, Copy, PartialEq, Eq, Debug)]
struct Choice {
    place: u8,
    pairs: u128,
}

/// Of the places that occur, the least of those with the fewest pairs of a row from below and one
/// from above. `None` where no place occurs.
pub(crate) fn next_place(rows: &[Row]) -> Option<u8>
    ensures { MatchOption result ((place : ℕ) → place < 16 → occurs place rows.now ≡ false) (IsNext rows.now) }
{
    let mut best = None;
    let counts = Counts::of(rows);
    for place in 0..PLACES as u8 {
        let lowers = counts.lowers[place as usize];
        let uppers = counts.uppers[place as usize];
        if lowers + uppers != 0 {
            let pairs = lowers as u128 * uppers as u128;
            best = Some(fewer(best, Choice { place, pairs }));
        }
    }
    match best {
        Some(choice) => Some(choice.place),
        None => None,
    }
}

/// Of the places that occur and whose elimination loses no whole number, the least of those with the fewest pairs. `None` where there is none.
pub(crate) fn next_exact_place(rows: &[Row]) -> Option<u8>
    ensures { IfSome result (λ place. (place < 16) × (occurs place rows.now ≡ true)) }
{
    let mut best = None;
    for place in 0..PLACES as u8 {
        if let Some(choice) = exact_choice(rows, place) {
            best = Some(fewer(best, choice));
        }
    }
    match best {
        Some(choice) => Some(choice.place),
        None => None,
    }
}

/// The place, where it occurs and its elimination loses no whole number: where all rows that bound it from one side have the coefficient 1
/// or -1 there (Pugh, "The Omega test", 1991).
fn exact_choice(rows: &[Row], place: u8) -> Option<Choice>
    requires { place < 16 }
    ensures { IfSome result (λ choice. IsAmong rows.now choice) }
{
    let (lowers, uppers) = sides(rows, place);
    if lowers + uppers == 0 {
        return None;
    }
    if !is_exact(rows, place) {
        return None;
    }
    let pairs = lowers as u128 * uppers as u128;
    Some(Choice { place, pairs })
}

/// Whether each row from below has the coefficient 1 at the place, or each from above -1.
fn is_exact(rows: &[Row], place: u8) -> bool
    requires { place < 16 }
{
    let mut from_below = true;
    let mut from_above = true;
    for row in rows {
        let coefficient = row.affine.coef[place as usize];
        if coefficient > 1 {
            from_below = false;
        }
        if coefficient < -1 {
            from_above = false;
        }
    }
    from_below || from_above
}

/// The choice with fewer pairs; the older where both have as many.
fn fewer(best: Option<Choice>, next: Choice) -> Choice
    ensures { MatchOption best (result ≡ next) (λ old. ((result ≡ next) × (next.pairs < old.pairs))
        ⊎ ((result ≡ old) × (old.pairs ≤ next.pairs))) }
{
    match best {
        Some(old) => { if next.pairs < old.pairs { next } else { old } }
        None => next,
    }
}

/// 1 for a number above 0, else 0.
fn above(number: i128) -> usize
    ensures exact { result ≡ one_above number }
    ensures small { result ≤ 1 }
{
    if number > 0 { 1 } else { 0 }
}

/// 1 for a number below 0, else 0.
fn below(number: i128) -> usize
    ensures exact { result ≡ one_below number }
    ensures small { result ≤ 1 }
{
    if number < 0 { 1 } else { 0 }
}
