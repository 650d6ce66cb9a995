//! Facts and their hints by hand.

ghost use Rattle.std.specs.Prelude.{◌<◌, ◌-◌, ◌^◌};

use advice::{Adviser, FactAdviser, FactKind, Hint, LoopFact, consult};
use linear_cons::{Affine, PLACES, Row, RowKind};
use std::alloc::{AllocError, Global};
use std::test::Fail;

/// The coefficients of the first two variables, and the constant.
type Line = (i128, i128, i128);

/// The function of the line.
fn function((x, y, constant): Line) -> Affine {
    let mut coef = [0; PLACES];
    coef[0] = x;
    coef[1] = y;
    Affine { coef, constant }
}

/// The row that says that the function of the line is at least 0, where it has one.
fn split_row(line: Line) -> Option<Row> {
    match Row::of(function(line)) {
        RowKind::Row(row) => Some(row),
        RowKind::Always | RowKind::Never => None,
    }
}

/// A fact with at most one fall.
fn fact(label: u32, kind: FactKind, measure: Affine, fall: Option<Row>) -> LoopFact {
    LoopFact {
        label,
        kind,
        measure,
        falls: [fall, None, None],
    }
}

/// The hint with at most two split rows.
fn split(label: u32, first: Option<Row>, second: Option<Row>, turns: Affine) -> Option<Hint> {
    Some(Hint {
        label,
        split: [first, second, None, None],
        turns,
    })
}

#[test]
fn hints_of_facts(rt: HostRuntime) -> Result<(), Fail> {
    // x counts down by -y at label 1, and x lies at a distance of x from its lower end at label 2.
    let falling = split_row((0, -1, -1));
    let guard = fact(1, FactKind::Guard, function((1, 0, -1)), falling);
    let range = fact(2, FactKind::Range, function((1, 0, 0)), None);
    let counting = split(1, split_row((1, 0, -1)), falling, function((1, 0, 0)));
    let distance = split(2, split_row((1, 0, 0)), None, function((1, 0, 1)));
    let mut first = FactAdviser::on(FactKind::Guard);
    let mut second = FactAdviser::on(FactKind::Range);
    first.observe(3, &guard);
    second.observe(3, &guard);
    assert!(rt; first.hint(3) == counting);
    assert!(rt; second.hint(3) == None);
    first.observe(4, &range);
    second.observe(4, &range);
    // The fact of the turn before is none of this one.
    assert!(rt; first.hint(4) == None);
    assert!(rt; second.hint(4) == distance);
    // The last fact counts, a constant measure has no row, and one more has to fit.
    let constant = fact(5, FactKind::Guard, function((0, 0, 7)), None);
    let steep = fact(6, FactKind::Guard, function((1, 0, i128::MAX)), None);
    first.observe(5, &guard);
    first.observe(5, &constant);
    assert!(rt; first.hint(5) == split(5, None, None, function((0, 0, 8))));
    first.observe(5, &steep);
    assert!(rt; first.hint(5) == None);
    assert!(rt; first.asked() == 4);
    assert!(rt; second.asked() == 2);
    Ok(())
}

/// What two advisers on facts of these kinds hint in turn 3.
fn consulted(
    alloc: Global,
    facts: &[LoopFact],
    (first, second): (FactKind, FactKind),
) -> Result<Vec<Hint>, AllocError> {
    let first = Box::new(alloc, FactAdviser::on(first))?;
    let second = Box::new(alloc, FactAdviser::on(second))?;
    hints_of(alloc, facts, first, second)
}

/// The same of two advisers who were asked little.
fn hints_of(
    alloc: Global,
    facts: &[LoopFact],
    first: Box<dyn Adviser>,
    second: Box<dyn Adviser>,
) -> Result<Vec<Hint>, AllocError>
    requires first { asked_of first < 2 ^ 64 - 1 }
    requires second { asked_of second < 2 ^ 64 - 1 }
{
    let mut advisers: Vec<Box<dyn Adviser>> = Vec::with_capacity(alloc, 2)?;
    advisers.push(first)?;
    advisers.push(second)?;
    consult(alloc, &mut advisers, 3, facts)
}

/// Whether the hints are these.
fn are_these(hints: &[Hint], wanted: &[Option<Hint>]) -> bool {
    if hints.len() != wanted.len() {
        return false;
    }
    for (hint, wanted) in hints.iter().zip(wanted) {
        if *wanted != Some(*hint) {
            return false;
        }
    }
    true
}

#[test]
fn hints_come_in_the_order_of_the_advisers(rt: HostRuntime) -> Result<(), Fail> {
    let alloc = rt.alloc();
    let guard = fact(1, FactKind::Guard, function((1, 0, -1)), None);
    let range = fact(2, FactKind::Range, function((1, 0, 0)), None);
    let counting = split(1, split_row((1, 0, -1)), None, function((1, 0, 0)));
    let distance = split(2, split_row((1, 0, 0)), None, function((1, 0, 1)));
    let hints = consulted(alloc, &[range, guard], (FactKind::Guard, FactKind::Range))?;
    assert!(rt; are_these(&hints, &[counting, distance]));
    let hints = consulted(alloc, &[range, guard], (FactKind::Range, FactKind::Guard))?;
    assert!(rt; are_these(&hints, &[distance, counting]));
    // Who has no hint leaves no gap.
    let hints = consulted(alloc, &[range], (FactKind::Guard, FactKind::Range))?;
    assert!(rt; are_these(&hints, &[distance]));
    Ok(())
}
