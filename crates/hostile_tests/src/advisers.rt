//! Advisers whose hints say nothing, or are false, or are refuted by points with fractions alone.
ghost use Rattle.std.specs.Prelude.{◌≡◌, ◌≤◌, ◌^◌, All, IsTrue};

use crate::endings::ends_with;
use advice::{Adviser, Hint, LoopFact};
use function_top::Status;
use linear_cons::{Affine, Row, RowKind};
use memory_runs::{
    COUNT_UP, COUNT_UP_REPORT, COUNTDOWN, NO_OPTIONS, TWO_SPEEDS, outcome_by, unadvised,
};
use std::alloc::{AllocError, Global};
use std::process::Abort;
use std::test::Fail;

// Hints in each turn that the loop at the label makes so many turns, and one more than in the turn before where it rises.
#[derive(Drop)]
struct Hinting {
    asked: u64,
    label: u32,
    split: Option<Row>,
    turns: Affine,
    rises: bool,
}

impl Adviser for Hinting {
    ghost asked_of = { λ adviser. adviser.asked };

    fn observe(&mut self, _turn: u32, _fact: &LoopFact) {}

    fn hint(&mut self, _turn: u32) -> Option<Hint> {
        self.asked += 1;
        let turns = self.turns;
        if self.rises {
            self.turns.constant = turns.constant.saturating_add(1);
        }
        Some(Hint {
            label: self.label,
            split: [self.split, None, None, None],
            turns,
        })
    }

    fn asked(&self) -> u64 {
        self.asked
    }
}

// One that was not asked, and hints the same in each turn.
fn steady(label: u32, turns: Affine) -> Hinting
    ensures unasked { result.asked ≡ 0 }
{
    Hinting {
        asked: 0,
        label,
        split: None,
        turns,
        rises: false,
    }
}

// Each has the test of a loop at label 1.
const LOOPS: &[&str] = &[
    COUNTDOWN,
    TWO_SPEEDS,
    "int main() { int x; while (x != 0) x = x - 1; }",
    "int main() { int x, y; while (x > 0) x = x + y; }",
];

// One sweep before widening: linear programs are asked only with an adviser and two.
const ONE_SWEEP: &[&str] = &["function", "--delay=1"];

#[test]
fn hints_that_say_nothing_change_nothing(rt: HostRuntime) -> Result<(), Fail> {
    let alloc = rt.alloc();
    for text in LOOPS {
        let (status, written) = unadvised(alloc, ONE_SWEEP, text.as_bytes())?;
        let outcome = with_two(alloc, ONE_SWEEP, text)?;
        ends_with(&rt, &outcome, status, &written, text);
    }
    Ok(())
}

// What comes of a text with two advisers who say nothing.
fn with_two(alloc: Global, words: &[&str], text: &str) -> Result<(Status, Vec<u8>), AllocError> {
    let mut advisers: Vec<Box<dyn Adviser>> = Vec::with_capacity(alloc, 2)?;
    advisers.push(Box::new(alloc, steady(1, Affine::constant(0)))?)?;
    advisers.push(Box::new(alloc, steady(1, Affine::constant(0)))?)?;
    outcome_by(alloc, words, text.as_bytes(), &mut advisers)
}

#[test]
fn how_often_an_adviser_was_asked_is_told(rt: HostRuntime) -> Result<(), Fail> {
    let alloc = rt.alloc();
    let mut advisers: Vec<Box<dyn Adviser>> = Vec::with_capacity(alloc, 1)?;
    advisers.push(Box::new(alloc, steady(1, Affine::constant(0)))?)?;
    let words = ["function", "--explain"];
    let (status, report) = outcome_by(alloc, &words, COUNT_UP.as_bytes(), &mut advisers)?;
    assert!(rt;
        report
            .as_slice()
            .ends_with(b"\nadviser 1 asked 8\nverdict: some inputs\n")
    );
    assert_eq!(rt; status, Status::SomeInputs);
    Ok(())
}

#[test]
fn nobody_need_advise(rt: HostRuntime) -> Result<(), Fail> {
    let outcome = unadvised(rt.alloc(), NO_OPTIONS, COUNT_UP.as_bytes())?;
    ends_with(
        &rt,
        &outcome,
        Status::SomeInputs,
        COUNT_UP_REPORT.as_bytes(),
        COUNT_UP,
    );
    Ok(())
}

/// Loops whose first branch no store takes, though points with fractions do: by a parity, and by Pugh's example ("The Omega test", 1991).
const BRANCHES_NOT_TAKEN: &[&str] = &[
    "int main() { int x, y, z; while (x > 0) { if (x <= 3 && y == 2*x && y == 2*z + 1) x = x + 1; else x = x - 1; } }",
    "int main() { int x, y; while (x > 0) { if (11*x + 13*y >= 27 && 11*x + 13*y <= 45 && 7*x - 9*y >= -10 && 7*x - 9*y <= 4) x = x + 1; else x = x - 1; } }",
];

// The loop makes x turns from where x is at least 1.
#[test]
fn a_hint_stands_where_no_store_refutes_it(rt: HostRuntime) -> Result<(), Fail> {
    let alloc = rt.alloc();
    for text in BRANCHES_NOT_TAKEN {
        let mut adviser = steady(1, Affine::var(0));
        adviser.split = at_least_one();
        assert!(rt; adviser.split.is_some());
        let mut advisers: Vec<Box<dyn Adviser>> = Vec::with_capacity(alloc, 1)?;
        advisers.push(Box::new(alloc, adviser)?)?;
        let (status, report) = outcome_by(alloc, NO_OPTIONS, text.as_bytes(), &mut advisers)?;
        assert_eq!(rt; status, Status::AllInputs, "on {text}");
        assert!(rt;
            report
                .as_slice()
                .ends_with(b"unknown:\nverdict: all inputs\n"),
            "on {text}"
        );
    }
    Ok(())
}

// x - 1 >= 0.
fn at_least_one() -> Option<Row> {
    match Affine::var(0).plus(-1).map(Row::of) {
        Ok(RowKind::Row(row)) => Some(row),
        _ => None,
    }
}

/// What is hinted of a label: turns, as so many times x and a constant.
struct Lie {
    told: &'static str,
    label: u32,
    coefficient: i128,
    constant: i128,
}

const LIES: &[Lie] = &[
    Lie {
        told: "no turns",
        label: 1,
        coefficient: 0,
        constant: 0,
    },
    Lie {
        told: "one turn",
        label: 1,
        coefficient: 0,
        constant: 1,
    },
    Lie {
        told: "a loop that there isn't",
        label: 4_000_000_000,
        coefficient: 0,
        constant: 0,
    },
    Lie {
        told: "turns of which no bound of steps can be made",
        label: 1,
        coefficient: i128::MAX,
        constant: 0,
    },
    Lie {
        told: "the least numbers there are",
        label: 1,
        coefficient: i128::MIN,
        constant: i128::MIN,
    },
    Lie {
        told: "turns below 0 everywhere",
        label: 1,
        coefficient: 0,
        constant: -1,
    },
];

// One adviser alone is asked in each turn, as long as an input has no claim.
#[test]
fn a_lie_is_not_believed(rt: HostRuntime) -> Result<(), Fail> {
    for lie in LIES {
        let mut turns = Affine::constant(lie.constant);
        turns.coef[0] = lie.coefficient;
        let mut advisers: Vec<Box<dyn Adviser>> = Vec::with_capacity(rt.alloc(), 1)?;
        advisers.push(Box::new(rt.alloc(), steady(lie.label, turns))?)?;
        are_not_believed(&rt, &mut advisers, lie.told)?;
    }
    Ok(())
}

// The advisers change nothing on the loop without an end, and each is asked eight times.
fn are_not_believed(
    rt: &(impl Abort + AllocGlobal),
    advisers: &mut Vec<Box<dyn Adviser>>,
    told: &str,
) -> Result<(), AllocError>
    requires { All (λ adviser. asked_of adviser ≤ 2 ^ 32) advisers.old.items }
{
    let count = advisers.len();
    let outcome = outcome_by(rt.alloc(), NO_OPTIONS, COUNT_UP.as_bytes(), advisers)?;
    ends_with(
        rt,
        &outcome,
        Status::SomeInputs,
        COUNT_UP_REPORT.as_bytes(),
        told,
    );
    assert_eq!(rt; advisers.len(), count, "{told}");
    for adviser in advisers.iter() {
        assert_eq!(rt; adviser.asked(), 8, "{told}");
    }
    Ok(())
}

// Of the eight numbers of turns that each hints at none is hinted at by another.
#[test]
fn a_hundred_lies_are_not_believed(rt: HostRuntime) -> Result<(), Fail> {
    let alloc = rt.alloc();
    let mut advisers: Vec<Box<dyn Adviser>> = Vec::with_capacity(alloc, 100)?;
    for number in 0u8..100 {
        let mut adviser = steady(1, Affine::constant(i128::from(number) * 8));
        adviser.rises = true;
        advisers.push(Box::new(alloc, adviser)?)?;
    }
    assert!(rt; were_asked_little(&advisers));
    assert_eq!(rt; advisers.len(), 100);
    are_not_believed(&rt, &mut advisers, "a hundred lies")?;
    Ok(())
}

// Whether each was asked no more often than a run allows for.
fn were_asked_little(advisers: &[Box<dyn Adviser>]) -> bool
    ensures { IsTrue result → All (λ adviser. asked_of adviser ≤ 2 ^ 32) advisers.now }
{
    for adviser in advisers {
        if times_asked(adviser) > 1 << 32 {
            return false;
        }
    }
    true
}

fn times_asked(adviser: &Box<dyn Adviser>) -> u64
    ensures { result ≡ asked_of adviser.now }
{
    adviser.asked()
}
