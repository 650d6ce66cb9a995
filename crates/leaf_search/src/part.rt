//! What the check needs to know of a formula.
ghost use Rattle.std.specs.Prelude.{◌≡◌};
ghost use Rattle.ctl_formula.specs.Mirror.{ctl, ctl_of_kind};
ghost use Rattle.leaf_search.specs.Parts as parts;

use ctl_formula::Formula;
use linear_cons::{Affine, RowKind};

/// The operator of a formula in normal form, or the atom that it is.
#[derive(Clone, Copy)]
pub enum Part {
    True,
    /// Nothing shows it.
    Never,
    Exit,
    NotExit,
    /// The function's value is at least 0.
    Least(Affine),
    Both,
    Either,
    Next { all: bool },
    /// `ends` says that the goal is `exit`.
    Until { all: bool, ends: bool },
    Weak { all: bool },
}

impl Part {
    /// What the formula is.
    pub fn of(formula: &Formula) -> Part
        ensures { result ≡ parts.part_of (ctl formula.now) }
    {
        match formula {
            Formula::True => Part::True,
            Formula::False => Part::Never,
            Formula::Exit => Part::Exit,
            Formula::NotExit => Part::NotExit,
            Formula::Holds(kind) => Part::of_row(kind),
            Formula::Not(_) => Part::Never,
            Formula::And(_, _) => Part::Both,
            Formula::Or(_, _) => Part::Either,
            Formula::Next { all, part: _ } => Part::Next { all: *all },
            Formula::Until { all, keep: _, goal } => Part::Until {
                all: *all,
                ends: is_exit(goal),
            },
            Formula::Weak {
                all,
                keep: _,
                goal: _,
            } => Part::Weak { all: *all },
        }
    }

    fn of_row(kind: &RowKind) -> Part
        ensures { result ≡ parts.part_of (ctl_of_kind kind.now) }
    {
        match kind {
            RowKind::Always => Part::True,
            RowKind::Never => Part::Never,
            RowKind::Row(row) => Part::Least(row.affine),
        }
    }

    /// Some successor is spoken of.
    pub(crate) fn is_existential(&self) -> bool
        ensures { result ≡ parts.is_existential self.now }
    {
        match self {
            Part::Next { all } | Part::Until { all, ends: _ } | Part::Weak { all } => !*all,
            Part::True
            | Part::Never
            | Part::Exit
            | Part::NotExit
            | Part::Least(_)
            | Part::Both
            | Part::Either => false,
        }
    }

    /// A leaf may say that the end is there.
    pub(crate) fn may_end(&self) -> bool
        ensures { result ≡ parts.may_end self.now }
    {
        match self {
            Part::Exit => true,
            Part::Until { all: _, ends } => *ends,
            Part::True
            | Part::Never
            | Part::NotExit
            | Part::Least(_)
            | Part::Both
            | Part::Either
            | Part::Next { .. }
            | Part::Weak { .. } => false,
        }
    }

    /// The atom holds at each store of the label.
    pub(crate) fn holds_at(&self, label: u32) -> bool
        ensures { result ≡ parts.holds_at self.now label }
    {
        match self {
            Part::True => true,
            Part::NotExit => label != 0,
            Part::Never
            | Part::Exit
            | Part::Least(_)
            | Part::Both
            | Part::Either
            | Part::Next { .. }
            | Part::Until { .. }
            | Part::Weak { .. } => false,
        }
    }

    /// The number of the operand that holds where a leaf of the label says that the goal is met now.
    pub(crate) fn met_now(&self, label: u32) -> Option<usize>
        ensures { result ≡ parts.met_now self.now label }
    {
        match self {
            Part::Until { .. } | Part::Weak { .. } => Some(1),
            Part::Next { .. } => { if label == 0 { Some(0) } else { None } }
            Part::True
            | Part::Never
            | Part::Exit
            | Part::NotExit
            | Part::Least(_)
            | Part::Both
            | Part::Either => None,
        }
    }

    /// A leaf has a bound, which is a natural.
    pub(crate) fn has_bound(&self) -> bool
        ensures { result ≡ parts.has_bound self.now }
    {
        matches!(self, Part::Until { .. })
    }

    /// Something is to be kept before a step.
    pub(crate) fn keeps(&self) -> bool
        ensures { result ≡ parts.keeps self.now }
    {
        matches!(self, Part::Until { .. } | Part::Weak { .. })
    }

    /// It is a conjunction.
    pub(crate) fn is_both(&self) -> bool
        ensures { result ≡ parts.is_both self.now }
    {
        matches!(self, Part::Both)
    }

    /// It is a disjunction.
    pub(crate) fn is_either(&self) -> bool
        ensures { result ≡ parts.is_either self.now }
    {
        matches!(self, Part::Either)
    }

    /// The function whose value is to be at least 0.
    pub(crate) fn function(&self) -> Option<Affine>
        ensures { result ≡ parts.function self.now }
    {
        match self {
            Part::Least(function) => Some(*function),
            Part::True
            | Part::Never
            | Part::Exit
            | Part::NotExit
            | Part::Both
            | Part::Either
            | Part::Next { .. }
            | Part::Until { .. }
            | Part::Weak { .. } => None,
        }
    }
}

/// Whether the formula is `exit`.
fn is_exit(formula: &Formula) -> bool
    ensures { result ≡ parts.is_exit (ctl formula.now) }
{
    match formula {
        Formula::Exit => true,
        Formula::True
        | Formula::False
        | Formula::NotExit
        | Formula::Holds(_)
        | Formula::Not(_)
        | Formula::And(_, _)
        | Formula::Or(_, _)
        | Formula::Next { .. }
        | Formula::Until { .. }
        | Formula::Weak { .. } => false,
    }
}
