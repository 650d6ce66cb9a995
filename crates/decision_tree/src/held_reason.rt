//! Reasons and causes as trees hold them.
ghost use Rattle.std.specs.Prelude.{◌≡◌, IfOk};
ghost use Rattle.decision_tree.specs.Equality.{same_cause, same_reason};
ghost use Rattle.decision_tree.specs.declared.reason.Cause.TheVariants.{Given};

use crate::reason::{Cause, Pick, Why};
use crate::shared::Shared;
use linear_cons::Affine;
use std::alloc::{AllocError, Global};
use std::marker::Model;

/// A reason as a leaf holds it, in two words: a function whose value is put stands elsewhere. Contracts see it as the reason.
#[derive(Drop)]
pub struct HeldWhy {
    short: ShortWhy,
}

/// A reason, with such a function elsewhere.
#[derive(Drop)]
pub(crate) enum ShortWhy {
    End,
    Atom,
    Both,
    Left,
    Right,
    Now,
    Dead,
    All,
    Yes,
    No,
    Value(Shared<Affine>),
}

impl Model for HeldWhy {
    ghost use Rattle.decision_tree.specs.Reasons.{why_of};
    ghost use Rattle.decision_tree.specs.declared.reason.Why.{Why};

    ghost Value = { Why };

    ghost view = { λ inside. why_of inside.short };
}

impl HeldWhy {
    /// The reason, to be held. The only error is want of memory.
    pub fn of(alloc: Global, why: &Why) -> Result<HeldWhy, AllocError>
        ensures { IfOk result (λ held. held ≡ why.now) }
    {
        let short = match why {
            Why::End => ShortWhy::End,
            Why::Atom => ShortWhy::Atom,
            Why::Both => ShortWhy::Both,
            Why::Left => ShortWhy::Left,
            Why::Right => ShortWhy::Right,
            Why::Now => ShortWhy::Now,
            Why::Dead => ShortWhy::Dead,
            Why::Step(Pick::All) => ShortWhy::All,
            Why::Step(Pick::Yes) => ShortWhy::Yes,
            Why::Step(Pick::No) => ShortWhy::No,
            Why::Step(Pick::Value(value)) => ShortWhy::Value(Shared::new(alloc, *value)?),
        };
        Ok(HeldWhy { short })
    }

    /// The reason.
    pub fn why(&self) -> Why
        ensures { result ≡ self.now }
    {
        match &self.short {
            ShortWhy::End => Why::End,
            ShortWhy::Atom => Why::Atom,
            ShortWhy::Both => Why::Both,
            ShortWhy::Left => Why::Left,
            ShortWhy::Right => Why::Right,
            ShortWhy::Now => Why::Now,
            ShortWhy::Dead => Why::Dead,
            ShortWhy::All => Why::Step(Pick::All),
            ShortWhy::Yes => Why::Step(Pick::Yes),
            ShortWhy::No => Why::Step(Pick::No),
            ShortWhy::Value(value) => Why::Step(Pick::Value(**value)),
        }
    }

    /// The reason, held once more. The errors are those of `Shared::share`.
    pub fn share(&self) -> Result<HeldWhy, AllocError>
        ensures { IfOk result (λ twin. twin ≡ self.now) }
    {
        let short = match &self.short {
            ShortWhy::End => ShortWhy::End,
            ShortWhy::Atom => ShortWhy::Atom,
            ShortWhy::Both => ShortWhy::Both,
            ShortWhy::Left => ShortWhy::Left,
            ShortWhy::Right => ShortWhy::Right,
            ShortWhy::Now => ShortWhy::Now,
            ShortWhy::Dead => ShortWhy::Dead,
            ShortWhy::All => ShortWhy::All,
            ShortWhy::Yes => ShortWhy::Yes,
            ShortWhy::No => ShortWhy::No,
            ShortWhy::Value(value) => ShortWhy::Value(value.share()?),
        };
        Ok(HeldWhy { short })
    }

    /// Whether the reasons are identical.
    pub(crate) fn is_same(&self, other: &HeldWhy) -> bool
        ensures { result ≡ same_reason self.now other.now }
    {
        match (&self.short, &other.short) {
            (ShortWhy::End, ShortWhy::End) => true,
            (ShortWhy::Atom, ShortWhy::Atom) => true,
            (ShortWhy::Both, ShortWhy::Both) => true,
            (ShortWhy::Left, ShortWhy::Left) => true,
            (ShortWhy::Right, ShortWhy::Right) => true,
            (ShortWhy::Now, ShortWhy::Now) => true,
            (ShortWhy::Dead, ShortWhy::Dead) => true,
            (ShortWhy::All, ShortWhy::All) => true,
            (ShortWhy::Yes, ShortWhy::Yes) => true,
            (ShortWhy::No, ShortWhy::No) => true,
            (ShortWhy::Value(value), ShortWhy::Value(other)) => **value == **other,
            _ => false,
        }
    }
}

/// A cause as a leaf holds it, in two words: what is longer stands elsewhere. Contracts see it as the cause.
#[derive(Drop)]
pub struct HeldCause {
    short: ShortCause,
}

/// A cause, with what is longer than two words elsewhere.
#[derive(Drop)]
pub(crate) enum ShortCause {
    Rows { count: u32 },
    Nodes { count: u32 },
    Given,
    Long(Shared<Cause>),
}

impl Model for HeldCause {
    ghost use Rattle.decision_tree.specs.Reasons.{cause_of};
    ghost use Rattle.decision_tree.specs.declared.reason.Cause.{Cause};

    ghost Value = { Cause };

    ghost view = { λ inside. cause_of inside.short };
}

impl HeldCause {
    /// The cause, to be held. The only error is want of memory.
    pub fn of(alloc: Global, cause: &Cause) -> Result<HeldCause, AllocError>
        ensures { IfOk result (λ held. held ≡ cause.now) }
    {
        let short = match cause {
            Cause::Rows { count } => ShortCause::Rows { count: *count },
            Cause::Nodes { count } => ShortCause::Nodes { count: *count },
            Cause::Given => ShortCause::Given,
            Cause::Wide(_) => ShortCause::Long(Shared::new(alloc, *cause)?),
            Cause::Point { .. } => ShortCause::Long(Shared::new(alloc, *cause)?),
        };
        Ok(HeldCause { short })
    }

    /// That a leaf was given up to widen its tree.
    pub fn given() -> HeldCause
        ensures { result ≡ Given }
    {
        HeldCause {
            short: ShortCause::Given,
        }
    }

    /// The cause.
    pub fn cause(&self) -> Cause
        ensures { result ≡ self.now }
    {
        match &self.short {
            ShortCause::Rows { count } => Cause::Rows { count: *count },
            ShortCause::Nodes { count } => Cause::Nodes { count: *count },
            ShortCause::Given => Cause::Given,
            ShortCause::Long(cause) => **cause,
        }
    }

    /// The cause, held once more. The errors are those of `Shared::share`.
    pub fn share(&self) -> Result<HeldCause, AllocError>
        ensures { IfOk result (λ twin. twin ≡ self.now) }
    {
        let short = match &self.short {
            ShortCause::Rows { count } => ShortCause::Rows { count: *count },
            ShortCause::Nodes { count } => ShortCause::Nodes { count: *count },
            ShortCause::Given => ShortCause::Given,
            ShortCause::Long(cause) => ShortCause::Long(cause.share()?),
        };
        Ok(HeldCause { short })
    }

    /// Whether the causes are identical.
    pub(crate) fn is_same(&self, other: &HeldCause) -> bool
        ensures { result ≡ same_cause self.now other.now }
    {
        self.cause() == other.cause()
    }
}
