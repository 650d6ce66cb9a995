//! Which until a formula is.
use ctl_formula::Formula;

/// Which until or weak until a formula is.
#[derive(Clone, Copy, PartialEq, Eq, Debug)]
pub struct UntilKind {
    /// Whether all next states count, and not just some.
    pub all: bool,
    pub is_weak: bool,
}

impl UntilKind {
    /// That of the formula, if it is one.
    pub fn of(formula: &Formula) -> Option<UntilKind> {
        match formula {
            Formula::Until { all, .. } => Some(UntilKind {
                all: *all,
                is_weak: false,
            }),
            Formula::Weak { all, .. } => Some(UntilKind {
                all: *all,
                is_weak: true,
            }),
            _ => None,
        }
    }
}
