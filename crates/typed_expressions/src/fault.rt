//! Faults of names, sorts, jumps, divisors, returns and calls.

ghost use Rattle.std.specs.Prelude.{◌≡◌, [], ◌∷◌};
ghost use Rattle.typed_expressions.specs.Faults.{order_of, is_before, earliest};

/// The rules on names, sorts, jumps, divisors, returns and calls, each by what breaks it.
#[derive(Clone, Copy, PartialEq, Eq, Debug)]
pub enum Rule {
    /// A name is used where it isn't in scope.
    Unknown,
    /// A name is declared inside its scope, or declared again without an initialiser.
    Twice,
    /// A truth value stands where a number is needed.
    Mixed,
    /// A range's lower end is above its upper end, or an end has the wrong infinity.
    BadRange,
    /// A sixteenth name is declared.
    Variables,
    /// A `break` or `continue` stands inside no body of a loop.
    Outside,
    /// A divisor is 0.
    ZeroDivisor,
    /// A `return` of a function stands elsewhere than at its end, is missing there, or has a value or none against the function's type.
    Placed,
    /// A call has another number of arguments than its function has parameters.
    Arguments,
}

/// A broken rule, and the number of the token where it is broken, counted from 0.
#[derive(Clone, Copy, PartialEq, Eq, Debug)]
pub struct Fault {
    pub rule: Rule,
    pub token: usize,
}

impl Rule {
    // Of two faults at one token the one of the lower order comes first.
    fn order(self) -> u8
        ensures { result ≡ order_of self }
    {
        match self {
            Rule::Unknown => 0,
            Rule::Twice => 1,
            Rule::Mixed => 2,
            Rule::BadRange => 3,
            Rule::Variables => 4,
            Rule::Outside => 5,
            Rule::ZeroDivisor => 6,
            Rule::Placed => 7,
            Rule::Arguments => 8,
        }
    }
}

impl Fault {
    /// Whether this fault comes before the other.
    pub fn is_before(&self, other: &Fault) -> bool
        ensures { result ≡ is_before self.now other.now }
    {
        self.token < other.token
            || (self.token == other.token && self.rule.order() < other.rule.order())
    }
}

/// The first of the faults so far and of one more.
pub fn earlier(least: Option<Fault>, fault: Fault) -> Option<Fault>
    ensures { result ≡ earliest least (fault ∷ []) }
{
    match &least {
        Some(first) if !fault.is_before(first) => least,
        _ => Some(fault),
    }
}
