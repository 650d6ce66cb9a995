//! Places of variables.
ghost use Rattle.std.specs.Prelude.{◌<◌};

/// The place that is no variable's, where a value is kept while it is chosen.
pub const CHOSEN_PLACE: u8 = 15;

/// The place of a variable, below 16.
#[derive(Clone, Copy, PartialEq, Eq, Debug)]
pub struct Place {
    pub number: u8,
    ghost low: { number < 16 },
}
