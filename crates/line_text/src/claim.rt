//! Claims.

use linear_cons::Affine;

/// What a line claims of the runs from each input that meets its condition.
#[derive(Clone, Copy, PartialEq, Eq, Debug)]
pub enum Claim {
    /// The longest run takes exactly so many steps.
    Exactly(i128),
    /// Each run takes at most as many steps as the function's value at the input.
    Within(Affine),
    /// The formula holds.
    Holds,
    /// Every run ends, by a rank of these functions, of which the first stands before ω^4 and the last alone: the first whose value at the input
    /// isn't 0 says at most how often what bounds the steps, of a lower power, gives way to a new bound.
    Ranked([Affine; 5]),
    /// No number of a run leaves 32 bits.
    Fits,
    /// Nothing is claimed.
    Unknown,
}
