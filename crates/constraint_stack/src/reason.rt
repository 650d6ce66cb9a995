//! Reasons against a leaf.

use linear_cons::Wide;

/// Why a leaf isn't supported, or isn't found to be.
#[derive(Clone, Copy, PartialEq, Eq, Debug)]
pub enum Reason {
    /// The point `num / den` meets one of the leaf's systems.
    Point { num: [i128; 16], den: i128 },
    /// A number lies outside `i128`; the two operands have an exact result outside.
    Wide(Wide),
    /// A system has, or an elimination may leave, this many rows, which are above 4,096.
    Rows { count: u32 },
}
