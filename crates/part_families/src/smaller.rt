//! Families of smaller parts, and the order of their numbers.
ghost use Rattle.std.specs.Prelude.{◌≡◌, [], ◌∷◌, suc, IfOk};
ghost use Rattle.part_families.specs.Showing.{all_of};

use decision_tree::{AffineRank, Family};
use std::alloc::{AllocError, Global};

/// Families that show the smaller parts of a formula.
#[derive(Drop)]
pub struct SmallerParts {
    /// Those of its operands, in their order.
    pub operands: Vec<Family<AffineRank>>,
    /// Those of the smaller parts of the first operand, in the order of their numbers.
    pub of_first: Vec<Family<AffineRank>>,
    /// Those of the smaller parts of the second.
    pub of_second: Vec<Family<AffineRank>>,
    /// The number of the formula itself.
    pub number: u32,
}

/// Families that show a formula and its smaller parts, these in the order of their numbers.
#[derive(Drop)]
pub(crate) struct Shown {
    pub(crate) smaller: Vec<Family<AffineRank>>,
    pub(crate) whole: Family<AffineRank>,
}

impl SmallerParts {
    /// Those of a formula without operands, which has this number.
    pub(crate) fn none(alloc: Global, number: u32) -> SmallerParts
        ensures operands { result.operands.items ≡ [] }
        ensures of_first { result.of_first.items ≡ [] }
        ensures of_second { result.of_second.items ≡ [] }
        ensures number { result.number ≡ number }
    {
        SmallerParts {
            operands: Vec::new(alloc),
            of_first: Vec::new(alloc),
            of_second: Vec::new(alloc),
            number,
        }
    }

    /// Those of a formula with one operand. The error is want of memory, or of a number for the formula.
    pub(crate) fn of_one(alloc: Global, part: Shown) -> Result<SmallerParts, AllocError>
        ensures operands { IfOk result (λ found. found.operands.items ≡ part.whole ∷ []) }
        ensures of_first { IfOk result (λ found. found.of_first.items ≡ part.smaller.items) }
        ensures of_second { IfOk result (λ found. found.of_second.items ≡ []) }
        ensures number { IfOk result (λ found. found.number ≡ suc part.whole.part) }
    {
        let number = part.number_behind()?;
        let mut operands = Vec::with_capacity(alloc, 1)?;
        operands.push(part.whole)?;
        Ok(SmallerParts {
            operands,
            of_first: part.smaller,
            of_second: Vec::new(alloc),
            number,
        })
    }

    /// Those of a formula with two operands. The error is want of memory, or of a number for the formula.
    pub(crate) fn of_two(
        alloc: Global,
        first: Shown,
        second: Shown,
    ) -> Result<SmallerParts, AllocError>
        ensures operands { IfOk result (λ found. found.operands.items ≡ first.whole ∷ second.whole ∷ []) }
        ensures of_first { IfOk result (λ found. found.of_first.items ≡ first.smaller.items) }
        ensures of_second { IfOk result (λ found. found.of_second.items ≡ second.smaller.items) }
        ensures number { IfOk result (λ found. found.number ≡ suc second.whole.part) }
    {
        let number = second.number_behind()?;
        let mut operands = Vec::with_capacity(alloc, 2)?;
        operands.push(first.whole)?;
        operands.push(second.whole)?;
        Ok(SmallerParts {
            operands,
            of_first: first.smaller,
            of_second: second.smaller,
            number,
        })
    }

    /// The families of all smaller parts, in the order of their numbers. The only error is want of memory.
    pub fn in_order(self) -> Result<Vec<Family<AffineRank>>, AllocError>
        ensures { IfOk result (λ families. families.items ≡ all_of self) }
    {
        let mut families = self.of_first;
        let mut operands = self.operands;
        let mut of_second = self.of_second;
        let last = operands.pop();
        families.append(&mut operands)?;
        families.append(&mut of_second)?;
        if let Some(last) = last {
            families.push(last)?;
        }
        Ok(families)
    }
}

impl Shown {
    /// The number that comes behind the formula's. Where 32 bits have none, as many families are more than memory holds.
    pub(crate) fn number_behind(&self) -> Result<u32, AllocError>
        ensures { IfOk result (λ number. number ≡ suc self.now.whole.part) }
    {
        match self.whole.part.checked_add(1) {
            Some(number) => Ok(number),
            None => Err(AllocError),
        }
    }
}
