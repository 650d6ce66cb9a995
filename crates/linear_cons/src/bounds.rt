//! Ends of the numbers of a store, and linear expressions up to a bounded rest.
ghost use Rattle.std.specs.Prelude.{OkIff, IfErr};
ghost use Rattle.linear_cons.specs.Exact.{IsOutside};

use crate::affine::Affine;
use crate::exact::Wide;

/// At each place a least and a greatest number, where there are such; both ends belong to the range.
#[derive(Clone, Copy, PartialEq, Eq, Debug)]
pub struct Bounds {
    pub ends: [(Option<i128>, Option<i128>); 16],
}

/// An affine function plus a number from `lo` to `hi`, as far as there are such ends.
#[derive(Clone, Copy, PartialEq, Eq, Debug)]
pub struct Linear {
    pub affine: Affine,
    pub lo: Option<i128>,
    pub hi: Option<i128>,
}

impl Linear {
    ghost use Rattle.linear_cons.specs.Bounds.{FitsWithEnd, with_end};

    /// The function plus the lower end, where there is one; `Wide` exactly where their sum leaves `i128`.
    pub fn with_lower(&self) -> Result<Option<Affine>, Wide>
        ensures exact { OkIff result (FitsWithEnd self.now self.now.lo) (with_end self.now self.now.lo) }
        ensures wide { IfErr result IsOutside }
    {
        self.with_end(self.lo)
    }

    /// The function plus the upper end, where there is one; `Wide` exactly where their sum leaves `i128`.
    pub fn with_upper(&self) -> Result<Option<Affine>, Wide>
        ensures exact { OkIff result (FitsWithEnd self.now self.now.hi) (with_end self.now self.now.hi) }
        ensures wide { IfErr result IsOutside }
    {
        self.with_end(self.hi)
    }

    /// The function plus the end.
    fn with_end(&self, end: Option<i128>) -> Result<Option<Affine>, Wide>
        ensures exact { OkIff result (FitsWithEnd self.now end) (with_end self.now end) }
        ensures wide { IfErr result IsOutside }
    {
        match end {
            None => Ok(None),
            Some(number) => {
                let sum = self.affine.plus(number)?;
                Ok(Some(sum))
            }
        }
    }
}
