//! Affine functions: sixteen coefficients and a constant.
ghost use Rattle.std.specs.Prelude.{◌≡◌, ◌<◌, ◌↔◌, ◌+ℤ◌, ◌*ℤ◌, IsTrue, OkIff, IfErr};
ghost use Rattle.linear_cons.specs.Divisor.{IsDivisorOf, IsPrimitive};
ghost use Rattle.linear_cons.specs.Exact.{IsOutside};
ghost use Rattle.linear_cons.specs.Functions.{HasNegatives, IsQuotient, MixedFits, NumbersFit, PartsFit, ProductsFit, SubstitutionFits};
ghost use Rattle.linear_cons.specs.Functions.{combined, constant_of, difference_of, mixed_of, multiple_of, substituted, sum_of};
ghost use Rattle.linear_cons.specs.Functions.{value_at, variable_at};

use crate::divisor::floor_quotient;
use crate::exact::{Op, Wide};

/// How many places a store has.
pub const PLACES: usize = 16;

/// The function `coef[0] * x0 + .. + coef[15] * x15 + constant` of a store of sixteen whole numbers.
#[derive(Clone, Copy, PartialEq, Eq, Hash, Debug)]
pub struct Affine {
    pub coef: [i128; 16],
    pub constant: i128,
}

impl Affine {
    /// The function that is `c` at every store.
    pub fn constant(c: i128) -> Affine
        ensures { result ≡ constant_of c }
    {
        Affine {
            coef: [0; PLACES],
            constant: c,
        }
    }

    /// The function whose value is the number at the place.
    pub fn var(place: u8) -> Affine
        requires { place < 16 }
        ensures { result ≡ variable_at place }
    {
        let mut coef = [0; PLACES];
        coef[place as usize] = 1;
        Affine { coef, constant: 0 }
    }

    /// The exact sum, or `Wide` exactly where one of its numbers lies outside `i128`.
    pub fn add(&self, other: &Affine) -> Result<Affine, Wide>
        ensures exact { OkIff result (NumbersFit (sum_of self.now other.now)) (sum_of self.now other.now) }
        ensures wide { IfErr result IsOutside }
    {
        self.combined(Op::Add, other)
    }

    /// The exact difference `self - other`, or `Wide` exactly where one of its numbers lies outside `i128`.
    pub fn sub(&self, other: &Affine) -> Result<Affine, Wide>
        ensures exact { OkIff result (NumbersFit (difference_of self.now other.now)) (difference_of self.now other.now) }
        ensures wide { IfErr result IsOutside }
    {
        self.combined(Op::Sub, other)
    }

    /// The exact multiple, or `Wide` exactly where one of its numbers lies outside `i128`.
    pub fn scale(&self, by: i128) -> Result<Affine, Wide>
        ensures exact { OkIff result (NumbersFit (multiple_of self.now by)) (multiple_of self.now by) }
        ensures wide { IfErr result IsOutside }
    {
        let mut coef = [0; PLACES];
        for place in 0..PLACES {
            coef[place] = Op::Mul.exact(self.coef[place], by)?;
        }
        let constant = Op::Mul.exact(self.constant, by)?;
        Ok(Affine { coef, constant })
    }

    /// The sum of `by` times the function and `times` times the other, a place at a time. `Wide` comes exactly
    /// where a number of the result, or one of the products that are added up, lies outside `i128`.
    pub fn mixed(&self, by: i128, other: &Affine, times: i128) -> Result<Affine, Wide>
        ensures exact { OkIff result (MixedFits self.now by other.now times) (mixed_of self.now by other.now times) }
        ensures wide { IfErr result IsOutside }
    {
        let mut coef = [0; PLACES];
        for place in 0..PLACES {
            coef[place] = mixed_number(self.coef[place], by, other.coef[place], times)?;
        }
        let constant = mixed_number(self.constant, by, other.constant, times)?;
        Ok(Affine { coef, constant })
    }

    /// The function plus the number, or `Wide` exactly where its constant leaves `i128`.
    pub fn plus(&self, number: i128) -> Result<Affine, Wide>
        ensures exact { OkIff result (NumbersFit (sum_of self.now (constant_of number))) (sum_of self.now (constant_of number)) }
        ensures wide { IfErr result IsOutside }
    {
        self.numbers_fit();
        let mut sum = *self;
        sum.constant = Op::Add.exact(self.constant, number)?;
        Ok(sum)
    }

    /// The function with `by` put in for the variable at the place. `Wide` comes exactly where a
    /// number of the result, or one of the products that are added up, lies outside `i128`.
    pub fn subst(&self, place: u8, by: &Affine) -> Result<Affine, Wide>
        requires { place < 16 }
        ensures exact { OkIff result (SubstitutionFits self.now place by.now) (substituted self.now place by.now) }
        ensures wide { IfErr result IsOutside }
    {
        if self.coef[place as usize] == 0 {
            self.numbers_fit();
            return Ok(*self);
        }
        let mut rest = *self;
        rest.coef[place as usize] = 0;
        rest.numbers_fit();
        rest.mixed(1, by, self.coef[place as usize])
    }

    /// The value at a store. `Wide` comes exactly where a product, a sum of the products from place
    /// 0 up to a place, or the value itself lies outside `i128`.
    pub fn value(&self, store: &[i128; 16]) -> Result<i128, Wide>
        ensures exact { OkIff result (PartsFit self.now store.now) (value_at self.now store.now) }
        ensures wide { IfErr result IsOutside }
    {
        let mut sum = 0;
        for place in 0..PLACES {
            let product = Op::Mul.exact(self.coef[place], store[place])?;
            sum = Op::Add.exact(sum, product)?;
        }
        Op::Add.exact(sum, self.constant)
    }

    /// Shows that each number of a function lies in `i128`, as one that is read does. It has no effect, so
    /// that a compiler leaves nothing of it.
    fn numbers_fit(&self)
        ensures { NumbersFit self.now }
    {
        for place in 0..PLACES {
            let _coefficient = self.coef[place];
        }
        let _constant = self.constant;
    }

    /// The operation on each number of the one function and the number at the same place of the other.
    fn combined(&self, op: Op, other: &Affine) -> Result<Affine, Wide>
        ensures exact { OkIff result (NumbersFit (combined op self.now other.now)) (combined op self.now other.now) }
        ensures wide { IfErr result IsOutside }
    {
        let mut coef = [0; PLACES];
        for place in 0..PLACES {
            coef[place] = op.exact(self.coef[place], other.coef[place])?;
        }
        let constant = op.exact(self.constant, other.constant)?;
        Ok(Affine { coef, constant })
    }

    /// The quotient by the greatest common divisor of the coefficients, the constant rounded down.
    pub(crate) fn quotient(&self, divisor: u128) -> Affine
        requires positive { 0 < divisor }
        requires greatest { IsDivisorOf self.now.coef divisor }
        ensures quotient { IsQuotient self.now result }
        ensures primitive { IsPrimitive result.coef }
    {
        if divisor == 1 {
            return *self;
        }
        let mut coef = [0; PLACES];
        for place in 0..PLACES {
            coef[place] = floor_quotient(self.coef[place], divisor);
        }
        Affine {
            coef,
            constant: floor_quotient(self.constant, divisor),
        }
    }

    /// True exactly where each coefficient of the other function is the negative of this one's.
    pub(crate) fn has_negatives(&self, other: &Affine) -> bool
        ensures { IsTrue result ↔ HasNegatives self.now other.now }
    {
        for place in 0..PLACES {
            if self.coef[place].checked_neg() != Some(other.coef[place]) {
                return false;
            }
        }
        true
    }
}

/// The sum of two products, or `Wide` exactly where it or one of them lies outside `i128`. Where both numbers
/// are 0, as most are, nothing is multiplied.
fn mixed_number(left: i128, by: i128, right: i128, times: i128) -> Result<i128, Wide>
    ensures exact { OkIff result (ProductsFit left by right times) (left *ℤ by +ℤ right *ℤ times) }
    ensures wide { IfErr result IsOutside }
{
    if left == 0 && right == 0 {
        return Ok(0);
    }
    let first = Op::Mul.exact(left, by)?;
    let second = Op::Mul.exact(right, times)?;
    Op::Add.exact(first, second)
}
