//! Sums, multiples and substitutions of affine functions whose numbers are known to fit 128 bits.

ghost use Rattle.std.specs.Prelude.{◌≡◌, ◌<◌};
ghost use Rattle.linear_cons.specs.Functions.{NumbersFit, SubstitutionFits, multiple_of, substituted};
ghost use Rattle.count_down.specs.Trees as trees;

use linear_cons::Affine;

/// The function plus the number.
pub(crate) fn shifted(function: &Affine, number: i128) -> Affine
    requires { NumbersFit (trees.shifted function.now number) }
    ensures { result ≡ trees.shifted function.now number }
{
    match function.plus(number) {
        Ok(sum) => sum,
        Err(_) => unreachable!(),
    }
}

/// The multiple of the function.
pub(crate) fn multiple(function: &Affine, by: i128) -> Affine
    requires { NumbersFit (multiple_of function.now by) }
    ensures { result ≡ multiple_of function.now by }
{
    match function.scale(by) {
        Ok(multiple) => multiple,
        Err(_) => unreachable!(),
    }
}

/// The function with the value put in for the variable.
pub(crate) fn put_in(function: &Affine, var: u8, value: &Affine) -> Affine
    requires place { var < 16 }
    requires fits { SubstitutionFits function.now var value.now }
    ensures { result ≡ substituted function.now var value.now }
{
    match function.subst(var, value) {
        Ok(function) => function,
        Err(_) => unreachable!(),
    }
}
