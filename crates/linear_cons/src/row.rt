//! Rows: affine constraints in normal form.
ghost use Rattle.std.specs.Prelude.{◌≡◌, ◌<◌, List, ◌↔◌, IsTrue, IsOk, IfOk, IfErr, ℤ, pos, ◌≤ℤ◌};
ghost use Rattle.linear_cons.specs.Divisor.{IsPrimitive};

use crate::affine::Affine;
use crate::divisor::divisor_of;
use crate::exact::Wide;

/// The constraint `affine >= 0`, normalised: the greatest common divisor of its coefficients is 1.
#[derive(Clone, Copy, PartialEq, Eq, Hash, Debug)]
pub struct Row {
    pub affine: Affine,
    ghost primitive: { IsPrimitive affine.coef },
}

/// What a constraint `a >= 0` is: true everywhere, true nowhere, or a row.
#[derive(Clone, Copy, PartialEq, Eq, Debug)]
pub enum RowKind {
    Always,
    Never,
    Row(Row),
}

impl Row {
    ghost use Rattle.linear_cons.specs.Exact.{IsOutside};
    ghost use Rattle.linear_cons.specs.Functions.{NumbersFit, complement_of, value_at};
    ghost use Rattle.linear_cons.specs.Rows.{AreOpposed, IsRowOf, MeetsKind, row_kind_of};
    ghost use Rattle.linear_cons.specs.Settling.{tells};

    /// The constraint `a >= 0`, divided by the greatest common divisor of its coefficients, with the
    /// constant rounded down: it is met at the same stores. `Always` and `Never` come exactly where
    /// all coefficients are 0.
    pub fn of(a: Affine) -> RowKind
        ensures kind { result ≡ row_kind_of a }
        ensures normal { IsRowOf a result }
        ensures same_stores { (store : List ℤ) → MeetsKind store result ↔ (pos 0 ≤ℤ value_at a store) }
    {
        let divisor = divisor_of(&a.coef);
        if divisor != 0 {
            let affine = a.quotient(divisor);
            RowKind::Row(Row { affine })
        } else if a.constant < 0 {
            RowKind::Never
        } else {
            RowKind::Always
        }
    }

    /// The row `-affine - 1 >= 0`, which is met at exactly the stores where this one is not. `Wide`
    /// comes exactly where one of its numbers lies outside `i128`.
    pub fn not(&self) -> Result<Row, Wide>
        ensures complement { IfOk result (λ row. row.affine ≡ complement_of self.now.affine) }
        ensures fits { IsOk result ↔ NumbersFit (complement_of self.now.affine) }
        ensures wide { IfErr result IsOutside }
    {
        let affine = Affine::constant(-1).sub(&self.affine)?;
        Ok(Row { affine })
    }

    /// True exactly where the linear parts are negatives of each other and the constants sum below 0.
    pub fn opposed(&self, other: &Row) -> bool
        ensures { IsTrue result ↔ AreOpposed self.now other.now }
    {
        // `a + b < 0` without a sum: `!b` is `-b - 1`.
        self.affine.constant <= !other.affine.constant && self.affine.has_negatives(&other.affine)
    }

    /// True exactly where the linear parts are the same and this constant is not greater: then the other
    /// row is met wherever this one is.
    pub fn tells(&self, other: &Row) -> bool
        ensures { result ≡ tells self.now.affine other.now.affine }
    {
        self.affine.coef == other.affine.coef && self.affine.constant <= other.affine.constant
    }

    /// True exactly where the two are opposed, as the test that this row tells the other's complement.
    pub fn refutes(&self, other: &Row) -> bool
        ensures { result ≡ tells self.now.affine (complement_of other.now.affine) }
    {
        self.opposed(other)
    }
}
