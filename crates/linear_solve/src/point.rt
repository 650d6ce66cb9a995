//! Rational points, and the value of an eliminated place.
ghost use Rattle.std.specs.Prelude.{◌≡◌, ◌<◌, pos, IfOk, IfErr, OnErr, OkIff, MatchOption, None, Some};
ghost use Rattle.linear_cons.specs.Exact.{IsOutside};
ghost use Rattle.linear_cons.specs.Functions.{form_at};
ghost use Rattle.linear_cons.specs.Numbers.{Fits128, at_places};
ghost use Rattle.linear_solve.specs.Points.{BoundsFit, CrossesFit, FormFits, IsFree, IsPutBack, IsTighterOf, IsTightest, MoveFits};
ghost use Rattle.linear_solve.specs.Points.{PutBackFits, moved as moved_of, slope_of};

use linear_cons::{Affine, Op, PLACES, Row, Wide};

/// The point with these numerators over one denominator.
#[derive(Clone, Copy, PartialEq, Eq, Debug)]
pub(crate) struct Point {
    pub(crate) num: [i128; 16],
    pub(crate) den: i128,
}

/// From which side a row bounds a place.
#[derive(Clone, Copy, PartialEq, Eq, Debug)]
pub(crate) enum Side {
    Below,
    Above,
}

/// A bound on a place at a point: the row's value there without the place, times the denominator,
/// over the size of the place's coefficient.
#[derive(Clone, Copy, PartialEq, Eq, Debug)]
pub(crate) struct Bound {
    pub(crate) form: i128,
    pub(crate) slope: i128,
}

impl Side {
    /// The coefficient's size where it bounds from this side; it is not above 0 elsewhere.
    fn slope(self, coefficient: i128) -> Result<i128, Wide>
        ensures exact { OkIff result (Fits128 (slope_of self coefficient)) (slope_of self coefficient) }
        ensures wide { IfErr result IsOutside }
    {
        match self {
            Side::Below => Ok(coefficient),
            Side::Above => Op::Sub.exact(0, coefficient),
        }
    }
}

impl Point {
    /// The point with 0 at every place.
    pub(crate) fn origin() -> Point
        ensures { result ≡ record { num = at_places (λ i. pos 0); den = pos 1 } }
    {
        Point {
            num: [0; PLACES],
            den: 1,
        }
    }

    /// The function's value at the point, times the denominator.
    pub(crate) fn form(&self, a: &Affine) -> Result<i128, Wide>
        ensures exact { OkIff result (FormFits a.now self.now.num self.now.den) (form_at a.now self.now.num self.now.den) }
        ensures wide { IfErr result IsOutside }
    {
        let mut sum = 0;
        for place in 0..PLACES {
            let product = Op::Mul.exact(a.coef[place], self.num[place])?;
            sum = Op::Add.exact(sum, product)?;
        }
        let constant = Op::Mul.exact(a.constant, self.den)?;
        Op::Add.exact(sum, constant)
    }

    /// The tightest bound from a side on a place where the point has 0.
    pub(crate) fn tightest(
        &self,
        rows: &[Row],
        place: u8,
        side: Side,
    ) -> Result<Option<Bound>, Wide>
        requires { place < 16 }
        ensures best { IfOk result (λ best. MatchOption best (IsFree rows.now place side)
            (IsTightest rows.now place side self.now.num self.now.den)) }
        ensures unfit { OnErr result (¬ BoundsFit rows.now place self.now.num self.now.den) }
        ensures wide { IfErr result IsOutside }
    {
        let mut best = None;
        for row in rows {
            let slope = side.slope(row.affine.coef[place as usize])?;
            if slope > 0 {
                let form = self.form(&row.affine)?;
                best = Some(tighter(best, Bound { form, slope })?);
            }
        }
        Ok(best)
    }

    /// The point with the place on the bound.
    fn moved(&self, place: u8, side: Side, bound: Bound) -> Result<Point, Wide>
        requires { place < 16 }
        ensures exact { IfOk result (λ point. point ≡ moved_of self.now.num self.now.den place side bound) }
        ensures unfit { OnErr result (¬ MoveFits self.now.num self.now.den bound) }
        ensures wide { IfErr result IsOutside }
    {
        let numbers = Affine {
            coef: self.num,
            constant: self.den,
        };
        let scaled = numbers.scale(bound.slope)?;
        let mut num = scaled.coef;
        num[place as usize] = match side {
            Side::Below => Op::Sub.exact(0, bound.form)?,
            Side::Above => bound.form,
        };
        Ok(Point {
            num,
            den: scaled.constant,
        })
    }

    /// A point that meets the rows, from one that meets what the elimination of the place left: the
    /// place gets its greatest lower bound, else its least upper bound, else 0.
    pub(crate) fn put_back(&self, rows: &[Row], place: u8) -> Result<Point, Wide>
        requires { place < 16 }
        ensures point { IfOk result (IsPutBack rows.now place self.now.num self.now.den) }
        ensures unfit { OnErr result (¬ PutBackFits rows.now place self.now.num self.now.den) }
        ensures wide { IfErr result IsOutside }
    {
        let mut base = *self;
        base.num[place as usize] = 0;
        if let Some(bound) = base.tightest(rows, place, Side::Below)? {
            return base.moved(place, Side::Below, bound);
        }
        if let Some(bound) = base.tightest(rows, place, Side::Above)? {
            return base.moved(place, Side::Above, bound);
        }
        Ok(base)
    }
}

/// The tighter of two bounds from one side.
fn tighter(best: Option<Bound>, next: Bound) -> Result<Bound, Wide>
    ensures some { IfOk result (λ bound. MatchOption best (bound ≡ next) (λ old. IsTighterOf old next bound)) }
    ensures unfit { OnErr result (MatchOption best ⊥ (λ old. ¬ CrossesFit old next)) }
    ensures wide { IfErr result IsOutside }
{
    match best {
        None => Ok(next),
        Some(old) => {
            let left = Op::Mul.exact(next.form, old.slope)?;
            let right = Op::Mul.exact(old.form, next.slope)?;
            Ok(if left < right { next } else { old })
        }
    }
}
