//! Points moved to whole numbers where the rows leave room for them.
ghost use Rattle.std.specs.Prelude.{◌<◌};

use crate::point::{Bound, Point, Side};
use linear_cons::{Op, PLACES, Row, Wide, common_divisor, floor_quotient};

/// The whole number nearest to 0 between two ends, of which either may be missing. `None` where
/// there is no whole number between them.
fn nearest(low: Option<i128>, high: Option<i128>) -> Option<i128> {
    let least = match low {
        Some(low) if low > 0 => low,
        _ => 0,
    };
    let number = match high {
        Some(high) if high < least => high,
        _ => least,
    };
    match low {
        Some(low) if number < low => None,
        _ => Some(number),
    }
}

impl Bound {
    /// The greatest whole number that is at most the bound from above, at a point with the denominator.
    fn floor(&self, den: i128) -> Result<i128, Wide> {
        let by = Op::Mul.exact(self.slope, den)?;
        Ok(if by > 0 {
            floor_quotient(self.form, by as u128)
        } else {
            0
        })
    }
}

impl Point {
    /// The point with another number at the place: the whole one nearest to 0 that the rows allow with
    /// the numbers at the other places. `None` where they allow none.
    pub(crate) fn at_whole(&self, rows: &[Row], place: u8) -> Result<Option<Point>, Wide>
        requires { place < 16 }
    {
        let mut base = *self;
        base.num[place as usize] = 0;
        match base.nearest_whole(rows, place)? {
            Some(number) => {
                base.num[place as usize] = Op::Mul.exact(number, base.den)?;
                Ok(Some(base))
            }
            None => Ok(None),
        }
    }

    /// The whole number nearest to 0 that the rows allow at a place where the point has 0.
    fn nearest_whole(&self, rows: &[Row], place: u8) -> Result<Option<i128>, Wide>
        requires { place < 16 }
    {
        let low = match self.tightest(rows, place, Side::Below)? {
            Some(bound) => Some(Op::Sub.exact(0, bound.floor(self.den)?)?),
            None => None,
        };
        let high = match self.tightest(rows, place, Side::Above)? {
            Some(bound) => Some(bound.floor(self.den)?),
            None => None,
        };
        Ok(nearest(low, high))
    }

    /// The point with whole numbers where the rows leave room for them, place by place.
    pub(crate) fn rounded(&self, rows: &[Row]) -> Point {
        let mut whole = self.reduced();
        for place in 0..PLACES as u8 {
            if whole.den != 1 {
                if let Ok(Some(next)) = whole.at_whole(rows, place) {
                    whole = next.reduced();
                }
            }
        }
        whole
    }

    /// The point in lowest terms.
    pub(crate) fn reduced(&self) -> Point {
        let mut divisor = self.den.unsigned_abs();
        for place in 0..PLACES {
            divisor = common_divisor(self.num[place].unsigned_abs(), divisor);
        }
        if divisor <= 1 {
            return *self;
        }
        let mut num = [0; PLACES];
        for place in 0..PLACES {
            num[place] = floor_quotient(self.num[place], divisor);
        }
        Point {
            num,
            den: floor_quotient(self.den, divisor),
        }
    }
}
