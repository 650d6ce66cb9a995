//! Lines: equations that are solved for one of their variables.
use linear_cons::{common_divisor, floor_quotient};
use std::alloc::Global;

/// The number `size` times the line's own variable, plus each number times the variable of its column, is the constant. Where there is no
/// variable of its own, it is one that belongs to no column of the program and is to become 0.
#[derive(Drop)]
pub(crate) struct Line {
    pub(crate) own: Option<usize>,
    pub(crate) size: i128,
    pub(crate) numbers: Vec<i128>,
    pub(crate) constant: i128,
}

impl Line {
    /// The line of the numbers, with no variable of its own and the constant 0.
    pub(crate) fn of(numbers: Vec<i128>) -> Line {
        Line {
            own: None,
            size: 1,
            numbers,
            constant: 0,
        }
    }

    /// The line without a number.
    pub(crate) fn empty(alloc: Global) -> Line {
        Line::of(Vec::new(alloc))
    }

    /// The number in a column, 0 where there is none.
    pub(crate) fn number(&self, column: usize) -> i128 {
        match self.numbers.get(column) {
            Some(number) => *number,
            None => 0,
        }
    }

    /// Takes the variable of a column out, for which the pivot is solved already: the number in its column is that of the variable that comes
    /// in. `None` where a number lies outside `i128`.
    pub(crate) fn eliminate(&mut self, pivot: &Line, column: usize) -> Option<()> {
        let own = self.number(column);
        if own == 0 {
            return Some(());
        }
        *self.numbers.get_mut(column)? = 0;
        let divisor = common_divisor(own.unsigned_abs(), pivot.size.unsigned_abs());
        if divisor == 0 {
            return None;
        }
        let by = floor_quotient(pivot.size, divisor);
        let times = floor_quotient(own, divisor);
        self.mix(by, pivot, times)?;
        self.size = self.size.checked_mul(by)?;
        self.constant = mixed(self.constant, by, pivot.constant, times)?;
        self.reduce();
        Some(())
    }

    /// So many times the line's numbers less so many times the other's. `None` where a number lies outside `i128`.
    pub(crate) fn mix(&mut self, by: i128, other: &Line, times: i128) -> Option<()> {
        for index in 0..self.numbers.len() {
            let number = self.numbers[index];
            let taken = other.number(index);
            if number != 0 || taken != 0 {
                self.numbers[index] = mixed(number, by, taken, times)?;
            }
        }
        Some(())
    }

    /// Divides the line by what its numbers have in common.
    pub(crate) fn reduce(&mut self) {
        let divisor = self.divisor();
        if divisor > 1 {
            self.size = floor_quotient(self.size, divisor);
            self.constant = floor_quotient(self.constant, divisor);
            for number in self.numbers.iter_mut() {
                if *number != 0 {
                    *number = floor_quotient(*number, divisor);
                }
            }
        }
    }

    /// What all numbers of the line have in common.
    fn divisor(&self) -> u128 {
        let mut divisor = common_divisor(self.size.unsigned_abs(), self.constant.unsigned_abs());
        for number in &self.numbers {
            if divisor == 1 {
                return 1;
            }
            if *number != 0 {
                divisor = common_divisor(number.unsigned_abs(), divisor);
            }
        }
        divisor
    }

    /// Turns all signs but that of the line's own variable. `None` where a number lies outside `i128`.
    pub(crate) fn turn(&mut self) -> Option<()> {
        self.constant = self.constant.checked_neg()?;
        for number in self.numbers.iter_mut() {
            *number = number.checked_neg()?;
        }
        Some(())
    }
}

/// A product less a product. `None` where it or one of them lies outside `i128`.
fn mixed(left: i128, by: i128, right: i128, times: i128) -> Option<i128> {
    left.checked_mul(by)?.checked_sub(right.checked_mul(times)?)
}
