//! Texts, and what is written for them where no options are given.

pub const EMPTY: &str = "int main() { }";

pub const EMPTY_REPORT: &str =
    "exact, 2 tests:\nalways: exactly 0 steps\nproved:\nalways: within 0 steps\nunknown:\nverdict: all inputs\n";

/// What is written for each formula that holds of all inputs, and that is no until.
pub const ALWAYS_HOLDS: &str = "proved:\nalways: holds\nunknown:\nverdict: all inputs\n";

pub const COUNTDOWN: &str = "int main() { int x; while (x > 0) x = x - 1; }";

/// A test and a step a turn, and the last test.
pub const COUNTDOWN_REPORT: &str =
    "exact, 2 tests:\n-x + 1 >= 0 and x - 1 >= 0: exactly 3 steps\n-x >= 0: exactly 1 step\n\
    proved:\n-x >= 0: within 1 step\nx - 1 >= 0: within 2*x + 1 steps\nunknown:\nverdict: all inputs\n";

/// A loop without an end, where it is begun.
pub const COUNT_UP: &str = "int main() { int x; while (x > 0) x = x + 1; }";

pub const COUNT_UP_REPORT: &str =
    "exact, 2 tests:\n-x >= 0: exactly 1 step\nproved:\n-x >= 0: within 1 step\n\
    unknown:\nx - 1 >= 0: unknown\nverdict: some inputs\n";

pub const TWO_SPEEDS: &str =
    "int main() { int x; while (x > 0) { if (?) x = x - 1; else x = x - 2; } }";

/// A loop whose test comes down to `x - 1 >= 0`, counted down under noise in `y`.
pub const NOISE: &str = "extern int __VERIFIER_nondet_int(void);
/* counts down under noise */
int main() {
  int x, y;
  while (x > 0 && y < 100) { // guard
    if (__VERIFIER_nondet_int()) y = y + 1;
    else y = y - 1;
    x = x - 1;
  }
  return 0;
}";
