//! Laws of demo programs, each the contract of a function that does nothing.
ghost use Rattle.std.specs.Prelude.{◌≡◌, ◌+◌, ◌≤◌, ℕ, length};
ghost use Rattle.step_meaning.specs.Countdown.{IsCountdown};
ghost use Rattle.control_flow.specs.Labels.{all_labels};
ghost use Rattle.source_parse.specs.Derives.{IsProgramText};
ghost use Rattle.demo_program.specs.Demo.{demo_body, demo_names, demo_text};

/// A law: the text of a demo program is that program.
pub fn demo_texts_are_programs()
    ensures { (n : ℕ) → n ≤ 1000 → IsProgramText (demo_text n) demo_names (demo_body n) }
{}

/// A law: the text of a demo program has at most 65,536 bytes.
pub fn demo_texts_are_short()
    ensures { (n : ℕ) → n ≤ 1000 → length (demo_text n) ≤ 65536 }
{}

/// A law: each demo program is a countdown program.
pub fn demo_programs_count_down()
    ensures { (n : ℕ) → n ≤ 1000 → IsCountdown (demo_body n) }
{}

/// A law: a demo program has three labels more than its number.
pub fn demo_programs_have_few_labels()
    ensures { (n : ℕ) → length (all_labels (demo_body n)) ≡ n + 3 }
{}
