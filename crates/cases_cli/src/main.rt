//! Tries calls of single layers on the cases of files. A case is a line that says a call and its arguments, with indented lines below it that say its
//! answer, which was worked out by hand.
//!
//! The words of the command line are the names of the files. Lines that are empty or begin with `#` say nothing. Of each file it prints how many cases it
//! has, and before that of each case that has another answer where it stands, and the answer. It ends with status 1 where a case has another answer, and
//! with status 2 where a line says no call, which it names by its number.
#![tactic(auto)]

mod cases;

use crate::cases::{Outcome, try_cases};
use std::io::{self, BufWriter, Write};
use std::process::ExitCode;
use std::{env, fs};

fn main(rt: HostRuntime) -> io::Result<ExitCode> {
    let alloc = rt.alloc();
    let mut out = BufWriter::new(alloc, rt.stdout())?;
    let mut worst = Outcome::Same;
    for name in env::args(&rt)?.skip(1) {
        let text = fs::read_to_string(&rt, name.as_str())?;
        let outcome = try_cases(alloc, name.as_str(), text.as_str(), &mut out)?;
        worst = worst.or(outcome);
    }
    out.flush()?;
    Ok(ExitCode::from(worst as u8))
}
