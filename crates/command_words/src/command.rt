//! The command, and what `clap` makes of words.
ghost use Rattle.std.specs.Prelude.{◌≡◌, IfOk, MatchOption, false, map, option_map};
ghost use Rattle.clap.specs.Words.{app_of, found_of, matches_of, rows_of, rule_of};
ghost use Rattle.command_words.specs.Command.{AreTaken, command, flag, option, values_of};

use clap::error::ErrorKind;
use clap::{Arg, ArgAction, ArgMatches, Command};
use std::alloc::{AllocError, Global};

/// What `clap` reads of the words, the program's name first; `None` where it refuses them. The only error is want of memory.
pub(crate) fn read<'w>(
    alloc: Global,
    words: &'w [&'w str],
) -> Result<Option<ArgMatches<'w>>, AllocError>
    ensures { IfOk result (λ read. MatchOption read (¬ AreTaken (map (λ word. word.now) words.now))
        (λ matches. AreTaken (map (λ word. word.now) words.now)
        × (rows_of (found_of matches) ≡ matches_of command (map (λ word. word.now) words.now)))) }
{
    let command = command(alloc)?;
    match command.try_get_matches_from(words) {
        Ok(matches) => Ok(Some(matches)),
        Err(error) => match error.kind() {
            ErrorKind::OutOfMemory => Err(AllocError),
            _ => Ok(None),
        },
    }
}

/// The command with its options. The only error is want of memory.
fn command<'w>(alloc: Global) -> Result<Command<'w>, AllocError>
    ensures { IfOk result (λ made. app_of made ≡ command) }
{
    let command = Command::new(alloc, "function")
        .arg(option(alloc, "ctl"))?
        .arg(option(alloc, "domain"))?
        .arg(option(alloc, "delay"))?
        .arg(option(alloc, "at"))?
        .arg(flag(alloc, "explain"))?
        .arg(option(alloc, "demo"))?
        .arg(flag(alloc, "fit"))?
        .arg(flag(alloc, "refine"))?;
    Ok(command)
}

/// An option with a value.
fn option<'w>(alloc: Global, name: &'w str) -> Arg<'w>
    ensures rule { rule_of result ≡ option name.now }
    ensures local { result.global ≡ false }
{
    Arg::new(alloc, name).long(name)
}

/// An option without a value.
fn flag<'w>(alloc: Global, name: &'w str) -> Arg<'w>
    ensures rule { rule_of result ≡ flag name.now }
    ensures local { result.global ≡ false }
{
    Arg::new(alloc, name).long(name).action(ArgAction::SetTrue)
}

/// The value of an option, where it has one.
pub(crate) fn value_of<'w>(matches: &ArgMatches<'w>, name: &str) -> Option<&'w str>
    ensures { option_map (λ text. text.now) result ≡ values_of (found_of matches.now) name.now }
{
    matches.get_str(name)
}
