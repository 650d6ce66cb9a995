//! Which word of a refused command line is wrong.
ghost use Rattle.std.specs.Prelude.{◌<◌, ◌≤◌, ◌+◌, length, IfOk, IfSome};

use command_words::order_of;
use std::alloc::{AllocError, Global};

/// What is wrong with a word of a command line.
#[derive(Clone, Copy, PartialEq, Eq, Debug)]
pub enum WordFault {
    /// It is no option.
    NoOption,
    /// The option has no value, or one that it doesn't take.
    Value,
    /// The option doesn't stand beside those before it: it is there already, one of the two is `--demo`, or `--fit` beside another than `--domain`, or they are
    /// `--ctl` and `--refine`.
    Company,
}

/// A word of a command line that is refused, by its place in the list.
#[derive(Clone, Copy, PartialEq, Eq, Debug)]
pub struct WrongWord {
    pub place: usize,
    pub fault: WordFault,
}

/// The first word that is wrong of the words of a command line, the program's name first, which are refused. `None` where each is right by itself, and beside those before it. The only error is want of memory.
pub fn wrong_word(alloc: Global, words: &[&str]) -> Result<Option<WrongWord>, AllocError>
    ensures within { IfOk result (λ found. IfSome found (λ wrong. wrong.place < length words.now)) }
{
    let mut place = 1;
    while place < words.len() {
        let count = taken(alloc, words, place)?;
        if count == 0 {
            let fault = fault_of(alloc, words, place)?;
            return Ok(Some(WrongWord { place, fault }));
        }
        if !is_order(alloc, &words[..place + count])? {
            let fault = WordFault::Company;
            return Ok(Some(WrongWord { place, fault }));
        }
        place += count;
    }
    Ok(None)
}

/// How many words the option at the place is with its value, where it is taken alone, and else none.
fn taken(alloc: Global, words: &[&str], place: usize) -> Result<usize, AllocError>
    requires { place < length words.now }
    ensures { IfOk result (λ count. place + count ≤ length words.now) }
{
    if is_order(alloc, &[words[0], words[place]])? {
        return Ok(1);
    }
    if place + 1 < words.len() && is_order(alloc, &[words[0], words[place], words[place + 1]])? {
        return Ok(2);
    }
    Ok(0)
}

/// What is wrong with the word at the place, which isn't taken alone: as an option it would be with a value that some option takes.
fn fault_of(alloc: Global, words: &[&str], place: usize) -> Result<WordFault, AllocError>
    requires { place < length words.now }
{
    for value in ["1", "boxes"] {
        if is_order(alloc, &[words[0], words[place], value])? {
            return Ok(WordFault::Value);
        }
    }
    Ok(WordFault::NoOption)
}

/// Whether the words are taken.
fn is_order(alloc: Global, words: &[&str]) -> Result<bool, AllocError> {
    let order = order_of(alloc, words)?;
    Ok(order.is_some())
}

/// The words on a word that is wrong of these: which it is, and what may stand there. The only error is want of memory.
pub fn told_of_word(alloc: Global, words: &[&str], wrong: &WrongWord) -> Result<Vec<u8>, AllocError>
    requires { wrong.now.place < length words.now }
{
    let word = words[wrong.place];
    let said = match wrong.fault {
        WordFault::NoOption => "isn't an option",
        WordFault::Value => taken_by(word),
        WordFault::Company => "can't stand beside the words before it",
    };
    let told = format!(in alloc; "function: {word} {said}\n")?;
    Ok(told.into_bytes())
}

/// What the option takes.
fn taken_by(option: &str) -> &'static str {
    match option {
        "--domain" => "takes boxes, octagons or polyhedra",
        "--delay" => "takes a digit up to 8",
        "--demo" => "takes a number from 1 to 1000",
        "--ctl" => "takes the text of a formula",
        "--at" => "takes a number for each variable, as x=1,y=-2",
        _ => "takes another value",
    }
}
