//! What words ask for.
ghost use Rattle.std.specs.Prelude.{◌≡◌, ◌↔◌, ◌∷◌, [], ℕ, IfOk, IsFalse, IsTrue, None, Some, codes, map, option_map, true};
ghost use Rattle.clap.specs.Words.{found_of};
ghost use Rattle.command_words.specs.Command.{values_of};
ghost use Rattle.command_words.specs.Order.{Ask, IsAlone, IsCount, IsDelay, IsDomain, IsFit, IsGiven, IsTask, Request, Requests, Task, Unflagged, Without, request_of, task_of};

use crate::command::{read, value_of};
use clap::ArgMatches;
use number_parse::number_of;
use std::alloc::{AllocError, Global};

/// What is kept of the stores with which a label is reached.
#[derive(Clone, Copy, PartialEq, Eq, Debug)]
pub enum Domain {
    /// An interval for each variable.
    Boxes,
    /// Bounds on the sum and the difference of any two variables.
    Octagons,
    /// Affine constraints.
    Polyhedra,
}

/// What is asked of the command.
#[derive(Clone, Copy, PartialEq, Eq, Debug)]
pub enum Order<'w> {
    /// An analysis of the program that the source holds.
    Analysis(Query<'w>),
    /// The analysis of the demo program of this number, from 1 to 1000.
    Demo(u32),
    /// From which inputs the runs of that program fit the numbers of 32 bits, over sets of this kind.
    Fit(Domain),
}

/// What is asked of an analysis.
#[derive(Clone, Copy, PartialEq, Eq, Debug)]
pub struct Query<'w> {
    pub domain: Domain,
    /// How many tests of loops the exact part allows, from 0 to 8; and so many sweeps, but at least one, are made without widening.
    pub delay: u32,
    /// The text of the formula that is asked about; without one it is `AF exit`, that each run ends.
    pub formula: Option<&'w [u8]>,
    /// The text of the one input that is asked for, where one is.
    pub input: Option<&'w [u8]>,
    /// Whether the report says how it came about.
    pub explain: bool,
    /// Whether families are added by splits, which is asked for without a formula alone.
    pub refine: bool,
}

/// What the words ask for, the program's name first; `None` where they are refused. The only error is want of memory.
pub fn order_of<'w>(alloc: Global, words: &'w [&'w str]) -> Result<Option<Order<'w>>, AllocError>
    ensures { IfOk result (λ order. (request : Request) → option_map request_of order ≡ Some request
        ↔ Ask (map (λ word. word.now) words.now) request) }
{
    match read(alloc, words)? {
        Some(matches) => Ok(ordered(&matches)),
        None => Ok(None),
    }
}

/// What the values ask for.
fn ordered<'w>(matches: &ArgMatches<'w>) -> Option<Order<'w>>
    ensures { (request : Request) → option_map request_of result ≡ Some request ↔ Requests (values_of (found_of matches.now)) request }
{
    match value_of(matches, "demo") {
        Some(text) => match demo_of(matches, text) {
            Some(number) => Some(Order::Demo(number)),
            None => None,
        },
        None => ordered_of_source(matches),
    }
}

/// What they ask for of the program that the source holds.
fn ordered_of_source<'w>(matches: &ArgMatches<'w>) -> Option<Order<'w>>
    requires { values_of (found_of matches.now) (codes "demo") ≡ None }
    ensures { (request : Request) → option_map request_of result ≡ Some request ↔ Requests (values_of (found_of matches.now)) request }
{
    if is_given(value_of(matches, "fit")) {
        return match fit_of(matches) {
            Some(domain) => Some(Order::Fit(domain)),
            None => None,
        };
    }
    match query_of(matches) {
        Some(query) => Some(Order::Analysis(query)),
        None => None,
    }
}

/// The kind of sets over which it is asked what fits, where no option but that of the domain is given beside `--fit`.
fn fit_of(matches: &ArgMatches<'_>) -> Option<Domain>
    requires { IsGiven (values_of (found_of matches.now) (codes "fit")) true }
    ensures { (domain : Domain) → result ≡ Some domain ↔ IsFit (values_of (found_of matches.now)) domain }
{
    if has_others(matches) {
        return None;
    }
    domain_of(value_of(matches, "domain"))
}

/// Whether an option of an analysis but that of the domain is given.
fn has_others(matches: &ArgMatches<'_>) -> bool
    ensures { IsFalse result ↔ (Without (codes "delay" ∷ (codes "ctl" ∷ (codes "at" ∷ []))) (values_of (found_of matches.now))
        × Unflagged (codes "explain" ∷ (codes "refine" ∷ [])) (values_of (found_of matches.now))) }
{
    value_of(matches, "delay").is_some()
        || value_of(matches, "ctl").is_some()
        || value_of(matches, "at").is_some()
        || is_given(value_of(matches, "explain"))
        || is_given(value_of(matches, "refine"))
}

/// The number of the demo program that the text says, where nothing else is given.
fn demo_of(matches: &ArgMatches<'_>, text: &str) -> Option<u32>
    ensures { (number : ℕ) → result ≡ Some number ↔ (IsCount text.now number × IsAlone (values_of (found_of matches.now))) }
{
    if !is_alone(matches) {
        return None;
    }
    count_of(text)
}

/// Whether nothing but the demo program's number is given.
fn is_alone(matches: &ArgMatches<'_>) -> bool
    ensures { IsTrue result ↔ IsAlone (values_of (found_of matches.now)) }
{
    value_of(matches, "domain").is_none()
        && value_of(matches, "delay").is_none()
        && value_of(matches, "ctl").is_none()
        && value_of(matches, "at").is_none()
        && !is_given(value_of(matches, "explain"))
        && !is_given(value_of(matches, "fit"))
        && !is_given(value_of(matches, "refine"))
}

/// The analysis that the values ask for.
fn query_of<'w>(matches: &ArgMatches<'w>) -> Option<Query<'w>>
    ensures { (task : Task) → option_map task_of result ≡ Some task
        ↔ IsTask (values_of (found_of matches.now)) task }
{
    let domain = domain_of(value_of(matches, "domain"))?;
    let delay = delay_of(value_of(matches, "delay"))?;
    let formula = bytes_of(matches, "ctl");
    let refine = is_given(value_of(matches, "refine"));
    if refine && formula.is_some() {
        return None;
    }
    Some(Query {
        domain,
        delay,
        formula,
        input: bytes_of(matches, "at"),
        explain: is_given(value_of(matches, "explain")),
        refine,
    })
}

/// The bytes of an option's value, where it has one.
fn bytes_of<'w>(matches: &ArgMatches<'w>, name: &str) -> Option<&'w [u8]>
    ensures { option_map (λ bytes. bytes.now) result ≡ values_of (found_of matches.now) name.now }
{
    match value_of(matches, name) {
        Some(text) => Some(text.as_bytes()),
        None => None,
    }
}

/// Whether a flag of this value is given.
fn is_given(value: Option<&str>) -> bool
    ensures { IsGiven (option_map (λ text. text.now) value.entry) result }
{
    matches!(value, Some("true"))
}

/// The domain that is named, by default boxes.
fn domain_of(value: Option<&str>) -> Option<Domain>
    ensures { (domain : Domain) → result ≡ Some domain ↔ IsDomain (option_map (λ text. text.now) value.entry) domain }
{
    match value {
        None | Some("boxes") => Some(Domain::Boxes),
        Some("octagons") => Some(Domain::Octagons),
        Some("polyhedra") => Some(Domain::Polyhedra),
        Some(_) => None,
    }
}

/// The delay, by default 2.
fn delay_of(value: Option<&str>) -> Option<u32>
    ensures { (delay : ℕ) → result ≡ Some delay ↔ IsDelay (option_map (λ text. text.now) value.entry) delay }
{
    let Some(text) = value else {
        return Some(2);
    };
    match text.as_bytes() {
        [digit @ b'0'..=b'8'] => Some(u32::from(*digit - b'0')),
        _ => None,
    }
}

/// The number of a demo program.
fn count_of(text: &str) -> Option<u32>
    ensures { (number : ℕ) → result ≡ Some number ↔ IsCount text.now number }
{
    let Some(number) = number_of(text.as_bytes()) else {
        return None;
    };
    if number == 0 || number > 1_000 {
        return None;
    }
    Some(number as u32)
}
