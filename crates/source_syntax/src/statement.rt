//! Statements. Only nesting recurses: the items in braces are read by a loop.

ghost use Rattle.std.specs.Prelude.{◌≡◌, ◌≤◌, false, length, IfOk};
ghost use Rattle.derivation.specs.Pieces.{first};
ghost use Rattle.derivation.specs.Spelled.{words_from, IsBehind};
ghost use Rattle.source_syntax.specs.Language.{rest_at};
ghost use Rattle.concrete_syntax.specs.Mirror.{name as name_tree, expression as expression_tree, optional as optional_tree, optional_simple as step_tree, start as start_tree, statement as statement_tree, statement_kind as kind_tree, otherwise as otherwise_tree, items as items_tree};
ghost use Rattle.source_syntax.specs.Openings.{opening_of_statement};
ghost use Rattle.source_syntax.specs.declared.opening.StatementOpening.TheVariants as StatementOpening;
ghost use Rattle.derivation.specs.Failures.{IfFault};
ghost use Rattle.source_syntax.specs.Pending.{a_statement_end, a_statement, a_statement_kind, an_otherwise, items as pending_items};
ghost use Rattle.source_syntax.specs.Reads.{Reads, Refuses, Halts, ReadsEnd, ReadsEndOfDo, end_of_do, ReadsHeadOfFor, head_of_for};

use crate::call::statement_end;
use crate::declaration::{declaration, start};
use crate::input::{Read, Reader};
use crate::opening::{ItemOpening, StatementOpening, opening_of_item, opening_of_statement};
use crate::reader::{opening, owned_name, sign, signs};
use crate::simple::{action, finish, optional, simple, test};
use concrete_syntax::{
    Expression, ForLoop, Item, Items, Name, Otherwise, Simple, Start, Statement, StatementKind,
};
use derivation::{Failure, Fault, MOST_LEVELS, Rule, Symbol, after};

// Reads a statement where `levels` levels are open and functions are allowed or aren't.
#[cycle(statements)]
fn statement(reader: Reader<'_>, at: usize, levels: u32, functions: bool) -> Read<Statement>
    requires shallow { levels ≤ 64 }
    ensures read { IfOk result (λ found. Reads (a_statement functions levels) (statement_tree found.0) (rest_at reader.entry at) (rest_at reader.entry found.1)) }
    ensures forward { IfOk result (λ found. IsBehind reader.entry.words.now at found.1) }
    ensures refused { IfFault result (λ fault. Refuses (a_statement functions levels) (rest_at reader.entry at) fault.rule (rest_at reader.entry fault.at)) }
{
    let (kind, next) = kind(reader, at, levels, functions)?;
    Ok((Statement { at, kind }, next))
}

// Reads a statement into a box.
#[cycle(statements)]
fn boxed(reader: Reader<'_>, at: usize, levels: u32, functions: bool) -> Read<Box<Statement>>
    requires shallow { levels ≤ 64 }
    ensures read { IfOk result (λ found. Reads (a_statement functions levels) (statement_tree found.0.value) (rest_at reader.entry at) (rest_at reader.entry found.1)) }
    ensures forward { IfOk result (λ found. IsBehind reader.entry.words.now at found.1) }
    ensures refused { IfFault result (λ fault. Refuses (a_statement functions levels) (rest_at reader.entry at) fault.rule (rest_at reader.entry fault.at)) }
{
    let (inner, next) = statement(reader, at, levels, functions)?;
    let boxed = Box::new(reader.alloc, inner)?;
    Ok((boxed, next))
}

// Reads what a statement is.
#[cycle(statements)]
fn kind(reader: Reader<'_>, at: usize, levels: u32, functions: bool) -> Read<StatementKind>
    requires shallow { levels ≤ 64 }
    ensures read { IfOk result (λ found. Reads (a_statement_kind functions levels) (kind_tree found.0) (rest_at reader.entry at) (rest_at reader.entry found.1)) }
    ensures forward { IfOk result (λ found. IsBehind reader.entry.words.now at found.1) }
    ensures refused { IfFault result (λ fault. Refuses (a_statement_kind functions levels) (rest_at reader.entry at) fault.rule (rest_at reader.entry fault.at)) }
{
    match opening_of_statement(reader, at) {
        StatementOpening::Name => named(reader, at, levels, functions),
        StatementOpening::Steps => stepping(reader, at, levels, functions),
        StatementOpening::Skip => {
            let next = sign(reader, at, Symbol::Semicolon)?;
            Ok((StatementKind::Skip, next))
        }
        StatementOpening::Braces => braces(reader, at, levels, functions),
        StatementOpening::If => conditional(reader, at, levels, functions),
        StatementOpening::While => while_loop(reader, at, levels, functions),
        StatementOpening::Do => do_loop(reader, at, levels, functions),
        StatementOpening::For => for_loop(reader, at, levels, functions),
        StatementOpening::Return => returning(reader, at, levels, functions),
        StatementOpening::Break => {
            let next = signs(reader, at, &[Symbol::Break, Symbol::Semicolon])?;
            Ok((StatementKind::Break, next))
        }
        StatementOpening::Continue => {
            let next = signs(reader, at, &[Symbol::Continue, Symbol::Semicolon])?;
            Ok((StatementKind::Continue, next))
        }
        StatementOpening::Nothing => Err(Failure::Fault(Fault {
            rule: Rule::Expected,
            at,
        })),
    }
}

// Reads a statement that begins with a name, with its `;`.
fn named(reader: Reader<'_>, at: usize, levels: u32, functions: bool) -> Read<StatementKind>
    requires shallow { levels ≤ 64 }
    requires opens { StatementOpening.Name ≡ opening_of_statement (first (words_from reader.words.now at)) }
    ensures read { IfOk result (λ found. Reads (a_statement_kind functions levels) (kind_tree found.0) (rest_at reader.entry at) (rest_at reader.entry found.1)) }
    ensures forward { IfOk result (λ found. IsBehind reader.entry.words.now at found.1) }
    ensures refused { IfFault result (λ fault. Refuses (a_statement_kind functions levels) (rest_at reader.entry at) fault.rule (rest_at reader.entry fault.at)) }
{
    let (bytes, behind) = owned_name(reader, at)?;
    let name = Name { at, bytes };
    if functions {
        let (kind, next) = statement_end(reader, behind, levels, name)?;
        return Ok((kind, next));
    }
    let (acting, next) = acting(reader, behind, levels, name)?;
    Ok((acting, next))
}

// Reads what stands behind the name that a statement begins with where functions aren't allowed, with the `;`. Answers the statement.
fn acting(reader: Reader<'_>, at: usize, levels: u32, name: Name) -> Read<StatementKind>
    requires shallow { levels ≤ 64 }
    ensures read { IfOk result (λ found. ReadsEnd false levels (name_tree name) (kind_tree found.0) (rest_at reader.entry at) (rest_at reader.entry found.1)) }
    ensures forward { IfOk result (λ found. IsBehind reader.entry.words.now at found.1) }
    ensures refused { IfFault result (λ fault. Refuses (a_statement_end false levels) (rest_at reader.entry at) fault.rule (rest_at reader.entry fault.at)) }
{
    let (action, end) = action(reader, at, levels)?;
    let next = sign(reader, end, Symbol::Semicolon)?;
    Ok((StatementKind::Simple(Simple::Acts { name, action }), next))
}

// Reads a simple statement that begins with its sign, and its `;`.
fn stepping(reader: Reader<'_>, at: usize, levels: u32, functions: bool) -> Read<StatementKind>
    requires shallow { levels ≤ 64 }
    requires opens { StatementOpening.Steps ≡ opening_of_statement (first (words_from reader.words.now at)) }
    ensures read { IfOk result (λ found. Reads (a_statement_kind functions levels) (kind_tree found.0) (rest_at reader.entry at) (rest_at reader.entry found.1)) }
    ensures forward { IfOk result (λ found. IsBehind reader.entry.words.now at found.1) }
    ensures refused { IfFault result (λ fault. Refuses (a_statement_kind functions levels) (rest_at reader.entry at) fault.rule (rest_at reader.entry fault.at)) }
{
    let (inner, behind) = simple(reader, at, levels)?;
    let next = sign(reader, behind, Symbol::Semicolon)?;
    Ok((StatementKind::Simple(inner), next))
}

// Reads a `return`.
fn returning(reader: Reader<'_>, at: usize, levels: u32, functions: bool) -> Read<StatementKind>
    requires shallow { levels ≤ 64 }
    requires opens { StatementOpening.Return ≡ opening_of_statement (first (words_from reader.words.now at)) }
    ensures read { IfOk result (λ found. Reads (a_statement_kind functions levels) (kind_tree found.0) (rest_at reader.entry at) (rest_at reader.entry found.1)) }
    ensures forward { IfOk result (λ found. IsBehind reader.entry.words.now at found.1) }
    ensures refused { IfFault result (λ fault. Refuses (a_statement_kind functions levels) (rest_at reader.entry at) fault.rule (rest_at reader.entry fault.at)) }
{
    let behind = sign(reader, at, Symbol::Return)?;
    let (value, next) = optional(reader, behind, levels)?;
    Ok((StatementKind::Return(value), next))
}

// Reads items in braces.
#[cycle(statements)]
fn braces(reader: Reader<'_>, at: usize, levels: u32, functions: bool) -> Read<StatementKind>
    requires shallow { levels ≤ 64 }
    requires opens { StatementOpening.Braces ≡ opening_of_statement (first (words_from reader.words.now at)) }
    ensures read { IfOk result (λ found. Reads (a_statement_kind functions levels) (kind_tree found.0) (rest_at reader.entry at) (rest_at reader.entry found.1)) }
    ensures forward { IfOk result (λ found. IsBehind reader.entry.words.now at found.1) }
    ensures refused { IfFault result (λ fault. Refuses (a_statement_kind functions levels) (rest_at reader.entry at) fault.rule (rest_at reader.entry fault.at)) }
{
    let inner_levels = levels + 1;
    let inner = opening(reader, at, Symbol::OpenBrace, inner_levels)?;
    let (all, next) = items(reader, inner, inner_levels, functions)?;
    Ok((StatementKind::Braces(all), next))
}

/// Reads items, and the `}` behind them.
#[cycle(statements)]
pub fn items(reader: Reader<'_>, at: usize, levels: u32, functions: bool) -> Read<Items>
    requires shallow { levels ≤ 64 }
    ensures read { IfOk result (λ found. Reads (pending_items functions levels) (items_tree found.0) (rest_at reader.entry at) (rest_at reader.entry found.1)) }
    ensures forward { IfOk result (λ found. IsBehind reader.entry.words.now at found.1) }
    ensures refused { IfFault result (λ fault. Refuses (pending_items functions levels) (rest_at reader.entry at) fault.rule (rest_at reader.entry fault.at)) }
{
    let mut here = at;
    let mut list = Vec::new(reader.alloc);
    'further: loop {
        match opening_of_item(reader, here) {
            ItemOpening::Close => {
                let next = sign(reader, here, Symbol::CloseBrace)?;
                let all = Items::of(reader.alloc, list)?;
                return Ok((all, next));
            }
            ItemOpening::Declaration => {
                let (further, next) = declaration(reader, here, levels, functions)?;
                list.push(Item::Declaration(further))?;
                here = next;
            }
            ItemOpening::Statement => {
                let (further, next) = statement(reader, here, levels, functions)?;
                list.push(Item::Statement(further))?;
                here = next;
            }
        }
    }
}

// Reads an `if`.
#[cycle(statements)]
fn conditional(reader: Reader<'_>, at: usize, levels: u32, functions: bool) -> Read<StatementKind>
    requires shallow { levels ≤ 64 }
    requires opens { StatementOpening.If ≡ opening_of_statement (first (words_from reader.words.now at)) }
    ensures read { IfOk result (λ found. Reads (a_statement_kind functions levels) (kind_tree found.0) (rest_at reader.entry at) (rest_at reader.entry found.1)) }
    ensures forward { IfOk result (λ found. IsBehind reader.entry.words.now at found.1) }
    ensures refused { IfFault result (λ fault. Refuses (a_statement_kind functions levels) (rest_at reader.entry at) fault.rule (rest_at reader.entry fault.at)) }
{
    let inner_levels = levels + 1;
    let open = opening(reader, at, Symbol::If, inner_levels)?;
    let (tested, inner) = test(reader, open, inner_levels)?;
    let (part, behind) = boxed(reader, inner, inner_levels, functions)?;
    let (other, next) = otherwise(reader, behind, inner_levels, functions)?;
    let kind = StatementKind::Conditional {
        test: tested,
        part,
        other,
    };
    Ok((kind, next))
}

// Reads the second part of an `if`, where it has one.
#[cycle(statements)]
fn otherwise(reader: Reader<'_>, at: usize, levels: u32, functions: bool) -> Read<Otherwise>
    requires shallow { levels ≤ 64 }
    requires within { at ≤ length reader.words.now }
    ensures read { IfOk result (λ found. Reads (an_otherwise functions levels) (otherwise_tree found.0) (rest_at reader.entry at) (rest_at reader.entry found.1)) }
    ensures forward { IfOk result (λ found. at ≤ found.1) }
    ensures inside { IfOk result (λ found. found.1 ≤ length reader.entry.words.now) }
    ensures refused { IfFault result (λ fault. Refuses (an_otherwise functions levels) (rest_at reader.entry at) fault.rule (rest_at reader.entry fault.at)) }
{
    let Some(inner) = after(reader.words, at, Symbol::Else) else {
        return Ok((Otherwise::Nothing, at));
    };
    let inner_levels = levels + 1;
    if inner_levels > MOST_LEVELS {
        let rule = Rule::Nesting;
        return Err(Failure::Fault(Fault { rule, at }));
    }
    let (part, next) = boxed(reader, inner, inner_levels, functions)?;
    Ok((Otherwise::Else(part), next))
}

// Reads a `while`.
#[cycle(statements)]
fn while_loop(reader: Reader<'_>, at: usize, levels: u32, functions: bool) -> Read<StatementKind>
    requires shallow { levels ≤ 64 }
    requires opens { StatementOpening.While ≡ opening_of_statement (first (words_from reader.words.now at)) }
    ensures read { IfOk result (λ found. Reads (a_statement_kind functions levels) (kind_tree found.0) (rest_at reader.entry at) (rest_at reader.entry found.1)) }
    ensures forward { IfOk result (λ found. IsBehind reader.entry.words.now at found.1) }
    ensures refused { IfFault result (λ fault. Refuses (a_statement_kind functions levels) (rest_at reader.entry at) fault.rule (rest_at reader.entry fault.at)) }
{
    let inner_levels = levels + 1;
    let open = opening(reader, at, Symbol::While, inner_levels)?;
    let (tested, inner) = test(reader, open, inner_levels)?;
    let (body, next) = boxed(reader, inner, inner_levels, functions)?;
    Ok((StatementKind::While { test: tested, body }, next))
}

// Reads a `do`.
#[cycle(statements)]
fn do_loop(reader: Reader<'_>, at: usize, levels: u32, functions: bool) -> Read<StatementKind>
    requires shallow { levels ≤ 64 }
    requires opens { StatementOpening.Do ≡ opening_of_statement (first (words_from reader.words.now at)) }
    ensures read { IfOk result (λ found. Reads (a_statement_kind functions levels) (kind_tree found.0) (rest_at reader.entry at) (rest_at reader.entry found.1)) }
    ensures forward { IfOk result (λ found. IsBehind reader.entry.words.now at found.1) }
    ensures refused { IfFault result (λ fault. Refuses (a_statement_kind functions levels) (rest_at reader.entry at) fault.rule (rest_at reader.entry fault.at)) }
{
    let inner_levels = levels + 1;
    let inner = opening(reader, at, Symbol::Do, inner_levels)?;
    let (body, end) = boxed(reader, inner, inner_levels, functions)?;
    let (test, next) = end_of_do(reader, end, inner_levels)?;
    Ok((StatementKind::Do { body, end, test }, next))
}

// Reads what stands behind the body of a `do`: `while`, the test and a `;`. Answers the test.
fn end_of_do(reader: Reader<'_>, at: usize, levels: u32) -> Read<Expression>
    requires shallow { levels ≤ 64 }
    ensures read { IfOk result (λ found. ReadsEndOfDo levels (expression_tree found.0) (rest_at reader.entry at) (rest_at reader.entry found.1)) }
    ensures forward { IfOk result (λ found. IsBehind reader.entry.words.now at found.1) }
    ensures refused { IfFault result (λ fault. Halts (end_of_do levels) (rest_at reader.entry at) fault.rule (rest_at reader.entry fault.at)) }
{
    let open = sign(reader, at, Symbol::While)?;
    let (tested, behind) = test(reader, open, levels)?;
    let next = sign(reader, behind, Symbol::Semicolon)?;
    Ok((tested, next))
}

// Reads a `for`.
#[cycle(statements)]
fn for_loop(reader: Reader<'_>, at: usize, levels: u32, functions: bool) -> Read<StatementKind>
    requires shallow { levels ≤ 64 }
    requires opens { StatementOpening.For ≡ opening_of_statement (first (words_from reader.words.now at)) }
    ensures read { IfOk result (λ found. Reads (a_statement_kind functions levels) (kind_tree found.0) (rest_at reader.entry at) (rest_at reader.entry found.1)) }
    ensures forward { IfOk result (λ found. IsBehind reader.entry.words.now at found.1) }
    ensures refused { IfFault result (λ fault. Refuses (a_statement_kind functions levels) (rest_at reader.entry at) fault.rule (rest_at reader.entry fault.at)) }
{
    let inner_levels = levels + 1;
    let open = opening(reader, at, Symbol::For, inner_levels)?;
    let (head, inner) = head_of_for(reader, open, inner_levels, functions)?;
    let (body, next) = statement(reader, inner, inner_levels, functions)?;
    let made = ForLoop {
        start: head.start,
        test: head.test,
        step: head.step,
        body,
    };
    let boxed = Box::new(reader.alloc, made)?;
    Ok((StatementKind::For(boxed), next))
}

/// What stands in the parentheses of a `for`.
#[derive(Drop)]
struct HeadOfFor {
    start: Start,
    test: Option<Expression>,
    step: Option<Simple>,
}

// Reads the parentheses of a `for`, with what stands in them.
fn head_of_for(reader: Reader<'_>, at: usize, levels: u32, functions: bool) -> Read<HeadOfFor>
    requires shallow { levels ≤ 64 }
    ensures read { IfOk result (λ found. ReadsHeadOfFor functions levels (start_tree found.0.start) (optional_tree found.0.test) (step_tree found.0.step) (rest_at reader.entry at) (rest_at reader.entry found.1)) }
    ensures forward { IfOk result (λ found. IsBehind reader.entry.words.now at found.1) }
    ensures refused { IfFault result (λ fault. Halts (head_of_for functions levels) (rest_at reader.entry at) fault.rule (rest_at reader.entry fault.at)) }
{
    let first = sign(reader, at, Symbol::OpenParenthesis)?;
    let (start, second) = start(reader, first, levels, functions)?;
    let (test, third) = optional(reader, second, levels)?;
    let (step, next) = finish(reader, third, levels)?;
    Ok((HeadOfFor { start, test, step }, next))
}
