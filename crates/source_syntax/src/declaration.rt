//! Declarations. The parts of one are read by a loop.

ghost use Rattle.std.specs.Prelude.{◌≤◌, IfOk};
ghost use Rattle.derivation.specs.Pieces.{first};
ghost use Rattle.derivation.specs.Spelled.{IsBehind};
ghost use Rattle.source_syntax.specs.Language.{rest_at};
ghost use Rattle.concrete_syntax.specs.Mirror.{value as value_tree, part as part_tree, declaration as declaration_tree, start as start_tree};
ghost use Rattle.derivation.specs.Failures.{IfFault};
ghost use Rattle.source_syntax.specs.Pending.{an_initialiser, a_declaration, a_start};
ghost use Rattle.source_syntax.specs.Reads.{ReadsLeading, Refuses, RefusesCounting, ReadsInitialiser, ReadsPart, Halts, a_part};

use crate::call::value;
use crate::expression::expression;
use crate::input::{Read, Reader};
use crate::opening::{StartOpening, opening_of_start};
use crate::reader::{owned_name, sign};
use crate::simple::simple;
use concrete_syntax::{Declaration, Name, Part, Start, Value};
use derivation::{Symbol, after};

/// Reads a declaration and the `;` behind it, where functions are allowed or aren't.
pub fn declaration(reader: Reader<'_>, at: usize, levels: u32, functions: bool) -> Read<Declaration>
    requires shallow { levels ≤ 64 }
    ensures read { IfOk result (λ found. ReadsLeading (a_declaration functions levels) (declaration_tree found.0) (rest_at reader.entry at) (rest_at reader.entry found.1)) }
    ensures forward { IfOk result (λ found. IsBehind reader.entry.words.now at found.1) }
    ensures refused { IfFault result (λ fault. Refuses (a_declaration functions levels) (rest_at reader.entry at) fault.rule (rest_at reader.entry fault.at)) }
{
    let inner = sign(reader, at, Symbol::Int)?;
    let (first, mut here) = part(reader, inner, levels, functions)?;
    let mut more = Vec::new(reader.alloc);
    'parts: loop {
        if let Some(behind) = after(reader.words, here, Symbol::Comma) {
            let (further, next) = part(reader, behind, levels, functions)?;
            more.push(further)?;
            here = next;
        } else {
            let next = sign(reader, here, Symbol::Semicolon)?;
            return Ok((Declaration { part: first, more }, next));
        }
    }
}

// Reads a declared name and its initialiser, if it has one.
fn part(reader: Reader<'_>, at: usize, levels: u32, functions: bool) -> Read<Part>
    requires shallow { levels ≤ 64 }
    ensures read { IfOk result (λ found. ReadsPart functions levels (part_tree found.0) (rest_at reader.entry at) (rest_at reader.entry found.1)) }
    ensures forward { IfOk result (λ found. IsBehind reader.entry.words.now at found.1) }
    ensures refused { IfFault result (λ fault. Halts (a_part functions levels) (rest_at reader.entry at) fault.rule (rest_at reader.entry fault.at)) }
{
    let (bytes, behind) = owned_name(reader, at)?;
    let declared = Name { at, bytes };
    if let Some(inner) = after(reader.words, behind, Symbol::Assign) {
        let (value, next) = initialiser(reader, inner, levels, functions)?;
        let part = Part {
            declared,
            initialiser: Some(value),
        };
        return Ok((part, next));
    }
    let part = Part {
        declared,
        initialiser: None,
    };
    Ok((part, behind))
}

// Reads the initialiser of a declared name: an expression, or where functions are allowed a call.
fn initialiser(reader: Reader<'_>, at: usize, levels: u32, functions: bool) -> Read<Value>
    requires shallow { levels ≤ 64 }
    ensures read { IfOk result (λ found. ReadsInitialiser functions levels (value_tree found.0) (rest_at reader.entry at) (rest_at reader.entry found.1)) }
    ensures forward { IfOk result (λ found. IsBehind reader.entry.words.now at found.1) }
    ensures refused { IfFault result (λ fault. RefusesCounting 0 (an_initialiser functions levels) (rest_at reader.entry at) fault.rule (rest_at reader.entry fault.at)) }
{
    if functions {
        let (value, next) = value(reader, at, levels)?;
        return Ok((value, next));
    }
    let (plain, next, _) = expression(reader, at, levels, 0)?;
    Ok((Value::Expression(plain), next))
}

/// Reads what stands before the first `;` of a `for`, and this `;`.
pub fn start(reader: Reader<'_>, at: usize, levels: u32, functions: bool) -> Read<Start>
    requires shallow { levels ≤ 64 }
    ensures read { IfOk result (λ found. ReadsLeading (a_start functions levels) (start_tree found.0) (rest_at reader.entry at) (rest_at reader.entry found.1)) }
    ensures forward { IfOk result (λ found. IsBehind reader.entry.words.now at found.1) }
    ensures refused { IfFault result (λ fault. Refuses (a_start functions levels) (rest_at reader.entry at) fault.rule (rest_at reader.entry fault.at)) }
{
    match opening_of_start(reader, at) {
        StartOpening::Nothing => {
            let next = sign(reader, at, Symbol::Semicolon)?;
            Ok((Start::Nothing, next))
        }
        StartOpening::Declaration => {
            let (declared, next) = declaration(reader, at, levels, functions)?;
            Ok((Start::Declaration(declared), next))
        }
        StartOpening::Simple => {
            let (first, behind) = simple(reader, at, levels)?;
            let next = sign(reader, behind, Symbol::Semicolon)?;
            Ok((Start::Simple(first), next))
        }
    }
}
