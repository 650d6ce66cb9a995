//! Programs: `main`, and what may stand before it.

ghost use Rattle.std.specs.Prelude.{◌≡◌, true, [], ◌∷◌, IfOk, IfErr};
ghost use Rattle.derivation.specs.Pieces.{first};
ghost use Rattle.derivation.specs.Spelled.{words_from, IsBehind};
ghost use Rattle.source_syntax.specs.Language.{rest_at};
ghost use Rattle.concrete_syntax.specs.Trees.{extern_call as extern_tree, typedef_bool as typedef_tree};
ghost use Rattle.concrete_syntax.specs.Mirror.{program as program_tree, items as items_tree, name as name_tree, parameters as parameters_tree, function as function_tree};
ghost use Rattle.derivation.specs.Failures.{IfFault};
ghost use Rattle.source_syntax.specs.Openings.{opening_of_prelude};
ghost use Rattle.source_syntax.specs.declared.opening.PreludeOpening.TheVariants as PreludeOpening;
ghost use Rattle.source_syntax.specs.Pending.{a_program, definitions as pending_definitions, a_void, parameters as pending_parameters};
ghost use Rattle.source_syntax.specs.Reads.{Reads, Refuses, Continues, behind_preludes, definitions_tree, Halts, ReadsMain, main_end, ReadsFunction, function_end, ReadsParameter, a_parameter};

use crate::input::{Read, Reader};
use crate::opening::{PreludeOpening, opening_of_prelude};
use crate::reader::{opening, owned_name, sign, signs};
use crate::statement::items;
use concrete_syntax::{Function, Items, Name, Parameters, Prelude, Program};
use derivation::{Failure, Fault, Symbol, after};

/// Reads a program, where functions are allowed beside `main` or aren't.
pub fn program(reader: Reader<'_>, at: usize, functions: bool) -> Read<Program>
    ensures read { IfOk result (λ found. Reads (a_program functions) (program_tree found.0) (rest_at reader.entry at) (rest_at reader.entry found.1)) }
    ensures forward { IfOk result (λ found. IsBehind reader.entry.words.now at found.1) }
    ensures refused { IfFault result (λ fault. Refuses (a_program functions) (rest_at reader.entry at) fault.rule (rest_at reader.entry fault.at)) }
{
    let mut here = at;
    let mut preludes = Vec::new(reader.alloc);
    'preludes: loop {
        match opening_of_prelude(reader, here) {
            PreludeOpening::Extern => {
                let (void, next) = extern_call(reader, here, functions)?;
                preludes.push(Prelude::ExternCall { void })?;
                here = next;
            }
            PreludeOpening::Typedef => {
                let next = typedef_bool(reader, here, functions)?;
                preludes.push(Prelude::TypedefBool)?;
                here = next;
            }
            PreludeOpening::Main => {
                let (all, next) = after_preludes(reader, here, functions)?;
                let whole = Program {
                    preludes,
                    functions: all.functions,
                    void: all.void,
                    items: all.items,
                };
                return Ok((whole, next));
            }
        }
    }
}

/// What stands behind the preludes of a program: functions, and what is in the parentheses and the braces of `main`.
#[derive(Drop)]
struct Definitions {
    functions: Vec<Function>,
    void: bool,
    items: Items,
}

// Reads what stands behind preludes.
fn after_preludes(reader: Reader<'_>, at: usize, functions: bool) -> Read<Definitions>
    ensures read { IfOk result (λ found. Reads (pending_definitions functions) (definitions_tree found.0.functions.items found.0.void found.0.items) (rest_at reader.entry at) (rest_at reader.entry found.1)) }
    ensures forward { IfOk result (λ found. IsBehind reader.entry.words.now at found.1) }
    ensures refused { IfFault result (λ fault. Refuses (pending_definitions functions) (rest_at reader.entry at) fault.rule (rest_at reader.entry fault.at)) }
{
    if functions {
        let (all, next) = with_functions(reader, at)?;
        return Ok((all, next));
    }
    let inner = signs(reader, at, &[Symbol::Int, Symbol::Main])?;
    let (void, items, next) = main_end(reader, inner, false)?;
    let functions = Vec::new(reader.alloc);
    let all = Definitions {
        functions,
        void,
        items,
    };
    Ok((all, next))
}

// Reads functions and `main`.
fn with_functions(reader: Reader<'_>, at: usize) -> Read<Definitions>
    ensures read { IfOk result (λ found. Reads (pending_definitions true) (definitions_tree found.0.functions.items found.0.void found.0.items) (rest_at reader.entry at) (rest_at reader.entry found.1)) }
    ensures forward { IfOk result (λ found. IsBehind reader.entry.words.now at found.1) }
    ensures refused { IfFault result (λ fault. Refuses (pending_definitions true) (rest_at reader.entry at) fault.rule (rest_at reader.entry fault.at)) }
{
    let mut here = at;
    let mut functions = Vec::new(reader.alloc);
    'further: loop {
        if let Some(inner) = after(reader.words, here, Symbol::Void) {
            let (further, next) = function(reader, inner, false)?;
            functions.push(further)?;
            here = next;
        } else {
            let inner = sign(reader, here, Symbol::Int)?;
            if let Some(behind) = after(reader.words, inner, Symbol::Main) {
                let (void, items, next) = main_end(reader, behind, true)?;
                let all = Definitions {
                    functions,
                    void,
                    items,
                };
                return Ok((all, next));
            }
            let (further, next) = function(reader, inner, true)?;
            functions.push(further)?;
            here = next;
        }
    }
}

// Reads the declaration of `__VERIFIER_nondet_int`. Answers whether `void` is written in its parentheses, and the number of the word behind it.
fn extern_call(reader: Reader<'_>, at: usize, functions: bool) -> Result<(bool, usize), Fault>
    requires opens { PreludeOpening.Extern ≡ opening_of_prelude (first (words_from reader.words.now at)) }
    ensures read { IfOk result (λ found. Continues (a_program functions) (behind_preludes (extern_tree found.0 ∷ [])) (rest_at reader.entry at) (rest_at reader.entry found.1)) }
    ensures forward { IfOk result (λ found. IsBehind reader.entry.words.now at found.1) }
    ensures refused { IfErr result (λ fault. Refuses (a_program functions) (rest_at reader.entry at) fault.rule (rest_at reader.entry fault.at)) }
{
    let before = [
        Symbol::Extern,
        Symbol::Int,
        Symbol::Nondeterministic,
        Symbol::OpenParenthesis,
    ];
    let inner = signs(reader, at, &before)?;
    let (written, end) = void(reader, inner)?;
    let next = sign(reader, end, Symbol::Semicolon)?;
    Ok((written, next))
}

// Reads the definition of `bool`.
fn typedef_bool(reader: Reader<'_>, at: usize, functions: bool) -> Result<usize, Fault>
    requires opens { PreludeOpening.Typedef ≡ opening_of_prelude (first (words_from reader.words.now at)) }
    ensures read { IfOk result (λ next. Continues (a_program functions) (behind_preludes (typedef_tree ∷ [])) (rest_at reader.entry at) (rest_at reader.entry next)) }
    ensures forward { IfOk result (IsBehind reader.entry.words.now at) }
    ensures refused { IfErr result (λ fault. Refuses (a_program functions) (rest_at reader.entry at) fault.rule (rest_at reader.entry fault.at)) }
{
    let all = [
        Symbol::Typedef,
        Symbol::Enum,
        Symbol::OpenBrace,
        Symbol::False,
        Symbol::Comma,
        Symbol::True,
        Symbol::CloseBrace,
        Symbol::Bool,
        Symbol::Semicolon,
    ];
    let next = signs(reader, at, &all)?;
    Ok(next)
}

// Reads what stands behind the name of `main`. Answers whether `void` is written in its parentheses, its items, and the number of the word
// behind it.
fn main_end(reader: Reader<'_>, at: usize, functions: bool) -> Result<(bool, Items, usize), Failure>
    ensures read { IfOk result (λ found. ReadsMain functions found.0 (items_tree found.1) (rest_at reader.entry at) (rest_at reader.entry found.2)) }
    ensures forward { IfOk result (λ found. IsBehind reader.entry.words.now at found.2) }
    ensures refused { IfFault result (λ fault. Halts (main_end functions) (rest_at reader.entry at) fault.rule (rest_at reader.entry fault.at)) }
{
    let inner = sign(reader, at, Symbol::OpenParenthesis)?;
    let (written, brace) = void(reader, inner)?;
    let body = opening(reader, brace, Symbol::OpenBrace, 1)?;
    let (all, next) = items(reader, body, 1, functions)?;
    Ok((written, all, next))
}

// Reads what stands behind the type of a function, which gives a value or none.
fn function(reader: Reader<'_>, at: usize, valued: bool) -> Read<Function>
    ensures read { IfOk result (λ found. ReadsFunction (function_tree found.0) (rest_at reader.entry at) (rest_at reader.entry found.1)) }
    ensures typed { IfOk result (λ found. found.0.valued ≡ valued) }
    ensures forward { IfOk result (λ found. IsBehind reader.entry.words.now at found.1) }
    ensures refused { IfFault result (λ fault. Halts function_end (rest_at reader.entry at) fault.rule (rest_at reader.entry fault.at)) }
{
    let (bytes, open) = owned_name(reader, at)?;
    let inner = sign(reader, open, Symbol::OpenParenthesis)?;
    let (parameters, brace) = parameters(reader, inner)?;
    let body = opening(reader, brace, Symbol::OpenBrace, 1)?;
    let (items, behind) = items(reader, body, 1, true)?;
    let all = Function {
        valued,
        name: Name { at, bytes },
        parameters,
        items,
        behind,
    };
    Ok((all, behind))
}

// Reads what stands in the parentheses of a function, and the `)`.
fn parameters(reader: Reader<'_>, at: usize) -> Read<Parameters>
    ensures read { IfOk result (λ found. Reads pending_parameters (parameters_tree found.0) (rest_at reader.entry at) (rest_at reader.entry found.1)) }
    ensures forward { IfOk result (λ found. IsBehind reader.entry.words.now at found.1) }
    ensures refused { IfFault result (λ fault. Refuses pending_parameters (rest_at reader.entry at) fault.rule (rest_at reader.entry fault.at)) }
{
    let Some(inner) = after(reader.words, at, Symbol::Int) else {
        let (written, next) = void(reader, at)?;
        return Ok((Parameters::Nothing { void: written }, next));
    };
    let (bytes, mut here) = owned_name(reader, inner)?;
    let first = Name { at: inner, bytes };
    let mut more = Vec::new(reader.alloc);
    'further: loop {
        if let Some(comma) = after(reader.words, here, Symbol::Comma) {
            let (further, next) = parameter(reader, comma)?;
            more.push(further)?;
            here = next;
        } else {
            let next = sign(reader, here, Symbol::CloseParenthesis)?;
            return Ok((Parameters::Named { first, more }, next));
        }
    }
}

// Reads a further parameter.
fn parameter(reader: Reader<'_>, at: usize) -> Read<Name>
    ensures read { IfOk result (λ found. ReadsParameter (name_tree found.0) (rest_at reader.entry at) (rest_at reader.entry found.1)) }
    ensures forward { IfOk result (λ found. IsBehind reader.entry.words.now at found.1) }
    ensures refused { IfFault result (λ fault. Halts a_parameter (rest_at reader.entry at) fault.rule (rest_at reader.entry fault.at)) }
{
    let inner = sign(reader, at, Symbol::Int)?;
    let (bytes, next) = owned_name(reader, inner)?;
    Ok((Name { at: inner, bytes }, next))
}

// Reads a `)`, and before it the word `void` where it stands. Answers whether it does, and the number behind the `)`.
fn void(reader: Reader<'_>, at: usize) -> Result<(bool, usize), Fault>
    ensures read { IfOk result (λ found. Reads a_void found.0 (rest_at reader.entry at) (rest_at reader.entry found.1)) }
    ensures forward { IfOk result (λ found. IsBehind reader.entry.words.now at found.1) }
    ensures refused { IfErr result (λ fault. Refuses a_void (rest_at reader.entry at) fault.rule (rest_at reader.entry fault.at)) }
{
    if let Some(close) = after(reader.words, at, Symbol::Void) {
        let end = sign(reader, close, Symbol::CloseParenthesis)?;
        return Ok((true, end));
    }
    let next = sign(reader, at, Symbol::CloseParenthesis)?;
    Ok((false, next))
}
