//! The front door: the program of functions that a tree stands for.

ghost use Rattle.std.specs.Prelude.{◌≡◌, IfOk, IfErr};
ghost use Rattle.concrete_syntax.specs.Mirror.{program as program_of};
ghost use Rattle.step_meaning.specs.Syntax.{statements};
ghost use Rattle.step_meaning.specs.Offsets.{offsets};
ghost use Rattle.elaboration.specs.Elaborates.{IsRefusalOf, StandsFor, StandsForUnit, program_offsets};

use crate::context::{Body, Context};
use crate::function::Whole;
use crate::plain::plain_block;
use crate::statement::items;
use call_meaning::{FuncList, UnitBlock};
use concrete_syntax::Program as Tree;
use source_lex::Token;
use std::alloc::{AllocError, Global};
use step_meaning::{Names, Program};
use typed_expressions::{Fault, Walk};

/// Why a tree stands for no program.
#[derive(Debug, Drop)]
pub enum Refusal {
    /// The first fault of names, sorts, jumps and divisors: of the faults with the least token that of the earliest rule.
    Fault(Fault),
    /// Memory ran out. It says nothing of the tree.
    Memory(AllocError),
}

impl From<AllocError> for Refusal {
    ghost use Rattle.elaboration.specs.declared.front.Refusal.TheVariants.{Memory};

    ghost from_gives = { λ error refusal. refusal ≡ Memory error };

    fn from(error: AllocError) -> Refusal {
        Refusal::Memory(error)
    }
}

/// The parts of the unit that a tree stands for.
#[derive(Drop)]
pub struct Parts {
    pub func_names: Names,
    pub funcs: FuncList,
    pub names: Names,
    pub body: UnitBlock,
}

/// The program of functions that a concrete tree stands for: functions in the order of the text, variables of each in the order of their first
/// declarations, and statements, each with the offset in the text of its first token (for a `do` of the `while` that ends it, for a declared name of the
/// name, for a call of the called name). `tokens` are the text's. Time is linear in the tree, times the number of names in scope, which is at most 15 where
/// there is no fault.
///
/// `Fault` comes exactly where a name is used outside its scope or declared twice, a truth value stands where a number is needed, a
/// range is upside down or infinite the wrong way, a sixteenth name is declared, a `break` or `continue` stands inside no body of a
/// loop, a divisor is 0, a `return` of a function isn't at its end, is missing there or has a value against the function's type, or a call has another number
/// of arguments than there are parameters; `Memory` where memory runs out.
pub fn elaborate_unit(alloc: Global, tree: &Tree, tokens: &[Token]) -> Result<Parts, Refusal>
    ensures unit { IfOk result (λ parts. StandsForUnit tokens.now (program_of tree.now) parts.func_names parts.funcs parts.names parts.body) }
    ensures refusal { IfErr result (IsRefusalOf (program_of tree.now)) }
{
    let mut whole = Whole::new(alloc, tokens);
    for function in tree.functions.iter() {
        whole.function(function)?;
    }
    let mut walk = Walk::new(alloc, tokens, whole.others, whole.least);
    let mut list = Vec::new(alloc);
    items(
        &mut walk,
        &tree.items,
        Context::top(&whole.functions, Body::Main),
        &mut list,
    )?;
    if let Some(fault) = walk.least {
        return Err(Refusal::Fault(fault));
    }
    let variables = walk.scope.into_variables(alloc)?;
    Ok(Parts {
        func_names: whole.functions.into_names(alloc)?,
        funcs: FuncList::of(whole.funcs),
        names: variables.names,
        body: UnitBlock::of(alloc, list)?,
    })
}

/// The program that a concrete tree without functions stands for, or its first fault, as above.
pub fn elaborate(alloc: Global, tree: &Tree, tokens: &[Token]) -> Result<Program, Refusal>
    ensures program { IfOk result (λ program. StandsFor (program_of tree.now) program.names (statements program.body)) }
    ensures offsets { IfOk result (λ program. offsets program.body ≡ program_offsets tokens.now (program_of tree.now)) }
    ensures refusal { IfErr result (IsRefusalOf (program_of tree.now)) }
{
    let parts = elaborate_unit(alloc, tree, tokens)?;
    let body = plain_block(alloc, &parts.body)?;
    Ok(Program {
        names: parts.names,
        body,
    })
}
