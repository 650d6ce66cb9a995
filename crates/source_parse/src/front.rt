//! The parser's front door.

ghost use Rattle.std.specs.Prelude.{◌≡◌, ◌≤◌, ◌<◌, ℕ, Bool, true, false, List, Some, length, IfOk, IfErr};
ghost use Rattle.source_lex.specs.declared.token.Token.{Token as LexedToken};
ghost use Rattle.source_lex.specs.Tokens.{TokensOf};
ghost use Rattle.concrete_syntax.specs.Mirror.{program as program_tree};
ghost use Rattle.step_meaning.specs.Offsets.{offsets};
ghost use Rattle.step_meaning.specs.Syntax.{statements, size_of};
ghost use Rattle.concrete_syntax.specs.Trees.{Program as Concrete};
ghost use Rattle.elaboration.specs.Elaborates.{HasFirstFault, StandsFor, StandsForUnit, program_offsets};
ghost use Rattle.source_syntax.specs.Texts.{IsTreeText as IsSyntaxOf, IsFaultOf as IsSyntaxFaultOf, offset_in};
ghost use Rattle.source_parse.specs.Derives.{Derives, HasOffsets, IsUnitText};
ghost use Rattle.source_syntax.specs.Places.{IsNoExpressionAt};
ghost use Rattle.source_parse.specs.Expressions.{IsNoExprAt};
ghost use Rattle.source_parse.specs.Faults.{IsFaultIn, IsFaultOf, IsUnitFaultOf, number_of, numbered};

use crate::fault::{ParseFault, Which};
use crate::laws::a_program_is_no_larger_than_its_text;
use call_meaning::Unit;
use concrete_syntax::Program as Tree;
use derivation::Rule as SyntaxRule;
use elaboration::{Parts, Refusal, elaborate, elaborate_unit};
use source_lex::{Token, tokens_spell_their_kinds};
use source_syntax::{SyntaxFault, offset_in, read_syntax};
use std::alloc::Global;
use step_meaning::Program;
use typed_expressions::{Fault, Rule};

/// The program that the text is, or its first fault. The text has at most 65,536 bytes. Time is linear in the text, but that a name is
/// looked up among those in scope, which are at most 15 where there is no fault.
///
/// Faults, in their order: `Lex`, the first of its kinds by its offset; `Expected` and `Limit` of `Nesting` and `Operators`, the first by its
/// offset, and `Expected` where a token is both; `Unknown`, `Twice`, `Mixed`, `BadRange`, `Limit` of `Variables`, `Outside` and
/// `ZeroDivisor`, the first by its offset, and at one offset the first in this order. `Memory` where memory runs out.
pub fn parse(alloc: Global, text: &[u8]) -> Result<Program, ParseFault>
    requires { length text.now ≤ 65536 }
    ensures program { IfOk result (Derives text.now) }
    ensures offsets { IfOk result (λ program. HasOffsets text.now (offsets program.body)) }
    ensures fault { IfErr result (IsFaultOf text.now) }
    ensures size { IfOk result (λ program. size_of (statements program.body) ≤ length text.now) }
{
    a_program_is_no_larger_than_its_text();
    let syntax = match read_syntax(alloc, text, false) {
        Ok(syntax) => syntax,
        Err(fault) => return Err(of_syntax(fault)),
    };
    let program = program(alloc, text, &syntax.tree, &syntax.tokens)?;
    Ok(program)
}

// The program that the concrete tree of a text stands for.
fn program(alloc: Global, text: &[u8], tree: &Tree, tokens: &[Token]) -> Result<Program, ParseFault>
    requires short { length text.now ≤ 65536 }
    requires lexed { TokensOf text.now tokens.now }
    requires spelled { IsSyntaxOf false text.now (program_tree tree.now) }
    ensures program { IfOk result (λ program. StandsFor (program_tree tree.now) program.names (statements program.body)) }
    ensures offsets { IfOk result (λ program. offsets program.body ≡ program_offsets tokens.now (program_tree tree.now)) }
    ensures fault { IfErr result (IsFaultOf text.now) }
{
    match elaborate(alloc, tree, tokens) {
        Ok(program) => Ok(program),
        Err(Refusal::Fault(fault)) => Err(of_names(text, tokens, fault)),
        Err(Refusal::Memory(error)) => Err(ParseFault::Memory(error)),
    }
}

/// The program of functions that the text is, or its first fault. The text has at most 65,536 bytes. Time is linear in the text, but that a name is looked up
/// among those in scope, which are at most 15 where there is no fault.
///
/// Faults, in their order: as for `parse`, and with those of names, by their offset and at one offset behind the others, `Placed` and `Arguments`.
pub fn parse_unit(alloc: Global, text: &[u8]) -> Result<Unit, ParseFault>
    requires { length text.now ≤ 65536 }
    ensures unit { IfOk result (IsUnitText text.now) }
    ensures fault { IfErr result (IsUnitFaultOf text.now) }
{
    let syntax = match read_syntax(alloc, text, true) {
        Ok(syntax) => syntax,
        Err(fault) => return Err(of_syntax(fault)),
    };
    let unit = unit(alloc, text, &syntax.tree, &syntax.tokens)?;
    Ok(unit)
}

// The program of functions that the concrete tree of a text stands for.
fn unit(alloc: Global, text: &[u8], tree: &Tree, tokens: &[Token]) -> Result<Unit, ParseFault>
    requires short { length text.now ≤ 65536 }
    requires lexed { TokensOf text.now tokens.now }
    requires spelled { IsSyntaxOf true text.now (program_tree tree.now) }
    ensures unit { IfOk result (λ unit. StandsForUnit tokens.now (program_tree tree.now) unit.func_names unit.funcs unit.names unit.body) }
    ensures fault { IfErr result (IsUnitFaultOf text.now) }
{
    match elaborate_unit(alloc, tree, tokens) {
        Ok(parts) => Ok(of_parts(text, tree, tokens, parts)),
        Err(Refusal::Fault(fault)) => Err(of_names(text, tokens, fault)),
        Err(Refusal::Memory(error)) => Err(ParseFault::Memory(error)),
    }
}

// The unit of the parts that the concrete tree of a text stands for: it is valid, since no name of a text has a dot.
fn of_parts(text: &[u8], tree: &Tree, tokens: &[Token], parts: Parts) -> Unit
    requires spelled { IsSyntaxOf true text.now (program_tree tree.now) }
    requires stands { StandsForUnit tokens.now (program_tree tree.now) parts.func_names parts.funcs parts.names parts.body }
    ensures { StandsForUnit tokens.now (program_tree tree.now) result.func_names result.funcs result.names result.body }
{
    tokens_spell_their_kinds();
    Unit {
        func_names: parts.func_names,
        funcs: parts.funcs,
        names: parts.names,
        body: parts.body,
    }
}

/// The fault of a text that is no program by its syntax, or of an expression of it.
pub(crate) fn of_syntax(fault: SyntaxFault) -> ParseFault
    ensures inside { (functions : Bool) (text : List ℕ) → IsSyntaxFaultOf functions text fault → IsFaultIn functions text result }
    ensures expression { (text : List ℕ) (tokens : List LexedToken) (level at : ℕ) → IsNoExpressionAt text tokens level at fault → IsNoExprAt text tokens level at result }
{
    match fault {
        SyntaxFault::Lex(fault) => ParseFault::Lex(fault),
        SyntaxFault::Broken { rule, at } => match rule {
            SyntaxRule::Expected => ParseFault::Expected { at },
            SyntaxRule::Nesting => ParseFault::Limit {
                which: Which::Nesting,
                at,
                count: 65,
            },
            SyntaxRule::Operators => ParseFault::Limit {
                which: Which::Operators,
                at,
                count: 257,
            },
        },
        SyntaxFault::Memory(error) => ParseFault::Memory(error),
    }
}

/// The fault of a text whose tree has one of names, sorts, jumps, divisors, returns and calls.
pub(crate) fn of_names(text: &[u8], tokens: &[Token], fault: Fault) -> ParseFault
    requires { length text.now ≤ 65536 }
    ensures inside { (functions : Bool) (tree : Concrete) → TokensOf text.now tokens.now → IsSyntaxOf functions text.now tree → HasFirstFault tree fault
        → IsFaultIn functions text.now result }
    ensures numbered { numbered result ≡ Some (number_of fault.rule, offset_in text.now tokens.now fault.token) }
{
    let at = offset_in(text, tokens, fault.token);
    match fault.rule {
        Rule::Unknown => ParseFault::Unknown { at },
        Rule::Twice => ParseFault::Twice { at },
        Rule::Mixed => ParseFault::Mixed { at },
        Rule::BadRange => ParseFault::BadRange { at },
        Rule::Variables => ParseFault::Limit {
            which: Which::Variables,
            at,
            count: 16,
        },
        Rule::Outside => ParseFault::Outside { at },
        Rule::ZeroDivisor => ParseFault::ZeroDivisor { at },
        Rule::Placed => ParseFault::Placed { at },
        Rule::Arguments => ParseFault::Arguments { at },
    }
}
