//! The front door: the syntax of a text.

ghost use Rattle.std.specs.Prelude.{◌≡◌, ◌≤◌, length, drop, IfOk, IfErr};
ghost use Rattle.derivation.specs.Word.{words};
ghost use Rattle.derivation.specs.Comes.{FirstFault, IsSpelledBy};
ghost use Rattle.derivation.specs.Spelled.{all_spelled, words_from};
ghost use Rattle.source_lex.specs.Tokens.{TokensOf};
ghost use Rattle.concrete_syntax.specs.Mirror.{expression as expression_tree, program as program_tree};
ghost use Rattle.derivation.specs.Failures.{IfFault};
ghost use Rattle.source_syntax.specs.Texts.{programs, offset_in, IsTreeText, IsFaultOf};
ghost use Rattle.source_syntax.specs.Places.{IsExpressionAt, IsNoExpressionAt};

use crate::expression::expression;
use crate::input::Reader;
use crate::program::program;
use concrete_syntax::{Expression, Program};
use derivation::{Failure, Fault, Lexeme, Rule, SyntaxFault, lexemes};
use source_lex::{LexFault, Token, lex, start_of};
use std::alloc::Global;

/// The syntax of a text: its tokens, and the concrete tree that they spell.
#[derive(Drop)]
pub struct Syntax {
    pub tokens: Vec<Token>,
    pub tree: Program,
}

/// The tokens and the concrete tree of a text that is a program by its syntax: its grammar and the limits on nesting (64 levels) and on
/// the binary operators of one expression (256). Where `functions` is false, it has no calls and no functions but `main`. Names and sorts have no part in it.
/// The text has at most 65,536 bytes. Time is linear in the text.
///
/// The first fault is answered where there is one: `Lex` where the text has no tokens; else the first token that breaks a rule, of
/// `Expected` where it breaks a limit too. `Memory` where the tokens or the tree find no room.
pub fn read_syntax(alloc: Global, text: &[u8], functions: bool) -> Result<Syntax, SyntaxFault>
    requires { length text.now ≤ 65536 }
    ensures tokens { IfOk result (λ read. TokensOf text.now read.tokens.items) }
    ensures syntax { IfOk result (λ read. IsTreeText functions text.now (program_tree read.tree)) }
    ensures fault { IfErr result (IsFaultOf functions text.now) }
{
    let tokens = match lex(alloc, text) {
        Ok(tokens) => tokens,
        Err(LexFault::Memory(error)) => return Err(SyntaxFault::Memory(error)),
        Err(fault) => return Err(SyntaxFault::Lex(fault)),
    };
    let words = match lexemes(alloc, text, &tokens) {
        Ok(words) => words,
        Err(error) => return Err(SyntaxFault::Memory(error)),
    };
    match read_words(alloc, &words, functions) {
        Ok(tree) => Ok(Syntax { tokens, tree }),
        Err(Failure::Fault(fault)) => Err(placed(text, &tokens, fault, functions)),
        Err(Failure::Memory(error)) => Err(SyntaxFault::Memory(error)),
    }
}

// The tree that all the words spell.
fn read_words(alloc: Global, words: &[Lexeme<'_>], functions: bool) -> Result<Program, Failure>
    ensures syntax { IfOk result (λ tree. IsSpelledBy (programs functions) (all_spelled words.now) (program_tree tree)) }
    ensures fault { IfFault result (λ fault. FirstFault (programs functions) (all_spelled words.now) fault.rule (words_from words.now fault.at)) }
{
    let (tree, end) = program(Reader { alloc, words }, 0, functions)?;
    if end < words.len() {
        return Err(Failure::Fault(Fault {
            rule: Rule::Expected,
            at: end,
        }));
    }
    Ok(tree)
}

// The fault with its offset in the text.
fn placed(text: &[u8], tokens: &[Token], fault: Fault, functions: bool) -> SyntaxFault
    requires short { length text.now ≤ 65536 }
    requires lexed { TokensOf text.now tokens.now }
    requires breaks { FirstFault (programs functions) (words text.now tokens.now) fault.rule (drop fault.at (words text.now tokens.now)) }
    ensures { IsFaultOf functions text.now result }
{
    SyntaxFault::Broken {
        rule: fault.rule,
        at: offset_in(text, tokens, fault.at),
    }
}

/// The expression at the token of the number `at`, where `level` levels are open before it, and the number of the token behind it, which is no binary operator:
/// the longest one that stands there. The tokens are those of the text, which has at most 65,536 bytes. Time is linear in the text.
///
/// The first token with which no expression goes on is answered where there is none, or the first that breaks a limit on the way. `Memory` where the tree
/// finds no room. Never `Lex`.
pub fn read_expression(
    alloc: Global,
    text: &[u8],
    tokens: &[Token],
    at: usize,
    level: u32,
) -> Result<(Expression, usize), SyntaxFault>
    requires short { length text.now ≤ 65536 }
    requires lexed { TokensOf text.now tokens.now }
    requires shallow { level ≤ 64 }
    ensures read { IfOk result (λ found. IsExpressionAt text.now tokens.now level at (expression_tree found.0) found.1) }
    ensures fault { IfErr result (IsNoExpressionAt text.now tokens.now level at) }
{
    let words = match lexemes(alloc, text, tokens) {
        Ok(words) => words,
        Err(error) => return Err(SyntaxFault::Memory(error)),
    };
    match expression(
        Reader {
            alloc,
            words: &words,
        },
        at,
        level,
        0,
    ) {
        Ok((tree, next, _)) => Ok((tree, next)),
        Err(Failure::Fault(fault)) => Err(SyntaxFault::Broken {
            rule: fault.rule,
            at: offset_in(text, tokens, fault.at),
        }),
        Err(Failure::Memory(error)) => Err(SyntaxFault::Memory(error)),
    }
}

/// The offset in the text of a token by its number, or the text's length behind the last.
pub fn offset_in(text: &[u8], tokens: &[Token], number: usize) -> u32
    requires { length text.now ≤ 65536 }
    ensures { result ≡ offset_in text.now tokens.now number }
{
    start_of(tokens, number, text.len() as u32)
}
