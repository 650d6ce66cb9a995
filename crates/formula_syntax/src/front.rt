//! The front door: the syntax of a text.

ghost use Rattle.std.specs.Prelude.{◌≡◌, ◌≤◌, length, drop, IfOk, IfErr};
ghost use Rattle.derivation.specs.Comes.{FirstFault, IsSpelledBy};
ghost use Rattle.formula_syntax.specs.Words.{words, all_spelled, words_from};
ghost use Rattle.source_lex.specs.Tokens.{TokensOf};
ghost use Rattle.formula_syntax.specs.Mirror.{formula as formula_tree};
ghost use Rattle.derivation.specs.Failures.{IfFault};
ghost use Rattle.formula_syntax.specs.Texts.{formulas, offset_in, IsFormulaText, IsFaultOf};

use crate::input::Reader;
use crate::lexeme::{Lexeme, lexemes};
use crate::part::formula;
use crate::tree::Formula;
use derivation::{Failure, Fault, Rule, SyntaxFault};
use source_lex::{LexFault, Token, lex, start_of};
use std::alloc::Global;

/// The syntax of a text: its tokens, and the concrete tree that they spell.
#[derive(Drop)]
pub struct Syntax {
    pub tokens: Vec<Token>,
    pub tree: Formula,
}

/// The tokens and the concrete tree of a text that is a formula by its syntax: its grammar and the limits on nesting (64 levels) and on
/// operators (64). Names and numbers have no part in it. The text has at most 4,096 bytes. Time is linear in the text.
///
/// The first fault is answered where there is one: `Lex` where the text has no tokens; else the first token that breaks a rule, of
/// `Expected` where it breaks a limit too. `Memory` where the tokens or the tree find no room.
pub fn read_syntax(alloc: Global, text: &[u8]) -> Result<Syntax, SyntaxFault>
    requires { length text.now ≤ 4096 }
    ensures tokens { IfOk result (λ read. TokensOf text.now read.tokens.items) }
    ensures syntax { IfOk result (λ read. IsFormulaText text.now (formula_tree read.tree)) }
    ensures fault { IfErr result (IsFaultOf text.now) }
{
    let tokens = match lex(alloc, text) {
        Ok(tokens) => tokens,
        Err(LexFault::Memory(error)) => return Err(SyntaxFault::Memory(error)),
        Err(fault) => return Err(SyntaxFault::Lex(fault)),
    };
    let words = match lexemes(alloc, text, &tokens) {
        Ok(words) => words,
        Err(error) => return Err(SyntaxFault::Memory(error)),
    };
    match read_words(alloc, &words) {
        Ok(tree) => Ok(Syntax { tokens, tree }),
        Err(Failure::Fault(fault)) => Err(placed(text, &tokens, fault)),
        Err(Failure::Memory(error)) => Err(SyntaxFault::Memory(error)),
    }
}

// The tree that all the words spell.
fn read_words(alloc: Global, words: &[Lexeme<'_>]) -> Result<Formula, Failure>
    ensures syntax { IfOk result (λ tree. IsSpelledBy formulas (all_spelled words.now) (formula_tree tree)) }
    ensures fault { IfFault result (λ fault. FirstFault formulas (all_spelled words.now) fault.rule (words_from words.now fault.at)) }
{
    let (tree, end, _) = formula(Reader { alloc, words }, 0, 0, 0)?;
    if end < words.len() {
        return Err(Failure::Fault(Fault {
            rule: Rule::Expected,
            at: end,
        }));
    }
    Ok(tree)
}

// The fault with its offset in the text.
fn placed(text: &[u8], tokens: &[Token], fault: Fault) -> SyntaxFault
    requires short { length text.now ≤ 4096 }
    requires lexed { TokensOf text.now tokens.now }
    requires breaks { FirstFault formulas (words text.now tokens.now) fault.rule (drop fault.at (words text.now tokens.now)) }
    ensures { IsFaultOf text.now result }
{
    SyntaxFault::Broken {
        rule: fault.rule,
        at: offset_in(text, tokens, fault.at),
    }
}

/// The offset in the text of a token by its number, or the text's length behind the last.
pub fn offset_in(text: &[u8], tokens: &[Token], number: usize) -> u32
    requires { length text.now ≤ 4096 }
    ensures { result ≡ offset_in text.now tokens.now number }
{
    start_of(tokens, number, text.len() as u32)
}
