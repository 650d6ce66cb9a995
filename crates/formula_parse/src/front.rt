//! The front door: the formula that a text is.

ghost use Rattle.std.specs.Prelude.{◌≡◌, ◌≤◌, ℕ, List, length, IfOk, IfErr};
ghost use Rattle.source_lex.specs.Tokens.{TokensOf};
ghost use Rattle.ctl_formula.specs.Mirror.{ctl};
ghost use Rattle.formula_syntax.specs.Mirror.{formula as formula_of};
ghost use Rattle.formula_syntax.specs.Trees.{Formula as Concrete};
ghost use Rattle.formula_parse.specs.Faults.{unknown_in, BreaksAt};
ghost use Rattle.formula_syntax.specs.Texts.{IsFormulaText, IsFaultOf as IsSyntaxFaultOf};
ghost use Rattle.formula_parse.specs.Derives.{DerivesFormula, StandsFor};
ghost use Rattle.formula_parse.specs.FaultOf.{IsFaultOf};
ghost use Rattle.normal_form.specs.Rows.{ComplementsFit, RowsAreOver};

use crate::fault::{FormulaFault, FormulaLimit};
use crate::laws::{complements_of_texts_fit, texts_name_their_variables};
use crate::parts::elaborate;
use crate::refusal::Refusal;
use crate::unknown::first_unknown;
use ctl_formula::Formula;
use derivation::Rule;
use formula_syntax::{Formula as Tree, SyntaxFault, offset_in, read_syntax};
use source_lex::Token;
use std::alloc::Global;
use step_meaning::Names;

/// How many bytes a formula may have.
const MOST_BYTES: usize = 4096;

/// The formula that the text is over these names, of which there are at most 15, or its first fault. Time is linear in the text, but that each name
/// is looked up among the names.
///
/// Faults, in their order: `Limit` of `Bytes`, more than 4,096; `Lex`, the first of its kinds by its offset; `Expected` and `Limit` of `Nesting`
/// and of `Operators`, more than 64 each, the first by its offset, and `Expected` where a token is both; `Unknown` and `NotAffine`, the first in
/// the order of the text, and `Unknown` where a token is both. `Memory` where memory runs out.
pub fn read_formula(alloc: Global, text: &[u8], names: &Names) -> Result<Formula, FormulaFault>
    requires { length names.now ≤ 15 }
    ensures formula { IfOk result (DerivesFormula text.now names.now) }
    ensures complements { IfOk result (λ formula. ComplementsFit (ctl formula)) }
    ensures variables { IfOk result (λ formula. RowsAreOver (length names.now) (ctl formula)) }
    ensures fault { IfErr result (IsFaultOf text.now names.now) }
{
    complements_of_texts_fit();
    texts_name_their_variables();
    let bytes = text.len();
    if bytes > MOST_BYTES {
        return Err(FormulaFault::Limit {
            which: FormulaLimit::Bytes,
            at: 4096,
            count: 4097,
        });
    }
    let syntax = match read_syntax(alloc, text) {
        Ok(syntax) => syntax,
        Err(fault) => return Err(of_syntax(fault)),
    };
    let made = meant(alloc, text, names, &syntax.tree, &syntax.tokens)?;
    Ok(made)
}

// The formula that the tree of a text stands for.
fn meant(
    alloc: Global,
    text: &[u8],
    names: &Names,
    tree: &Tree,
    tokens: &[Token],
) -> Result<Formula, FormulaFault>
    requires short { length text.now ≤ 4096 }
    requires few { length names.now ≤ 15 }
    requires lexed { TokensOf text.now tokens.now }
    requires spelled { IsFormulaText text.now (formula_of tree.now) }
    ensures formula { IfOk result (λ made. StandsFor names.now (formula_of tree.now) (ctl made)) }
    ensures fault { IfErr result (IsFaultOf text.now names.now) }
{
    let unknown = first_unknown(names, tree);
    match elaborate(alloc, names, tree) {
        Ok(formula) => match unknown {
            Some(token) => Err(FormulaFault::Unknown {
                at: offset_in(text, tokens, token),
            }),
            None => Ok(formula),
        },
        Err(refusal) => match refusal {
            Refusal::NotAffine(broken) => Err(first_fault(text, tokens, unknown, broken)),
            Refusal::Memory(error) => Err(FormulaFault::Memory(error)),
        },
    }
}

// The first of an unknown name, where there is one, and an atom that breaks its rule.
fn first_fault(text: &[u8], tokens: &[Token], unknown: Option<usize>, broken: usize) -> FormulaFault
    requires short { length text.now ≤ 4096 }
    ensures { (names : List (List ℕ)) (tree : Concrete) → TokensOf text.now tokens.now → IsFormulaText text.now tree
        → unknown ≡ unknown_in names tree → BreaksAt names tree broken → IsFaultOf text.now names result }
{
    match unknown {
        Some(token) => {
            if token <= broken {
                FormulaFault::Unknown {
                    at: offset_in(text, tokens, token),
                }
            } else {
                FormulaFault::NotAffine {
                    at: offset_in(text, tokens, broken),
                }
            }
        }
        None => FormulaFault::NotAffine {
            at: offset_in(text, tokens, broken),
        },
    }
}

// The fault of a text that is no formula by its syntax.
fn of_syntax(fault: SyntaxFault) -> FormulaFault
    ensures { (text : List ℕ) (names : List (List ℕ)) → length text ≤ 4096 → IsSyntaxFaultOf text fault → IsFaultOf text names result }
{
    match fault {
        SyntaxFault::Lex(fault) => FormulaFault::Lex(fault),
        SyntaxFault::Broken { rule, at } => match rule {
            Rule::Expected => FormulaFault::Expected { at },
            Rule::Nesting => FormulaFault::Limit {
                which: FormulaLimit::Nesting,
                at,
                count: 65,
            },
            Rule::Operators => FormulaFault::Limit {
                which: FormulaLimit::Operators,
                at,
                count: 65,
            },
        },
        SyntaxFault::Memory(error) => FormulaFault::Memory(error),
    }
}
