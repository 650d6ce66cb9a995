//! How each kind of phrase opens, by its first word.

ghost use Rattle.std.specs.Prelude.{◌≡◌, option_map};
ghost use Rattle.derivation.specs.Spelled.{spelled, words_from};
ghost use Rattle.source_syntax.specs.Language.{link_opening};
ghost use Rattle.derivation.specs.Pieces.{first};
ghost use Rattle.source_syntax.specs.Openings.{opening_of_operand, opening_of_simple, opening_of_action, opening_of_statement, opening_of_end, is_name, opening_of_item, opening_of_prelude, size_opening, opening_of_start};

use crate::input::Reader;
use concrete_syntax::{Assignment, Division, Operator, Prefix, Step};
use derivation::{Lexeme, Symbol};

/// How an operand opens.
#[derive(Clone, Copy)]
pub enum OperandOpening {
    Number(i64),
    Name,
    Truth(bool),
    Unknown,
    Call,
    Signed(Prefix),
    Parenthesis,
    Bracket,
    Nothing,
}

/// How a link opens: by a sign between two operands, or by one before a divisor.
#[derive(Clone, Copy)]
pub enum LinkOpening {
    Operation(Operator),
    Division(Division),
}

/// How the end of a range goes on behind its sign.
#[derive(Clone, Copy)]
pub enum SizeOpening {
    Number(i64),
    Infinite,
    Nothing,
}

/// How a simple statement opens.
#[derive(Clone, Copy)]
pub enum SimpleOpening {
    Name,
    Steps(Step),
    Nothing,
}

/// How a simple statement goes on behind its name.
#[derive(Clone, Copy)]
pub enum ActionOpening {
    Assigns(Assignment),
    Steps(Step),
    Nothing,
}

/// How a statement opens.
#[derive(Clone, Copy)]
pub enum StatementOpening {
    Name,
    Steps,
    Skip,
    Braces,
    If,
    While,
    Do,
    For,
    Return,
    Break,
    Continue,
    Nothing,
}

/// How a statement goes on behind the name that it begins with, where functions are allowed.
#[derive(Clone, Copy)]
pub enum EndOpening {
    Call,
    Value,
    Action,
}

/// How what stands in braces goes on.
#[derive(Clone, Copy)]
pub enum ItemOpening {
    Close,
    Declaration,
    Statement,
}

/// How a `for` opens behind its `(`.
#[derive(Clone, Copy)]
pub enum StartOpening {
    Nothing,
    Declaration,
    Simple,
}

/// How a program opens.
#[derive(Clone, Copy)]
pub enum PreludeOpening {
    Extern,
    Typedef,
    Main,
}

// The word of this number; `None` behind the last.
fn word<'t>(reader: Reader<'t>, at: usize) -> Option<Lexeme<'t>>
    ensures { option_map spelled result ≡ first (words_from reader.entry.words.now at) }
{
    Some(*reader.words.get(at)?)
}

/// How an operand opens at this word.
pub fn opening_of_operand(reader: Reader<'_>, at: usize) -> OperandOpening
    ensures { result ≡ opening_of_operand (first (words_from reader.entry.words.now at)) }
{
    match word(reader, at) {
        Some(Lexeme::Number(value)) => OperandOpening::Number(value),
        Some(Lexeme::Name(_)) => OperandOpening::Name,
        Some(Lexeme::Symbol(Symbol::True)) => OperandOpening::Truth(true),
        Some(Lexeme::Symbol(Symbol::False)) => OperandOpening::Truth(false),
        Some(Lexeme::Symbol(Symbol::Question)) => OperandOpening::Unknown,
        Some(Lexeme::Symbol(Symbol::Nondeterministic)) => OperandOpening::Call,
        Some(Lexeme::Symbol(Symbol::Plus)) => OperandOpening::Signed(Prefix::Plus),
        Some(Lexeme::Symbol(Symbol::Minus)) => OperandOpening::Signed(Prefix::Minus),
        Some(Lexeme::Symbol(Symbol::Not)) => OperandOpening::Signed(Prefix::Not),
        Some(Lexeme::Symbol(Symbol::OpenParenthesis)) => OperandOpening::Parenthesis,
        Some(Lexeme::Symbol(Symbol::OpenBracket)) => OperandOpening::Bracket,
        _ => OperandOpening::Nothing,
    }
}

/// How a link opens at this word, if it is a binary operator.
pub fn link_opening(reader: Reader<'_>, at: usize) -> Option<LinkOpening>
    ensures { result ≡ link_opening (first (words_from reader.entry.words.now at)) }
{
    match word(reader, at) {
        Some(Lexeme::Symbol(Symbol::Plus)) => Some(LinkOpening::Operation(Operator::Add)),
        Some(Lexeme::Symbol(Symbol::Minus)) => Some(LinkOpening::Operation(Operator::Subtract)),
        Some(Lexeme::Symbol(Symbol::Times)) => Some(LinkOpening::Operation(Operator::Multiply)),
        Some(Lexeme::Symbol(Symbol::Divide)) => Some(LinkOpening::Division(Division::Quotient)),
        Some(Lexeme::Symbol(Symbol::Remainder)) => Some(LinkOpening::Division(Division::Remainder)),
        Some(Lexeme::Symbol(Symbol::Less)) => Some(LinkOpening::Operation(Operator::Less)),
        Some(Lexeme::Symbol(Symbol::LessEqual)) => Some(LinkOpening::Operation(
            Operator::LessEqual,
        )),
        Some(Lexeme::Symbol(Symbol::Greater)) => Some(LinkOpening::Operation(Operator::Greater)),
        Some(Lexeme::Symbol(Symbol::GreaterEqual)) => Some(LinkOpening::Operation(
            Operator::GreaterEqual,
        )),
        Some(Lexeme::Symbol(Symbol::Equal)) => Some(LinkOpening::Operation(Operator::Equal)),
        Some(Lexeme::Symbol(Symbol::NotEqual)) => Some(LinkOpening::Operation(Operator::NotEqual)),
        Some(Lexeme::Symbol(Symbol::And)) => Some(LinkOpening::Operation(Operator::And)),
        Some(Lexeme::Symbol(Symbol::Or)) => Some(LinkOpening::Operation(Operator::Or)),
        _ => None,
    }
}

/// How the end of a range goes on behind its sign.
pub fn size_opening(reader: Reader<'_>, at: usize) -> SizeOpening
    ensures { result ≡ size_opening (first (words_from reader.entry.words.now at)) }
{
    match word(reader, at) {
        Some(Lexeme::Number(value)) => SizeOpening::Number(value),
        Some(Lexeme::Symbol(Symbol::Infinite)) => SizeOpening::Infinite,
        _ => SizeOpening::Nothing,
    }
}

/// How a simple statement opens at this word.
pub fn opening_of_simple(reader: Reader<'_>, at: usize) -> SimpleOpening
    ensures { result ≡ opening_of_simple (first (words_from reader.entry.words.now at)) }
{
    match word(reader, at) {
        Some(Lexeme::Name(_)) => SimpleOpening::Name,
        Some(Lexeme::Symbol(Symbol::Increment)) => SimpleOpening::Steps(Step::Increment),
        Some(Lexeme::Symbol(Symbol::Decrement)) => SimpleOpening::Steps(Step::Decrement),
        _ => SimpleOpening::Nothing,
    }
}

/// How a simple statement goes on behind its name.
pub fn opening_of_action(reader: Reader<'_>, at: usize) -> ActionOpening
    ensures { result ≡ opening_of_action (first (words_from reader.entry.words.now at)) }
{
    match word(reader, at) {
        Some(Lexeme::Symbol(Symbol::Assign)) => ActionOpening::Assigns(Assignment::Assign),
        Some(Lexeme::Symbol(Symbol::AddAssign)) => ActionOpening::Assigns(Assignment::Add),
        Some(Lexeme::Symbol(Symbol::SubtractAssign)) => ActionOpening::Assigns(
            Assignment::Subtract,
        ),
        Some(Lexeme::Symbol(Symbol::MultiplyAssign)) => ActionOpening::Assigns(
            Assignment::Multiply,
        ),
        Some(Lexeme::Symbol(Symbol::Increment)) => ActionOpening::Steps(Step::Increment),
        Some(Lexeme::Symbol(Symbol::Decrement)) => ActionOpening::Steps(Step::Decrement),
        _ => ActionOpening::Nothing,
    }
}

/// How a statement opens at this word.
pub fn opening_of_statement(reader: Reader<'_>, at: usize) -> StatementOpening
    ensures { result ≡ opening_of_statement (first (words_from reader.entry.words.now at)) }
{
    match word(reader, at) {
        Some(Lexeme::Name(_)) => StatementOpening::Name,
        Some(Lexeme::Symbol(Symbol::Increment)) => StatementOpening::Steps,
        Some(Lexeme::Symbol(Symbol::Decrement)) => StatementOpening::Steps,
        Some(Lexeme::Symbol(Symbol::Semicolon)) => StatementOpening::Skip,
        Some(Lexeme::Symbol(Symbol::OpenBrace)) => StatementOpening::Braces,
        Some(Lexeme::Symbol(Symbol::If)) => StatementOpening::If,
        Some(Lexeme::Symbol(Symbol::While)) => StatementOpening::While,
        Some(Lexeme::Symbol(Symbol::Do)) => StatementOpening::Do,
        Some(Lexeme::Symbol(Symbol::For)) => StatementOpening::For,
        Some(Lexeme::Symbol(Symbol::Return)) => StatementOpening::Return,
        Some(Lexeme::Symbol(Symbol::Break)) => StatementOpening::Break,
        Some(Lexeme::Symbol(Symbol::Continue)) => StatementOpening::Continue,
        _ => StatementOpening::Nothing,
    }
}

/// How a statement goes on behind its name at this word.
pub fn opening_of_end(reader: Reader<'_>, at: usize) -> EndOpening
    ensures { result ≡ opening_of_end (first (words_from reader.entry.words.now at)) }
{
    match word(reader, at) {
        Some(Lexeme::Symbol(Symbol::OpenParenthesis)) => EndOpening::Call,
        Some(Lexeme::Symbol(Symbol::Assign)) => EndOpening::Value,
        _ => EndOpening::Action,
    }
}

/// Whether this word is a name.
pub fn is_name(reader: Reader<'_>, at: usize) -> bool
    ensures { result ≡ is_name (first (words_from reader.entry.words.now at)) }
{
    matches!(word(reader, at), Some(Lexeme::Name(_)))
}

/// How what stands in braces goes on at this word.
pub fn opening_of_item(reader: Reader<'_>, at: usize) -> ItemOpening
    ensures { result ≡ opening_of_item (first (words_from reader.entry.words.now at)) }
{
    match word(reader, at) {
        Some(Lexeme::Symbol(Symbol::CloseBrace)) => ItemOpening::Close,
        Some(Lexeme::Symbol(Symbol::Int)) => ItemOpening::Declaration,
        _ => ItemOpening::Statement,
    }
}

/// How a `for` goes on behind its `(`.
pub fn opening_of_start(reader: Reader<'_>, at: usize) -> StartOpening
    ensures { result ≡ opening_of_start (first (words_from reader.entry.words.now at)) }
{
    match word(reader, at) {
        Some(Lexeme::Symbol(Symbol::Semicolon)) => StartOpening::Nothing,
        Some(Lexeme::Symbol(Symbol::Int)) => StartOpening::Declaration,
        _ => StartOpening::Simple,
    }
}

/// How a program goes on at this word.
pub fn opening_of_prelude(reader: Reader<'_>, at: usize) -> PreludeOpening
    ensures { result ≡ opening_of_prelude (first (words_from reader.entry.words.now at)) }
{
    match word(reader, at) {
        Some(Lexeme::Symbol(Symbol::Extern)) => PreludeOpening::Extern,
        Some(Lexeme::Symbol(Symbol::Typedef)) => PreludeOpening::Typedef,
        _ => PreludeOpening::Main,
    }
}
