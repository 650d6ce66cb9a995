//! Expressions. Only nesting recurses: the operators and operands of one expression are walked by a loop.

ghost use Rattle.std.specs.Prelude.{◌≡◌, ◌++◌, IfOk, OnOk};
ghost use Rattle.concrete_syntax.specs.Mirror.{operand as operand_of, link as link_of, tail as tail_of, divisor as divisor_of, expression as expression_of, range_end};
ghost use Rattle.step_meaning.specs.Syntax as syntax;
ghost use Rattle.typed_expressions.specs.Expressions.{value, mixed_in, op_of, operand_typed, operand_faults, link_joint, link_faults, tail_grouped, tail_faults, divisor_value, zero_faults, expression_typed, expression_faults, number_faults, as_test, end_value, range_faults, is_infinite_as, in_order, signed_typed, signed_faults};
ghost use Rattle.typed_expressions.specs.Grouping.{leaf};
ghost use Rattle.typed_expressions.specs.Typing.{typed_of, joint_of};
ghost use Rattle.typed_expressions.specs.Walking.{HasFound};

use crate::fault::Rule;
use crate::grouping::{Grouping, Joint};
use crate::typed::{Sort, Typed};
use crate::walk::Walk;
use concrete_syntax::{
    Divisor, End, Expression, Link, Operand, OperandKind, Operator, Prefix, Tail,
};
use std::alloc::{AllocError, Global};
use step_meaning::{Expr, Op2};

impl<'a> Walk<'a> {
    /// An expression in the place of a number. Faults are reported.
    #[tactic(auto, using(crate::proofs::Firsts::earliest_more))]
    pub fn number(&mut self, tree: &Expression) -> Result<Expr, AllocError>
        ensures meaning { IfOk result (λ made. syntax.expression made ≡ (expression_typed self.old.scope (expression_of tree.now)).meaning) }
        ensures found { OnOk result (HasFound self.old self.new (number_faults self.old.scope (expression_of tree.now))) }
    {
        let typed = self.expression(tree)?;
        Ok(typed.into_number(self))
    }

    /// An expression in the place of a test. Faults are reported.
    pub fn test(&mut self, tree: &Expression) -> Result<Expr, AllocError>
        ensures meaning { IfOk result (λ made. syntax.expression made ≡ as_test (expression_typed self.old.scope (expression_of tree.now))) }
        ensures found { OnOk result (HasFound self.old self.new (expression_faults self.old.scope (expression_of tree.now))) }
    {
        let typed = self.expression(tree)?;
        typed.into_test(self.alloc)
    }

    /// An expression with the sort that it has. Faults are reported.
    #[tactic(auto, using(crate::proofs::Firsts::earliest_more))]
    pub fn expression(&mut self, tree: &Expression) -> Result<Typed, AllocError>
        ensures typed { IfOk result (λ typed. typed_of typed ≡ expression_typed self.old.scope (expression_of tree.now)) }
        ensures found { OnOk result (HasFound self.old self.new (expression_faults self.old.scope (expression_of tree.now))) }
    {
        let first = self.operand(&tree.operand)?;
        self.grouped(first, &tree.tail)
    }

    // What an operand and the tail behind it are together.
    #[cycle(expressions)]
    #[tactic(auto, using(crate::proofs::Firsts::earliest_more))]
    fn grouped(&mut self, first: Typed, tail: &Tail) -> Result<Typed, AllocError>
        ensures typed { IfOk result (λ typed. typed_of typed ≡ value (tail_grouped self.old.scope (leaf (typed_of first)) (tail_of tail.now))) }
        ensures found { OnOk result (HasFound self.old self.new (tail_faults self.old.scope (tail_of tail.now) ++ mixed_in (tail_grouped self.old.scope (leaf (typed_of first)) (tail_of tail.now)))) }
    {
        let mut group = Grouping::Operand(first);
        let mut left = tail;
        while let Tail::Further { link, rest } = left {
            let joint = self.joint(link)?;
            group = group.attach(self.alloc, joint)?;
            left = rest;
        }
        group.value(self)
    }

    // What stands behind an operand.
    #[cycle(expressions)]
    fn joint(&mut self, link: &Link) -> Result<Joint, AllocError>
        ensures joint { IfOk result (λ found. joint_of found ≡ link_joint self.old.scope (link_of link.now)) }
        ensures found { OnOk result (HasFound self.old self.new (link_faults self.old.scope (link_of link.now))) }
    {
        match link {
            Link::Operation { op, operand } => {
                let operand = self.operand(operand)?;
                Ok(Joint::Operator {
                    op: op_of(*op),
                    operand,
                })
            }
            Link::Division { division, divisor } => Ok(Joint::Divisor {
                division: *division,
                by: self.divisor(*divisor),
            }),
        }
    }

    // A divisor with its sign. A divisor 0 is reported.
    fn divisor(&mut self, divisor: Divisor) -> i64
        ensures value { result ≡ divisor_value (divisor_of divisor) }
        ensures found { HasFound self.old self.new (zero_faults (divisor_of divisor)) }
    {
        if divisor.size == 0 {
            self.report(Rule::ZeroDivisor, divisor.at);
        }
        if divisor.negative && divisor.size > 0 {
            -divisor.size
        } else {
            divisor.size
        }
    }

    // An operand.
    #[cycle(expressions)]
    #[tactic(auto, using(crate::proofs::Firsts::earliest_more))]
    fn operand(&mut self, tree: &Operand) -> Result<Typed, AllocError>
        ensures typed { IfOk result (λ typed. typed_of typed ≡ operand_typed self.old.scope (operand_of tree.now)) }
        ensures found { OnOk result (HasFound self.old self.new (operand_faults self.old.scope (operand_of tree.now))) }
    {
        let at = tree.at;
        match &tree.kind {
            OperandKind::Number(value) => Ok(typed(at, Sort::Number, Expr::Number(*value))),
            OperandKind::Name(name) => {
                self.need_visible(name, at);
                Ok(typed(at, Sort::Number, Expr::Name(self.scope.place(name))))
            }
            OperandKind::Truth(value) => Ok(typed(at, Sort::Truth, truth(*value))),
            OperandKind::Unknown | OperandKind::Call => Ok(typed(at, Sort::Either, Expr::Free)),
            OperandKind::Signed { prefix, operand } => {
                let inner = self.operand(operand)?;
                self.signed(*prefix, at, inner)
            }
            OperandKind::Parentheses { operand, tail } => {
                let first = self.operand(operand)?;
                let inner = self.grouped(first, tail)?;
                Ok(typed(at, inner.sort, inner.expr))
            }
            OperandKind::Range { low, high } => Ok(self.range(*low, *high, at)),
        }
    }

    // A sign at the token `at` and the operand behind it.
    fn signed(&mut self, prefix: Prefix, at: usize, operand: Typed) -> Result<Typed, AllocError>
        ensures typed { IfOk result (λ found. typed_of found ≡ signed_typed prefix at (typed_of operand)) }
        ensures found { OnOk result (HasFound self.old self.new (signed_faults prefix (typed_of operand))) }
    {
        match prefix {
            Prefix::Plus => Ok(typed(at, Sort::Number, operand.into_number(self))),
            Prefix::Minus => {
                let inner = Box::new(self.alloc, operand.into_number(self))?;
                Ok(typed(at, Sort::Number, Expr::Neg(inner)))
            }
            Prefix::Not => {
                let inner = Box::new(self.alloc, operand.into_test(self.alloc)?)?;
                Ok(typed(at, Sort::Truth, Expr::Not(inner)))
            }
        }
    }

    // A range that begins at the token `at`.
    fn range(&mut self, low: End, high: End, at: usize) -> Typed
        ensures typed { typed_of result ≡ record { first = at; sort = Sort.Number; meaning = syntax.range (end_value (range_end low)) (end_value (range_end high)) } }
        ensures found { HasFound self.old self.new (range_faults at (range_end low) (range_end high)) }
    {
        let (lo, hi) = (value_of(low), value_of(high));
        if !(is_infinite_as(true, low) && is_infinite_as(false, high) && in_order(lo, hi)) {
            self.report(Rule::BadRange, at);
        }
        typed(at, Sort::Number, Expr::Range { lo, hi })
    }
}

/// An operator between two operands.
pub fn operation(alloc: Global, op: Op2, left: Expr, right: Expr) -> Result<Expr, AllocError>
    ensures { IfOk result (λ made. syntax.expression made ≡ syntax.pair op (syntax.expression left) (syntax.expression right)) }
{
    Ok(Expr::Pair {
        op,
        left: Box::new(alloc, left)?,
        right: Box::new(alloc, right)?,
    })
}

// What a written operator means.
fn op_of(op: Operator) -> Op2
    ensures { result ≡ op_of op }
{
    match op {
        Operator::Or => Op2::Or,
        Operator::And => Op2::And,
        Operator::Equal => Op2::Equal,
        Operator::NotEqual => Op2::NotEqual,
        Operator::Less => Op2::Less,
        Operator::LessEqual => Op2::LessEqual,
        Operator::Greater => Op2::Greater,
        Operator::GreaterEqual => Op2::GreaterEqual,
        Operator::Add => Op2::Add,
        Operator::Subtract => Op2::Sub,
        Operator::Multiply => Op2::Mul,
    }
}

fn typed(first: usize, sort: Sort, expr: Expr) -> Typed
    ensures { typed_of result ≡ record { first = first; sort = sort; meaning = syntax.expression expr } }
{
    Typed { first, sort, expr }
}

fn truth(value: bool) -> Expr
    ensures { syntax.expression result ≡ syntax.truth value }
{
    if value { Expr::True } else { Expr::False }
}

// The number of an end with its sign, or `None` for an infinite one.
fn value_of(end: End) -> Option<i64>
    ensures { result ≡ end_value (range_end end) }
{
    match end.size {
        Some(size) if end.negative && size < 0 => None,
        Some(size) if end.negative => Some(-size),
        size => size,
    }
}

// Whether an end that is infinite is so with this sign.
fn is_infinite_as(negative: bool, end: End) -> bool
    ensures { result ≡ is_infinite_as negative end.negative end.size }
{
    end.size.is_some() || end.negative == negative
}

fn in_order(lo: Option<i64>, hi: Option<i64>) -> bool
    ensures { result ≡ in_order lo hi }
{
    match (lo, hi) {
        (Some(lo), Some(hi)) => lo <= hi,
        _ => true,
    }
}
