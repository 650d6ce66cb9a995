//! Expressions with their sorts.

ghost use Rattle.std.specs.Prelude.{◌≡◌, IfOk};
ghost use Rattle.step_meaning.specs.Syntax.{expression};
ghost use Rattle.typed_expressions.specs.Expressions.{as_test, mixed};
ghost use Rattle.typed_expressions.specs.Walking.{HasFound};

use crate::expression::operation;
use crate::fault::Rule;
use crate::walk::Walk;
use std::alloc::{AllocError, Global};
use step_meaning::{Expr, Op2};

/// What an expression is.
#[derive(Clone, Copy)]
pub enum Sort {
    Number,
    Truth,
    /// `?`, which is what its place needs.
    Either,
}

/// An expression with its sort and the number of its first token.
#[derive(Drop)]
pub struct Typed {
    pub first: usize,
    pub sort: Sort,
    pub expr: Expr,
}

impl Typed {
    ghost use Rattle.typed_expressions.specs.Typing.{typed_of};

    /// The expression as a number. A truth value is reported.
    pub fn into_number(self, walk: &mut Walk) -> Expr
        ensures meaning { expression result ≡ (typed_of self).meaning }
        ensures found { HasFound walk.old walk.new (mixed (typed_of self)) }
    {
        if let Sort::Truth = self.sort {
            walk.report(Rule::Mixed, self.first);
        }
        self.expr
    }

    /// The expression as a test: a number is compared with 0.
    pub fn into_test(self, alloc: Global) -> Result<Expr, AllocError>
        ensures { IfOk result (λ made. expression made ≡ as_test (typed_of self)) }
    {
        match self.sort {
            Sort::Number => operation(alloc, Op2::NotEqual, self.expr, Expr::Number(0)),
            Sort::Truth | Sort::Either => Ok(self.expr),
        }
    }
}
