//! Lists of arguments and of functions.

use crate::statement::Func;
use std::marker::Model;
use step_meaning::Expr;

/// Expressions, in their order.
#[derive(Drop)]
pub struct ExprList {
    list: Vec<Expr>,
}

impl Model for ExprList {
    ghost use Rattle.std.specs.Prelude.{List};
    ghost use Rattle.std.specs.Coded.{codes};
    ghost use Rattle.step_meaning.specs.declared.expression.Expr.{Expr};
    ghost use Rattle.step_meaning.specs.contracts.expression.Expr as expr_type;

    ghost Value = { List Expr };

    ghost coded = { Prim.hlevel (codes, expr_type.the_row.coded) };

    ghost view = { λ all. all.list.items };
}

impl ExprList {
    ghost use Rattle.std.specs.Prelude.{◌≡◌};

    /// The expressions of this list.
    pub fn of(list: Vec<Expr>) -> ExprList
        ensures { result ≡ list.items }
    {
        ExprList { list }
    }

    /// The expressions as a slice.
    pub fn items(&self) -> &[Expr]
        ensures { result.now ≡ self.now }
    {
        &self.list
    }
}

/// Functions, in their order.
#[derive(Drop)]
pub struct FuncList {
    list: Vec<Func>,
}

impl Model for FuncList {
    ghost use Rattle.std.specs.Prelude.{List};
    ghost use Rattle.std.specs.Coded.{codes};
    ghost use Rattle.call_meaning.specs.declared.statement.Func.{Func};
    ghost use Rattle.call_meaning.specs.contracts.statement.UnitBlock as block_type;

    ghost Value = { List Func };

    ghost coded = { Prim.hlevel (codes, block_type.the_row.coded) };

    ghost view = { λ all. all.list.items };
}

impl FuncList {
    ghost use Rattle.std.specs.Prelude.{◌≡◌};

    /// The functions of this list.
    pub fn of(list: Vec<Func>) -> FuncList
        ensures { result ≡ list.items }
    {
        FuncList { list }
    }

    /// The functions as a slice.
    pub fn items(&self) -> &[Func]
        ensures { result.now ≡ self.now }
    {
        &self.list
    }
}
