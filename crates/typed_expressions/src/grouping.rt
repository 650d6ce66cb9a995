//! Operands and operators, grouped.

ghost use Rattle.std.specs.Prelude.{◌≡◌, IfOk, OnOk};
ghost use Rattle.typed_expressions.specs.Expressions.{value, mixed_in, pair_of, mixed_operands, divided_by, mixed};
ghost use Rattle.typed_expressions.specs.Grouping.{attach, joined, tightness, joint_tightness};
ghost use Rattle.typed_expressions.specs.Typing.{typed_of, grouping_of, joint_of};
ghost use Rattle.typed_expressions.specs.Walking.{HasFound};

use crate::expression::operation;
use crate::typed::{Sort, Typed};
use crate::walk::Walk;
use concrete_syntax::Division;
use std::alloc::{AllocError, Global};
use step_meaning::{Expr, Op2};

/// Operands with the operators between them, grouped, and groups that are divided. What stands in parentheses is an operand.
#[cycle(groupings)]
#[derive(Drop)]
pub enum Grouping {
    Operand(Typed),
    Pair {
        op: Op2,
        left: Box<Grouping>,
        right: Box<Grouping>,
    },
    Divided {
        division: Division,
        of: Box<Grouping>,
        by: i64,
    },
}

/// What stands behind an operand: an operator and its right operand, or a division and its divisor.
#[derive(Drop)]
pub enum Joint {
    Operator { op: Op2, operand: Typed },
    Divisor { division: Division, by: i64 },
}

// How tightly an operator binds.
fn tightness_of(op: Op2) -> u8
    ensures { result ≡ tightness op }
{
    match op {
        Op2::Or => 0,
        Op2::And => 1,
        Op2::Equal | Op2::NotEqual => 2,
        Op2::Less | Op2::LessEqual | Op2::Greater | Op2::GreaterEqual => 3,
        Op2::Add | Op2::Sub => 4,
        Op2::Mul => 5,
    }
}

impl Joint {
    // How tightly it binds.
    fn tightness(&self) -> u8
        ensures { result ≡ joint_tightness (joint_of self.now) }
    {
        match self {
            Joint::Operator { op, .. } => tightness_of(*op),
            Joint::Divisor { .. } => tightness_of(Op2::Mul),
        }
    }

    // The group that it makes of all before it.
    fn join(self, alloc: Global, left: Grouping) -> Result<Grouping, AllocError>
        ensures { IfOk result (λ made. grouping_of made ≡ joined (grouping_of left) (joint_of self)) }
    {
        let left = Box::new(alloc, left)?;
        match self {
            Joint::Operator { op, operand } => Ok(Grouping::Pair {
                op,
                left,
                right: Box::new(alloc, Grouping::Operand(operand))?,
            }),
            Joint::Divisor { division, by } => Ok(Grouping::Divided {
                division,
                of: left,
                by,
            }),
        }
    }
}

impl Grouping {
    /// The group with a further operator and operand, or a division, behind it. At most one operator of each tightness is passed, so this
    /// takes a bounded number of steps.
    #[cycle(attaching)]
    pub fn attach(self, alloc: Global, joint: Joint) -> Result<Grouping, AllocError>
        ensures { IfOk result (λ made. grouping_of made ≡ attach (grouping_of self) (joint_of joint)) }
    {
        match self {
            Grouping::Pair {
                op: top,
                left,
                right,
            } if tightness_of(top) < joint.tightness() => {
                let inner = Box::into_inner(right).attach(alloc, joint)?;
                Ok(Grouping::Pair {
                    op: top,
                    left,
                    right: Box::new(alloc, inner)?,
                })
            }
            group => joint.join(alloc, group),
        }
    }

    /// What the group is as one expression. Truth values in the places of numbers are reported.
    #[cycle(valuing)]
    #[tactic(auto, using(crate::proofs::Firsts::earliest_more))]
    pub fn value(self, walk: &mut Walk) -> Result<Typed, AllocError>
        ensures value { IfOk result (λ typed. typed_of typed ≡ value (grouping_of self)) }
        ensures found { OnOk result (HasFound walk.old walk.new (mixed_in (grouping_of self))) }
    {
        match self {
            Grouping::Operand(typed) => Ok(typed),
            Grouping::Pair { op, left, right } => {
                let left = Box::into_inner(left).value(walk)?;
                let right = Box::into_inner(right).value(walk)?;
                pair(walk, op, left, right)
            }
            Grouping::Divided { division, of, by } => {
                let of = Box::into_inner(of).value(walk)?;
                divided(walk, division, of, by)
            }
        }
    }
}

// What an operator makes of its operands.
#[tactic(auto, using(crate::proofs::Firsts::earliest_more))]
fn pair(walk: &mut Walk, op: Op2, left: Typed, right: Typed) -> Result<Typed, AllocError>
    ensures value { IfOk result (λ typed. typed_of typed ≡ pair_of op (typed_of left) (typed_of right)) }
    ensures found { OnOk result (HasFound walk.old walk.new (mixed_operands op (typed_of left) (typed_of right))) }
{
    let alloc = walk.alloc;
    let first = left.first;
    let sort = match op {
        Op2::Add | Op2::Sub | Op2::Mul => Sort::Number,
        _ => Sort::Truth,
    };
    let (left, right) = match op {
        Op2::And | Op2::Or => (left.into_test(alloc)?, right.into_test(alloc)?),
        _ => (left.into_number(walk), right.into_number(walk)),
    };
    let expr = operation(alloc, op, left, right)?;
    Ok(Typed { first, sort, expr })
}

// What a division makes of what is divided.
fn divided(walk: &mut Walk, division: Division, of: Typed, by: i64) -> Result<Typed, AllocError>
    ensures value { IfOk result (λ typed. typed_of typed ≡ divided_by division (typed_of of) by) }
    ensures found { OnOk result (HasFound walk.old walk.new (mixed (typed_of of))) }
{
    let first = of.first;
    let of = Box::new(walk.alloc, of.into_number(walk))?;
    let expr = match division {
        Division::Quotient => Expr::Quot { of, by },
        Division::Remainder => Expr::Rem { of, by },
    };
    Ok(Typed {
        first,
        sort: Sort::Number,
        expr,
    })
}
