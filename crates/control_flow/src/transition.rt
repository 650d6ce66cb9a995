//! What is done at a label, over the bounds of the stores there.
ghost use Rattle.std.specs.Prelude.{◌≡◌, ◌<◌, IfOk};
ghost use Rattle.linear_forms.specs.Linearising as exactness;
ghost use Rattle.step_meaning.specs.Naming.{NamesBelow};
ghost use Rattle.step_meaning.specs.Syntax.{expression};
ghost use Rattle.control_flow.specs.Actions.{IsPlaced};
ghost use Rattle.control_flow.specs.Edges.{choice_of_value};
ghost use Rattle.control_flow.specs.Labels.{assigns};
ghost use Rattle.control_flow.specs.Readings.{action_read};
ghost use Rattle.control_flow.specs.Transitions.{IsOver};

use crate::action::Action;
use crate::edge::Choice;
use crate::place::{CHOSEN_PLACE, Place};
use linear_cons::{Affine, Bounds, Linear, Rows};
use linear_forms::{linearise, spread};
use quotient_cases::value_rows;
use std::alloc::{AllocError, Global};
use step_meaning::Expr;

/// What is done at a label, and the labels to which it leads.
#[derive(Drop)]
pub enum Transition {
    /// Nothing: it is the end.
    End,
    /// Nothing: no run comes here.
    Dead,
    /// Nothing changes.
    Pass {
        to: u32,
    },
    /// The variable at the place becomes the function's value.
    Assign {
        place: Place,
        value: Affine,
        to: u32,
    },
    /// The variable at the place becomes some number of the range that meets the rows of one of the cases at the chosen place, beside the store; a claim about
    /// some run may choose it.
    Choose {
        place: Place,
        range: Linear,
        choice: Choice,
        cases: Vec<Rows>,
        to: u32,
    },
    /// A test, with the conjunctions of rows for its outcomes, and whether a claim about some run may choose one.
    Test {
        is_head: bool,
        choice: Choice,
        holds: Vec<Rows>,
        fails: Vec<Rows>,
        yes: u32,
        no: u32,
    },
}

impl Transition {
    ghost use Rattle.control_flow.specs.Transitions.{choice_in, conjunctions_in};

    /// What the action comes down to over the bounds. The only error is want of memory.
    pub fn of(alloc: Global, action: Action<'_>, bounds: &Bounds) -> Result<Transition, AllocError>
        requires { IsPlaced (action_read action) }
        ensures { IfOk result (λ made. IsOver bounds.now (action_read action.entry) made) }
    {
        match action {
            Action::End => Ok(Transition::End),
            Action::Pass { next } => Ok(Transition::Pass { to: next }),
            Action::Assign { place, value, next } => {
                let choice = action.choice();
                assigned(alloc, Place { number: place }, value, choice, next, bounds)
            }
            Action::Test {
                is_head,
                test,
                yes,
                no,
            } => Ok(Transition::Test {
                is_head,
                choice: action.choice(),
                holds: spread(alloc, test, true, bounds)?,
                fails: spread(alloc, test, false, bounds)?,
                yes,
                no,
            }),
        }
    }

    /// The conjunctions of rows of an outcome of a test; none where there is no test.
    pub fn outcome(&self, outcome: bool) -> &[Rows]
        ensures { result.now ≡ conjunctions_in self.now outcome }
    {
        match self {
            Transition::Test { holds, fails, .. } => { if outcome { holds } else { fails } }
            _ => &[],
        }
    }

    /// What a claim about some run may choose here.
    pub fn choice(&self) -> Choice
        ensures { result ≡ choice_in self.now }
    {
        match self {
            Transition::Choose { choice, .. } => *choice,
            Transition::Test { choice, .. } => *choice,
            _ => Choice::None,
        }
    }
}

/// What an assignment comes down to.
fn assigned(
    alloc: Global,
    place: Place,
    value: &Expr,
    choice: Choice,
    to: u32,
    bounds: &Bounds,
) -> Result<Transition, AllocError>
    requires names { NamesBelow 16 (expression value.now) }
    requires choice { choice ≡ choice_of_value (expression value.now) }
    ensures { IfOk result (λ made. IsOver bounds.now (assigns place.number (expression value.now) to) made) }
{
    let range = linearise(value, bounds);
    if is_exact(&range) {
        return Ok(Transition::Assign {
            place,
            value: range.affine,
            to,
        });
    }
    let cases = value_rows(alloc, value, bounds, CHOSEN_PLACE)?;
    Ok(Transition::Choose {
        place,
        range,
        choice,
        cases,
        to,
    })
}

/// Nothing is left out of the function.
fn is_exact(value: &Linear) -> bool
    ensures { result ≡ exactness.is_exact value.now }
{
    value.lo == Some(0) && value.hi == Some(0)
}
