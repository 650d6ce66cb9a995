//! What is done at a label, with the labels that follow.

ghost use Rattle.std.specs.Prelude.{◌≡◌, ◌<◌, length};
ghost use Rattle.step_meaning.specs.Syntax.{expression, statements};
ghost use Rattle.control_flow.specs.Actions.{IsPlaced};
ghost use Rattle.control_flow.specs.Edges.{choice_by, choice_of_test, choice_of_value};
ghost use Rattle.control_flow.specs.Labels.{action_at, all_labels};
ghost use Rattle.control_flow.specs.Readings.{action_read};

use crate::edge::Choice;
use crate::graph::Graph;
use crate::node::Node;
use step_meaning::Expr;

/// What is done at a label.
#[derive(Clone, Copy)]
pub enum Action<'a> {
    /// Nothing: the program has ended.
    End,
    /// An assignment to the variable at the place.
    Assign {
        place: u8,
        value: &'a Expr,
        next: u32,
    },
    /// A step that changes nothing.
    Pass {
        next: u32,
    },
    /// A test, of a loop's head or not.
    Test {
        is_head: bool,
        test: &'a Expr,
        yes: u32,
        no: u32,
    },
}

impl<'a> Action<'a> {
    /// What an existential formula may choose there.
    pub fn choice(self) -> Choice
        ensures { result ≡ choice_by (action_read self.entry) }
    {
        match self {
            Action::Test { test, .. } => choice_of_test(test),
            Action::Assign { value, .. } => choice_of_value(value),
            Action::End | Action::Pass { .. } => Choice::None,
        }
    }
}

impl Graph {
    /// What is done at the label; what is assigned and named there stands at places below 16.
    pub fn action(&self, label: u32) -> Action<'_>
        requires { label < length (all_labels (statements self.now.body)) }
        ensures action { action_read result ≡ action_at (statements self.now.body) label }
        ensures placed { IsPlaced (action_read result) }
    {
        match self.node(label) {
            Node::End => Action::End,
            Node::Assign { var, value, next } => Action::Assign {
                place: *var,
                value,
                next: *next,
            },
            Node::Pass { next } => Action::Pass { next: *next },
            Node::Test {
                is_head,
                test,
                yes,
                no,
            } => Action::Test {
                is_head: *is_head,
                test,
                yes: *yes,
                no: *no,
            },
        }
    }
}

// The choice at a test.
fn choice_of_test(test: &Expr) -> Choice
    ensures { result ≡ choice_of_test (expression test.now) }
{
    match test {
        Expr::Free => Choice::Branch,
        _ => Choice::None,
    }
}

// The choice at a right side.
fn choice_of_value(value: &Expr) -> Choice
    ensures { result ≡ choice_of_value (expression value.now) }
{
    match value {
        Expr::Free => Choice::Range { lo: None, hi: None },
        Expr::Range { lo, hi } => Choice::Range { lo: *lo, hi: *hi },
        _ => Choice::None,
    }
}
