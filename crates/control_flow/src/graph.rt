//! The graph of a program: its labels, in a table made in one pass, and readers that answer from it in constant time.

ghost use Rattle.std.specs.Prelude.{◌≡◌, ◌<◌, ◌≤◌, [], IfOk, IfErr, OnOk, option_map, length};
ghost use Rattle.step_meaning.specs.Syntax.{expression, size_of, statements};
ghost use Rattle.control_flow.specs.Bodies.{body_of};
ghost use Rattle.control_flow.specs.Edges.{assigned_by, choice_by, edges_from, is_head_by, test_by};
ghost use Rattle.control_flow.specs.Faults.{IsFlowFault, wide_offsets};
ghost use Rattle.control_flow.specs.Growth.{greatest_of_tests};
ghost use Rattle.control_flow.specs.Labels.{action_at, all_labels, entry_of};
ghost use Rattle.control_flow.specs.Sizing.{held, leaves_at};
ghost use Rattle.control_flow.specs.Tables.{action_of};

use crate::bodies::body_in;
use crate::edge::{Choice, Edge, EdgeKind};
use crate::fault::FlowFault;
use crate::limit::{CONJUNCTIONS, least_wide, room_behind};
use crate::measure::{Measures, measures_of};
use crate::node::Node;
use crate::number::{entry, table};
use std::alloc::Global;
use std::marker::Model;
use step_meaning::{Block, Expr, Program};

/// The most labels of a program, label 0 included.
pub const LABELS: u32 = 1024;

/// The labels of a program and the edges between them. Label 0 is the end; each statement has one of the others, in the order of the
/// tree: a statement stands before its parts, the first part of an `if` before the second, a body before its step; the label of a `do`
/// loop is that of its test and stands behind its body. The graph owns the program, and contracts see it.
#[derive(Drop)]
pub struct Graph {
    program: Program,
    entry: u32,
    nodes: Vec<Node>,
    measures: Measures,
}

impl Model for Graph {
    ghost use Rattle.std.specs.Prelude.{◌≡◌};
    ghost use Rattle.std.specs.Coded.{codes};
    ghost use Rattle.step_meaning.specs.contracts.program.Program as program_type;
    ghost use Rattle.step_meaning.specs.declared.program.Program.{Program};
    ghost use Rattle.step_meaning.specs.Syntax.{statements};
    ghost use Rattle.control_flow.specs.Growth.{greatest_of_tests};
    ghost use Rattle.control_flow.specs.Labels.{entry_of};
    ghost use Rattle.control_flow.specs.Sizing.{AreLeaves};
    ghost use Rattle.control_flow.specs.Tables.{IsTableOf};

    ghost Value = { Program };

    ghost coded = { Prim.hlevel (codes, program_type.the_row.coded) };

    ghost view = { λ inside. inside.program };

    ghost invariant = { λ inside. IsTableOf inside.nodes.items (statements inside.program.body) × (inside.entry ≡ entry_of (statements inside.program.body))
        × AreLeaves (statements inside.program.body) inside.measures.leaves.items
        × (inside.measures.greatest ≡ greatest_of_tests (statements inside.program.body)) };
}

impl Graph {
    /// The graph of a program. `Labels` comes exactly where it has more than 1,024 labels, and else `Conjunctions` exactly where a test
    /// or its negation spreads to more than 64 conjunctions.
    pub fn of(alloc: Global, program: Program) -> Result<Graph, FlowFault>
        ensures program { IfOk result (λ graph. graph ≡ program) }
        ensures labels { OnOk result (size_of (statements program.body) < 1024) }
        ensures conjunctions { OnOk result (wide_offsets program.body ≡ []) }
        ensures fault { IfErr result (λ fault. IsFlowFault fault program.body) }
    {
        check(&program.body)?;
        let nodes = table(alloc, &program.body)?;
        let entry = entry(&program.body, 1, 0);
        let measures = measures_of(alloc, &program, &nodes)?;
        Ok(Graph {
            program,
            entry,
            nodes,
            measures,
        })
    }

    /// The program.
    pub fn program(&self) -> &Program
        ensures { result.now ≡ self.now }
    {
        &self.program
    }

    /// The number of labels, from 1 to 1,024.
    pub fn labels(&self) -> u32
        ensures count { result ≡ length (all_labels (statements self.now.body)) }
        ensures few { result ≤ 1024 }
    {
        self.nodes.len() as u32
    }

    /// The label of the first statement to be done, or 0 where there is none.
    pub fn entry(&self) -> u32
        ensures { result ≡ entry_of (statements self.now.body) }
    {
        self.entry
    }

    /// True exactly where the label is that of a loop's test.
    pub fn is_head(&self, label: u32) -> bool
        requires { label < length (all_labels (statements self.now.body)) }
        ensures { result ≡ is_head_by (action_at (statements self.now.body) label) }
    {
        match self.node(label) {
            Node::Test { is_head, .. } => *is_head,
            _ => false,
        }
    }

    /// The labels of the body and the step of the loop whose test has the label, from the first up to before the second; `None` exactly
    /// where it is no loop's test. Time is linear in the program.
    pub fn body(&self, head: u32) -> Option<(u32, u32)>
        ensures { result ≡ body_of (statements self.now.body) head }
    {
        body_in(&self.program.body, 1, head)
    }

    /// The edges from the label: none from label 0, two from a test, that of the true outcome first, and one from each other label.
    pub fn edges(&self, label: u32) -> [Option<Edge>; 2]
        requires { label < length (all_labels (statements self.now.body)) }
        ensures { result ≡ edges_from label (action_at (statements self.now.body) label) }
    {
        match self.node(label) {
            Node::End => [None, None],
            Node::Assign { next, .. } => [Some(edge(label, *next, EdgeKind::Assign)), None],
            Node::Pass { next } => [Some(edge(label, *next, EdgeKind::Skip)), None],
            Node::Test { yes, no, .. } => [
                Some(edge(label, *yes, EdgeKind::Test { holds: true })),
                Some(edge(label, *no, EdgeKind::Test { holds: false })),
            ],
        }
    }

    /// What an existential formula may choose at the label.
    pub fn choice(&self, label: u32) -> Choice
        requires { label < length (all_labels (statements self.now.body)) }
        ensures { result ≡ choice_by (action_at (statements self.now.body) label) }
    {
        self.action(label).choice()
    }

    /// The test of the label, where it has one.
    pub fn test(&self, label: u32) -> Option<&Expr>
        requires { label < length (all_labels (statements self.now.body)) }
        ensures { option_map (λ test. expression test.now) result ≡ test_by (action_at (statements self.now.body) label) }
    {
        match self.node(label) {
            Node::Test { test, .. } => Some(test),
            _ => None,
        }
    }

    /// The place that is assigned at the label, and the right side, where there is an assignment.
    pub fn assigned(&self, label: u32) -> Option<(u8, &Expr)>
        requires { label < length (all_labels (statements self.now.body)) }
        ensures { option_map (λ both. (both.0, expression both.1.now)) result ≡ assigned_by (action_at (statements self.now.body) label) }
    {
        match self.node(label) {
            Node::Assign { var, value, .. } => Some((*var, value)),
            _ => None,
        }
    }

    /// The most leaves that the rows of the label's test make, and 1 where there is none, or the type's last value where that is less.
    pub(crate) fn leaves(&self, label: u32) -> u128
        requires { label < length (all_labels (statements self.now.body)) }
        ensures { result ≡ held (leaves_at (action_at (statements self.now.body) label)) }
    {
        self.measures.leaves[label as usize]
    }

    /// The greatest size of a number in a row of a test.
    pub(crate) fn greatest_of_tests(&self) -> u128
        ensures { result ≡ greatest_of_tests (statements self.now.body) }
    {
        self.measures.greatest
    }

    /// The entry of the table for the label.
    pub(crate) fn node(&self, label: u32) -> &Node
        requires { label < length (all_labels (statements self.now.body)) }
        ensures { action_of result.now ≡ action_at (statements self.now.body) label }
    {
        &self.nodes[label as usize]
    }
}

// An edge.
fn edge(from: u32, to: u32, kind: EdgeKind) -> Edge
    ensures { result ≡ record { from = from; to = to; kind = kind } }
{
    Edge { from, to, kind }
}

// Whether the statements keep the limits.
pub(crate) fn check(body: &Block) -> Result<(), FlowFault>
    ensures labels { OnOk result (size_of (statements body.now) < 1024) }
    ensures conjunctions { OnOk result (wide_offsets body.now ≡ []) }
    ensures fault { IfErr result (λ fault. IsFlowFault fault body.now) }
{
    match room_behind(body, LABELS - 1) {
        Ok(_) => {}
        Err(at) => {
            return Err(FlowFault::Labels {
                at,
                count: LABELS + 1,
            });
        }
    }
    match least_wide(body, None) {
        None => Ok(()),
        Some(at) => Err(FlowFault::Conjunctions {
            at,
            count: CONJUNCTIONS + 1,
        }),
    }
}
