//! What the tests of a program come to: how many leaves their rows make, and how large their numbers are.

ghost use Rattle.std.specs.Prelude.{◌≡◌, IfOk};
ghost use Rattle.step_meaning.specs.Syntax.{statements};
ghost use Rattle.control_flow.specs.Growth.{greatest_of_conjunctions, greatest_of_rows, greatest_of_tests, greatest_number, row_size};
ghost use Rattle.control_flow.specs.Measures.{anywhere, leaves_asking};
ghost use Rattle.control_flow.specs.Sizing.{AreLeaves, held, leaves_at};
ghost use Rattle.control_flow.specs.Actions.{IsPlaced};
ghost use Rattle.control_flow.specs.Tables.{IsTableOf, action_of};

use crate::node::Node;
use linear_cons::{Affine, Bounds, PLACES, Row, Rows};
use linear_forms::spread;
use std::alloc::{AllocError, Global};
use step_meaning::Program;

/// What the tests of a program come to.
#[derive(Drop)]
pub(crate) struct Measures {
    /// For each label the most leaves that the rows of its test make, and 1 where there is none.
    pub(crate) leaves: Vec<u128>,
    /// The greatest size of a number in a row of a test.
    pub(crate) greatest: u128,
}

/// The same of one label.
#[derive(Clone, Copy)]
struct Measure {
    leaves: u128,
    greatest: u128,
}

/// What the tests of the program with this table come to.
pub(crate) fn measures_of(
    alloc: Global,
    program: &Program,
    nodes: &[Node],
) -> Result<Measures, AllocError>
    requires { IsTableOf nodes.now (statements program.now.body) }
    ensures leaves { IfOk result (λ measures. AreLeaves (statements program.now.body) measures.leaves.items) }
    ensures greatest { IfOk result (λ measures. measures.greatest ≡ greatest_of_tests (statements program.now.body)) }
{
    let mut leaves = Vec::with_capacity(alloc, nodes.len())?;
    let mut greatest = 0u128;
    for label in 0..nodes.len() {
        let node = &nodes[label];
        let measure = measure_of(alloc, node)?;
        leaves.push(measure.leaves)?;
        greatest = greatest.max(measure.greatest);
    }
    Ok(Measures { leaves, greatest })
}

// What the test of a label comes to.
fn measure_of(alloc: Global, node: &Node) -> Result<Measure, AllocError>
    requires { IsPlaced (action_of node.now) }
    ensures leaves { IfOk result (λ measure. measure.leaves ≡ held (leaves_at (action_of node.now))) }
    ensures greatest { IfOk result (λ measure. measure.greatest ≡ row_size (action_of node.now)) }
{
    match node {
        Node::Test { test, .. } => {
            let conjunctions = spread(alloc, test, true, &anywhere())?;
            Ok(Measure {
                leaves: leaves_asking(&conjunctions),
                greatest: greatest_of_conjunctions(&conjunctions),
            })
        }
        Node::End | Node::Assign { .. } | Node::Pass { .. } => Ok(Measure {
            leaves: 1,
            greatest: 0,
        }),
    }
}

/// No end at any place.
pub fn anywhere() -> Bounds
    ensures { result ≡ anywhere }
{
    Bounds {
        ends: [(None, None); 16],
    }
}

// The most leaves of a tree that asks the conjunctions.
fn leaves_asking(conjunctions: &[Rows]) -> u128
    ensures { result ≡ held (leaves_asking conjunctions.now) }
{
    let mut most: u128 = 1;
    for place in (0..conjunctions.len()).rev() {
        let rows = conjunctions[place].items().len() as u128;
        most = rows.saturating_mul(most).saturating_add(1);
    }
    most
}

// The greatest size of a number in the rows.
fn greatest_of_conjunctions(conjunctions: &[Rows]) -> u128
    ensures { result ≡ greatest_of_conjunctions conjunctions.now }
{
    match conjunctions.split_first() {
        None => 0,
        Some((rows, more)) => { greatest_of_rows(rows.items()).max(greatest_of_conjunctions(more)) }
    }
}

// The same of one conjunction.
fn greatest_of_rows(rows: &[Row]) -> u128
    ensures { result ≡ greatest_of_rows rows.now }
{
    match rows.split_first() {
        None => 0,
        Some((row, more)) => greatest_number(&row.affine).max(greatest_of_rows(more)),
    }
}

/// The greatest size of a number of the function.
pub fn greatest_number(function: &Affine) -> u128
    ensures { result ≡ greatest_number function.now }
{
    let mut most = 0u128;
    for place in 0..PLACES {
        most = most.max(function.coef[place].unsigned_abs());
    }
    most.max(function.constant.unsigned_abs())
}
