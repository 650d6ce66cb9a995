//! The trees that are proposed for a part of a formula.
ghost use Rattle.std.specs.Prelude.{◌≡◌, ◌≤◌, IfOk, length};
ghost use Rattle.backward_transfer.specs.AffineShapes.{plans};
ghost use Rattle.control_flow.specs.Transitions.{AreOnward};
ghost use Rattle.part_trees.specs.Proposed.{AreKeptFor, AreProposed, AreSweptFor, operand};

use crate::claims::Claims;
use crate::labelling::locals;
use crate::stepping::nexts;
use backward_sweeps::{kept, swept};
use control_flow::Transition;
use ctl_formula::Formula;
use decision_tree::{AffineRank, Family, Tree, TreeList};
use forward_inv::Inv;
use num_domain::NumDomain;
use std::alloc::{AllocError, Global};

/// Trees for the labels, at which this is done, proposed for a formula in normal form whose parts have these families, as many as it has
/// parts and in their order; one that is missing claims nothing, and so does a negation, which no normal form has. A label at which no run
/// comes claims everything, and one whose tree can't be made, since a number passes 128 bits or the nodes 65,536, claims nothing. Trees at
/// tests of loops are widened from sweep `max(delay, 1) + 1` on, and a weak until has at most `max(delay, 1)` sweeps. The only error is want
/// of memory.
pub fn proposed<D: NumDomain>(
    alloc: Global,
    inv: &Inv<D>,
    transitions: &[Transition],
    formula: &Formula,
    operands: &[Family<AffineRank>],
    delay: u32,
) -> Result<TreeList<AffineRank>, AllocError>
    requires states { length inv.now ≡ length transitions.now }
    requires few { length transitions.now ≤ 1024 }
    requires onward { AreOnward transitions.now }
    ensures labels { IfOk result (λ trees. length trees ≡ length transitions.now) }
    ensures proposed { IfOk result (λ trees. AreProposed formula.now transitions.now (operand operands.now 0) (operand operands.now 1) trees) }
{
    let first = operand(operands, 0);
    let second = operand(operands, 1);
    match formula {
        Formula::Next { all, part: _ } => {
            let trees = nexts(alloc, transitions, *all, first)?;
            Ok(TreeList::of(trees))
        }
        Formula::Until { all, .. } => until(alloc, inv, transitions, *all, first, second, delay),
        Formula::Weak { all, .. } => weak(alloc, inv, transitions, *all, first, second, delay),
        _ => {
            let trees = locals(alloc, transitions, formula, first, second)?;
            Ok(TreeList::of(trees))
        }
    }
}

/// The trees of the part with the number; none where it is missing.
fn operand(operands: &[Family<AffineRank>], number: usize) -> &[Tree<AffineRank>]
    ensures { plans result.now ≡ operand operands.now number }
{
    match operands.get(number) {
        Some(family) => family.trees.items(),
        None => &[],
    }
}

/// The trees of an until, by those of what is to be kept and of the goal.
fn until<D: NumDomain>(
    alloc: Global,
    inv: &Inv<D>,
    transitions: &[Transition],
    all: bool,
    keep: &[Tree<AffineRank>],
    goal: &[Tree<AffineRank>],
    delay: u32,
) -> Result<TreeList<AffineRank>, AllocError>
    requires states { length inv.now ≡ length transitions.now }
    requires few { length transitions.now ≤ 1024 }
    requires onward { AreOnward transitions.now }
    ensures labels { IfOk result (λ trees. length trees ≡ length transitions.now) }
    ensures swept { IfOk result (λ trees. AreSweptFor all (plans keep.now) (plans goal.now) transitions.now trees) }
{
    let claims = Claims::of_trees(alloc, keep, goal)?;
    swept(alloc, inv, transitions, &claims.operands(all), delay)
}

/// The trees of a weak until, by those of what is to be kept and of the goal.
fn weak<D: NumDomain>(
    alloc: Global,
    inv: &Inv<D>,
    transitions: &[Transition],
    all: bool,
    keep: &[Tree<AffineRank>],
    goal: &[Tree<AffineRank>],
    delay: u32,
) -> Result<TreeList<AffineRank>, AllocError>
    requires states { length inv.now ≡ length transitions.now }
    requires few { length transitions.now ≤ 1024 }
    requires onward { AreOnward transitions.now }
    ensures labels { IfOk result (λ trees. length trees ≡ length transitions.now) }
    ensures kept { IfOk result (λ trees. AreKeptFor all (plans keep.now) (plans goal.now) transitions.now trees) }
{
    let claims = Claims::of_trees(alloc, keep, goal)?;
    kept(alloc, inv, transitions, &claims.operands(all), delay)
}
