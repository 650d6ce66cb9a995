//! The rows of a walk over a tree, as a stack.
ghost use Rattle.std.specs.Prelude.{◌≡◌, List, [], ◌∷◌, ◌++◌, Err, IfOk, OnOk, OnErr, length};
ghost use Rattle.linear_cons.specs.Exact.{IsOutside};
ghost use Rattle.linear_cons.specs.Functions.{NumbersFit, complement_of};
ghost use Rattle.linear_cons.specs.Settling.{settles};
ghost use Rattle.linear_cons.specs.declared.exact.Wide.{Wide};
ghost use Rattle.linear_cons.specs.declared.row.Row.{Row};
ghost use Rattle.decision_tree.specs.Trails.{IsEntered, IsLeft, IsTightening, undone};

use crate::held::{HeldRows, mark_of};
use crate::path::PathFault;
use linear_cons::Row;
use std::alloc::{AllocError, Global};
use std::marker::Model;

/// The rows from the root of a tree to where a walk stands: a node's own row on its yes side, the
/// complement on its no side. Contracts see it as the list of these rows, the first one first.
///
/// A walk goes `down` with a node's row to its yes side, `turn`s to its no side, and goes `up` from it.
/// Of rows with the same coefficients the trail holds the one with the least constant, and each step
/// knows how to put back what it changed. So a look-up takes a scan of eight bytes for each linear part on
/// the way, and no step takes memory but for the lists' growth.
#[derive(Drop)]
pub struct Trail {
    held: HeldRows,
    steps: Vec<Step>,
}

/// One step of a walk: the row that it added to the way, and what that did to the rows that are held.
#[derive(Clone, Copy)]
pub(crate) struct Step {
    pub(crate) row: Row,
    pub(crate) change: Change,
}

/// What a row did to the rows that are held.
#[derive(Clone, Copy)]
pub(crate) enum Change {
    /// It was added behind them.
    Added,
    /// Nothing, since one of them tells it.
    Kept,
    /// It took the place of a looser one, which had the constant.
    Tightened { place: usize, looser: i128 },
}

impl Model for Trail {
    ghost use Rattle.std.specs.Prelude.{List, reverse};
    ghost use Rattle.linear_cons.specs.declared.row.Row.{Row};
    ghost use Rattle.decision_tree.specs.Trails.{HaveLed, way_of};

    ghost Value = { List Row };

    ghost view = { λ inside. way_of inside.steps.items };

    ghost invariant = { λ inside. HaveLed (reverse inside.steps.items) inside.held };
}

impl Trail {
    ghost use Rattle.decision_tree.specs.Trails.{AreTightestOf, IsShortened, IsTurned};
    ghost use Rattle.decision_tree.specs.declared.path.PathFault.TheVariants.{Memory, Wide as TooWide};
    ghost use Rattle.std.specs.declared.alloc.AllocError.{AllocError};

    /// The start of a walk, at the root. It takes no memory.
    pub fn new(alloc: Global) -> Trail
        ensures { result ≡ [] }
    {
        Trail {
            held: HeldRows::new(alloc),
            steps: Vec::new(alloc),
        }
    }

    /// How many steps lead from the root to where the walk stands.
    pub fn depth(&self) -> usize
        ensures { result ≡ length self.now }
    {
        self.steps.len()
    }

    /// Goes down to the yes side of a node with the row. After want of memory the walk is where it was.
    #[inline(never)]
    pub fn down(&mut self, row: &Row) -> Result<(), AllocError>
        ensures down { OnOk result (self.new ≡ self.old ++ row.now ∷ []) }
        ensures stays { OnErr result (self.new ≡ self.old) }
    {
        enter(&mut self.held, &mut self.steps, row)
    }

    /// Goes over from the yes side of the last node to its no side. `Wide` comes exactly where the
    /// complement of its row has a number outside `i128`; then the walk is where it was. After want of memory
    /// it is at the last node. At the root it stays.
    #[inline(never)]
    pub fn turn(&mut self) -> Result<(), PathFault>
        ensures turned { OnOk result (IsTurned self.old self.new) }
        ensures fits { OnOk result ((front : List Row) (row : Row) → self.old ≡ front ++ row ∷ [] → NumbersFit (complement_of row.affine)) }
        ensures wide { (w : Wide) → result ≡ Err (TooWide w) → (front : List Row) (row : Row) → self.old ≡ front ++ row ∷ []
            → NumbersFit (complement_of row.affine) → ⊥ }
        ensures operands { (w : Wide) → result ≡ Err (TooWide w) → IsOutside w }
        ensures stays { (w : Wide) → result ≡ Err (TooWide w) → self.new ≡ self.old }
        ensures shortened { (e : AllocError) → result ≡ Err (Memory e) → IsShortened self.old self.new }
        ensures start { self.old ≡ [] → self.new ≡ [] }
    {
        let Some(step) = self.steps.last() else {
            return Ok(());
        };
        let complement = step.row.not()?;
        leave(&mut self.held, &mut self.steps);
        enter(&mut self.held, &mut self.steps, &complement)?;
        Ok(())
    }

    /// Goes up to the last node; at the root it stays.
    #[inline(never)]
    pub fn up(&mut self)
        ensures shortened { IsShortened self.old self.new }
        ensures start { self.old ≡ [] → self.new ≡ [] }
    {
        leave(&mut self.held, &mut self.steps);
    }

    /// The tightest rows of the way. They are met by the same stores.
    pub fn rows(&self) -> &[Row]
        ensures { AreTightestOf self.now result.now }
    {
        self.held.rows()
    }

    /// Whether the rows of the way settle one more by their linear parts: it holds behind a row with the
    /// same coefficients and a constant not greater, and fails behind an opposed one.
    #[inline(never)]
    pub fn settles(&self, row: &Row) -> Option<bool>
        ensures { result ≡ settles self.now row.now }
    {
        self.held.settles(row)
    }
}

/// Adds a step with the row.
fn enter(held: &mut HeldRows, steps: &mut Vec<Step>, row: &Row) -> Result<(), AllocError>
    ensures entered { OnOk result (IsEntered held.old held.new steps.old.items steps.new.items row.now) }
    ensures places { OnOk result (length row.now.affine.coef ≡ 16) }
    ensures stays { OnErr result ((held.new ≡ held.old) × (steps.new.items ≡ steps.old.items)) }
{
    has_sixteen_places(row);
    let change = tighten(held, row)?;
    let step = Step { row: *row, change };
    if let Err(error) = steps.push(step) {
        undo(held, change);
        return Err(error.into());
    }
    Ok(())
}

/// Takes the last step back, where there is one.
fn leave(held: &mut HeldRows, steps: &mut Vec<Step>)
    ensures { IsLeft held.old held.new steps.old.items steps.new.items }
{
    if let Some(step) = steps.pop() {
        undo(held, step.change);
    }
}

/// Makes the row one of the tightest where none of them tells it, and answers what that did.
fn tighten(held: &mut HeldRows, row: &Row) -> Result<Change, AllocError>
    ensures tightened { IfOk result (λ change. IsTightening held.old row.now change held.new) }
    ensures stays { OnErr result (held.new ≡ held.old) }
{
    let mark = mark_of(row);
    let Some(place) = held.place_of(mark, row) else {
        held.push(mark, row)?;
        return Ok(Change::Added);
    };
    let looser = held.rows()[place].affine.constant;
    if looser <= row.affine.constant {
        return Ok(Change::Kept);
    }
    held.set_constant(place, row.affine.constant);
    Ok(Change::Tightened { place, looser })
}

/// Puts the rows back as they were before the change.
fn undo(held: &mut HeldRows, change: Change)
    ensures { held.new ≡ undone change held.old }
{
    match change {
        Change::Added => {
            held.pop();
        }
        Change::Kept => {}
        Change::Tightened { place, looser } => {
            held.set_constant(place, looser);
        }
    }
}

/// A row of the type has sixteen coefficients. It has no effect.
fn has_sixteen_places(row: &Row)
    ensures { length row.now.affine.coef ≡ 16 }
{
    let _ = row.affine.coef[0];
}
