//! Bodies put in the places of their calls.

ghost use Rattle.std.specs.Prelude.{◌≡◌, ◌+◌, ◌≤◌, [], ◌∷◌, IfOk, OnOk, length, map, replicate};
ghost use Rattle.step_meaning.specs.Naming.{NamesBelow};
ghost use Rattle.step_meaning.specs.Offsets.{offsets_at};
ghost use Rattle.step_meaning.specs.Syntax.{expression, statement};
ghost use Rattle.step_meaning.specs.Syntax as syntax;
ghost use Rattle.call_meaning.specs.Reads.{TargetIsIn};
ghost use Rattle.call_meaning.specs.Tables.{command, commands, places_from, value_of};
ghost use Rattle.call_meaning.specs.Units.{call};
ghost use Rattle.call_inline.specs.Inlined.{all_inlined, all_moved, callees, ended, freed, inlined, inlined_body, passed, single, target_from};
ghost use Rattle.call_inline.specs.Inlined as inlining;
ghost use Rattle.call_inline.specs.Moved as moves;
ghost use Rattle.call_inline.specs.Placed.{placed, placed_at, placed_calls, placed_unit};
ghost use Rattle.call_inline.specs.Laws.Writing.{AllBelow, AllCanStand, AreAdded, CanStand, IsBlock, IsSpot, ValueBelow, ending_of, returns_at};
ghost use Rattle.call_inline.specs.Laws.Standing.{IsLayout, routines};

use crate::layout::Layout;
use crate::moving::moved;
use call_meaning::{Unit, UnitBlock, UnitKind};
use std::alloc::{AllocError, Global};
use step_meaning::{Block, Expr, Stmt, StmtKind};

/// What a `return` does: it ends `main`, gives the variable at the place of the whole program the function's value, or drops it. One that was made for a call
/// has the call's offset.
#[derive(Clone, Copy)]
pub(crate) enum Ending {
    Ends,
    Gives { var: u8, at: u32 },
    Drops { at: u32 },
}

/// Where a body stands: the number of its routine, the place of its first variable, and what its `return` does.
#[derive(Clone, Copy)]
pub(crate) struct Spot {
    function: usize,
    base: u8,
    ending: Ending,
}

/// The body of the program without calls. The only error is want of memory.
pub(crate) fn written(alloc: Global, unit: &Unit, layout: &Layout) -> Result<Block, AllocError>
    requires { IsLayout unit.now layout.now }
    ensures { IfOk result (IsBlock (inlined_body (routines unit.now) (length unit.now.funcs)) (placed_unit unit.now.funcs unit.now.body)) }
{
    let main = Spot {
        function: unit.funcs.items().len(),
        base: 0,
        ending: Ending::Ends,
    };
    let body = block(alloc, unit, layout, main, &unit.body)?;
    Ok(body)
}

/// What the statements become, as a list of their own.
#[cycle(writer)]
fn block(
    alloc: Global,
    unit: &Unit,
    layout: &Layout,
    spot: Spot,
    from: &UnitBlock,
) -> Result<Block, AllocError>
    requires layout { IsLayout unit.now layout.now }
    requires spot { IsSpot unit.now spot }
    requires stands { AllCanStand (routines unit.now) spot.function (commands from.now) }
    ensures { IfOk result (IsBlock (all_inlined (callees (routines unit.now) spot.function) spot.base (ending_of spot.ending) (commands from.now))
        (placed (placed_calls unit.now.funcs spot.function) (returns_at spot.ending) from.now)) }
{
    let mut list: Vec<Stmt> = Vec::new(alloc);
    add_all(alloc, unit, layout, spot, from, &mut list)?;
    let made = Block::of(alloc, list)?;
    Ok(made)
}

/// Adds what the statements become to the list.
#[cycle(writer)]
fn add_all(
    alloc: Global,
    unit: &Unit,
    layout: &Layout,
    spot: Spot,
    from: &UnitBlock,
    list: &mut Vec<Stmt>,
) -> Result<(), AllocError>
    requires layout { IsLayout unit.now layout.now }
    requires spot { IsSpot unit.now spot }
    requires stands { AllCanStand (routines unit.now) spot.function (commands from.now) }
    ensures { OnOk result (AreAdded (all_inlined (callees (routines unit.now) spot.function) spot.base (ending_of spot.ending) (commands from.now))
        (placed (placed_calls unit.now.funcs spot.function) (returns_at spot.ending) from.now) list.old.items list.new.items) }
{
    let mut left = from;
    while let UnitBlock::Then { first, rest } = left {
        add_one(alloc, unit, layout, spot, first.at, &first.kind, list)?;
        left = rest;
    }
    Ok(())
}

/// Adds what one statement becomes.
#[cycle(writer)]
fn add_one(
    alloc: Global,
    unit: &Unit,
    layout: &Layout,
    spot: Spot,
    at: u32,
    kind: &UnitKind,
    list: &mut Vec<Stmt>,
) -> Result<(), AllocError>
    requires layout { IsLayout unit.now layout.now }
    requires spot { IsSpot unit.now spot }
    requires stands { CanStand (routines unit.now) spot.function (command kind.now) }
    ensures { OnOk result (AreAdded (inlined (callees (routines unit.now) spot.function) spot.base (ending_of spot.ending) (command kind.now))
        (placed_at (placed_calls unit.now.funcs spot.function) (returns_at spot.ending) at kind.now) list.old.items list.new.items) }
{
    match kind {
        UnitKind::Call {
            target,
            func,
            args,
            level: _,
        } => add_call(
            alloc,
            unit,
            layout,
            spot,
            at,
            *target,
            *func,
            args.items(),
            list,
        ),
        UnitKind::Return { value } => add_return(alloc, spot, at, value, list),
        UnitKind::If { test, yes, no } => {
            let test = moved(alloc, test, spot.base)?;
            let yes = block(alloc, unit, layout, spot, yes)?;
            let no = block(alloc, unit, layout, spot, no)?;
            add(at, StmtKind::If { test, yes, no }, list)
        }
        UnitKind::While { test, body, step } => {
            let test = moved(alloc, test, spot.base)?;
            let body = block(alloc, unit, layout, spot, body)?;
            let step = block(alloc, unit, layout, spot, step)?;
            add(at, StmtKind::While { test, body, step }, list)
        }
        UnitKind::Do { body, test } => {
            let body = block(alloc, unit, layout, spot, body)?;
            let test = moved(alloc, test, spot.base)?;
            add(at, StmtKind::Do { body, test }, list)
        }
        UnitKind::Assign { var, value } => add_assignment(
            alloc,
            at,
            spot.base + *var,
            spot.base,
            value,
            list,
        ),
        UnitKind::Skip => add(at, StmtKind::Skip, list),
        UnitKind::Break => add(at, StmtKind::Break, list),
        UnitKind::Continue => add(at, StmtKind::Continue, list),
    }
}

/// Adds what a call becomes: the parameters get their arguments, the variables declared without initialiser any number, and then comes the body.
#[cycle(writer)]
fn add_call(
    alloc: Global,
    unit: &Unit,
    layout: &Layout,
    spot: Spot,
    at: u32,
    target: Option<u8>,
    func: u32,
    args: &[Expr],
    list: &mut Vec<Stmt>,
) -> Result<(), AllocError>
    requires layout { IsLayout unit.now layout.now }
    requires spot { IsSpot unit.now spot }
    requires stands { CanStand (routines unit.now) spot.function (call target func (map expression args.now)) }
    ensures { OnOk result (AreAdded (callees (routines unit.now) spot.function func (target_from spot.base target) (all_moved spot.base (map expression args.now)))
        (placed_calls unit.now.funcs spot.function func at) list.old.items list.new.items) }
{
    if layout.is_idle(func) {
        return Ok(());
    }
    let callee = &unit.funcs.items()[func as usize];
    let inside = Spot {
        function: func as usize,
        base: layout.base(func),
        ending: ending_at(target, spot.base, at),
    };
    add_arguments(alloc, at, inside.base, spot.base, args, list)?;
    add_choices(at, inside.base, &callee.free, list)?;
    add_all(alloc, unit, layout, inside, &callee.body, list)
}

/// What the `return` of a called function does, where the call's value goes to the variable `target` of the function whose variables stand from `base` on.
fn ending_at(target: Option<u8>, base: u8, at: u32) -> Ending
    requires target { TargetIsIn 16 target }
    requires base { base ≤ 15 }
    ensures meaning { ending_of result ≡ inlining.ending_of (target_from base target) }
    ensures place { returns_at result ≡ (λ own. at) }
{
    match target {
        Some(var) => Ending::Gives {
            var: base + var,
            at,
        },
        None => Ending::Drops { at },
    }
}

/// Adds an assignment of its argument to each parameter, of which the first has the place `base`.
fn add_arguments(
    alloc: Global,
    at: u32,
    base: u8,
    from: u8,
    args: &[Expr],
    list: &mut Vec<Stmt>,
) -> Result<(), AllocError>
    requires names { AllBelow 16 (map expression args.now) }
    requires from { from ≤ 15 }
    requires places { base + length args.now ≤ 16 }
    ensures { OnOk result (AreAdded (passed base (all_moved from (map expression args.now))) (replicate (length args.now) at) list.old.items list.new.items) }
{
    let mut place = base;
    for arg in args {
        add_assignment(alloc, at, place, from, arg, list)?;
        place += 1;
    }
    Ok(())
}

/// Adds an assignment of any number to each variable that is declared without initialiser.
fn add_choices(at: u32, base: u8, free: &[bool; 16], list: &mut Vec<Stmt>) -> Result<(), AllocError>
    requires { base ≤ 15 }
    ensures { OnOk result (AreAdded (freed base (places_from 0 free.now)) (replicate (length (places_from 0 free.now)) at) list.old.items list.new.items) }
{
    let mut place = base;
    for is_free in free {
        if *is_free {
            let kind = StmtKind::Assign {
                var: place,
                value: Expr::Free,
            };
            add(at, kind, list)?;
        }
        place += 1;
    }
    Ok(())
}

/// Adds what a `return` becomes.
fn add_return(
    alloc: Global,
    spot: Spot,
    at: u32,
    value: &Option<Expr>,
    list: &mut Vec<Stmt>,
) -> Result<(), AllocError>
    requires names { ValueBelow 16 (value_of value.now) }
    requires base { spot.base ≤ 15 }
    ensures { OnOk result (AreAdded (single (ended (ending_of spot.ending) spot.base (value_of value.now))) (returns_at spot.ending at ∷ []) list.old.items list.new.items) }
{
    match spot.ending {
        Ending::Ends => add(at, StmtKind::Return, list),
        Ending::Drops { at } => add(at, StmtKind::Skip, list),
        Ending::Gives { var, at } => match value {
            Some(value) => add_assignment(alloc, at, var, spot.base, value, list),
            None => add(at, StmtKind::Skip, list),
        },
    }
}

/// Adds an assignment to the place of an expression of a function whose variables stand from `from` on.
fn add_assignment(
    alloc: Global,
    at: u32,
    var: u8,
    from: u8,
    value: &Expr,
    list: &mut Vec<Stmt>,
) -> Result<(), AllocError>
    requires names { NamesBelow 16 (expression value.now) }
    requires from { from ≤ 15 }
    ensures { OnOk result (AreAdded (single (syntax.assign var (moves.moved from (expression value.now)))) (at ∷ []) list.old.items list.new.items) }
{
    let value = moved(alloc, value, from)?;
    add(at, StmtKind::Assign { var, value }, list)
}

/// Adds the statement.
fn add(at: u32, kind: StmtKind, list: &mut Vec<Stmt>) -> Result<(), AllocError>
    ensures { OnOk result (AreAdded (single (statement kind)) (offsets_at at kind) list.old.items list.new.items) }
{
    list.push(Stmt { at, kind })?;
    Ok(())
}
