//! The limit on labels, before anything is put in place.

ghost use Rattle.std.specs.Prelude.{◌≡◌, ◌<◌, ◌≤◌, [], IfErr, None, OnOk, Some, length, replicate};
ghost use Rattle.call_meaning.specs.Tables.{command, commands, places_from};
ghost use Rattle.call_inline.specs.Placed.{placed, placed_at, placed_calls, placed_unit};
ghost use Rattle.call_inline.specs.Faults.{IsInlineFault};
ghost use Rattle.call_inline.specs.Levels.{deep_call};
ghost use Rattle.call_inline.specs.Laws.Standing.{AllGoBelow, GoesBelow, IsLayout, Takes, back_of};

use crate::fault::InlineFault;
use crate::layout::Layout;
use call_meaning::{Unit, UnitBlock, UnitKind};

/// The most statements that a program with a graph has.
const STATEMENTS: u32 = 1_023;

/// Refuses a unit none of whose calls is too deep, where it becomes more statements than there are labels for. Calls that make no statement are passed over, and the walk ends at the first
/// statement without a label; so it takes no more steps than there are labels, times those of the text.
pub(crate) fn check_labels(unit: &Unit, layout: &Layout) -> Result<(), InlineFault>
    requires layout { IsLayout unit.now layout.now }
    requires shallow { deep_call [] unit.now.funcs unit.now.body ≡ None }
    ensures room { OnOk result (length (placed_unit unit.now.funcs unit.now.body) < 1024) }
    ensures fault { IfErr result (λ fault. IsInlineFault fault unit.now.funcs unit.now.body) }
{
    let main = unit.funcs.items().len();
    match room_behind(unit, layout, main, None, &unit.body, STATEMENTS) {
        Ok(_) => Ok(()),
        Err(at) => Err(InlineFault::Labels {
            at,
            count: STATEMENTS + 2,
        }),
    }
}

/// How much of the room is left behind what the statements of the routine `function` become, or the offset of the first statement that finds none. A `return`
/// has the offset `back`, if there is one, and else its own.
#[cycle(rooms)]
fn room_behind(
    unit: &Unit,
    layout: &Layout,
    function: usize,
    back: Option<u32>,
    block: &UnitBlock,
    room: u32,
) -> Result<u32, u32>
    requires layout { IsLayout unit.now layout.now }
    requires known { function ≤ length unit.now.funcs }
    requires calls { AllGoBelow function (commands block.now) }
    ensures { Takes (placed (placed_calls unit.now.funcs function) (back_of back) block.now) room result }
{
    let mut room = room;
    let mut left = block;
    while let UnitBlock::Then { first, rest } = left {
        room = room_behind_one(unit, layout, function, back, first.at, &first.kind, room)?;
        left = rest;
    }
    Ok(room)
}

/// The same for one statement.
#[cycle(rooms)]
fn room_behind_one(
    unit: &Unit,
    layout: &Layout,
    function: usize,
    back: Option<u32>,
    at: u32,
    kind: &UnitKind,
    room: u32,
) -> Result<u32, u32>
    requires layout { IsLayout unit.now layout.now }
    requires known { function ≤ length unit.now.funcs }
    requires calls { GoesBelow function (command kind.now) }
    ensures { Takes (placed_at (placed_calls unit.now.funcs function) (back_of back) at kind.now) room result }
{
    match kind {
        UnitKind::Assign { .. } | UnitKind::Skip | UnitKind::Break | UnitKind::Continue => less(
            room, 1, at,
        ),
        UnitKind::Return { value: _ } => less(room, 1, back.unwrap_or(at)),
        UnitKind::Call {
            target: _,
            func,
            args: _,
            level: _,
        } => room_behind_call(unit, layout, function, *func, at, room),
        UnitKind::If { test: _, yes, no } => {
            let room = less(room, 1, at)?;
            let room = room_behind(unit, layout, function, back, yes, room)?;
            let room = room_behind(unit, layout, function, back, no, room)?;
            Ok(room)
        }
        UnitKind::While {
            test: _,
            body,
            step,
        } => {
            let room = less(room, 1, at)?;
            let room = room_behind(unit, layout, function, back, body, room)?;
            let room = room_behind(unit, layout, function, back, step, room)?;
            Ok(room)
        }
        UnitKind::Do { body, test: _ } => {
            let room = room_behind(unit, layout, function, back, body, room)?;
            let room = less(room, 1, at)?;
            Ok(room)
        }
    }
}

/// The same for a call, whose name has the offset `at`.
#[cycle(rooms)]
fn room_behind_call(
    unit: &Unit,
    layout: &Layout,
    function: usize,
    func: u32,
    at: u32,
    room: u32,
) -> Result<u32, u32>
    requires layout { IsLayout unit.now layout.now }
    requires known { function ≤ length unit.now.funcs }
    requires below { func < function }
    ensures { Takes (placed_calls unit.now.funcs function func at) room result }
{
    if layout.is_idle(func) {
        return Ok(room);
    }
    let callee = &unit.funcs.items()[func as usize];
    let room = less(room, callee.params as u32, at)?;
    let room = less(room, count_free(&callee.free), at)?;
    let room = room_behind(unit, layout, func as usize, Some(at), &callee.body, room)?;
    Ok(room)
}

/// How many places are free.
fn count_free(free: &[bool; 16]) -> u32
    ensures { result ≡ length (places_from 0 free.now) }
{
    let mut count = 0;
    for is_free in free {
        if *is_free {
            count += 1;
        }
    }
    count
}

/// The room behind so many statements at one offset, or that offset where there isn't as much.
fn less(room: u32, count: u32, at: u32) -> Result<u32, u32>
    ensures { Takes (replicate count at) room result }
{
    if room < count {
        Err(at)
    } else {
        Ok(room - count)
    }
}
