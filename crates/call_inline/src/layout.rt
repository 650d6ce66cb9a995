//! What is known of functions before their bodies are put in place: where their variables stand, and which of them make no statement.

ghost use Rattle.std.specs.Prelude.{◌≡◌, [], IfOk, IsTrue, false, slice_index_or};
ghost use Rattle.call_meaning.specs.Tables.{commands, places_from};
ghost use Rattle.call_inline.specs.Laws.Standing.{AreIdleCalls, IsIdle, IsLayout};

use call_meaning::{Func, Unit, UnitBlock, UnitKind};
use std::alloc::{AllocError, Global};

/// Of each function the place of its first variable in the whole program, and whether its calls make nothing: so these are never walked, of which there might
/// be exponentially many.
#[derive(Drop)]
pub(crate) struct Layout {
    pub(crate) bases: Vec<u8>,
    pub(crate) idle: Vec<bool>,
}

impl Layout {
    /// What is known of the functions of a unit.
    pub(crate) fn of(alloc: Global, unit: &Unit) -> Result<Layout, AllocError>
        ensures { IfOk result (IsLayout unit.now) }
    {
        let mut bases: Vec<u8> = Vec::new(alloc);
        let mut idle: Vec<bool> = Vec::new(alloc);
        let mut base = unit.names.items().len() as u8;
        for func in unit.funcs.items() {
            let makes_nothing = is_idle(func, &idle);
            bases.push(base)?;
            idle.push(makes_nothing)?;
            base += func.names.items().len() as u8;
        }
        Ok(Layout { bases, idle })
    }

    /// The place of the function's first variable.
    pub(crate) fn base(&self, func: u32) -> u8
        ensures { result ≡ slice_index_or self.now.bases.items func 0 }
    {
        match self.bases.get(func as usize) {
            Some(base) => *base,
            None => 0,
        }
    }

    /// True only where a call of the function makes no statement.
    pub(crate) fn is_idle(&self, func: u32) -> bool
        ensures { result ≡ slice_index_or self.now.idle.items func false }
    {
        makes_nothing(&self.idle, func)
    }
}

/// True where the list says so at the place.
fn makes_nothing(idle: &[bool], func: u32) -> bool
    ensures { result ≡ slice_index_or idle.now func false }
{
    match idle.get(func as usize) {
        Some(found) => *found,
        None => false,
    }
}

/// True exactly where a call of the function makes no statement, where the list says it of the functions before.
fn is_idle(func: &Func, idle: &[bool]) -> bool
    ensures { IsTrue result → IsIdle idle.now func.now }
{
    func.params == 0 && !has_free(&func.free) && has_idle_calls_alone(&func.body, idle)
}

/// True exactly where one of the places is free.
fn has_free(free: &[bool; 16]) -> bool
    ensures { result ≡ false → places_from 0 free.now ≡ [] }
{
    for place in free {
        if *place {
            return true;
        }
    }
    false
}

/// True exactly where each statement is a call that makes nothing.
fn has_idle_calls_alone(block: &UnitBlock, idle: &[bool]) -> bool
    ensures { IsTrue result → AreIdleCalls idle.now (commands block.now) }
{
    let mut left = block;
    while let UnitBlock::Then { first, rest } = left {
        match &first.kind {
            UnitKind::Call {
                target: _,
                func,
                args: _,
                level: _,
            } if makes_nothing(idle, *func) => {}
            _ => return false,
        }
        left = rest;
    }
    true
}
