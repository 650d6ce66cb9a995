//! The levels of nesting that bodies open in the places of calls.

ghost use Rattle.std.specs.Prelude.{◌≡◌, ◌<◌, [], ◌∷◌, ◌++◌, None, Some, IfErr, IfOk, OnOk};
ghost use Rattle.call_inline.specs.Levels.{calls_in, calls_at, deepest, first_deep, deep_call};
ghost use Rattle.call_inline.specs.declared.fault.InlineFault.TheVariants.{Nesting};
ghost use Rattle.call_inline.specs.Faults.{IsTooDeep};

use crate::fault::InlineFault;
use call_meaning::{Func, UnitBlock, UnitKind};
use std::alloc::{AllocError, Global};

/// The most levels that may be open.
const LEVELS: u32 = 64;

/// A call whose body opens too many levels in its place: its offset, and how many.
#[derive(Clone, Copy)]
struct Deep {
    at: u32,
    count: u32,
}

/// Refuses the first call in the text that is too deep. Each function's levels are found once, from those of the functions before it.
pub(crate) fn check_nesting(
    alloc: Global,
    funcs: &[Func],
    body: &UnitBlock,
) -> Result<(), InlineFault>
    ensures none { OnOk result (deep_call [] funcs.now body.now ≡ None) }
    ensures fault { IfErr result (λ fault. IsTooDeep fault funcs.now body.now) }
{
    let mut levels: Vec<u32> = Vec::new(alloc);
    for func in funcs {
        match levels_of(&func.body, func.levels, &levels) {
            Ok(deepest) => add(&mut levels, deepest)?,
            Err(deep) => return Err(refused(deep)),
        }
    }
    match levels_of(body, 0, &levels) {
        Ok(_) => Ok(()),
        Err(deep) => Err(refused(deep)),
    }
}

/// Adds the number at the end.
fn add(levels: &mut Vec<u32>, deepest: u32) -> Result<(), AllocError>
    ensures { OnOk result (levels.new.items ≡ levels.old.items ++ deepest ∷ []) }
{
    levels.push(deepest)?;
    Ok(())
}

/// The refusal of the call.
fn refused(deep: Deep) -> InlineFault
    ensures { result ≡ Nesting deep.at deep.count }
{
    InlineFault::Nesting {
        at: deep.at,
        count: deep.count,
    }
}

/// The greatest level open among the statements, of which `own` are open at the least, or the first call that is too deep.
#[cycle(levels)]
#[tactic(auto, using(crate::proofs::Deepest::deepest_both, crate::proofs::Deepest::none_both, crate::proofs::Deepest::some_both))]
fn levels_of(block: &UnitBlock, own: u32, levels: &[u32]) -> Result<u32, Deep>
    ensures deepest { IfOk result (λ most. most ≡ deepest levels.now own (calls_in block.now)) }
    ensures none { OnOk result (first_deep levels.now (calls_in block.now) ≡ None) }
    ensures deep { IfErr result (λ deep. first_deep levels.now (calls_in block.now) ≡ Some deep.at) }
    ensures count { IfErr result (λ deep. 64 < deep.count) }
{
    let mut most = own;
    let mut left = block;
    while let UnitBlock::Then { first, rest } = left {
        most = levels_at(first.at, &first.kind, most, levels)?;
        left = rest;
    }
    Ok(most)
}

/// The same for one statement.
#[cycle(levels)]
#[tactic(auto, using(crate::proofs::Deepest::deepest_both, crate::proofs::Deepest::none_both, crate::proofs::Deepest::some_both))]
fn levels_at(at: u32, kind: &UnitKind, own: u32, levels: &[u32]) -> Result<u32, Deep>
    ensures deepest { IfOk result (λ most. most ≡ deepest levels.now own (calls_at at kind.now)) }
    ensures none { OnOk result (first_deep levels.now (calls_at at kind.now) ≡ None) }
    ensures deep { IfErr result (λ deep. first_deep levels.now (calls_at at kind.now) ≡ Some deep.at) }
    ensures count { IfErr result (λ deep. 64 < deep.count) }
{
    match kind {
        UnitKind::Call {
            target: _,
            func,
            args: _,
            level,
        } => {
            let inside = match levels.get(*func as usize) {
                Some(levels) => *levels,
                None => 0,
            };
            let count = level.saturating_add(inside);
            if count > LEVELS {
                return Err(Deep { at, count });
            }
            Ok(own.max(count))
        }
        UnitKind::If { test: _, yes, no } => {
            let most = levels_of(yes, own, levels)?;
            let most = levels_of(no, most, levels)?;
            Ok(most)
        }
        UnitKind::While {
            test: _,
            body,
            step,
        } => {
            let most = levels_of(body, own, levels)?;
            let most = levels_of(step, most, levels)?;
            Ok(most)
        }
        UnitKind::Do { body, test: _ } => {
            let most = levels_of(body, own, levels)?;
            Ok(most)
        }
        UnitKind::Assign { .. }
        | UnitKind::Skip
        | UnitKind::Return { .. }
        | UnitKind::Break
        | UnitKind::Continue => Ok(own),
    }
}
