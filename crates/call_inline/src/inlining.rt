//! The program without calls that a unit becomes.

ghost use Rattle.std.specs.Prelude.{◌≡◌, ◌<◌, ◌++◌, [], IfErr, IfOk, None, OnOk, length, map, vec_items};
ghost use Rattle.step_meaning.specs.Offsets.{offsets};
ghost use Rattle.step_meaning.specs.Syntax.{size_of, statements};
ghost use Rattle.call_meaning.specs.Tables as tables;
ghost use Rattle.call_inline.specs.Faults.{IsInlineFault};
ghost use Rattle.call_inline.specs.Inlined.{inlined_body};
ghost use Rattle.call_inline.specs.Levels.{deep_call};
ghost use Rattle.call_inline.specs.Placed.{placed_unit};

use crate::fault::InlineFault;
use crate::layout::Layout;
use crate::nesting::check_nesting;
use crate::room::check_labels;
use crate::writer::written;
use call_meaning::Unit;
use std::alloc::{AllocError, Global};
use step_meaning::{Names, Program};

/// The program without calls that the unit becomes: a call is its arguments given to the parameters, any number given to each variable that is declared without
/// initialiser, the body, and the value given to the call's variable in place of the `return`, or the empty statement where there is none. Its variables are
/// `main`'s and then each function's, by its name and a dot before theirs. A statement that is made for a call has the call's offset, every other its own.
///
/// `Nesting` comes exactly where a call's body opens level 65 in its place, else `Labels` exactly where the program would have more than 1,024 labels, and
/// `Memory` where memory ran out.
pub fn inline(alloc: Global, unit: &Unit) -> Result<Program, InlineFault>
    ensures names { IfOk result (λ program. program.names ≡ tables.whole_names unit.now.func_names unit.now.funcs unit.now.names) }
    ensures body { IfOk result (λ program. statements program.body ≡ inlined_body (tables.table_of unit.now.funcs unit.now.names unit.now.body) (length unit.now.funcs)) }
    ensures places { IfOk result (λ program. offsets program.body ≡ placed_unit unit.now.funcs unit.now.body) }
    ensures levels { OnOk result (deep_call [] unit.now.funcs unit.now.body ≡ None) }
    ensures labels { IfOk result (λ program. size_of (statements program.body) < 1024) }
    ensures fault { IfErr result (λ fault. IsInlineFault fault unit.now.funcs unit.now.body) }
{
    let funcs = unit.funcs.items();
    check_nesting(alloc, funcs, &unit.body)?;
    let layout = Layout::of(alloc, unit)?;
    check_labels(unit, &layout)?;
    let body = written(alloc, unit, &layout)?;
    let names = whole_names(alloc, unit)?;
    Ok(Program { names, body })
}

/// The names of all variables, `main`'s first.
fn whole_names(alloc: Global, unit: &Unit) -> Result<Names, AllocError>
    ensures { IfOk result (λ names. names ≡ tables.whole_names unit.now.func_names unit.now.funcs unit.now.names) }
{
    let mut list: Vec<Vec<u8>> = Vec::new(alloc);
    add_names(alloc, b"", unit.names.items(), &mut list)?;
    let functions = unit.func_names.items();
    for (function, func) in functions.iter().zip(unit.funcs.items()) {
        add_qualified(alloc, function, func.names.items(), &mut list)?;
    }
    Ok(Names::of(list))
}

/// Adds a function's names, each behind the function's own name and a dot.
fn add_qualified(
    alloc: Global,
    function: &[u8],
    names: &[Vec<u8>],
    list: &mut Vec<Vec<u8>>,
) -> Result<(), AllocError>
    ensures { OnOk result (map vec_items list.new.items ≡ map vec_items list.old.items ++ tables.qualified function.now (map vec_items names.now)) }
{
    let before = joined(alloc, function, b".")?;
    add_names(alloc, &before, names, list)
}

/// Adds the names, each behind these bytes.
fn add_names(
    alloc: Global,
    before: &[u8],
    names: &[Vec<u8>],
    list: &mut Vec<Vec<u8>>,
) -> Result<(), AllocError>
    ensures { OnOk result (map vec_items list.new.items ≡ map vec_items list.old.items ++ map (λ name. before.now ++ name) (map vec_items names.now)) }
{
    for name in names {
        list.push(joined(alloc, before, name)?)?;
    }
    Ok(())
}

/// Both, one behind the other.
fn joined(alloc: Global, first: &[u8], second: &[u8]) -> Result<Vec<u8>, AllocError>
    ensures { IfOk result (λ made. made.items ≡ first.now ++ second.now) }
{
    let mut made: Vec<u8> = Vec::new(alloc);
    made.extend_from_slice(first)?;
    made.extend_from_slice(second)?;
    Ok(made)
}
