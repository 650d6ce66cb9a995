//! A unit: functions and `main`, which are valid together.

ghost use Rattle.call_meaning.specs.Valid.{IsUnit};
ghost use Rattle.call_meaning.specs.ValidOnce.{IsUnit-prop};

use crate::lists::FuncList;
use crate::statement::UnitBlock;
use step_meaning::Names;

/// A program of several functions, which is valid: `func_names` are the names of the functions `funcs`, and `names` and `body` are `main`'s. All their
/// variables together are at most 15, no two of them of one name where a function's stand behind its name and a dot. Calls go to functions before, with an
/// argument for each parameter, and ask a value only of one that gives one; a function returns only at its end; each `break` and `continue` stands in a loop;
/// operands are of the sorts that their places need; and no variable is read before it is set.
#[derive(Drop)]
pub struct Unit {
    pub func_names: Names,
    pub funcs: FuncList,
    pub names: Names,
    pub body: UnitBlock,
    ghost valid: { IsUnit func_names funcs names body } by { IsUnit-prop func_names funcs names body },
}
