//! Names of variables.

ghost use Rattle.std.specs.Prelude.{◌≡◌, ◌≤◌, length};
ghost use Rattle.typed_expressions.specs.Scopes.{is_among, place_of};

use step_meaning::Names;
use typed_expressions::position;

/// The place of a name; of one that isn't among these, their number, as if all such names were one variable more.
pub fn place(names: &Names, wanted: &[u8]) -> u8
    requires { length names.now ≤ 15 }
    ensures { result ≡ place_of names.now wanted.now }
{
    let list = names.items();
    match position(list, wanted) {
        Some(place) => place as u8,
        None => list.len() as u8,
    }
}

/// Whether a name is among these.
pub fn is_known(names: &Names, wanted: &[u8]) -> bool
    ensures { result ≡ is_among names.now wanted.now }
{
    match position(names.items(), wanted) {
        Some(_) => true,
        None => false,
    }
}
