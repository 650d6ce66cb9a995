//! A program: its names and its body, which are valid together.

ghost use Rattle.step_meaning.specs.Valid.{IsValid};
ghost use Rattle.step_meaning.specs.ValidOnce.{IsValid-prop};

use crate::names::Names;
use crate::statement::Block;

/// A program, which is valid: at most 15 names, no two of them equal, each variable's place below their number, each operand of the
/// sort that its place needs, and no range whose lower end is above its upper end.
#[derive(Drop)]
pub struct Program {
    pub names: Names,
    pub body: Block,
    ghost valid: { IsValid names body } by { IsValid-prop names body },
}

impl Program {
    ghost use Rattle.std.specs.Prelude.{◌≡◌, length};

    /// The number of the names, at most 15.
    pub fn vars(&self) -> u8
        ensures { result ≡ length self.now.names }
    {
        self.names.items().len() as u8
    }
}
