//! The texts of demo programs.
ghost use Rattle.std.specs.Prelude.{◌≡◌, ◌≤◌, ◌+◌, ◌-◌, ◌++◌, IfOk, OnOk};
ghost use Rattle.demo_program.specs.Demo.{demo_text, turn_text};

use line_text::push_numeral;
use std::alloc::{AllocError, Global};

/// The text of the demo program of a number. The only error is want of memory.
pub fn demo_text(alloc: Global, number: u32) -> Result<Vec<u8>, AllocError>
    requires { number ≤ 1000 }
    ensures { IfOk result (λ text. text.items ≡ demo_text number) }
{
    let mut text = Vec::new(alloc);
    text.extend_from_slice(b"int main() { int a, x; while (x > 0) { ")?;
    push_turn(&mut text, number, 1)?;
    Ok(text)
}

/// Appends so many additions, of the numbers from the first on, and the end of the text.
fn push_turn(text: &mut Vec<u8>, left: u32, first: u32) -> Result<(), AllocError>
    requires { left + first ≤ 1001 }
    ensures { OnOk result (text.new.items ≡ text.old.items ++ turn_text left first) }
{
    if left == 0 {
        text.extend_from_slice(b"x = x - 1; } }")?;
        return Ok(());
    }
    text.extend_from_slice(b"a = a + ")?;
    push_numeral(text, u128::from(first))?;
    text.extend_from_slice(b"; ")?;
    push_turn(text, left - 1, first + 1)?;
    Ok(())
}
