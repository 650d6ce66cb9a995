//! The one input that a text is.
ghost use Rattle.std.specs.Prelude.{◌≡◌, ◌<◌, ◌≤◌, ℤ, ℕ, All, Any, IfNone, IfSome, Some, length};
ghost use Rattle.step_meaning.specs.Outcome.{Store};
ghost use Rattle.step_meaning.specs.Run.{IsInput};
ghost use Rattle.line_text.specs.Names.{AreNames};
ghost use Rattle.input_text.specs.Input.{IsInputText, IsPairAt, IsPairText, name_at};
ghost use Rattle.input_text.specs.Pieces.{pieces};

use crate::finding::{are_pairs, has_pieces, name_at, number_for};
use step_meaning::Names;

/// The input that the text is of a program with these names, of which there are at most 16; `None` where it is none.
pub fn read_input(text: &[u8], names: &Names) -> Option<[i128; 16]>
    requires few { length names.now ≤ 16 }
    ensures is { IfSome result (λ input. IsInputText names.now text.now input) }
    ensures finds { AreNames names.now → (input : Store) → IsInputText names.now text.now input → result ≡ Some input }
{
    if !has_pieces(text, names.items().len()) {
        return None;
    }
    let input = numbers_for(text, names)?;
    if !are_pairs(text, names, &input) {
        return None;
    }
    Some(input)
}

/// At the place of each name the number that the first piece with one gives it.
fn numbers_for(text: &[u8], names: &Names) -> Option<[i128; 16]>
    requires few { length names.now ≤ 16 }
    ensures input { IfSome result (λ input. IsInput (length names.now) input) }
    ensures given { IfSome result (λ input. (place : ℕ) → place < length names.now → Any (IsPairAt names.now input place) (pieces 44 text.now)) }
    ensures none { IfNone result ((place : ℕ) × (place < length names.now)
        × All (λ piece. (number : ℤ) → ¬ IsPairText (name_at names.now place) number piece) (pieces 44 text.now)) }
{
    let mut input = [0; 16];
    for place in 0..names.items().len() {
        input[place] = number_for(text, name_at(names, place))?;
    }
    Some(input)
}
