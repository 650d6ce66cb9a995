//! The one input that is asked for.

ghost use Rattle.std.specs.Prelude.{◌≤◌, IfNone, IfSome, length, option_map};
ghost use Rattle.line_text.specs.Names.{AreNames};
ghost use Rattle.function_top.specs.Asking.{IsInputGiven, IsReadAs};

use input_text::read_input;
use step_meaning::Names;

/// The input that the text is of a program with these names, of which there are at most 15, where there is a text; `None` where it is none.
pub(crate) fn input_asked(text: Option<&[u8]>, names: &Names) -> Option<Option<[i128; 16]>>
    requires { length names.now ≤ 15 }
    ensures given { IfSome result (λ input. IsReadAs names.now (option_map (λ bytes. bytes.now) text.entry) input) }
    ensures none { IfNone result (AreNames names.now → ¬ IsInputGiven names.now (option_map (λ bytes. bytes.now) text.entry)) }
{
    match text {
        Some(text) => match read_input(text, names) {
            Some(input) => Some(Some(input)),
            None => None,
        },
        None => Some(None),
    }
}
