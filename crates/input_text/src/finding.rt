//! What the pieces of a text give names.
ghost use Rattle.std.specs.Prelude.{◌≡◌, ◌↔◌, ◌<◌, ◌≤◌, ℤ, ◌∷◌, All, Any, IfNone, IfSome, IsTrue, length, option_map};
ghost use Rattle.input_text.specs.Input.{IsPairOf, IsPairText, name_at};
ghost use Rattle.input_text.specs.Pieces.{pieces, pieces_behind};

use crate::pair::pair_of;
use step_meaning::Names;

/// The first piece between commas, and what is behind its comma, where it has one.
fn first_piece(text: &[u8]) -> (&[u8], Option<&[u8]>)
    ensures parts { pieces 44 text.now ≡ result.0.now ∷ pieces_behind (option_map (λ rest. rest.now) result.1) }
    ensures shorter { IfSome result.1 (λ rest. length rest.now < length text.now) }
{
    match text.iter().position(|&byte| byte == b',') {
        Some(place) => (&text[..place], Some(&text[place + 1..])),
        None => (text, None),
    }
}

/// Whether the text has so many pieces between commas.
pub(crate) fn has_pieces(text: &[u8], count: usize) -> bool
    ensures { IsTrue result ↔ (length (pieces 44 text.now) ≡ count) }
{
    if count == 0 {
        return false;
    }
    match first_piece(text).1 {
        Some(rest) => has_pieces(rest, count - 1),
        None => count == 1,
    }
}

/// The number that the first piece between commas with one gives the name.
pub(crate) fn number_for(text: &[u8], name: &[u8]) -> Option<i128>
    ensures given { IfSome result (λ number. Any (λ piece. IsPairText name.now number piece) (pieces 44 text.now)) }
    ensures none { IfNone result (All (λ piece. (number : ℤ) → ¬ IsPairText name.now number piece) (pieces 44 text.now)) }
{
    let (piece, rest) = first_piece(text);
    if let Some(number) = pair_of(piece, name) {
        return Some(number);
    }
    match rest {
        Some(rest) => number_for(rest, name),
        None => None,
    }
}

/// Whether each piece between commas gives some name the number at its place.
pub(crate) fn are_pairs(text: &[u8], names: &Names, input: &[i128; 16]) -> bool
    requires few { length names.now ≤ 16 }
    ensures { IsTrue result ↔ All (λ piece. IsPairOf names.now input.now piece) (pieces 44 text.now) }
{
    let (piece, rest) = first_piece(text);
    if !is_pair(piece, names, input) {
        return false;
    }
    match rest {
        Some(rest) => are_pairs(rest, names, input),
        None => true,
    }
}

/// The name at a place.
pub(crate) fn name_at(names: &Names, place: usize) -> &[u8]
    requires { place < length names.now }
    ensures { result.now ≡ name_at names.now place }
{
    &names.items()[place]
}

/// Whether the piece gives some name the number at its place.
fn is_pair(piece: &[u8], names: &Names, input: &[i128; 16]) -> bool
    requires few { length names.now ≤ 16 }
    ensures { IsTrue result ↔ IsPairOf names.now input.now piece.now }
{
    for place in 0..names.items().len() {
        if let Some(number) = pair_of(piece, name_at(names, place)) {
            if number == input[place] {
                return true;
            }
        }
    }
    false
}
