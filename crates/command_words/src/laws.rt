//! Laws of words, each the contract of a function that does nothing.
ghost use Rattle.std.specs.Prelude.{◌↔◌, List, ◌∷◌};
ghost use Rattle.clap.specs.Words.{Text};
ghost use Rattle.command_words.specs.Order.{Ask, Request, Requests};
ghost use Rattle.command_words.specs.Pairs.{ArePairs, Pair, spelled, value_among};

/// A law: words that spell options with their values, two words for each, ask for what these values ask for, whatever the program's name.
pub fn pairs_are_read_as_they_stand()
    ensures { (program : Text) (pairs : List Pair) → ArePairs pairs → (request : Request)
        → Ask (program ∷ spelled pairs) request ↔ Requests (value_among pairs) request }
{}
