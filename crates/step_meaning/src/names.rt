//! The names of a program's variables.

use std::marker::Model;

/// Names in the order of their declaration, each as its bytes in the text. A variable's place is the place of its name here, counted
/// from 0. Contracts see the list of the names.
#[derive(Drop)]
pub struct Names {
    list: Vec<Vec<u8>>,
}

impl Model for Names {
    ghost use Rattle.std.specs.Prelude.{List, ℕ, map, vec_items};

    ghost Value = { List (List ℕ) };

    ghost view = { λ names. map vec_items names.list.items };
}

impl Names {
    ghost use Rattle.std.specs.Prelude.{◌≡◌, map, vec_items};

    /// The names of this list, in its order.
    pub fn of(list: Vec<Vec<u8>>) -> Names
        ensures { result ≡ map vec_items list.items }
    {
        Names { list }
    }

    /// The names as a slice.
    pub fn items(&self) -> &[Vec<u8>]
        ensures { map vec_items result.now ≡ self.now }
    {
        &self.list
    }
}
