//! The functions that may be called.

ghost use Rattle.std.specs.Prelude.{◌≡◌, OnOk, IfOk, map, vec_items};

use indexmap::IndexSet;
use std::alloc::{AllocError, Global};
use std::marker::Model;
use step_meaning::Names;

/// What a call has to know of a function: how many parameters it has, and whether it gives a value.
#[derive(Clone, Copy, PartialEq, Eq, Debug)]
pub struct Signature {
    pub params: u8,
    pub valued: bool,
}

/// The functions so far, in the order of the text.
#[derive(Drop)]
pub struct Functions {
    names: IndexSet<Vec<u8>>,
    signatures: Vec<Signature>,
}

impl Model for Functions {
    ghost use Rattle.std.specs.Prelude.{map, vec_items};
    ghost use Rattle.elaboration.specs.Functions as functions;

    ghost Value = { functions.Functions };

    ghost view = { λ f. record { names = map vec_items f.names.keys; signatures = f.signatures.items } };
}

impl Functions {
    ghost use Rattle.std.specs.Prelude.{◌≡◌, OnOk, IfOk};
    ghost use Rattle.elaboration.specs.Functions.{no_functions, signature_of, with_function};
    ghost use Rattle.typed_expressions.specs.Scopes.{is_among, place_of};

    /// Before the first function.
    pub fn new(alloc: Global) -> Functions
        ensures { result ≡ no_functions }
    {
        Functions {
            names: IndexSet::new(alloc),
            signatures: Vec::new(alloc),
        }
    }

    /// Whether there is a function of this name.
    pub fn is_known(&self, name: &[u8]) -> bool
        ensures { result ≡ is_among self.now.names name.now }
    {
        self.names.contains(name)
    }

    /// What is known of the function of this name, if there is one.
    pub fn signature(&self, name: &[u8]) -> Option<Signature>
        ensures { result ≡ signature_of self.now name.now }
    {
        if self.is_known(name) {
            let found = self.signatures.get(self.place(name))?;
            Some(*found)
        } else {
            None
        }
    }

    // The place of the function of this name, or how many functions there are.
    fn place(&self, name: &[u8]) -> usize
        ensures { result ≡ place_of self.now.names name.now }
    {
        match self.names.get_index_of(name) {
            Some(place) => place,
            None => self.names.len(),
        }
    }

    /// The number of the function of this name, or how many functions there are. `AllocError` where there are more than numbers of functions.
    pub fn number(&self, name: &[u8]) -> Result<u32, AllocError>
        ensures { IfOk result (λ number. number ≡ place_of self.now.names name.now) }
    {
        match u32::try_from(self.place(name)) {
            Ok(number) => Ok(number),
            Err(_) => Err(AllocError),
        }
    }

    /// Adds a function, where there is none of its name. `AllocError` where it finds no room.
    pub fn add(
        &mut self,
        alloc: Global,
        name: &[u8],
        signature: Signature,
    ) -> Result<(), AllocError>
        ensures { OnOk result (self.new ≡ with_function self.old name.now signature) }
    {
        if !self.is_known(name) {
            self.names.insert(name.to_vec(alloc)?)?;
            self.signatures.push(signature)?;
        }
        Ok(())
    }

    /// The names. `AllocError` where their list finds no room.
    pub fn into_names(self, alloc: Global) -> Result<Names, AllocError>
        ensures { IfOk result (λ names. names ≡ self.names) }
    {
        let names = self.names.into_iter().collect(alloc)?;
        Ok(Names::of(names))
    }
}
