//! The names of a body, and which of them may be used.

ghost use Rattle.std.specs.Prelude.{◌≡◌, ◌+◌, ◌≤◌, ◌<◌, IfSome, IfNone, OnOk, IfOk, length, map, vec_items, take, true, false};
ghost use Rattle.typed_expressions.specs.Scopes.{is_among, place_of};

use indexmap::IndexSet;
use std::alloc::{AllocError, Global};
use std::marker::Model;
use step_meaning::Names;

/// How many variables the functions of a program may have together.
pub const MOST_VARIABLES: usize = 15;

/// What is known at a place of a body: how many variables the functions before have; the names declared so far, each once, in the order of their first
/// declarations; those that may be used here; and which variables were declared without initialiser.
#[derive(Drop)]
pub struct Scope {
    others: usize,
    declared: IndexSet<Vec<u8>>,
    visible: Vec<Vec<u8>>,
    free: [bool; 16],
}

/// What is known behind a body: the names of its variables, and which of them were declared without initialiser.
#[derive(Drop)]
pub struct Variables {
    pub names: Names,
    pub free: [bool; 16],
}

impl Model for Scope {
    ghost use Rattle.std.specs.Prelude.{◌≡◌, ◌+◌, ◌≤◌, length, map, vec_items};
    ghost use Rattle.typed_expressions.specs.Scopes as scopes;

    ghost Value = { scopes.Scope };

    ghost view = { λ s. record { others = s.others; declared = map vec_items s.declared.keys; visible = map vec_items s.visible.items; free = s.free } };

    ghost invariant = { λ s. s.others + length s.declared.keys ≤ 15 };
}

impl Scope {
    ghost use Rattle.std.specs.Prelude.{◌≡◌, ◌+◌, ◌≤◌, OnOk, IfOk, length, take, true, false, not, nat_lt};
    ghost use Rattle.typed_expressions.specs.Scopes.{declare, no_names, is_among, place_of, with_variable, most_variables};

    /// Before the first declaration, where the functions before have so many variables.
    pub fn new(alloc: Global, others: usize) -> Scope
        requires { others ≤ 15 }
        ensures { result ≡ no_names others }
    {
        Scope {
            others,
            declared: IndexSet::new(alloc),
            visible: Vec::new(alloc),
            free: [false; 16],
        }
    }

    /// The place of a variable, or the number of variables where it is none.
    pub fn place(&self, name: &[u8]) -> u8
        ensures { result ≡ place_of self.now.declared name.now }
    {
        match self.declared.get_index_of(name) {
            Some(place) => place as u8,
            None => self.declared.len() as u8,
        }
    }

    /// Whether the name is that of a variable.
    pub fn is_declared(&self, name: &[u8]) -> bool
        ensures { result ≡ is_among self.now.declared name.now }
    {
        self.declared.contains(name)
    }

    /// Whether the name may be used here.
    pub fn is_visible(&self, name: &[u8]) -> bool
        ensures { result ≡ is_among self.now.visible name.now }
    {
        position(&self.visible, name).is_some()
    }

    /// How many variables there are.
    pub fn count(&self) -> u8
        ensures { result ≡ length self.now.declared }
    {
        self.declared.len() as u8
    }

    /// Whether no more names may become variables.
    pub fn is_full(&self) -> bool
        ensures { result ≡ not (nat_lt (self.now.others + length self.now.declared) most_variables) }
    {
        self.others + self.declared.len() >= MOST_VARIABLES
    }

    /// Declares a name, which has an initialiser or is a parameter. `AllocError` where it finds no room in memory.
    pub fn declare(&mut self, alloc: Global, name: &[u8]) -> Result<(), AllocError>
        ensures { OnOk result (self.new ≡ declare self.old name.now false) }
    {
        if !self.is_declared(name) {
            self.add_variable(alloc, name)?;
        }
        self.visible.push(name.to_vec(alloc)?)?;
        Ok(())
    }

    /// Declares a name without initialiser. `AllocError` where it finds no room in memory.
    pub fn declare_bare(&mut self, alloc: Global, name: &[u8]) -> Result<(), AllocError>
        ensures { OnOk result (self.new ≡ declare self.old name.now true) }
    {
        self.declare(alloc, name)?;
        if self.is_declared(name) {
            let place = self.place(name);
            self.free[place as usize] = true;
        }
        Ok(())
    }

    // Makes a new name a variable, where there is room for one more.
    fn add_variable(&mut self, alloc: Global, name: &[u8]) -> Result<(), AllocError>
        requires { is_among self.old.declared name.now ≡ false }
        ensures { OnOk result (self.new ≡ record self.old { declared = with_variable self.old.others self.old.declared name.now }) }
    {
        if !self.is_full() {
            self.declared.insert(name.to_vec(alloc)?)?;
        }
        Ok(())
    }

    /// How many names may be used here.
    pub fn depth(&self) -> usize
        ensures { result ≡ length self.now.visible }
    {
        self.visible.len()
    }

    /// Ends the scope of the names behind the first `depth`.
    pub fn close(&mut self, depth: usize)
        ensures { self.new ≡ record self.old { visible = take depth self.old.visible } }
    {
        self.visible.truncate(depth);
    }

    /// What is known behind a body. `AllocError` where the list of names finds no room.
    pub fn into_variables(self, alloc: Global) -> Result<Variables, AllocError>
        ensures names { IfOk result (λ variables. variables.names ≡ self.declared) }
        ensures free { IfOk result (λ variables. variables.free ≡ self.free) }
        ensures few { self.others + length self.declared ≤ 15 }
    {
        let free = self.free;
        let names = self.declared.into_iter().collect(alloc)?;
        Ok(Variables {
            names: Names::of(names),
            free,
        })
    }
}

/// The first place of a name among these, counted from 0, or `None` where it isn't among them.
pub fn position(names: &[Vec<u8>], wanted: &[u8]) -> Option<usize>
    ensures found { IfSome result (λ place. (is_among (map vec_items names.now) wanted.now ≡ true) × (place ≡ place_of (map vec_items names.now) wanted.now) × (place < length names.now)) }
    ensures missing { IfNone result ((is_among (map vec_items names.now) wanted.now ≡ false) × (place_of (map vec_items names.now) wanted.now ≡ length names.now)) }
{
    for (index, name) in names.iter().enumerate() {
        if name.as_slice() == wanted {
            return Some(index);
        }
    }
    None
}
