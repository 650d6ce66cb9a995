//! A walk over a body, or over an expression of it: what it knows, and what it reports.

ghost use Rattle.std.specs.Prelude.{◌≡◌, ◌∷◌, []};
ghost use Rattle.typed_expressions.specs.Expressions.{unknown_name};
ghost use Rattle.typed_expressions.specs.Faults.{fault};

use crate::fault::{Fault, Rule, earlier};
use crate::scope::Scope;
use concrete_syntax::Name;
use source_lex::{Token, start_of};
use std::alloc::Global;

/// A walk over a body: the text's tokens, the names so far, and the first fault so far.
#[derive(Drop)]
pub struct Walk<'a> {
    pub alloc: Global,
    pub tokens: &'a [Token],
    pub scope: Scope,
    pub least: Option<Fault>,
}

impl<'a> Walk<'a> {
    ghost use Rattle.std.specs.Prelude.{◌≡◌, ◌≤◌, ◌∷◌, []};
    ghost use Rattle.typed_expressions.specs.Offsets.{offset_in};
    ghost use Rattle.typed_expressions.specs.Scopes.{no_names, place_of};
    ghost use Rattle.typed_expressions.specs.Walking.{HasFound};

    /// At the front of a body, where the functions before have so many variables and this is the first fault so far.
    pub fn new(alloc: Global, tokens: &'a [Token], others: usize, least: Option<Fault>) -> Walk<'a>
        requires { others ≤ 15 }
        ensures tokens { result.tokens.now ≡ tokens.now }
        ensures scope { result.scope ≡ no_names others }
        ensures least { result.least ≡ least }
    {
        Walk {
            alloc,
            tokens,
            scope: Scope::new(alloc, others),
            least,
        }
    }

    /// Keeps the fault where it is the first so far.
    pub fn report(&mut self, rule: Rule, token: usize)
        ensures { HasFound self.old self.new (fault rule token ∷ []) }
    {
        self.least = earlier(self.least, Fault { rule, token });
    }

    /// Reports a name that may not be used here.
    pub fn need_visible(&mut self, name: &[u8], token: usize)
        ensures { HasFound self.old self.new (unknown_name self.old.scope token name.now) }
    {
        if !self.scope.is_visible(name) {
            self.report(Rule::Unknown, token);
        }
    }

    /// The place of the variable that a name is. A name that may not be used here is reported.
    pub fn variable(&mut self, name: &Name) -> u8
        ensures place { result ≡ place_of self.old.scope.declared name.now.bytes.items }
        ensures found { HasFound self.old self.new (unknown_name self.old.scope name.now.at name.now.bytes.items) }
    {
        self.need_visible(&name.bytes, name.at);
        self.scope.place(&name.bytes)
    }

    /// Where a token stands in the text, by its number.
    pub fn offset(&self, number: usize) -> u32
        ensures { result ≡ offset_in self.now.tokens.now number }
    {
        start_of(self.tokens, number, 0)
    }
}
