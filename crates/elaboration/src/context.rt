//! What is around statements.

ghost use Rattle.std.specs.Prelude.{◌≡◌, ◌+◌, IfOk};
ghost use Rattle.elaboration.specs.Contexts as contexts;
ghost use Rattle.elaboration.specs.Guards as guards;
ghost use Rattle.elaboration.specs.Walking.{context_of};

use crate::functions::Functions;
use crate::guards::{is_ended, may_guard};
use concrete_syntax::{Items, Statement};
use std::alloc::AllocError;

/// How many levels of nesting may be open.
pub const MOST_LEVELS: u32 = 64;

/// Whose body statements are in.
#[derive(Clone, Copy, PartialEq, Eq, Debug)]
pub enum Body {
    Main,
    /// That of a function that gives a value.
    Valued,
    /// That of one that gives none.
    Valueless,
}

/// What is around statements: the functions before, whose body it is, whether it is inside the body of a loop, whether it is the last of a function that is done
/// in it, and how many levels of nesting are open.
#[derive(Clone, Copy)]
pub struct Context<'a> {
    pub functions: &'a Functions,
    pub body: Body,
    pub in_loop: bool,
    pub last: bool,
    pub level: u32,
}

impl Body {
    ghost use Rattle.std.specs.Prelude.{◌≡◌};

    /// Whether it is that of a function.
    pub fn is_function(self) -> bool
        ensures { result ≡ guards.is_function self }
    {
        match self {
            Body::Main => false,
            Body::Valued | Body::Valueless => true,
        }
    }

    /// The body of a function.
    pub fn of(valued: bool) -> Body
        ensures { result ≡ contexts.body_of valued }
    {
        if valued {
            Body::Valued
        } else {
            Body::Valueless
        }
    }
}

impl<'a> Context<'a> {
    ghost use Rattle.std.specs.Prelude.{◌≡◌, false, IfOk};
    ghost use Rattle.concrete_syntax.specs.Mirror.{statement as statement_of, items as items_of};

    /// Between the braces of a body.
    pub fn top(functions: &'a Functions, body: Body) -> Context<'a>
        ensures { context_of result ≡ contexts.at_top functions.now body }
    {
        Context {
            functions,
            body,
            in_loop: false,
            last: true,
            level: 1,
        }
    }

    /// In braces or in a part of an `if`. `AllocError` where there are more levels than numbers of levels.
    pub fn deeper(self) -> Result<Context<'a>, AllocError>
        ensures { IfOk result (λ inner. context_of inner ≡ contexts.deeper (context_of self.entry)) }
    {
        Ok(Context {
            level: one_more(self.level)?,
            ..self
        })
    }

    /// In the body of a loop. `AllocError` as above.
    pub fn looping(self) -> Result<Context<'a>, AllocError>
        ensures { IfOk result (λ inner. context_of inner ≡ contexts.looping (context_of self.entry)) }
    {
        Ok(Context {
            in_loop: true,
            last: false,
            level: one_more(self.level)?,
            ..self
        })
    }

    /// Whether this statement guards what follows it.
    pub fn is_guarded_by(&self, tree: &Statement) -> bool
        ensures { result ≡ guards.guards (context_of self.now) (statement_of tree.now) }
    {
        may_guard(tree) && self.body.is_function() && self.level < MOST_LEVELS
    }

    /// Around this statement, which stands before these items and doesn't guard them.
    pub fn around(self, tree: &Statement, more: &Items) -> Context<'a>
        ensures { guards.guards (context_of self.entry) (statement_of tree.now) ≡ false
            → context_of result ≡ guards.around_statement (context_of self.entry) (statement_of tree.now) (items_of more.now) }
    {
        Context {
            last: self.last && is_ended(more),
            ..self
        }
    }
}

/// One level more, of so many that no memory holds a tree of more.
pub fn one_more(level: u32) -> Result<u32, AllocError>
    ensures { IfOk result (λ more. more ≡ level + 1) }
{
    match level.checked_add(1) {
        Some(more) => Ok(more),
        None => Err(AllocError),
    }
}
