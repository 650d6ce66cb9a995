//! Functions.

ghost use Rattle.std.specs.Prelude.{◌≡◌, ◌≤◌, ◌++◌, ◌∷◌, [], None, OnOk, map};
ghost use Rattle.concrete_syntax.specs.Mirror.{name as name_of, parameters as parameters_tree, function as function_tree};
ghost use Rattle.typed_expressions.specs.declared.fault.Rule.TheVariants.{Placed};
ghost use Rattle.typed_expressions.specs.Faults.{earliest};
ghost use Rattle.elaboration.specs.Functions.{no_functions};
ghost use Rattle.elaboration.specs.Elaborates.{function_faults, missing_faults, function_made, functions_behind, made_of, others_behind, parameters_of, twice_faults};
ghost use Rattle.typed_expressions.specs.Walking.{HasFound};
ghost use Rattle.elaboration.specs.Walking.{HasDeclared, HaveBeenDeclared};

use crate::context::{Body, Context};
use crate::functions::{Functions, Signature};
use crate::guards::items_return;
use crate::levels::items_levels;
use crate::simple::need_new;
use crate::statement::items;
use call_meaning::{Func, UnitBlock};
use concrete_syntax::{Function, Name, Parameters};
use source_lex::Token;
use std::alloc::{AllocError, Global};
use typed_expressions::{Fault, Rule, Variables, Walk};

/// The functions of a program so far: what calls have to know of them, what they are, how many variables they have together, and the first fault so far.
#[derive(Drop)]
pub struct Whole<'a> {
    alloc: Global,
    tokens: &'a [Token],
    pub functions: Functions,
    pub funcs: Vec<Func>,
    pub others: usize,
    pub least: Option<Fault>,
}

impl<'a> Whole<'a> {
    ghost use Rattle.std.specs.Prelude.{◌≡◌, ◌≤◌, ◌++◌, ◌∷◌, [], None, OnOk, map};

    /// Before the first function.
    pub fn new(alloc: Global, tokens: &'a [Token]) -> Whole<'a>
        ensures tokens { result.tokens.now ≡ tokens.now }
        ensures functions { result.functions ≡ no_functions }
        ensures funcs { result.funcs.items ≡ [] }
        ensures others { result.others ≡ 0 }
        ensures least { result.least ≡ None }
    {
        Whole {
            alloc,
            tokens,
            functions: Functions::new(alloc),
            funcs: Vec::new(alloc),
            others: 0,
            least: None,
        }
    }

    /// One more function.
    pub fn function(&mut self, tree: &Function) -> Result<(), AllocError>
        requires { self.old.others ≤ 15 }
        ensures tokens { OnOk result (self.new.tokens.now ≡ self.old.tokens.now) }
        ensures functions { OnOk result (self.new.functions ≡ functions_behind self.old.functions self.old.others (function_tree tree.now)) }
        ensures funcs { OnOk result (map made_of self.new.funcs.items ≡ map made_of self.old.funcs.items ++ function_made self.old.tokens.now self.old.functions self.old.others (function_tree tree.now) ∷ []) }
        ensures others { OnOk result (self.new.others ≡ others_behind self.old.functions self.old.others (function_tree tree.now)) }
        ensures few { OnOk result (self.new.others ≤ 15) }
        ensures least { OnOk result (self.new.least ≡ earliest self.old.least (function_faults self.old.functions self.old.others (function_tree tree.now))) }
    {
        let mut walk = Walk::new(self.alloc, self.tokens, self.others, self.least);
        need_new_function(&mut walk, &tree.name, &self.functions);
        parameters(&mut walk, &tree.parameters)?;
        let params = walk.scope.count();
        let mut list = Vec::new(self.alloc);
        let context = Context::top(&self.functions, Body::of(tree.valued));
        items(&mut walk, &tree.items, context, &mut list)?;
        need_return(
            &mut walk,
            tree.valued,
            items_return(&tree.items),
            tree.behind,
        );
        let Walk { scope, least, .. } = walk;
        let Variables { names, free } = scope.into_variables(self.alloc)?;
        self.least = least;
        self.others += names.items().len();
        let valued = tree.valued;
        self.functions
            .add(self.alloc, &tree.name.bytes, Signature { params, valued })?;
        self.funcs.push(Func {
            params,
            levels: items_levels(&tree.items, 1)?,
            names,
            free,
            body: UnitBlock::of(self.alloc, list)?,
        })?;
        Ok(())
    }
}

ghost use Rattle.std.specs.Prelude.{◌≡◌, OnOk};

/// Reports the name of a function that there is already.
fn need_new_function(walk: &mut Walk, name: &Name, functions: &Functions)
    ensures { HasFound walk.old walk.new (twice_faults functions.now (name_of name.now)) }
{
    if functions.is_known(&name.bytes) {
        walk.report(Rule::Twice, name.at);
    }
}

/// Declares the parameters of a function. Faults are reported.
fn parameters(walk: &mut Walk, tree: &Parameters) -> Result<(), AllocError>
    ensures { OnOk result (HaveBeenDeclared walk.old walk.new (parameters_of (parameters_tree tree.now))) }
{
    if let Parameters::Named { first, more } = tree {
        parameter(walk, first)?;
        for name in more.iter() {
            parameter(walk, name)?;
        }
    }
    Ok(())
}

// Declares a parameter.
fn parameter(walk: &mut Walk, name: &Name) -> Result<(), AllocError>
    ensures { OnOk result (HasDeclared walk.old walk.new (name_of name.now)) }
{
    need_new(walk, name, &None);
    walk.scope.declare(walk.alloc, &name.bytes)
}

// Reports the `}` before the token `behind` where a function that gives a value doesn't always return.
fn need_return(walk: &mut Walk, valued: bool, returned: bool, behind: usize)
    ensures { HasFound walk.old walk.new (missing_faults valued returned behind) }
{
    if valued && !returned {
        walk.report(Rule::Placed, behind.saturating_sub(1));
    }
}
