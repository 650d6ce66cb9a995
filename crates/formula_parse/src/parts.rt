//! Concrete trees as formulas: connectives group as their meaning says, in one walk that keeps what is joined by `||` already and the
//! conjunction that follows.

ghost use Rattle.std.specs.Prelude.{◌≡◌, ◌≤◌, ◌⊎◌, length, IfOk, IfErr, None};
ghost use Rattle.ctl_formula.specs.Formulas as formulas;
ghost use Rattle.ctl_formula.specs.Mirror.{ctl};
ghost use Rattle.formula_syntax.specs.Mirror.{part as part_of, chain as chain_of, formula as formula_of};
ghost use Rattle.formula_parse.specs.Meanings.{part_meaning, chain_meaning, formula_meaning, prefixed_meaning, until_meaning, truth_meaning, either_of};
ghost use Rattle.formula_parse.specs.Faults.{PartFits, ChainFits, AllFit, BreaksPart, BreaksChain, BreaksAt};
ghost use Rattle.formula_parse.specs.Refusing.{OnAtom};
ghost use Rattle.formula_parse.specs.Walking.{joined_of};

use crate::atom::atom;
use crate::refusal::Refusal;
use ctl_formula::Formula;
use formula_syntax::{Chain, Connective, Formula as Tree, Part, Prefix};
use std::alloc::{AllocError, Global};
use step_meaning::Names;

/// The formula that a tree is.
///
/// `NotAffine` with the first of its atoms that isn't affine or whose numbers don't fit, by the number of its first token. `Memory` where the
/// formula finds no room.
pub fn elaborate(alloc: Global, names: &Names, tree: &Tree) -> Result<Formula, Refusal>
    requires { length names.now ≤ 15 }
    ensures meaning { IfOk result (λ made. AllFit names.now (formula_of tree.now) × (ctl made ≡ formula_meaning names.now (formula_of tree.now))) }
    ensures refused { IfErr result (λ refusal. OnAtom refusal (BreaksAt names.now (formula_of tree.now))) }
{
    let made = group(alloc, names, &tree.part, &tree.chain)?;
    Ok(made)
}

// A part and what stands behind it.
#[cycle(formulas)]
fn group(alloc: Global, names: &Names, part: &Part, chain: &Chain) -> Result<Formula, Refusal>
    requires { length names.now ≤ 15 }
    ensures meaning { IfOk result (λ made. (PartFits names.now (part_of part.now) × ChainFits names.now (chain_of chain.now))
        × (ctl made ≡ chain_meaning names.now None (part_meaning names.now (part_of part.now)) (chain_of chain.now))) }
    ensures refused { IfErr result (λ refusal. OnAtom refusal (λ at. BreaksPart names.now (part_of part.now) at
        ⊎ (PartFits names.now (part_of part.now) × BreaksChain names.now (chain_of chain.now) at))) }
{
    let first = one_part(alloc, names, part)?;
    let made = behind(alloc, names, None, first, chain)?;
    Ok(made)
}

// A part.
#[cycle(formulas)]
fn one_part(alloc: Global, names: &Names, tree: &Part) -> Result<Formula, Refusal>
    requires { length names.now ≤ 15 }
    ensures meaning { IfOk result (λ made. PartFits names.now (part_of tree.now) × (ctl made ≡ part_meaning names.now (part_of tree.now))) }
    ensures refused { IfErr result (λ refusal. OnAtom refusal (BreaksPart names.now (part_of tree.now))) }
{
    match tree {
        Part::Prefixed { prefix, part } => {
            let inner = one_part(alloc, names, part)?;
            let made = prefixed(alloc, *prefix, inner)?;
            Ok(made)
        }
        Part::Quantified {
            all,
            keep,
            behind_keep,
            weak,
            goal,
            behind_goal,
        } => {
            let first = group(alloc, names, keep, behind_keep)?;
            let second = group(alloc, names, goal, behind_goal)?;
            let made = until(alloc, *all, *weak, first, second)?;
            Ok(made)
        }
        Part::Truth(value) => Ok(truth(*value)),
        Part::Exit => Ok(Formula::Exit),
        Part::Compared {
            left,
            comparison,
            right,
        } => {
            let made = atom(alloc, names, left, *comparison, right)?;
            Ok(made)
        }
        Part::Grouped { at: _, part, chain } => {
            let made = group(alloc, names, part, chain)?;
            Ok(made)
        }
    }
}

// What stands behind parts joined by `&&` that aren't yet joined to what is before them.
#[cycle(formulas)]
fn behind(
    alloc: Global,
    names: &Names,
    before: Option<Formula>,
    so_far: Formula,
    tree: &Chain,
) -> Result<Formula, Refusal>
    requires { length names.now ≤ 15 }
    ensures meaning { IfOk result (λ made. ChainFits names.now (chain_of tree.now)
        × (ctl made ≡ chain_meaning names.now (joined_of before) (ctl so_far) (chain_of tree.now))) }
    ensures refused { IfErr result (λ refusal. OnAtom refusal (BreaksChain names.now (chain_of tree.now))) }
{
    match tree {
        Chain::Done => {
            let made = either(alloc, before, so_far)?;
            Ok(made)
        }
        Chain::Joined {
            connective,
            part,
            rest,
        } => {
            let next = one_part(alloc, names, part)?;
            match connective {
                Connective::And => {
                    let longer = both(alloc, so_far, next)?;
                    let made = behind(alloc, names, before, longer, rest)?;
                    Ok(made)
                }
                Connective::Or => {
                    let earlier = either(alloc, before, so_far)?;
                    let made = behind(alloc, names, Some(earlier), next, rest)?;
                    Ok(made)
                }
            }
        }
    }
}

// What a prefix makes of a formula.
fn prefixed(alloc: Global, prefix: Prefix, inner: Formula) -> Result<Formula, AllocError>
    ensures { IfOk result (λ made. ctl made ≡ prefixed_meaning prefix (ctl inner)) }
{
    let part = Box::new(alloc, inner)?;
    match prefix {
        Prefix::Not => Ok(Formula::Not(part)),
        Prefix::AllNext => Ok(Formula::Next { all: true, part }),
        Prefix::SomeNext => Ok(Formula::Next { all: false, part }),
        Prefix::AllFinally => finally(alloc, true, part),
        Prefix::SomeFinally => finally(alloc, false, part),
        Prefix::AllGlobally => globally(alloc, true, part),
        Prefix::SomeGlobally => globally(alloc, false, part),
    }
}

// `AF` or `EF`.
fn finally(alloc: Global, all: bool, goal: Box<Formula>) -> Result<Formula, AllocError>
    ensures { IfOk result (λ made. ctl made ≡ formulas.until all formulas.truth (ctl goal.value)) }
{
    let keep = Box::new(alloc, Formula::True)?;
    Ok(Formula::Until { all, keep, goal })
}

// `AG` or `EG`.
fn globally(alloc: Global, all: bool, keep: Box<Formula>) -> Result<Formula, AllocError>
    ensures { IfOk result (λ made. ctl made ≡ formulas.weak all (ctl keep.value) formulas.falsity) }
{
    let goal = Box::new(alloc, Formula::False)?;
    Ok(Formula::Weak { all, keep, goal })
}

// An until or a weak until.
fn until(
    alloc: Global,
    all: bool,
    weak: bool,
    first: Formula,
    second: Formula,
) -> Result<Formula, AllocError>
    ensures { IfOk result (λ made. ctl made ≡ until_meaning all weak (ctl first) (ctl second)) }
{
    let keep = Box::new(alloc, first)?;
    let goal = Box::new(alloc, second)?;
    if weak {
        Ok(Formula::Weak { all, keep, goal })
    } else {
        Ok(Formula::Until { all, keep, goal })
    }
}

// `true` or `false`.
fn truth(value: bool) -> Formula
    ensures { ctl result ≡ truth_meaning value }
{
    if value { Formula::True } else { Formula::False }
}

// Both of two formulas.
fn both(alloc: Global, left: Formula, right: Formula) -> Result<Formula, AllocError>
    ensures { IfOk result (λ made. ctl made ≡ formulas.both (ctl left) (ctl right)) }
{
    let first = Box::new(alloc, left)?;
    let second = Box::new(alloc, right)?;
    Ok(Formula::And(first, second))
}

// The last of some formulas, joined to those before it by `||`, where there are any.
fn either(alloc: Global, before: Option<Formula>, last: Formula) -> Result<Formula, AllocError>
    ensures { IfOk result (λ made. ctl made ≡ either_of (joined_of before) (ctl last)) }
{
    match before {
        Some(earlier) => {
            let first = Box::new(alloc, earlier)?;
            let second = Box::new(alloc, last)?;
            Ok(Formula::Or(first, second))
        }
        None => Ok(last),
    }
}
