//! The first name of a formula that no variable has. Trees are walked in the order of the text.

ghost use Rattle.std.specs.Prelude.{◌≡◌};
ghost use Rattle.formula_syntax.specs.Mirror.{factor as factor_of, tail as tail_of, sum as sum_of, part as part_of, chain as chain_of, formula as formula_of};
ghost use Rattle.formula_parse.specs.Faults.{or_else, unless, unknown_in_factor, unknown_in_tail, unknown_in_sum, unknown_in_part, unknown_in_chain, unknown_in};

use crate::names::is_known;
use formula_syntax::{Chain, Factor, FactorKind, Formula, Part, Sum, Tail};
use step_meaning::Names;

/// The first name that no variable has, by the number of its token.
pub fn first_unknown(names: &Names, tree: &Formula) -> Option<usize>
    ensures { result ≡ unknown_in names.now (formula_of tree.now) }
{
    match in_part(names, &tree.part) {
        Some(at) => Some(at),
        None => in_chain(names, &tree.chain),
    }
}

// In a part.
#[cycle(unknown_parts)]
fn in_part(names: &Names, tree: &Part) -> Option<usize>
    ensures { result ≡ unknown_in_part names.now (part_of tree.now) }
{
    match tree {
        Part::Prefixed { prefix: _, part } => in_part(names, part),
        Part::Quantified {
            all: _,
            keep,
            behind_keep,
            weak: _,
            goal,
            behind_goal,
        } => {
            let first = in_group(names, keep, behind_keep);
            let second = in_group(names, goal, behind_goal);
            or_else(first, second)
        }
        Part::Truth(_) | Part::Exit => None,
        Part::Compared {
            left,
            comparison: _,
            right,
        } => or_else(in_sum(names, left), in_sum(names, right)),
        Part::Grouped { at: _, part, chain } => in_group(names, part, chain),
    }
}

// In a part and what stands behind it.
#[cycle(unknown_parts)]
fn in_group(names: &Names, part: &Part, chain: &Chain) -> Option<usize>
    ensures { result ≡ or_else (unknown_in_part names.now (part_of part.now)) (unknown_in_chain names.now (chain_of chain.now)) }
{
    or_else(in_part(names, part), in_chain(names, chain))
}

// Behind a part.
#[cycle(unknown_parts)]
fn in_chain(names: &Names, tree: &Chain) -> Option<usize>
    ensures { result ≡ unknown_in_chain names.now (chain_of tree.now) }
{
    match tree {
        Chain::Done => None,
        Chain::Joined {
            connective: _,
            part,
            rest,
        } => in_group(names, part, rest),
    }
}

// In a sum.
fn in_sum(names: &Names, tree: &Sum) -> Option<usize>
    ensures { result ≡ unknown_in_sum names.now (sum_of tree.now) }
{
    or_else(in_factor(names, &tree.factor), in_tail(names, &tree.tail))
}

// In a factor.
#[cycle(unknown_names)]
fn in_factor(names: &Names, tree: &Factor) -> Option<usize>
    ensures { result ≡ unknown_in_factor names.now (factor_of tree.now) }
{
    match &tree.kind {
        FactorKind::Number(_) => None,
        FactorKind::Name(name) => {
            let known = is_known(names, name);
            unless(known, tree.at)
        }
        FactorKind::Signed {
            negative: _,
            factor,
        } => in_factor(names, factor),
        FactorKind::Summed { factor, tail } => {
            let first = in_factor(names, factor);
            let second = in_tail(names, tail);
            or_else(first, second)
        }
    }
}

// Behind a factor.
#[cycle(unknown_names)]
fn in_tail(names: &Names, tree: &Tail) -> Option<usize>
    ensures { result ≡ unknown_in_tail names.now (tail_of tree.now) }
{
    match tree {
        Tail::Ended => None,
        Tail::Further {
            op: _,
            factor,
            rest,
        } => {
            let first = in_factor(names, factor);
            let second = in_tail(names, rest);
            or_else(first, second)
        }
    }
}

// The first one, or where there is none the other.
fn or_else(first: Option<usize>, other: Option<usize>) -> Option<usize>
    ensures { result ≡ or_else first other }
{
    match first {
        Some(at) => Some(at),
        None => other,
    }
}

// The token, where its name isn't known.
fn unless(known: bool, at: usize) -> Option<usize>
    ensures { result ≡ unless known at }
{
    if known { None } else { Some(at) }
}
