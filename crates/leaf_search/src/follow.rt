//! The targets of a label's arcs, and of parts at the same label.
ghost use Rattle.std.specs.Prelude.{◌≡◌, ◌++◌, ◌∷◌, [], ◌<◌, List, Some, None, true, false, IfOk, OnOk, IfSome, map};
ghost use Rattle.decision_tree.specs.Plans.{plan_of};
ghost use Rattle.tree_support.specs.Arcs.{above_end, below_end, choosing_each, putting, rows_given, testing, arcs_of, outcome_arcs, value_arcs};
ghost use Rattle.constraint_stack.specs.Forming.{Formed, given, minus, plus};
ghost use Rattle.tree_support.specs.Setting.{trees_in};
ghost use Rattle.linear_cons.specs.Functions.{constant_of, variable_at};
ghost use Rattle.constraint_stack.specs.Stacks.{AreFormed, Forms, IsMetNowhere, all_asked, asked};
ghost use Rattle.leaf_search.specs.Arcs.{over_each};
ghost use Rattle.constraint_stack.specs.Searches.{Holds, IsLonger, IsSame, IsSearched, WhereAsked};
ghost use Rattle.leaf_search.specs.Ahead.{LieBehind, target_of};
ghost use Rattle.leaf_search.specs.Walks.{LeadsTo, systems_behind};

use crate::ahead::Ahead;
use crate::walk::{Way, has_sixteen_places};
use constraint_stack::{ConstraintStack, Finding};
use control_flow::{CHOSEN_PLACE, Place, Transition};
use decision_tree::{Rank, Tree};
use linear_cons::{Affine, Linear, Row, RowKind, Rows, Wide};
use std::alloc::AllocError;

/// Adds the rows. False where no store meets the rows on the stack with them. The error is want of memory.
pub fn add_rows(rows: &[Row], stack: &mut ConstraintStack) -> Result<bool, AllocError>
    ensures longer { IfOk result (λ added. IsLonger stack.old stack.new) }
    ensures held { IfOk result (λ added. added ≡ true → WhereAsked stack.old (λ asks.
        Holds stack.new (all_asked (asks ++ rows_given rows.now)))) }
    ensures nowhere { IfOk result (λ added. added ≡ false → WhereAsked stack.old (λ asks.
        IsMetNowhere (all_asked (asks ++ rows_given rows.now)))) }
{
    for row in rows {
        has_sixteen_places(row);
        if !stack.add_row(row)? {
            return Ok(false);
        }
    }
    Ok(true)
}

/// Looks for a reason against the systems of the tree at a label, behind the rows on the stack; past the last tree nothing is defined. False
/// where no store meets any of them. The error is want of memory.
pub fn refute_at<R: Rank>(
    trees: &[Tree<R>],
    way: &Way<R>,
    label: u32,
    stack: &mut ConstraintStack,
    found: &mut Option<Finding>,
) -> Result<bool, AllocError>
    requires { IfSome way.now.sets (λ s. s.0 < 16) }
    ensures same { OnOk result (IsSame stack.old stack.new) }
    ensures searched { IfOk result (λ refuted. WhereAsked stack.old (λ asks.
        IsSearched R.Rank.own (systems_behind way.now.edge way.now.sets way.now.limit (trees_in (map plan_of trees.now) label) asks)
        refuted found.new)) }
{
    match trees.get(label as usize) {
        Some(tree) => {
            let refuted = way.refute_tree(tree, stack, found)?;
            Ok(refuted)
        }
        None => {
            let refuted = stack.check(way.edge, found)?;
            Ok(refuted)
        }
    }
}

/// The same, in the part of the tree to which the rows on the stack lead, where it is told.
fn refute_part<R: Rank>(
    trees: &[Tree<R>],
    way: &Way<R>,
    label: u32,
    ahead: Option<&Tree<R>>,
    stack: &mut ConstraintStack,
    found: &mut Option<Finding>,
) -> Result<bool, AllocError>
    requires place { IfSome way.now.sets (λ s. s.0 < 16) }
    requires ahead { IfSome ahead (λ part.
        LeadsTo stack.old.rows way.now.sets (trees_in (map plan_of trees.now) label) (plan_of part.now)) }
    ensures same { OnOk result (IsSame stack.old stack.new) }
    ensures searched { IfOk result (λ refuted. WhereAsked stack.old (λ asks.
        IsSearched R.Rank.own (systems_behind way.now.edge way.now.sets way.now.limit (trees_in (map plan_of trees.now) label) asks)
        refuted found.new)) }
{
    match ahead {
        Some(part) => {
            let refuted = way.refute_tree(part, stack, found)?;
            Ok(refuted)
        }
        None => {
            let refuted = refute_at(trees, way, label, stack, found)?;
            Ok(refuted)
        }
    }
}

/// That no part of any of the trees is told.
pub(crate) fn untold<'a, R: Rank>(_trees: &'a [Tree<R>]) -> Option<&'a Tree<R>>
    ensures { result ≡ None }
{
    None
}

/// Looks for a reason against the systems of an arc that asks for the rows.
fn refute_behind<R: Rank>(
    rows: &[Row],
    trees: &[Tree<R>],
    way: &Way<R>,
    label: u32,
    ahead: Option<&Tree<R>>,
    stack: &mut ConstraintStack,
    found: &mut Option<Finding>,
) -> Result<bool, AllocError>
    requires place { IfSome way.now.sets (λ s. s.0 < 16) }
    requires ahead { IfSome ahead (λ part.
        LeadsTo stack.old.rows way.now.sets (trees_in (map plan_of trees.now) label) (plan_of part.now)) }
    ensures same { OnOk result (IsSame stack.old stack.new) }
    ensures searched { IfOk result (λ refuted. WhereAsked stack.old (λ asks.
        IsSearched R.Rank.own (systems_behind way.now.edge way.now.sets way.now.limit (trees_in (map plan_of trees.now) label)
        (asks ++ rows_given rows.now)) refuted found.new)) }
{
    let checkpoint = stack.checkpoint();
    if !add_rows(rows, stack)? {
        stack.restore(checkpoint);
        return Ok(false);
    }
    let refuted = refute_part(trees, way, label, ahead, stack, found)?;
    stack.restore(checkpoint);
    Ok(refuted)
}

/// Looks for a reason against the systems of the arcs of an edge, one for each conjunction.
fn refute_each<R: Rank>(
    conjunctions: &[Rows],
    trees: &[Tree<R>],
    limit: Option<R>,
    edge: u32,
    label: u32,
    ahead: Option<&Tree<R>>,
    stack: &mut ConstraintStack,
    found: &mut Option<Finding>,
) -> Result<bool, AllocError>
    requires ahead { IfSome ahead (λ part.
        LeadsTo stack.old.rows None (trees_in (map plan_of trees.now) label) (plan_of part.now)) }
    ensures same { OnOk result (IsSame stack.old stack.new) }
    ensures searched { IfOk result (λ refuted. WhereAsked stack.old (λ asks.
        IsSearched R.Rank.own (over_each (trees_in (map plan_of trees.now)) limit (testing edge label conjunctions.now) asks)
        refuted found.new)) }
{
    let way = Way {
        edge,
        sets: None,
        limit,
    };
    for rows in conjunctions {
        if refute_behind(rows.items(), trees, &way, label, ahead, stack, found)? {
            return Ok(true);
        }
    }
    Ok(false)
}

/// Looks for a reason against the systems of the arcs of an assignment whose value lies between two ends, one for each of its cases: a value
/// that the ends and the rows of the case allow is put at the chosen place.
fn refute_cases<R: Rank>(
    place: Place,
    value: &Linear,
    cases: &[Rows],
    trees: &[Tree<R>],
    limit: Option<R>,
    label: u32,
    stack: &mut ConstraintStack,
    found: &mut Option<Finding>,
) -> Result<bool, AllocError>
    ensures same { OnOk result (IsSame stack.old stack.new) }
    ensures searched { IfOk result (λ refuted. WhereAsked stack.old (λ asks.
        IsSearched R.Rank.own (over_each (trees_in (map plan_of trees.now)) limit (choosing_each place.number label value.now cases.now) asks)
        refuted found.new)) }
{
    let way = Way {
        edge: 0,
        sets: Some((place.number, Affine::var(CHOSEN_PLACE))),
        limit,
    };
    for rows in cases {
        if refute_above(value, rows.items(), trees, &way, label, stack, found)? {
            return Ok(true);
        }
    }
    Ok(false)
}

/// The same of the arc of one case.
fn refute_above<R: Rank>(
    value: &Linear,
    rows: &[Row],
    trees: &[Tree<R>],
    way: &Way<R>,
    label: u32,
    stack: &mut ConstraintStack,
    found: &mut Option<Finding>,
) -> Result<bool, AllocError>
    requires { IfSome way.now.sets (λ s. s.0 < 16) }
    ensures same { OnOk result (IsSame stack.old stack.new) }
    ensures searched { IfOk result (λ refuted. WhereAsked stack.old (λ asks.
        IsSearched R.Rank.own (systems_behind way.now.edge way.now.sets way.now.limit (trees_in (map plan_of trees.now) label)
        (((asks ++ above_end value.now.affine value.now.lo) ++ below_end value.now.affine value.now.hi) ++ rows_given rows.now)) refuted found.new)) }
{
    let checkpoint = stack.checkpoint();
    let formed = above(value);
    if !add_end(formed, stack)? {
        return Ok(false);
    }
    let refuted = refute_below(value, rows, trees, way, label, stack, found)?;
    stack.restore(checkpoint);
    Ok(refuted)
}

/// The same, with the row of the lower end on the stack.
fn refute_below<R: Rank>(
    value: &Linear,
    rows: &[Row],
    trees: &[Tree<R>],
    way: &Way<R>,
    label: u32,
    stack: &mut ConstraintStack,
    found: &mut Option<Finding>,
) -> Result<bool, AllocError>
    requires { IfSome way.now.sets (λ s. s.0 < 16) }
    ensures same { OnOk result (IsSame stack.old stack.new) }
    ensures searched { IfOk result (λ refuted. WhereAsked stack.old (λ asks.
        IsSearched R.Rank.own (systems_behind way.now.edge way.now.sets way.now.limit (trees_in (map plan_of trees.now) label)
        ((asks ++ below_end value.now.affine value.now.hi) ++ rows_given rows.now)) refuted found.new)) }
{
    let checkpoint = stack.checkpoint();
    let formed = below(value);
    if !add_end(formed, stack)? {
        return Ok(false);
    }
    let refuted = refute_behind(rows, trees, way, label, untold(trees), stack, found)?;
    stack.restore(checkpoint);
    Ok(refuted)
}

/// Adds the row of an end, where there is one. False where no store meets the rows on the stack with it.
fn add_end(
    formed: Option<Result<RowKind, Wide>>,
    stack: &mut ConstraintStack,
) -> Result<bool, AllocError>
    ensures same { IfOk result (λ added. added ≡ false → IsSame stack.old stack.new) }
    ensures longer { IfOk result (λ added. IsLonger stack.old stack.new) }
    ensures held { IfOk result (λ added. added ≡ true → (asks ends : List Formed) → AreFormed ends formed → Holds stack.old (all_asked asks)
        → Holds stack.new (all_asked (asks ++ ends))) }
    ensures nowhere { IfOk result (λ added. added ≡ false → (asks ends : List Formed) → AreFormed ends formed
        → Holds stack.old (all_asked asks) → IsMetNowhere (all_asked (asks ++ ends))) }
{
    match formed {
        None => Ok(true),
        Some(formed) => {
            let added = stack.add(formed)?;
            Ok(added)
        }
    }
}

/// The chosen value is at least that of the function plus the lower end, where there is one.
fn above(value: &Linear) -> Option<Result<RowKind, Wide>>
    ensures { AreFormed (above_end value.now.affine value.now.lo) result }
{
    match value.lo {
        None => None,
        Some(lo) => Some(above_function(&value.affine, lo)),
    }
}

fn above_function(function: &Affine, lo: i128) -> Result<RowKind, Wide>
    ensures { Forms (asked (minus (given (variable_at 15)) (plus (given function.now) (given (constant_of lo))))) result }
{
    let end = function.plus(lo)?;
    let distance = Affine::var(CHOSEN_PLACE).sub(&end)?;
    Ok(Row::of(distance))
}

/// The chosen value is at most that of the function plus the upper end, where there is one.
fn below(value: &Linear) -> Option<Result<RowKind, Wide>>
    ensures { AreFormed (below_end value.now.affine value.now.hi) result }
{
    match value.hi {
        None => None,
        Some(hi) => Some(below_function(&value.affine, hi)),
    }
}

fn below_function(function: &Affine, hi: i128) -> Result<RowKind, Wide>
    ensures { Forms (asked (minus (plus (given function.now) (given (constant_of hi))) (given (variable_at 15)))) result }
{
    let end = function.plus(hi)?;
    let distance = end.sub(&Affine::var(CHOSEN_PLACE))?;
    Ok(Row::of(distance))
}

/// Looks for a reason against the systems of the transition's arcs, behind the rows on the stack: a leaf of a target that is undefined, or
/// whose rank isn't less. The trees ahead are those among the targets to which the rows lead. False where no store meets any of them. The error is want of memory.
pub fn refute_arcs<R: Rank>(
    transition: &Transition,
    trees: &[Tree<R>],
    limit: Option<R>,
    ahead: &Ahead<'_, R>,
    stack: &mut ConstraintStack,
    found: &mut Option<Finding>,
) -> Result<bool, AllocError>
    requires { LieBehind transition.now (trees_in (map plan_of trees.now)) stack.old.rows ahead.now }
    ensures same { OnOk result (IsSame stack.old stack.new) }
    ensures searched { IfOk result (λ refuted. WhereAsked stack.old (λ asks.
        IsSearched R.Rank.own (over_each (trees_in (map plan_of trees.now)) limit (arcs_of transition.now) asks)
        refuted found.new)) }
{
    match transition {
        Transition::Dead => Ok(false),
        Transition::End => refute_assigned(None, trees, limit, 0, ahead.first, stack, found),
        Transition::Pass { to } => refute_assigned(
            None,
            trees,
            limit,
            *to,
            ahead.first,
            stack,
            found,
        ),
        Transition::Assign { place, value, to } => {
            refute_put(*place, value, trees, limit, *to, ahead.first, stack, found)
        }
        Transition::Choose {
            place,
            range,
            cases,
            to,
            ..
        } => {
            let refuted = refute_cases(*place, range, cases, trees, limit, *to, stack, found)?;
            Ok(refuted)
        }
        Transition::Test { .. } => {
            if refute_outcome(transition, true, trees, limit, ahead.first, stack, found)? {
                return Ok(true);
            }
            let refuted = refute_outcome(
                transition,
                false,
                trees,
                limit,
                ahead.second,
                stack,
                found,
            )?;
            Ok(refuted)
        }
    }
}

/// The same of the arcs of one outcome of a test.
pub fn refute_outcome<R: Rank>(
    transition: &Transition,
    outcome: bool,
    trees: &[Tree<R>],
    limit: Option<R>,
    ahead: Option<&Tree<R>>,
    stack: &mut ConstraintStack,
    found: &mut Option<Finding>,
) -> Result<bool, AllocError>
    requires ahead { IfSome ahead (λ part.
        LeadsTo stack.old.rows None (trees_in (map plan_of trees.now) (target_of transition.now outcome)) (plan_of part.now)) }
    ensures same { OnOk result (IsSame stack.old stack.new) }
    ensures searched { IfOk result (λ refuted. WhereAsked stack.old (λ asks.
        IsSearched R.Rank.own (over_each (trees_in (map plan_of trees.now)) limit (outcome_arcs transition.now outcome) asks)
        refuted found.new)) }
{
    let Transition::Test {
        holds,
        fails,
        yes,
        no,
        ..
    } = transition
    else {
        return Ok(false);
    };
    if outcome {
        let refuted = refute_each(holds, trees, limit, 0, *yes, ahead, stack, found)?;
        return Ok(refuted);
    }
    let refuted = refute_each(fails, trees, limit, 1, *no, ahead, stack, found)?;
    Ok(refuted)
}

/// The same of the arc of an assignment that puts the value of a function.
pub fn refute_value<R: Rank>(
    transition: &Transition,
    value: &Affine,
    trees: &[Tree<R>],
    limit: Option<R>,
    stack: &mut ConstraintStack,
    found: &mut Option<Finding>,
) -> Result<bool, AllocError>
    ensures same { OnOk result (IsSame stack.old stack.new) }
    ensures searched { IfOk result (λ refuted. WhereAsked stack.old (λ asks.
        IsSearched R.Rank.own (over_each (trees_in (map plan_of trees.now)) limit (value_arcs transition.now value.now) asks)
        refuted found.new)) }
{
    match transition {
        Transition::Assign {
            place,
            value: _,
            to,
        } => {
            let refuted = refute_put(
                *place,
                value,
                trees,
                limit,
                *to,
                untold(trees),
                stack,
                found,
            )?;
            Ok(refuted)
        }
        Transition::Choose { place, to, .. } => {
            let refuted = refute_put(
                *place,
                value,
                trees,
                limit,
                *to,
                untold(trees),
                stack,
                found,
            )?;
            Ok(refuted)
        }
        Transition::End | Transition::Dead | Transition::Pass { .. } | Transition::Test { .. } =>
            Ok(false),
    }
}

/// Looks for a reason against the systems of an arc that sets a place to the value of a function.
fn refute_put<R: Rank>(
    place: Place,
    value: &Affine,
    trees: &[Tree<R>],
    limit: Option<R>,
    label: u32,
    ahead: Option<&Tree<R>>,
    stack: &mut ConstraintStack,
    found: &mut Option<Finding>,
) -> Result<bool, AllocError>
    requires ahead { IfSome ahead (λ part.
        LeadsTo stack.old.rows (Some (place.number, value.now)) (trees_in (map plan_of trees.now) label) (plan_of part.now)) }
    ensures same { OnOk result (IsSame stack.old stack.new) }
    ensures searched { IfOk result (λ refuted. WhereAsked stack.old (λ asks.
        IsSearched R.Rank.own (over_each (trees_in (map plan_of trees.now)) limit (putting place.number label value.now ∷ []) asks)
        refuted found.new)) }
{
    let sets = Some((place.number, *value));
    let refuted = refute_assigned(sets, trees, limit, label, ahead, stack, found)?;
    Ok(refuted)
}

/// Looks for a reason against the systems of an arc that asks for nothing and may set a place to the value of a function.
fn refute_assigned<R: Rank>(
    sets: Option<(u8, Affine)>,
    trees: &[Tree<R>],
    limit: Option<R>,
    label: u32,
    ahead: Option<&Tree<R>>,
    stack: &mut ConstraintStack,
    found: &mut Option<Finding>,
) -> Result<bool, AllocError>
    requires place { IfSome sets (λ s. s.0 < 16) }
    requires ahead { IfSome ahead (λ part.
        LeadsTo stack.old.rows sets (trees_in (map plan_of trees.now) label) (plan_of part.now)) }
    ensures same { OnOk result (IsSame stack.old stack.new) }
    ensures searched { IfOk result (λ refuted. WhereAsked stack.old (λ asks.
        IsSearched R.Rank.own (over_each (trees_in (map plan_of trees.now)) limit
        (record { edge = 0; target = label; asks = []; sets = sets } ∷ []) asks) refuted found.new)) }
{
    let way = Way {
        edge: 0,
        sets,
        limit,
    };
    let refuted = refute_part(trees, &way, label, ahead, stack, found)?;
    Ok(refuted)
}
