//! Range rows.
ghost use Rattle.std.specs.Prelude.{◌≡◌, ◌≤◌, ◌<◌, ◌++◌, [], IfOk, OkIff, OnOk, if◌then◌else◌, length, negsuc};
ghost use Rattle.std.specs.Ordering.{int_eq};
ghost use Rattle.linear_cons.specs.declared.affine.Affine.{Affine as AffineFunction};
ghost use Rattle.linear_cons.specs.declared.row.RowKind.TheVariants.{Row as Kept};
ghost use Rattle.linear_cons.specs.Functions.{NumbersFit};
ghost use Rattle.linear_forms.specs.Linearising.{linear_of, scaled};
ghost use Rattle.linear_forms.specs.Spreading.{fitting};
ghost use Rattle.step_meaning.specs.Naming.{NamesBelow};
ghost use Rattle.step_meaning.specs.Syntax.{expression, negative, statements};
ghost use Rattle.control_flow.specs.Actions.{IsPlaced};
ghost use Rattle.control_flow.specs.Labels.{action_at, all_labels};
ghost use Rattle.control_flow.specs.Readings.{action_read};
ghost use Rattle.fit_check.specs.Safety.{IsSafeTree};
ghost use Rattle.decision_tree.specs.Plans.{plan_of};
ghost use Rattle.fit_check.specs.Ranges.{is_literal, kind_of, left_of, lower_row, nested, own_rows, raised, rows_at, rows_in, rows_in_test, upper_row, variable_rows, whole, with_complement};

use control_flow::{Action, Graph};
use decision_tree::{AffineRank, Tree, Why};
use linear_cons::{Affine, Bounds, Linear, Row, RowKind, Wide, end_multiple};
use linear_forms::linearise;
use num_domain::NumDomain;
use std::alloc::{AllocError, Global};
use step_meaning::{Expr, Op2};
use tree_unify::laws::trimming_keeps_the_leaves_on_the_path;
use tree_unify::{TreeFault, trim};

/// The row that no value of the form is below the least number of 32 bits.
fn lower(form: &Linear) -> RowKind
    ensures { result ≡ lower_row form.now }
{
    kind(raised(raised(Some(form.affine), form.lo), Some(2_147_483_648)))
}

/// The row that none is above the greatest.
fn upper(form: &Linear) -> RowKind
    ensures { result ≡ upper_row form.now }
{
    kind(left_of(2_147_483_647, raised(Some(form.affine), form.hi)))
}

/// The function with the number added, where its numbers fit 128 bits.
fn raised(function: Option<Affine>, number: Option<i128>) -> Option<Affine>
    ensures { result ≡ raised function number }
{
    match (function, number) {
        (Some(function), Some(number)) => fitting(function.add(&Affine::constant(number))),
        _ => None,
    }
}

/// What is left of the number less the function, where its numbers fit 128 bits.
fn left_of(number: i128, function: Option<Affine>) -> Option<Affine>
    ensures { result ≡ left_of number function }
{
    match function {
        Some(function) => fitting(Affine::constant(number).sub(&function)),
        None => None,
    }
}

/// The function that was made, where its numbers fit 128 bits.
fn fitting(function: Result<Affine, Wide>) -> Option<Affine>
    ensures { (a : AffineFunction) → OkIff function (NumbersFit a) a → result ≡ fitting a }
{
    match function {
        Ok(affine) => Some(affine),
        Err(_) => None,
    }
}

/// What it is that the function is at least 0: never, where there is none or the complement of its row doesn't fit.
#[tactic(auto, using(linear_cons::proofs::KindLaws::row_kind_unique))]
fn kind(function: Option<Affine>) -> RowKind
    ensures { result ≡ kind_of function }
{
    match function {
        Some(function) => turnable(Row::of(function)),
        None => RowKind::Never,
    }
}

/// The kind, if the complement of its row fits.
fn turnable(kind: RowKind) -> RowKind
    ensures { result ≡ with_complement kind }
{
    match kind {
        RowKind::Row(row) => if_turnable(row),
        other => other,
    }
}

/// The row, if its complement fits.
#[tactic(auto, using(linear_forms::proofs::Known::numbers_fit_decides))]
fn if_turnable(row: Row) -> RowKind
    ensures { result ≡ with_complement (Kept row) }
{
    match row.not() {
        Ok(_) => RowKind::Row(row),
        Err(_) => RowKind::Never,
    }
}

/// Adds the range rows of the form, the lower one first.
pub(crate) fn add_form(form: &Linear, kinds: &mut Vec<RowKind>) -> Result<(), AllocError>
    ensures { OnOk result (kinds.new.items ≡ kinds.old.items ++ own_rows form.now) }
{
    kinds.push(lower(form))?;
    kinds.push(upper(form))?;
    Ok(())
}

/// Whether the expression is a number as it is written.
fn is_literal(expr: &Expr) -> bool
    ensures { result ≡ is_literal (expression expr.now) }
{
    matches!(expr, Expr::Number(_))
}

/// The form of a number's negation, by that of the number.
fn negated(form: &Linear) -> Linear
    ensures { result ≡ scaled form.now (negsuc 0) }
{
    match form.affine.scale(-1) {
        Ok(affine) => Linear {
            affine,
            lo: end_multiple(-1, form.lo, form.hi),
            hi: end_multiple(-1, form.hi, form.lo),
        },
        Err(_) => Linear {
            affine: Affine::constant(0),
            lo: None,
            hi: None,
        },
    }
}

/// Adds the range rows of the negation of what is divided, where the divisor is -1.
fn add_turned(
    of: &Expr,
    by: i64,
    bounds: &Bounds,
    kinds: &mut Vec<RowKind>,
) -> Result<(), AllocError>
    requires { NamesBelow 16 (expression of.now) }
    ensures { OnOk result (kinds.new.items ≡ kinds.old.items
        ++ (if int_eq by (negsuc 0) then own_rows (linear_of bounds.now (negative (expression of.now))) else [])) }
{
    if by == -1 {
        add_form(&negated(&linearise(of, bounds)), kinds)
    } else {
        Ok(())
    }
}

/// Adds the range rows of each number expression in this one of which they are asked, operands before their operator and left first.
pub(crate) fn add_number(
    expr: &Expr,
    bounds: &Bounds,
    kinds: &mut Vec<RowKind>,
) -> Result<(), AllocError>
    requires { NamesBelow 16 (expression expr.now) }
    ensures { OnOk result (kinds.new.items ≡ kinds.old.items ++ rows_in bounds.now (expression expr.now)) }
{
    match expr {
        Expr::Quot { of, by } => {
            add_number(of, bounds, kinds)?;
            add_turned(of, *by, bounds, kinds)
        }
        Expr::Rem { of, by } => {
            add_number(of, bounds, kinds)?;
            add_turned(of, *by, bounds, kinds)
        }
        Expr::Neg(operand) => {
            if !is_literal(operand) {
                add_number(operand, bounds, kinds)?;
            }
            add_form(&linearise(expr, bounds), kinds)
        }
        Expr::Pair { op: _, left, right } => {
            add_number(left, bounds, kinds)?;
            add_number(right, bounds, kinds)?;
            add_form(&linearise(expr, bounds), kinds)
        }
        Expr::True | Expr::False | Expr::Not(_) => Ok(()),
        _ => add_form(&linearise(expr, bounds), kinds),
    }
}

/// Adds those of the numbers that a test compares.
pub(crate) fn add_test(
    test: &Expr,
    bounds: &Bounds,
    kinds: &mut Vec<RowKind>,
) -> Result<(), AllocError>
    requires { NamesBelow 16 (expression test.now) }
    ensures { OnOk result (kinds.new.items ≡ kinds.old.items ++ rows_in_test bounds.now (expression test.now)) }
{
    match test {
        Expr::Not(operand) => add_test(operand, bounds, kinds),
        Expr::Pair { op, left, right } => match op {
            Op2::And | Op2::Or => {
                add_test(left, bounds, kinds)?;
                add_test(right, bounds, kinds)
            }
            _ => {
                add_number(left, bounds, kinds)?;
                add_number(right, bounds, kinds)
            }
        },
        _ => Ok(()),
    }
}

/// Adds those of the first variables.
pub(crate) fn add_variables(vars: u8, kinds: &mut Vec<RowKind>) -> Result<(), AllocError>
    requires { vars ≤ 16 }
    ensures { OnOk result (kinds.new.items ≡ kinds.old.items ++ variable_rows vars) }
{
    for place in 0..vars {
        add_form(&Linear::exactly(Affine::var(place)), kinds)?;
    }
    Ok(())
}

/// Adds those of what is done at a label.
pub(crate) fn add_action(
    action: Action<'_>,
    bounds: &Bounds,
    kinds: &mut Vec<RowKind>,
) -> Result<(), AllocError>
    requires { IsPlaced (action_read action) }
    ensures { OnOk result (kinds.new.items ≡ kinds.old.items ++ rows_at bounds.now (action_read action.entry)) }
{
    match action {
        Action::End | Action::Pass { .. } => Ok(()),
        Action::Assign { value, .. } => add_number(value, bounds, kinds),
        Action::Test { test, .. } => add_test(test, bounds, kinds),
    }
}

/// The safe tree of a label: where it is defined, a store of 32-bit numbers makes none that isn't.
pub fn safe_tree(
    alloc: Global,
    graph: &Graph,
    label: u32,
    bounds: &Bounds,
) -> Result<Tree<AffineRank>, TreeFault>
    requires { label < length (all_labels (statements graph.now.body)) }
    ensures { IfOk result (λ tree. IsSafeTree (length graph.now.names) bounds.now (action_at (statements graph.now.body) label) (plan_of tree)) }
{
    trimming_keeps_the_leaves_on_the_path::<AffineRank>();
    let mut kinds = Vec::new(alloc);
    add_variables(graph.program().vars(), &mut kinds)?;
    add_action(graph.action(label), bounds, &mut kinds)?;
    let whole = whole(alloc)?;
    let tree = nest(alloc, kinds, whole)?;
    let tree = trim(alloc, &tree, &[])?;
    Ok(tree)
}

/// The safe tree of a label over the bounds of the set there; one that can't be made claims nothing. The only error is want of memory.
pub fn safe_at<D: NumDomain>(
    alloc: Global,
    graph: &Graph,
    label: u32,
    set: &D,
) -> Result<Tree<AffineRank>, AllocError>
    requires { label < length (all_labels (statements graph.now.body)) }
    ensures { IfOk result (λ tree. IsSafeTree (length graph.now.names) (D.told_bounds set.now) (action_at (statements graph.now.body) label) (plan_of tree)) }
{
    match safe_tree(alloc, graph, label, &set.bounds()) {
        Ok(tree) => Ok(tree),
        Err(TreeFault::Memory(error)) => Err(error),
        Err(_) => Ok(Tree::Bottom),
    }
}

/// The leaf behind all rows.
fn whole(alloc: Global) -> Result<Tree<AffineRank>, AllocError>
    ensures { IfOk result (λ tree. plan_of tree ≡ whole) }
{
    let rank = AffineRank {
        value: Affine::constant(0),
    };
    Tree::claim(alloc, &Why::Atom, &rank)
}

/// The tree that asks the rows in their order.
pub(crate) fn nest(
    alloc: Global,
    mut kinds: Vec<RowKind>,
    end: Tree<AffineRank>,
) -> Result<Tree<AffineRank>, AllocError>
    ensures { IfOk result (λ tree. plan_of tree ≡ nested kinds.items (plan_of end)) }
{
    let mut tree = end;
    while let Some(kind) = kinds.pop() {
        match kind {
            RowKind::Always => {}
            RowKind::Never => tree = Tree::Bottom,
            RowKind::Row(row) => tree = Tree::branch(alloc, row, tree, Tree::Bottom)?,
        }
    }
    Ok(tree)
}
