//! Values that have cases, and trees moved back over their assignment.
ghost use Rattle.std.specs.Prelude.{◌<◌};

use backward_transfer::{back_assign, back_range};
use control_flow::CHOSEN_PLACE;
use decision_tree::{AffineRank, HeldWhy, Rank, Tree};
use linear_cons::{
    Affine, Linear, Row, RowKind, Rows, Wide, common_divisor, floor_quotient, settles,
};
use std::alloc::{AllocError, Global};
use tree_unify::{TreeFault, later, trim};

/// The most rows that are asked on all ways to the cases of one value.
const MOST_ASKED: u32 = 256;

/// The most nodes of a tree.
const MOST_NODES: u64 = 65_536;

/// A rank that can be said of a multiple of a variable.
pub trait Rescaled: Rank {
    /// A rank that is at least this one, where it is a natural and the variable at the place stands for so many times what it stood for.
    fn of_multiple(&self, place: u8, times: i128) -> Result<Self, Wide>
        requires { place < 16 };
}

impl Rescaled for AffineRank {
    fn of_multiple(&self, place: u8, times: i128) -> Result<AffineRank, Wide> {
        Ok(AffineRank {
            value: function_of_multiple(&self.value, place, times)?,
        })
    }
}

/// A positive multiple of the function where the variable at the place stands for so many times what it stood for, the least with whole coefficients.
pub fn function_of_multiple(function: &Affine, place: u8, times: i128) -> Result<Affine, Wide>
    requires { place < 16 }
{
    let own = function.coef[place as usize];
    if own == 0 {
        return Ok(*function);
    }
    let mut more = function.scale(times)?;
    more.coef[place as usize] = own;
    let mut divisor = times.unsigned_abs();
    for number in &more.coef {
        divisor = common_divisor(number.unsigned_abs(), divisor);
    }
    if divisor > 1 {
        for number in more.coef.iter_mut() {
            *number = floor_quotient(*number, divisor);
        }
        more.constant = floor_quotient(more.constant, divisor);
    }
    Ok(more)
}

/// What a case says of a value: the rows that the store meets, and that so many times the value lies between the ends of the form.
#[derive(Drop)]
pub(crate) struct Value {
    pub(crate) guards: Vec<Row>,
    pub(crate) times: i128,
    pub(crate) form: Linear,
}

/// Whether the conjunctions say anything of the value.
pub fn have_rows(cases: &[Rows]) -> bool {
    cases.len() != 1 || cases.iter().any(|case| !case.items().is_empty())
}

/// By how much the rows of a case multiply the value.
pub(crate) fn times_of(case: &Rows) -> i128 {
    let mut times = 1;
    for row in case.items() {
        let own = chosen_part(row);
        if own != 0 {
            times = own.saturating_abs();
        }
    }
    times
}

/// The coefficient of the value in the row.
fn chosen_part(row: &Row) -> i128 {
    row.affine
        .coef
        .get(CHOSEN_PLACE as usize)
        .copied()
        .unwrap_or(0)
}

/// The row's function without the value, times the number.
fn store_part(row: &Row, times: i128) -> Option<Affine> {
    let mut function = row.affine;
    if let Some(own) = function.coef.get_mut(CHOSEN_PLACE as usize) {
        *own = 0;
    }
    function.scale(times).ok()
}

impl Value {
    /// What the rows of the case say, as far as numbers fit `i128`. A second end on the same side, or one of another multiple, is left out.
    pub(crate) fn of(alloc: Global, case: &Rows) -> Result<Value, AllocError> {
        let times = times_of(case);
        let mut guards = Vec::new(alloc);
        let mut least = None;
        let mut greatest = None;
        for row in case.items() {
            let own = chosen_part(row);
            if own == 0 {
                guards.push(*row)?;
            } else if own == times {
                least = store_part(row, -1);
            } else {
                greatest = store_part(row, 1);
            }
        }
        Ok(Value {
            guards,
            times,
            form: between(least, greatest),
        })
    }

    /// The function whose value it is, where it is that of one.
    pub(crate) fn function(&self) -> Option<&Affine> {
        if self.times == 1 && self.form.lo == Some(0) && self.form.hi == Some(0) {
            Some(&self.form.affine)
        } else {
            None
        }
    }
}

/// The form of the numbers from the one function to the other; the second counts where it has the coefficients of the first.
fn between(least: Option<Affine>, greatest: Option<Affine>) -> Linear {
    match (least, greatest) {
        (Some(least), Some(greatest)) => Linear {
            affine: least,
            lo: Some(0),
            hi: if least.coef == greatest.coef {
                greatest.constant.checked_sub(least.constant)
            } else {
                None
            },
        },
        (Some(affine), None) => Linear {
            affine,
            lo: Some(0),
            hi: None,
        },
        (None, Some(affine)) => Linear {
            affine,
            lo: None,
            hi: Some(0),
        },
        (None, None) => Linear {
            affine: Affine::constant(0),
            lo: None,
            hi: None,
        },
    }
}

/// A case with the tree before it.
#[derive(Drop)]
struct Part<R: Rank> {
    guards: Vec<Row>,
    tree: Tree<R>,
}

/// The ways to the cases.
#[derive(Drop)]
struct Ways<R: Rank> {
    alloc: Global,
    parts: Vec<Part<R>>,
    path: Vec<Row>,
    /// How many rows may still be asked.
    left: u32,
    /// How many nodes there are on the ways so far.
    nodes: u64,
}

/// The tree before a value that has the cases is assigned to the variable at the place, with the tree behind it given: the later of those before each case whose guards
/// are met. Nothing is promised of it: the check decides.
pub fn back_cases<R: Rescaled>(
    alloc: Global,
    tree: &Tree<R>,
    place: u8,
    cases: &[Rows],
) -> Result<Tree<R>, TreeFault>
    requires { place < 16 }
{
    let mut ways = Ways {
        alloc,
        parts: Vec::new(alloc),
        path: Vec::new(alloc),
        left: MOST_ASKED,
        nodes: 0,
    };
    for case in cases {
        let value = Value::of(alloc, case)?;
        let tree = back_case(alloc, tree, place, &value)?;
        ways.add(value.guards, tree)?;
    }
    let joined = ways.joined(MOST_ASKED, 0, 0, &None)?;
    trim(alloc, &joined, &[])
}

/// The tree before a value of the case is assigned to the variable at the place.
fn back_case<R: Rescaled>(
    alloc: Global,
    tree: &Tree<R>,
    place: u8,
    value: &Value,
) -> Result<Tree<R>, TreeFault>
    requires { place < 16 }
{
    match value.function() {
        Some(function) => back_assign(alloc, tree, place, function),
        None if value.times == 1 => back_range(alloc, tree, place, &value.form),
        None => {
            let more = tree_of_multiple(alloc, tree, place, value.times)?;
            back_range(alloc, &more, place, &value.form)
        }
    }
}

/// The tree in which the variable at the place stands for so many times what it stood for.
fn tree_of_multiple<R: Rescaled>(
    alloc: Global,
    tree: &Tree<R>,
    place: u8,
    times: i128,
) -> Result<Box<Tree<R>>, TreeFault>
    requires { place < 16 }
{
    match tree {
        Tree::Bottom => Ok(Tree::boxed_bottom(alloc)?),
        Tree::Top(cause) => Ok(Tree::boxed_top(alloc, cause)?),
        Tree::Leaf { why, rank } => leaf_of_multiple(alloc, why, rank, place, times),
        Tree::Node { row, yes, no } => {
            let first = tree_of_multiple(alloc, yes, place, times)?;
            match tree_of_multiple(alloc, no, place, times) {
                Ok(second) => node_of_multiple(alloc, row, first, second, place, times),
                Err(fault) => {
                    Tree::discard(first);
                    Err(fault)
                }
            }
        }
    }
}

/// The same of a leaf. It stands apart, since `tree_of_multiple` recurs along a tree.
#[inline(never)]
fn leaf_of_multiple<R: Rescaled>(
    alloc: Global,
    why: &HeldWhy,
    rank: &R,
    place: u8,
    times: i128,
) -> Result<Box<Tree<R>>, TreeFault>
    requires { place < 16 }
{
    match rank.of_multiple(place, times) {
        Ok(rank) => Ok(Tree::boxed_leaf(alloc, &why.why(), &rank)?),
        Err(wide) => Err(TreeFault::Wide(wide)),
    }
}

/// The same of a node with these sides. It stands apart, as `leaf_of_multiple` does.
#[inline(never)]
fn node_of_multiple<R: Rank>(
    alloc: Global,
    row: &Row,
    yes: Box<Tree<R>>,
    no: Box<Tree<R>>,
    place: u8,
    times: i128,
) -> Result<Box<Tree<R>>, TreeFault>
    requires { place < 16 }
{
    match function_of_multiple(&row.affine, place, times) {
        Ok(function) => match Row::of(function) {
            RowKind::Always => Ok(yes),
            RowKind::Never => Ok(no),
            RowKind::Row(row) => Ok(Tree::boxed_node(alloc, &row, yes, no)?),
        },
        Err(wide) => Err(TreeFault::Wide(wide)),
    }
}

impl<R: Rank> Ways<R> {
    /// Adds a case.
    fn add(&mut self, guards: Vec<Row>, tree: Tree<R>) -> Result<(), AllocError> {
        self.parts.push(Part { guards, tree })?;
        Ok(())
    }

    /// The tree of the cases from the index on, of whose first the guards before the number are met, with what there is of the cases before, by so many calls at most.
    #[cycle(ways)]
    fn joined(
        &mut self,
        calls: u32,
        index: usize,
        guard: usize,
        before: &Option<Tree<R>>,
    ) -> Result<Tree<R>, TreeFault> {
        let Some(calls) = calls.checked_sub(1) else {
            return Ok(Tree::Bottom);
        };
        let Some(part) = self.parts.get(index) else {
            return self.before(before);
        };
        let Some(row) = part.guards.get(guard) else {
            let both = self.with(index, before)?;
            return self.joined(calls, index.saturating_add(1), 0, &Some(both));
        };
        let row = *row;
        match settles(&self.path, &row) {
            Some(true) => self.joined(calls, index, guard.saturating_add(1), before),
            Some(false) => self.joined(calls, index.saturating_add(1), 0, before),
            None => self.asked(calls, row, index, guard, before),
        }
    }

    /// The same where the guard with the number isn't settled.
    #[cycle(ways)]
    fn asked(
        &mut self,
        calls: u32,
        row: Row,
        index: usize,
        guard: usize,
        before: &Option<Tree<R>>,
    ) -> Result<Tree<R>, TreeFault> {
        if self.left == 0 {
            return Ok(Tree::Bottom);
        }
        self.left = self.left.saturating_sub(1);
        let other = match row.not() {
            Ok(other) => other,
            Err(wide) => return Err(TreeFault::Wide(wide)),
        };
        self.enter(row)?;
        let first = self.joined(calls, index, guard.saturating_add(1), before)?;
        self.path.pop();
        self.enter(other)?;
        let second = self.joined(calls, index.saturating_add(1), 0, before)?;
        self.path.pop();
        let tree = Tree::branch(self.alloc, row, first, second)?;
        Ok(tree)
    }

    /// Goes on where the row is met.
    fn enter(&mut self, row: Row) -> Result<(), AllocError> {
        self.path.push(row)?;
        Ok(())
    }

    /// What there is of the cases before, at the end of a way.
    fn before(&mut self, before: &Option<Tree<R>>) -> Result<Tree<R>, TreeFault> {
        match before {
            Some(tree) => {
                self.nodes = self.nodes.saturating_add(tree.size());
                if self.nodes > MOST_NODES {
                    return Err(TreeFault::Full { count: self.nodes });
                }
                Ok(tree.copy(self.alloc)?)
            }
            None => Ok(Tree::Bottom),
        }
    }

    /// That of the cases before with the case with the index.
    fn with(&self, index: usize, before: &Option<Tree<R>>) -> Result<Tree<R>, TreeFault> {
        match (self.parts.get(index), before) {
            (Some(part), Some(tree)) => later(self.alloc, tree, &part.tree),
            (Some(part), None) => Ok(part.tree.copy(self.alloc)?),
            (None, _) => Ok(Tree::Bottom),
        }
    }
}
