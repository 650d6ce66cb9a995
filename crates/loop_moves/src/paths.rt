//! The paths from the head of a loop to the next.
use crate::cases::{Value, have_rows};
use crate::loops::Question;
use crate::moves::{Move, Target, add, add_through, through, unchanged};
use crate::search::Search;
use crate::stop::Stop;
use backward_sweeps::tree_at;
use control_flow::{Choice, Transition};
use decision_tree::{AffineRank, Tree};
use linear_cons::{Affine, Linear, PLACES, Row, Rows};
use std::alloc::{AllocError, Global};

/// The most paths from one head, and the most that are open at once.
const MOST_PATHS: usize = 64;

/// The most labels that the paths from one head pass.
const MOST_LABELS: u32 = 65_536;

/// The most nodes of a tree of the goal, or of what is to be kept, that is entered.
const MOST_NODES: u64 = 256;

/// Where a path is, and what it has made of the store.
#[derive(Drop)]
struct Stand {
    at: u32,
    after: Vec<Affine>,
    steps: u32,
    /// How many of the steps choose among numbers without a bound.
    jumps: u32,
    /// The next place for a number that is chosen.
    free: u8,
}

/// A path so far, and where it is taken.
#[derive(Drop)]
struct Path {
    rows: Vec<Row>,
    stand: Stand,
}

/// The paths that are to be made longer, and the moves of those that have ended.
#[derive(Drop)]
struct Paths {
    open: Vec<Path>,
    moves: Vec<Move>,
}

/// Rows under which a tree has one leaf.
#[derive(Drop)]
pub(crate) struct Region {
    pub(crate) rows: Vec<Row>,
    pub(crate) is_claimed: bool,
}

impl Stand {
    /// The same once more.
    fn twin(&self, alloc: Global) -> Result<Stand, AllocError> {
        Ok(Stand {
            at: self.at,
            after: self.after.to_vec(alloc)?,
            steps: self.steps,
            jumps: self.jumps,
            free: self.free,
        })
    }

    /// The same, one step on at the label.
    fn next(&self, alloc: Global, to: u32) -> Result<Stand, AllocError> {
        let mut next = self.twin(alloc)?;
        next.step_to(to);
        Ok(next)
    }

    /// Goes one step on to the label.
    fn step_to(&mut self, to: u32) {
        self.at = to;
        self.steps = self.steps.saturating_add(1);
    }
}

impl Paths {
    /// Ends the path.
    fn end(&mut self, rows: Vec<Row>, stand: Stand, to: Target) -> Result<(), Stop> {
        self.moves.push(Move {
            to,
            rows,
            after: stand.after,
            steps: stand.steps,
            jumps: stand.jumps,
        })?;
        Ok(())
    }

    /// Leaves the path to be made longer.
    fn go_on(&mut self, rows: Vec<Row>, stand: Stand) -> Result<(), Stop> {
        self.open.push(Path { rows, stand })?;
        Ok(())
    }
}

impl<'a> Question<'a> {
    /// The moves from the head, whose stores meet the rows.
    pub(crate) fn moves(
        &self,
        search: &mut Search,
        head: u32,
        rows: &[Row],
    ) -> Result<Vec<Move>, Stop> {
        let alloc = search.alloc;
        let mut paths = Paths {
            open: Vec::new(alloc),
            moves: Vec::new(alloc),
        };
        let stand = Stand {
            at: head,
            after: unchanged(alloc, self.variables)?,
            steps: 0,
            jumps: 0,
            free: self.variables.min(16) as u8,
        };
        paths.go_on(rows.to_vec(alloc)?, stand)?;
        for _ in 0..MOST_LABELS {
            let Some(path) = paths.open.pop() else {
                return Ok(paths.moves);
            };
            self.lengthen(search, path, &mut paths)?;
            if paths.open.len() > MOST_PATHS || paths.moves.len() > MOST_PATHS {
                return Err(Stop::GivenUp);
            }
        }
        Err(Stop::GivenUp)
    }

    /// Whether the label is the head of a loop.
    fn is_head(&self, label: u32) -> bool {
        matches!(
            self.transitions.get(label as usize),
            Some(Transition::Test { is_head: true, .. })
        )
    }

    /// Ends the path where it is at a head or the goal holds, and else makes it a step longer.
    fn lengthen(&self, search: &mut Search, path: Path, paths: &mut Paths) -> Result<(), Stop> {
        let Path { rows, stand } = path;
        if stand.steps > 0 && self.is_head(stand.at) {
            let to = Target::Head(stand.at);
            return paths.end(rows, stand, to);
        }
        let none = Tree::Bottom;
        let goal = tree_at(self.operands.goal, stand.at, &none);
        for region in regions(search, goal, &stand.after, rows)? {
            let twin = stand.twin(search.alloc)?;
            if region.is_claimed {
                paths.end(region.rows, twin, Target::Goal)?;
            } else {
                self.keep(search, region.rows, twin, paths)?;
            }
        }
        Ok(())
    }

    /// Goes on where what is to be kept holds.
    fn keep(
        &self,
        search: &mut Search,
        rows: Vec<Row>,
        stand: Stand,
        paths: &mut Paths,
    ) -> Result<(), Stop> {
        let none = Tree::Bottom;
        let keep = tree_at(self.operands.keep, stand.at, &none);
        for region in regions(search, keep, &stand.after, rows)? {
            let twin = stand.twin(search.alloc)?;
            if region.is_claimed {
                self.step(search, region.rows, twin, paths)?;
            } else {
                paths.end(region.rows, twin, Target::Fault)?;
            }
        }
        Ok(())
    }

    /// Does what is done at the label.
    fn step(
        &self,
        search: &mut Search,
        rows: Vec<Row>,
        stand: Stand,
        paths: &mut Paths,
    ) -> Result<(), Stop> {
        let Some(transition) = self.transitions.get(stand.at as usize) else {
            return Ok(());
        };
        match transition {
            Transition::End => paths.end(rows, stand, self.at_end()),
            Transition::Dead => Ok(()),
            Transition::Pass { to } => pass(rows, stand, *to, paths),
            Transition::Assign { place, value, to } => {
                assign(rows, stand, place.number, value, *to, paths)
            }
            Transition::Choose {
                place,
                cases,
                to,
                ..
            } if have_rows(cases) => {
                choose_cases(search, &rows, &stand, place.number, cases, *to, paths)
            }
            Transition::Choose {
                place,
                range,
                choice,
                to,
                ..
            } => self.choose_one(rows, stand, place.number, range, *choice, *to, paths),
            Transition::Test { .. } => self.test(search, &rows, &stand, transition, paths),
        }
    }

    /// Makes the path one step longer over the choice of a number of the range.
    fn choose_one(
        &self,
        mut rows: Vec<Row>,
        mut stand: Stand,
        place: u8,
        range: &Linear,
        choice: Choice,
        to: u32,
        paths: &mut Paths,
    ) -> Result<(), Stop> {
        stand.step_to(to);
        let chosen = match self.picked_end(choice) {
            Some(end) => Affine::constant(i128::from(end)),
            None => {
                if has_no_bound(choice) {
                    stand.jumps = stand.jumps.saturating_add(1);
                }
                choose(&mut rows, &mut stand, 1, range)?
            }
        };
        put(&mut stand.after, place, chosen);
        paths.go_on(rows, stand)
    }

    /// Opens the paths behind the outcomes of a test, or behind the one that is picked.
    fn test(
        &self,
        search: &mut Search,
        rows: &[Row],
        stand: &Stand,
        transition: &Transition,
        paths: &mut Paths,
    ) -> Result<(), Stop> {
        let Transition::Test {
            is_head: _,
            choice,
            holds,
            fails,
            yes,
            no,
        } = transition
        else {
            return Ok(());
        };
        let picked = self.picked_outcome(*choice);
        if picked != Some(false) {
            branch(search, rows, stand, holds, *yes, paths)?;
        }
        if picked != Some(true) {
            branch(search, rows, stand, fails, *no, paths)?;
        }
        Ok(())
    }

    /// What the end of the program is, where the goal doesn't hold and what is to be kept does.
    fn at_end(&self) -> Target {
        if self.is_weak {
            Target::Goal
        } else {
            Target::Fault
        }
    }
}

/// Makes the path one step longer where nothing is done.
fn pass(rows: Vec<Row>, mut stand: Stand, to: u32, paths: &mut Paths) -> Result<(), Stop> {
    stand.step_to(to);
    paths.go_on(rows, stand)
}

/// Makes the path one step longer over the assignment of the function.
fn assign(
    rows: Vec<Row>,
    mut stand: Stand,
    place: u8,
    value: &Affine,
    to: u32,
    paths: &mut Paths,
) -> Result<(), Stop> {
    let value = through(value, &stand.after)?;
    stand.step_to(to);
    put(&mut stand.after, place, value);
    paths.go_on(rows, stand)
}

/// Opens the paths behind an outcome of a test.
fn branch(
    search: &mut Search,
    rows: &[Row],
    stand: &Stand,
    outcome: &[Rows],
    to: u32,
    paths: &mut Paths,
) -> Result<(), Stop> {
    for conjunction in outcome {
        let mut more = rows.to_vec(search.alloc)?;
        if add_through(&mut more, conjunction.items(), &stand.after)? {
            if let Some(rows) = search.met(more)? {
                let stand = stand.next(search.alloc, to)?;
                paths.go_on(rows, stand)?;
            }
        }
    }
    Ok(())
}

/// The rows parted by the leaves of the tree, which is over the store behind.
pub(crate) fn regions(
    search: &mut Search,
    tree: &Tree<AffineRank>,
    after: &[Affine],
    rows: Vec<Row>,
) -> Result<Vec<Region>, Stop> {
    if tree.size() > MOST_NODES {
        return Err(Stop::GivenUp);
    }
    let mut found = Vec::new(search.alloc);
    part(search, tree, after, rows, &mut found)?;
    Ok(found)
}

/// Adds the regions of the tree.
#[cycle(parted)]
fn part(
    search: &mut Search,
    tree: &Tree<AffineRank>,
    after: &[Affine],
    rows: Vec<Row>,
    found: &mut Vec<Region>,
) -> Result<(), Stop> {
    match tree {
        Tree::Node { row, yes, no } => {
            let other = row.not()?;
            side(search, yes, row, after, &rows, found)?;
            side(search, no, &other, after, &rows, found)
        }
        Tree::Leaf { .. } | Tree::Bottom | Tree::Top(_) => {
            found.push(Region {
                rows,
                is_claimed: matches!(tree, Tree::Leaf { .. }),
            })?;
            Ok(())
        }
    }
}

/// Adds the regions of a side, under its row.
#[cycle(parted)]
fn side(
    search: &mut Search,
    tree: &Tree<AffineRank>,
    row: &Row,
    after: &[Affine],
    rows: &[Row],
    found: &mut Vec<Region>,
) -> Result<(), Stop> {
    let mut more = rows.to_vec(search.alloc)?;
    if add(&mut more, &through(&row.affine, after)?)? {
        if let Some(more) = search.met(more)? {
            part(search, tree, after, more, found)?;
        }
    }
    Ok(())
}

/// Whether it is a choice among the numbers of a range without a least or a greatest one.
fn has_no_bound(choice: Choice) -> bool {
    matches!(
        choice,
        Choice::Range { lo: None, .. } | Choice::Range { hi: None, .. }
    )
}

/// Gives the variable at the place the value.
fn put(after: &mut [Affine], place: u8, value: Affine) {
    if let Some(own) = after.get_mut(place as usize) {
        *own = value;
    }
}

/// Opens the paths behind the assignment of a value that has the cases.
fn choose_cases(
    search: &mut Search,
    rows: &[Row],
    stand: &Stand,
    place: u8,
    cases: &[Rows],
    to: u32,
    paths: &mut Paths,
) -> Result<(), Stop> {
    for case in cases {
        let value = Value::of(search.alloc, case)?;
        let mut more = rows.to_vec(search.alloc)?;
        if add_through(&mut more, &value.guards, &stand.after)? {
            let mut next = stand.next(search.alloc, to)?;
            let chosen = choose_case(&mut more, &mut next, &value)?;
            put(&mut next.after, place, chosen);
            if let Some(rows) = search.met(more)? {
                paths.go_on(rows, next)?;
            }
        }
    }
    Ok(())
}

/// The value of the case: that of its function, or a number at the next free place with the rows that it meets.
fn choose_case(rows: &mut Vec<Row>, stand: &mut Stand, value: &Value) -> Result<Affine, Stop> {
    match value.function() {
        Some(function) => Ok(through(function, &stand.after)?),
        None => choose(rows, stand, value.times, &value.form),
    }
}

/// A number at the next free place, with the rows by which so many times it lies between the ends of the form.
fn choose(
    rows: &mut Vec<Row>,
    stand: &mut Stand,
    times: i128,
    form: &Linear,
) -> Result<Affine, Stop> {
    if stand.free as usize >= PLACES {
        return Err(Stop::GivenUp);
    }
    let chosen = Affine::var(stand.free);
    let value = through(&form.affine, &stand.after)?;
    add_between(rows, &chosen.scale(times)?, &value, form)?;
    stand.free = stand.free.saturating_add(1);
    Ok(chosen)
}

/// Adds the rows by which the function lies between the ends of the form, whose function is the value behind the path.
fn add_between(
    rows: &mut Vec<Row>,
    function: &Affine,
    value: &Affine,
    form: &Linear,
) -> Result<(), Stop> {
    if let Some(lo) = form.lo {
        add(rows, &function.sub(&value.plus(lo)?)?)?;
    }
    if let Some(hi) = form.hi {
        add(rows, &value.plus(hi)?.sub(function)?)?;
    }
    Ok(())
}
