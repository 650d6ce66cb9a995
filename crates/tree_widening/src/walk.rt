//! What a walk over a tree has on its stack.
ghost use Rattle.std.specs.Prelude.{◌≡◌, List, [], ◌∷◌, ◌++◌, IfOk, OnErr, OnOk};
ghost use Rattle.linear_cons.specs.Exact.{IsOutside};
ghost use Rattle.linear_cons.specs.Functions.{NumbersFit, complement_of};
ghost use Rattle.linear_cons.specs.Rows.{complement};
ghost use Rattle.linear_cons.specs.Settling.{settles};
ghost use Rattle.linear_cons.specs.declared.exact.Wide.{Wide};
ghost use Rattle.linear_cons.specs.declared.row.Row.{Row};
ghost use Rattle.decision_tree.specs.Nodes.{node};
ghost use Rattle.decision_tree.specs.Plans.{bottom, leaf, plan_of, top};
ghost use Rattle.decision_tree.specs.declared.path.PathFault.TheVariants.{Wide as TooWide};

use decision_tree::{HeldCause, HeldWhy, PathFault, Rank, Shared, Trail, Tree};
use linear_cons::Row;
use std::alloc::{AllocError, Global};

/// A walk: the rows on its way, and why it stopped, where it did. The fault stands here so that a
/// recursion along a tree hands on references and boxes alone.
#[derive(Drop)]
pub(crate) struct Walk {
    pub(crate) trail: Trail,
    pub(crate) fault: PathFault,
}

/// The walk stopped, and knows the fault. It has no field, so that a box or this is one word.
#[derive(Clone, Copy)]
pub(crate) struct Stopped;

impl Walk {
    /// A walk at the root of a tree.
    pub(crate) fn new(alloc: Global) -> Walk
        ensures { result.trail ≡ [] }
    {
        Walk {
            trail: Trail::new(alloc),
            fault: PathFault::Memory(AllocError),
        }
    }

    /// Stops with the fault.
    #[inline(never)]
    pub(crate) fn stop(&mut self, fault: PathFault) -> Stopped
        ensures fault { self.new.fault ≡ fault }
        ensures trail { self.new.trail ≡ self.old.trail }
    {
        self.fault = fault;
        Stopped
    }

    /// Whether the rows of the way settle the row of a node.
    #[inline(never)]
    pub(crate) fn settles(&self, row: &Shared<Row>) -> Option<bool>
        ensures { result ≡ settles self.now.trail row.now }
    {
        self.trail.settles(row)
    }

    /// Goes down to the yes side of a node with the row.
    #[inline(never)]
    pub(crate) fn down(&mut self, row: &Shared<Row>) -> Result<(), Stopped>
        ensures down { OnOk result (self.new.trail ≡ self.old.trail ++ row.now ∷ []) }
        ensures wide { OnErr result ((w : Wide) → self.new.fault ≡ TooWide w → ⊥) }
    {
        self.down_by(row)?;
        Ok(())
    }

    /// The same, with a row that no tree holds.
    #[inline(never)]
    pub(crate) fn down_by(&mut self, row: &Row) -> Result<(), Stopped>
        ensures down { OnOk result (self.new.trail ≡ self.old.trail ++ row.now ∷ []) }
        ensures wide { OnErr result ((w : Wide) → self.new.fault ≡ TooWide w → ⊥) }
    {
        match self.trail.down(row) {
            Ok(()) => Ok(()),
            Err(error) => Err(self.stop(PathFault::Memory(error))),
        }
    }

    /// Goes over from the yes side of a node with the row to its no side.
    #[inline(never)]
    pub(crate) fn turn(&mut self) -> Result<(), Stopped>
        ensures turned { OnOk result ((front : List Row) (row : Row) → self.old.trail ≡ front ++ row ∷ []
            → self.new.trail ≡ front ++ complement row ∷ []) }
        ensures wide { OnErr result ((w : Wide) → self.new.fault ≡ TooWide w → (front : List Row) (row : Row)
            → self.old.trail ≡ front ++ row ∷ [] → NumbersFit (complement_of row.affine) → ⊥) }
        ensures operands { OnErr result ((w : Wide) → self.new.fault ≡ TooWide w → IsOutside w) }
    {
        match self.trail.turn() {
            Ok(()) => Ok(()),
            Err(fault) => Err(self.stop(fault)),
        }
    }

    /// A claim, with its reason and its rank.
    #[inline(never)]
    pub(crate) fn claim<R: Rank>(
        &mut self,
        alloc: Global,
        why: &HeldWhy,
        rank: &Shared<R>,
    ) -> Result<Box<Tree<R>>, Stopped>
        ensures tree { IfOk result (λ made. plan_of made.value ≡ leaf why.now rank.now) }
        ensures trail { self.new.trail ≡ self.old.trail }
        ensures wide { OnErr result ((w : Wide) → self.new.fault ≡ TooWide w → ⊥) }
    {
        match Tree::shared_leaf(alloc, why, rank) {
            Ok(made) => Ok(made),
            Err(error) => Err(self.stop(PathFault::Memory(error))),
        }
    }

    /// No claim.
    #[inline(never)]
    pub(crate) fn nothing<R: Rank>(&mut self, alloc: Global) -> Result<Box<Tree<R>>, Stopped>
        ensures tree { IfOk result (λ made. plan_of made.value ≡ bottom) }
        ensures trail { self.new.trail ≡ self.old.trail }
        ensures wide { OnErr result ((w : Wide) → self.new.fault ≡ TooWide w → ⊥) }
    {
        match Tree::boxed_bottom(alloc) {
            Ok(made) => Ok(made),
            Err(error) => Err(self.stop(PathFault::Memory(error))),
        }
    }

    /// No claim, given up for the cause.
    #[inline(never)]
    pub(crate) fn given_up<R: Rank>(
        &mut self,
        alloc: Global,
        cause: &HeldCause,
    ) -> Result<Box<Tree<R>>, Stopped>
        ensures tree { IfOk result (λ made. plan_of made.value ≡ top cause.now) }
        ensures trail { self.new.trail ≡ self.old.trail }
        ensures wide { OnErr result ((w : Wide) → self.new.fault ≡ TooWide w → ⊥) }
    {
        match Tree::boxed_top(alloc, cause) {
            Ok(made) => Ok(made),
            Err(error) => Err(self.stop(PathFault::Memory(error))),
        }
    }

    /// A claim of a rank that no tree holds, for a reason that one holds.
    #[inline(never)]
    pub(crate) fn claim_of<R: Rank>(
        &mut self,
        alloc: Global,
        why: &HeldWhy,
        rank: &R,
    ) -> Result<Box<Tree<R>>, Stopped>
        ensures tree { IfOk result (λ made. plan_of made.value ≡ leaf why.now rank.now) }
        ensures trail { self.new.trail ≡ self.old.trail }
        ensures wide { OnErr result ((w : Wide) → self.new.fault ≡ TooWide w → ⊥) }
    {
        match Shared::new(alloc, *rank) {
            Ok(rank) => self.claim(alloc, why, &rank),
            Err(error) => Err(self.stop(PathFault::Memory(error))),
        }
    }

    /// The yes side where both sides are equal, else the tree with the row at its root.
    #[inline(never)]
    pub(crate) fn join_sides<R: Rank>(
        &mut self,
        alloc: Global,
        row: &Shared<Row>,
        yes: Box<Tree<R>>,
        no: Box<Tree<R>>,
    ) -> Result<Box<Tree<R>>, Stopped>
        ensures tree { IfOk result (λ made. plan_of made.value ≡ node R.eq row.now (plan_of yes.value) (plan_of no.value)) }
        ensures trail { self.new.trail ≡ self.old.trail }
        ensures wide { OnErr result ((w : Wide) → self.new.fault ≡ TooWide w → ⊥) }
    {
        match Tree::shared_node(alloc, row, yes, no) {
            Ok(made) => Ok(made),
            Err(error) => Err(self.stop(PathFault::Memory(error))),
        }
    }
}
