//! What a walk over a tree has on its stack.
ghost use Rattle.std.specs.Prelude.{◌≡◌, ℕ, ◌<◌, ◌≤◌, List, [], ◌∷◌, ◌++◌, IfOk, OnErr, OnOk};
ghost use Rattle.linear_cons.specs.Exact.{IsOutside};
ghost use Rattle.linear_cons.specs.Functions.{NumbersFit, complement_of};
ghost use Rattle.linear_cons.specs.Rows.{complement};
ghost use Rattle.linear_cons.specs.Settling.{settles};
ghost use Rattle.linear_cons.specs.declared.exact.Wide.{Wide};
ghost use Rattle.linear_cons.specs.declared.row.Row.{Row};
ghost use Rattle.decision_tree.specs.Equality.{same_plan};
ghost use Rattle.decision_tree.specs.Nodes.{node};
ghost use Rattle.decision_tree.specs.Plans.{plan_of, size_of};
ghost use Rattle.tree_unify.specs.Builds.{Builds, given};
ghost use Rattle.tree_unify.specs.declared.fault.TreeFault.TheVariants.{Full, Wide as TooWide};

use crate::fault::TreeFault;
use decision_tree::{MOST_NODES, PathFault, Rank, Shared, Trail, Tree};
use linear_cons::Row;
use std::alloc::{AllocError, Global};

/// A walk: the rows on its way, the size of the part that was made last, and why it stopped, where it
/// did. They stand here so that a recursion along a tree hands on references and boxes alone, and a level
/// of it takes a few words of stack.
#[derive(Drop)]
pub struct Walk {
    pub trail: Trail,
    pub size: u64,
    pub fault: TreeFault,
}

/// The walk stopped, and knows the fault. It has no field, so that a box or this is one word.
#[derive(Clone, Copy)]
pub struct Stopped;

impl Walk {
    /// A walk at the root of a tree.
    pub fn new(alloc: Global) -> Walk
        ensures { result.trail ≡ [] }
    {
        Walk {
            trail: Trail::new(alloc),
            size: 0,
            fault: TreeFault::Memory(AllocError),
        }
    }

    /// Stops with the fault.
    #[inline(never)]
    pub fn stop(&mut self, fault: TreeFault) -> Stopped
        ensures fault { self.new.fault ≡ fault }
        ensures trail { self.new.trail ≡ self.old.trail }
    {
        self.fault = fault;
        Stopped
    }

    /// Stops at a tree with more nodes than there may be.
    #[inline(never)]
    fn too_many(&mut self) -> Stopped
        ensures full { (count : ℕ) → self.new.fault ≡ Full count → 65536 < count }
        ensures wide { (w : Wide) → self.new.fault ≡ TooWide w → ⊥ }
        ensures trail { self.new.trail ≡ self.old.trail }
    {
        self.stop(TreeFault::Full {
            count: MOST_NODES + 1,
        })
    }

    /// Whether the rows of the way settle the row of a node.
    #[inline(never)]
    pub fn settles(&self, row: &Shared<Row>) -> Option<bool>
        ensures { result ≡ settles self.now.trail row.now }
    {
        self.trail.settles(row)
    }

    /// Goes down to the yes side of a node with the row.
    #[inline(never)]
    pub fn down(&mut self, row: &Shared<Row>) -> Result<(), Stopped>
        ensures down { OnOk result (self.new.trail ≡ self.old.trail ++ row.now ∷ []) }
        ensures full { OnErr result ((count : ℕ) → self.new.fault ≡ Full count → ⊥) }
        ensures wide { OnErr result ((w : Wide) → self.new.fault ≡ TooWide w → ⊥) }
    {
        self.down_by(row)?;
        Ok(())
    }

    /// The same, with a row that no tree holds.
    #[inline(never)]
    pub fn down_by(&mut self, row: &Row) -> Result<(), Stopped>
        ensures down { OnOk result (self.new.trail ≡ self.old.trail ++ row.now ∷ []) }
        ensures full { OnErr result ((count : ℕ) → self.new.fault ≡ Full count → ⊥) }
        ensures wide { OnErr result ((w : Wide) → self.new.fault ≡ TooWide w → ⊥) }
    {
        match self.trail.down(row) {
            Ok(()) => Ok(()),
            Err(error) => Err(self.stop(TreeFault::Memory(error))),
        }
    }

    /// Goes down to the no side of a node with the row.
    #[inline(never)]
    pub fn down_no(&mut self, row: &Shared<Row>) -> Result<(), Stopped>
        ensures down { OnOk result (self.new.trail ≡ self.old.trail ++ complement row.now ∷ []) }
        ensures fits { OnOk result (NumbersFit (complement_of row.now.affine)) }
        ensures wide { OnErr result ((w : Wide) → self.new.fault ≡ TooWide w → NumbersFit (complement_of row.now.affine) → ⊥) }
        ensures operands { OnErr result ((w : Wide) → self.new.fault ≡ TooWide w → IsOutside w) }
        ensures full { OnErr result ((count : ℕ) → self.new.fault ≡ Full count → ⊥) }
    {
        match row.not() {
            Ok(complement) => {
                self.down_by(&complement)?;
                Ok(())
            }
            Err(wide) => Err(self.stop(TreeFault::Wide(wide))),
        }
    }

    /// Goes over from the yes side of a node with the row to its no side.
    #[inline(never)]
    pub fn turn(&mut self) -> Result<(), Stopped>
        ensures turned { OnOk result ((front : List Row) (row : Row) → self.old.trail ≡ front ++ row ∷ []
            → self.new.trail ≡ front ++ complement row ∷ []) }
        ensures fits { OnOk result ((front : List Row) (row : Row) → self.old.trail ≡ front ++ row ∷ []
            → NumbersFit (complement_of row.affine)) }
        ensures wide { OnErr result ((w : Wide) → self.new.fault ≡ TooWide w → (front : List Row) (row : Row)
            → self.old.trail ≡ front ++ row ∷ [] → NumbersFit (complement_of row.affine) → ⊥) }
        ensures operands { OnErr result ((w : Wide) → self.new.fault ≡ TooWide w → IsOutside w) }
        ensures full { OnErr result ((count : ℕ) → self.new.fault ≡ Full count → ⊥) }
    {
        match self.trail.turn() {
            Ok(()) => Ok(()),
            Err(PathFault::Wide(wide)) => Err(self.stop(TreeFault::Wide(wide))),
            Err(PathFault::Memory(error)) => Err(self.stop(TreeFault::Memory(error))),
        }
    }

    /// Goes over from the no side of a node with the row to its yes side. The part that is made is handed
    /// through.
    #[inline(never)]
    pub fn turn_back<R: Rank>(
        &mut self,
        row: &Shared<Row>,
        made: Box<Tree<R>>,
    ) -> Result<Box<Tree<R>>, Stopped>
        ensures tree { IfOk result (λ kept. plan_of kept.value ≡ plan_of made.value) }
        ensures turned { OnOk result ((front : List Row) (last : Row) → self.old.trail ≡ front ++ last ∷ []
            → self.new.trail ≡ front ++ row.now ∷ []) }
        ensures full { OnErr result ((count : ℕ) → self.new.fault ≡ Full count → ⊥) }
        ensures wide { OnErr result ((w : Wide) → self.new.fault ≡ TooWide w → ⊥) }
    {
        self.trail.up();
        self.down(row)?;
        Ok(made)
    }

    /// The tree, and its size is known; or it has too many nodes.
    #[inline(never)]
    pub fn measured<R: Rank>(&mut self, tree: Box<Tree<R>>) -> Result<Box<Tree<R>>, Stopped>
        ensures { Builds (given (plan_of tree.value)) self.old self.new result }
    {
        let size = tree.size();
        if size > MOST_NODES {
            return Err(self.too_many());
        }
        self.size = size;
        Ok(tree)
    }

    /// A copy of the tree, and its size is known; or it has too many nodes.
    #[inline(never)]
    pub fn copied<R: Rank>(
        &mut self,
        alloc: Global,
        tree: &Tree<R>,
    ) -> Result<Box<Tree<R>>, Stopped>
        ensures { Builds (given (plan_of tree.now)) self.old self.new result }
    {
        match tree.boxed(alloc) {
            Ok(twin) => self.measured(twin),
            Err(error) => Err(self.stop(TreeFault::Memory(error))),
        }
    }

    /// The yes side where both sides are equal, else the tree with the row at its root. The no side was
    /// made last.
    #[inline(never)]
    pub fn join_sides<R: Rank>(
        &mut self,
        alloc: Global,
        row: &Shared<Row>,
        yes: Box<Tree<R>>,
        no: Box<Tree<R>>,
        yes_size: u64,
    ) -> Result<Box<Tree<R>>, Stopped>
        requires yes { (yes_size ≡ size_of (plan_of yes.value)) × (yes_size ≤ 65536) }
        requires no { (self.old.size ≡ size_of (plan_of no.value)) × (self.old.size ≤ 65536) }
        ensures { Builds (given (node R.eq row.now (plan_of yes.value) (plan_of no.value))) self.old self.new result }
    {
        if are_equal(&yes, &no, yes_size, self.size) {
            self.size = yes_size;
            return Ok(yes);
        }
        let size = yes_size + self.size + 1;
        if size > MOST_NODES {
            return Err(self.too_many());
        }
        self.size = size;
        match Tree::shared_branch(alloc, row, yes, no) {
            Ok(tree) => Ok(tree),
            Err(error) => Err(self.stop(TreeFault::Memory(error))),
        }
    }

    /// The same, with a row that is new.
    #[inline(never)]
    pub fn join_by<R: Rank>(
        &mut self,
        alloc: Global,
        row: &Row,
        yes: Box<Tree<R>>,
        no: Box<Tree<R>>,
        yes_size: u64,
    ) -> Result<Box<Tree<R>>, Stopped>
        requires yes { (yes_size ≡ size_of (plan_of yes.value)) × (yes_size ≤ 65536) }
        requires no { (self.old.size ≡ size_of (plan_of no.value)) × (self.old.size ≤ 65536) }
        ensures { Builds (given (node R.eq row.now (plan_of yes.value) (plan_of no.value))) self.old self.new result }
    {
        match Shared::new(alloc, *row) {
            Ok(row) => self.join_sides(alloc, &row, yes, no, yes_size),
            Err(error) => Err(self.stop(TreeFault::Memory(error))),
        }
    }

    /// The same, where the yes side was made last.
    #[inline(never)]
    pub fn join_last<R: Rank>(
        &mut self,
        alloc: Global,
        row: &Shared<Row>,
        yes: Box<Tree<R>>,
        no: Box<Tree<R>>,
        no_size: u64,
    ) -> Result<Box<Tree<R>>, Stopped>
        requires yes { (self.old.size ≡ size_of (plan_of yes.value)) × (self.old.size ≤ 65536) }
        requires no { (no_size ≡ size_of (plan_of no.value)) × (no_size ≤ 65536) }
        ensures { Builds (given (node R.eq row.now (plan_of yes.value) (plan_of no.value))) self.old self.new result }
    {
        let yes_size = self.size;
        self.size = no_size;
        self.join_sides(alloc, row, yes, no, yes_size)
    }
}

/// Whether the trees of these sizes are equal; their sizes are compared first.
fn are_equal<R: Rank>(tree: &Tree<R>, other: &Tree<R>, size: u64, other_size: u64) -> bool
    requires { (size ≡ size_of (plan_of tree.now)) × (other_size ≡ size_of (plan_of other.now)) }
    ensures { result ≡ same_plan R.eq (plan_of tree.now) (plan_of other.now) }
{
    if size != other_size {
        return false;
    }
    *tree == *other
}
